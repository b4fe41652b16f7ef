// A refutation that is checked in a graph, entry by entry.
//
// `check_entry` looks for the first bad part of an entry: its sequent and names, its items, and then the branches of its
// decision. `check_decision` walks these with one branch (`KeptBranch`), on which a side is chosen and taken back again, so
// that a spread is never made anew; at its leaves a clash is asked for its cause, and a go for its step, its targets, its
// names (`names`) and its heights. What is found is a `BadPart`, the part's place and the lowest rule that it breaks.
ghost use Rattle.std.specs.Prelude.{◌≡◌, ◌<◌, ◌+◌, ℕ, List, [], length, map, All, IfOk, OnOk};
ghost use Rattle.ml_graph.specs.Graph.{size};
ghost use Rattle.ml_refutation.specs.Acceptance as acceptance;
ghost use Rattle.ml_refutation.specs.Acceptance.{entry_at, parts, LeadsWithinTargets};
ghost use Rattle.ml_refutation.specs.Refutation as plain;
ghost use Rattle.ml_refutation.specs.Refutation.{IsDecided, IsMarkOf};
ghost use Rattle.ml_sequent.specs.Choice.{with_side};
ghost use Rattle.ml_sequent.specs.Spread.{SpreadList, IsOpenOr};
ghost use Rattle.ml_sequent.specs.Step.{IsDiamondOf};
ghost use Rattle.ml_refutation.specs.Views.{decision_of, item_of};
ghost use Rattle.ml_refute_check.specs.Findings.{IsFinding};
ghost use Rattle.ml_refute_check.specs.private.Sources.{StandAmong, RiseByTarget};
ghost use Rattle.ml_refute_check.specs.private.Parts.{Finds, Stands, IsEntryOf, Asks, question, plain_entry, front_parts, branch_parts, count_branches};
ghost use Rattle.ml_refute_check.specs.private.Stepping.{IsStepFrom};

use crate::branches::{heights_fall, mark_priority};
use crate::finding::{BadPart, Fault, Finding};
use crate::names::keeps_names;
use crate::parts::{item_stands, names_stand, starts_well};
use crate::stepping::{KeptBranch, KeptStep};
use ml_base::NoMemory;
use ml_graph::ModalGraph;
use ml_refutation::{Decision, Entry, Refutation};
use ml_sequent::{ClashCause, Side};
use ml_trace::Mark;
use std::alloc::Global;

/// A refutation that is checked in a graph, and the odd priorities of the graph.
#[derive(Drop)]
pub(crate) struct Checker<'a> {
    alloc: Global,
    graph: &'a ModalGraph,
    refutation: &'a Refutation,
    odds: Vec<u32>,
}

impl<'a> Checker<'a> {
    /// The checker of a refutation in a graph.
    pub(crate) fn new(
        alloc: Global,
        graph: &'a ModalGraph,
        refutation: &'a Refutation,
    ) -> Result<Checker<'a>, NoMemory>
        ensures graph { IfOk result (λ checker. checker.graph.now ≡ graph.now) }
        ensures refutation { IfOk result (λ checker. checker.refutation.now ≡ refutation.now) }
        ensures asks { IfOk result (λ checker. Asks checker.graph.now checker.odds.items) }
    {
        graph.keeps();
        let odds = graph.odd_priorities()?;
        Ok(Checker {
            alloc,
            graph,
            refutation,
            odds,
        })
    }

    /// An entry of the refutation.
    fn entry(&self, place: usize) -> &'a Entry
        requires { place < length self.now.refutation.now.entries.items }
        ensures { IsEntryOf (question self.now.graph.now self.now.refutation.now) place (plain_entry self.now.refutation.now result.now) }
    {
        &self.refutation.entries[place]
    }

    /// The sequent of an entry.
    fn sequent(&self, entry: &Entry) -> &'a [u32]
        ensures { result.now ≡ (plain_entry self.now.refutation.now entry.now).sequent }
    {
        self.refutation.sequents.at(entry.sequent)
    }

    /// The first bad part of the entries, which are checked in order on this branch.
    pub(crate) fn check_entries(&self, branch: &mut KeptBranch) -> Result<Finding, NoMemory>
        requires asks { Asks self.now.graph.now self.now.odds.items }
        requires graph { branch.old.on.graph ≡ self.now.graph.now }
        requires sequents { branch.old.sequents ≡ self.now.refutation.now.sequents }
        ensures { IfOk result (IsFinding self.now.graph.now (question self.now.graph.now self.now.refutation.now).refutation) }
    {
        for place in 0..self.refutation.entries.len() {
            match self.check_entry(branch, place)? {
                Some(bad) => return Ok(Finding::Rejected(Fault {
                    entry: place,
                    part: bad.part,
                    rule: bad.rule,
                })),
                None => {}
            }
        }
        Ok(Finding::Accepted)
    }

    /// The first bad part of an entry.
    fn check_entry(
        &self,
        branch: &mut KeptBranch,
        place: usize,
    ) -> Result<Option<BadPart>, NoMemory>
        requires asks { Asks self.now.graph.now self.now.odds.items }
        requires graph { branch.old.on.graph ≡ self.now.graph.now }
        requires sequents { branch.old.sequents ≡ self.now.refutation.now.sequents }
        requires place { place < length self.now.refutation.now.entries.items }
        ensures graph { OnOk result (branch.new.on.graph ≡ branch.old.on.graph) }
        ensures sequents { OnOk result (branch.new.sequents ≡ branch.old.sequents) }
        ensures found { IfOk result (Finds (question self.now.graph.now self.now.refutation.now) place
            (parts (entry_at (question self.now.graph.now self.now.refutation.now).refutation place))) }
    {
        let entry = self.entry(place);
        match self.check_front(place, entry)? {
            Some(bad) => Ok(Some(bad)),
            None => match self.check_tree(branch, place, entry)? {
                Some(bad) => Ok(Some(later(later(bad, entry.items.len())?, 2)?)),
                None => Ok(None),
            },
        }
    }

    /// The first bad one of the parts before the decision.
    fn check_front(&self, place: usize, entry: &Entry) -> Result<Option<BadPart>, NoMemory>
        requires asks { Asks self.now.graph.now self.now.odds.items }
        requires entry { IsEntryOf (question self.now.graph.now self.now.refutation.now) place (plain_entry self.now.refutation.now entry.now) }
        ensures { IfOk result (Finds (question self.now.graph.now self.now.refutation.now) place
            (front_parts (plain_entry self.now.refutation.now entry.now))) }
    {
        if !starts_well(self.graph, self.sequent(entry), place) {
            return Ok(Some(BadPart { part: 0, rule: 2 }));
        }
        if !names_stand(
            self.alloc,
            &self.refutation.stacks,
            entry.live,
            &entry.items,
        )? {
            return Ok(Some(BadPart { part: 1, rule: 3 }));
        }
        match self.check_items(place, entry) {
            Some(bad) => Ok(Some(later(bad, 2)?)),
            None => Ok(None),
        }
    }

    /// The first bad item.
    fn check_items(&self, place: usize, entry: &Entry) -> Option<BadPart>
        requires asks { Asks self.now.graph.now self.now.odds.items }
        requires entry { IsEntryOf (question self.now.graph.now self.now.refutation.now) place (plain_entry self.now.refutation.now entry.now) }
        ensures { Finds (question self.now.graph.now self.now.refutation.now) place
            (map acceptance.Item (map (item_of self.now.refutation.now.stacks) entry.now.items.items)) result }
    {
        for (k, item) in entry.items.iter().enumerate() {
            if !item_stands(self.sequent(entry), &self.odds, item) {
                return Some(BadPart { part: k, rule: 4 });
            }
        }
        None
    }

    /// The first bad branch of the decision of an entry, whose sequent is one of nodes of the graph, and whose items stand
    /// at nodes of it.
    fn check_tree(
        &self,
        branch: &mut KeptBranch,
        place: usize,
        entry: &Entry,
    ) -> Result<Option<BadPart>, NoMemory>
        requires asks { Asks self.now.graph.now self.now.odds.items }
        requires graph { branch.old.on.graph ≡ self.now.graph.now }
        requires entry { IsEntryOf (question self.now.graph.now self.now.refutation.now) place (plain_entry self.now.refutation.now entry.now) }
        requires sequents { branch.old.sequents ≡ self.now.refutation.now.sequents }
        requires low { All (λ n. n < size self.now.graph.now) (plain_entry self.now.refutation.now entry.now).sequent }
        requires items { StandAmong (plain_entry self.now.refutation.now entry.now).sequent entry.now.items.items }
        ensures graph { OnOk result (branch.new.on.graph ≡ branch.old.on.graph) }
        ensures sequents { OnOk result (branch.new.sequents ≡ branch.old.sequents) }
        ensures found { IfOk result (Finds (question self.now.graph.now self.now.refutation.now) place
            (branch_parts [] (decision_of entry.now.decision))) }
    {
        branch.begin(entry.sequent)?;
        self.check_decision(branch, place, entry, &entry.decision)
    }

    /// The first bad branch of a decision on this branch, which is as before then.
    #[cycle(deciding)]
    fn check_decision(
        &self,
        branch: &mut KeptBranch,
        place: usize,
        entry: &Entry,
        decision: &Decision,
    ) -> Result<Option<BadPart>, NoMemory>
        requires asks { Asks self.now.graph.now self.now.odds.items }
        requires graph { branch.old.on.graph ≡ self.now.graph.now }
        requires entry { IsEntryOf (question self.now.graph.now self.now.refutation.now) place (plain_entry self.now.refutation.now entry.now) }
        requires items { StandAmong (plain_entry self.now.refutation.now entry.now).sequent entry.now.items.items }
        requires stands { Stands (question self.now.graph.now self.now.refutation.now) place branch.old.on.sequent branch.old.on.spread }
        requires decided { IsDecided self.now.refutation.now.names
            (length self.now.refutation.now.entries.items) (decision_of decision.now) }
        ensures same { OnOk result (branch.new ≡ branch.old) }
        ensures found { IfOk result (Finds (question self.now.graph.now self.now.refutation.now) place
            (branch_parts branch.old.on.spread.choice (decision_of decision.now))) }
    {
        match decision {
            Decision::Split { node, left, right } => {
                if !branch.is_open_or(*node) {
                    return Ok(Some(BadPart { part: 0, rule: 5 }));
                }
                match self.check_side(branch, place, entry, *node, Side::Left, left)? {
                    Some(bad) => Ok(Some(later(bad, 1)?)),
                    None => match self.check_side(
                        branch,
                        place,
                        entry,
                        *node,
                        Side::Right,
                        right,
                    )? {
                        Some(bad) => Ok(Some(later(later(bad, count_branches(left)?)?, 1)?)),
                        None => Ok(None),
                    },
                }
            }
            Decision::Clash(cause) => self.check_clash(branch, place, *cause),
            Decision::Go {
                diamond,
                entry: target,
                mark,
            } => self.check_go(branch, place, entry, *diamond, *target as usize, *mark),
        }
    }

    /// The first bad branch of one side of a split at an open or-node, which is taken back again.
    #[cycle(deciding)]
    fn check_side(
        &self,
        branch: &mut KeptBranch,
        place: usize,
        entry: &Entry,
        node: u32,
        side: Side,
        decision: &Decision,
    ) -> Result<Option<BadPart>, NoMemory>
        requires asks { Asks self.now.graph.now self.now.odds.items }
        requires graph { branch.old.on.graph ≡ self.now.graph.now }
        requires entry { IsEntryOf (question self.now.graph.now self.now.refutation.now) place (plain_entry self.now.refutation.now entry.now) }
        requires items { StandAmong (plain_entry self.now.refutation.now entry.now).sequent entry.now.items.items }
        requires stands { Stands (question self.now.graph.now self.now.refutation.now) place branch.old.on.sequent branch.old.on.spread }
        requires open { IsOpenOr branch.old.on.graph branch.old.on.spread node }
        requires decided { IsDecided self.now.refutation.now.names
            (length self.now.refutation.now.entries.items) (decision_of decision.now) }
        ensures same { OnOk result (branch.new ≡ branch.old) }
        ensures found { IfOk result (Finds (question self.now.graph.now self.now.refutation.now) place
            (branch_parts (with_side branch.old.on.spread.choice node side) (decision_of decision.now))) }
    {
        branch.choose(node, side)?;
        let found = self.check_decision(branch, place, entry, decision)?;
        branch.undo();
        Ok(found)
    }

    /// Whether a clash is bad at this spread.
    fn check_clash(
        &self,
        branch: &mut KeptBranch,
        place: usize,
        cause: ClashCause,
    ) -> Result<Option<BadPart>, NoMemory>
        requires asks { Asks self.now.graph.now self.now.odds.items }
        requires graph { branch.old.on.graph ≡ self.now.graph.now }
        requires stands { Stands (question self.now.graph.now self.now.refutation.now) place branch.old.on.sequent branch.old.on.spread }
        ensures same { OnOk result (branch.new ≡ branch.old) }
        ensures found { IfOk result (Finds (question self.now.graph.now self.now.refutation.now) place
            (branch_parts branch.old.on.spread.choice (plain.Clash cause))) }
    {
        if branch.is_cause(cause)? {
            Ok(None)
        } else {
            Ok(Some(BadPart { part: 0, rule: 6 }))
        }
    }

    /// Whether leaving the entry along a diamond is bad at this spread, and the lowest rule that it breaks.
    ///
    /// Cost: that of the step (`KeptBranch::take_step`), in which local traces begin at nodes of the entry's items alone;
    /// and of the names of the items behind it (`keeps_names`).
    fn check_go(
        &self,
        branch: &mut KeptBranch,
        place: usize,
        entry: &Entry,
        diamond: u32,
        target: usize,
        mark: Mark,
    ) -> Result<Option<BadPart>, NoMemory>
        requires asks { Asks self.now.graph.now self.now.odds.items }
        requires graph { branch.old.on.graph ≡ self.now.graph.now }
        requires entry { IsEntryOf (question self.now.graph.now self.now.refutation.now) place (plain_entry self.now.refutation.now entry.now) }
        requires items { StandAmong (plain_entry self.now.refutation.now entry.now).sequent entry.now.items.items }
        requires stands { Stands (question self.now.graph.now self.now.refutation.now) place branch.old.on.sequent branch.old.on.spread }
        requires target { target < length self.now.refutation.now.entries.items }
        requires mark { IsMarkOf self.now.refutation.now.names mark }
        ensures same { OnOk result (branch.new ≡ branch.old) }
        ensures found { IfOk result (Finds (question self.now.graph.now self.now.refutation.now) place
            (branch_parts branch.old.on.spread.choice (plain.Go diamond target mark))) }
    {
        if !branch.has_diamond(diamond) {
            return Ok(Some(BadPart { part: 0, rule: 7 }));
        }
        let mut step = branch.take_step(diamond, &entry.items)?;
        let leads = branch.leads_to(&mut step, self.sequent(self.entry(target)))?;
        let found = if leads {
            self.check_step(place, entry, &step, target, mark)
        } else {
            Some(BadPart { part: 0, rule: 8 })
        };
        branch.keep(step);
        Ok(found)
    }

    /// Whether leaving the entry by this step, to an entry with targets of it alone, is bad, and the lowest rule that it
    /// breaks.
    fn check_step(
        &self,
        place: usize,
        entry: &Entry,
        step: &KeptStep,
        target: usize,
        mark: Mark,
    ) -> Option<BadPart>
        requires asks { Asks self.now.graph.now self.now.odds.items }
        requires entry { IsEntryOf (question self.now.graph.now self.now.refutation.now) place (plain_entry self.now.refutation.now entry.now) }
        requires target { target < length self.now.refutation.now.entries.items }
        requires mark { IsMarkOf self.now.refutation.now.names mark }
        requires sources { StandAmong step.now.sources entry.now.items.items }
        requires rise { RiseByTarget step.now.traces.items }
        ensures { (nodes : List ℕ) (sp : SpreadList)
            → Stands (question self.now.graph.now self.now.refutation.now) place nodes sp
            → IsDiamondOf self.now.graph.now sp step.now.diamond
            → LeadsWithinTargets (entry_at (question self.now.graph.now self.now.refutation.now).refutation place).sequent sp.choice
            step.now.diamond (entry_at (question self.now.graph.now self.now.refutation.now).refutation target).sequent self.now.graph.now
            → IsStepFrom self.now.graph.now nodes sp step.now
            → Finds (question self.now.graph.now self.now.refutation.now) place
            (branch_parts sp.choice (plain.Go step.now.diamond target mark)) result }
    {
        let behind = self.entry(target);
        if !keeps_names(
            &self.refutation.stacks,
            &self.odds,
            &step.traces,
            self.sequent(behind),
            mark,
            entry,
            behind,
        ) {
            return Some(BadPart { part: 0, rule: 9 });
        }
        if !heights_fall(
            mark_priority(self.refutation.names, mark),
            &entry.heights,
            &behind.heights,
        ) {
            return Some(BadPart { part: 0, rule: 10 });
        }
        None
    }
}

/// A bad part behind so many others. No memory holds more parts than a number counts.
fn later(bad: BadPart, before: usize) -> Result<BadPart, NoMemory>
    ensures part { IfOk result (λ moved. moved.part ≡ before + bad.part) }
    ensures rule { IfOk result (λ moved. moved.rule ≡ bad.rule) }
{
    match bad.part.checked_add(before) {
        Some(part) => Ok(BadPart {
            part,
            rule: bad.rule,
        }),
        None => Err(NoMemory),
    }
}

/// How many branches a decision has.
fn count_branches(decision: &Decision) -> Result<usize, NoMemory>
    ensures { IfOk result (λ count. count ≡ count_branches (decision_of decision.now)) }
{
    match decision {
        Decision::Split { left, right, .. } => {
            let of_left = count_branches(left)?;
            let of_right = count_branches(right)?;
            sum_after_one(of_left, of_right)
        }
        Decision::Clash(_) | Decision::Go { .. } => Ok(1),
    }
}

/// One more than the sum of two numbers. No memory holds more branches than a number counts.
fn sum_after_one(first: usize, second: usize) -> Result<usize, NoMemory>
    ensures { IfOk result (λ sum. sum ≡ 1 + (first + second)) }
{
    match first.checked_add(second) {
        Some(sum) => match sum.checked_add(1) {
            Some(more) => Ok(more),
            None => Err(NoMemory),
        },
        None => Err(NoMemory),
    }
}
