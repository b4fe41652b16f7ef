// A branch that keeps what was made on it last.
//
// Entries with one sequent begin at one branch, and where each choice on it was taken back it needn't begin anew: two
// entries have one sequent where they name the same place, and else where the lists there are equal. So it is with a step
// along a diamond, up to the next choice or sequent: its local traces, which are made from the nodes of an entry's items
// alone, serve each `go` along it whose items stand at no other nodes. A node to which one of them leads is a target, so all
// targets are looked for, once, only where a `go` asks for another node. Contracts see the branch, and the sequents.
ghost use Rattle.std.specs.Prelude.{◌≡◌, ◌<◌, ◌↔◌, ℕ, List, [], ◌∷◌, All, IfOk, IfSome, OnOk, IsTrue};
ghost use Rattle.ml_graph.specs.Graph.{size};
ghost use Rattle.ml_lists.specs.Ascending.{IsAscending};
ghost use Rattle.ml_refute_check.specs.private.Sources.{StandAmong};
ghost use Rattle.ml_refute_check.specs.private.Stepping.{IsBegun, IsStepOn, AreTargets, list_at};
ghost use Rattle.ml_sequent.specs.Branch.{undone};
ghost use Rattle.ml_sequent.specs.Choice.{with_side};
ghost use Rattle.ml_sequent.specs.Spread.{IsSpread, IsSpreadOf, IsCause, IsOpenOr};
ghost use Rattle.ml_sequent.specs.Step.{IsDiamondOf, IsTarget};

use crate::branches::leads_within;
use crate::by_node::{lead_to_all, sort_by_target};
use crate::parts::stand_among;
use ml_base::NoMemory;
use ml_graph::ModalGraph;
use ml_refutation::{Item, Lists};
use ml_sequent::{Branch, ClashCause, Sequent, Side};
use ml_trace::Triple;
use std::alloc::Global;
use std::marker::Model;

/// The step along a diamond of a branch: its local traces from some nodes of the sequent, sorted by their targets.
#[derive(Drop)]
pub(crate) struct KeptStep {
    pub(crate) diamond: u32,
    /// All targets of the step, if they were looked for.
    pub(crate) targets: Option<Sequent>,
    /// The nodes at which the traces begin.
    pub(crate) sources: Sequent,
    pub(crate) traces: Vec<Triple>,
}

/// A branch of sequents of a refutation, with the step that was made on it last.
#[derive(Drop)]
pub(crate) struct KeptBranch<'a> {
    branch: Branch<'a>,
    sequents: &'a Lists,
    /// The place of the sequent with which it began, if that is known.
    place: Option<usize>,
    last: Option<KeptStep>,
    alloc: Global,
}

impl<'a> Model for KeptBranch<'a> {
    ghost use Rattle.std.specs.Prelude.{IfSome};
    ghost use Rattle.ml_refute_check.specs.private.Stepping.{KeptList, IsBegun, IsStepOn};

    ghost Value = { KeptList };

    ghost view = { λ a. record { on = a.branch; sequents = a.sequents.now } };

    ghost invariant = { λ a. record {
      begun : IfSome a.place (IsBegun a.branch a.sequents.now);
      last : IfSome a.last (IsStepOn a.branch);
    } };
}

impl<'a> KeptBranch<'a> {
    /// A branch in a graph of these sequents, with none of which it has begun.
    pub(crate) fn new(
        alloc: Global,
        graph: &'a ModalGraph,
        sequents: &'a Lists,
    ) -> Result<KeptBranch<'a>, NoMemory>
        ensures graph { IfOk result (λ branch. branch.on.graph ≡ graph.now) }
        ensures sequents { IfOk result (λ branch. branch.sequents ≡ sequents.now) }
    {
        Ok(KeptBranch {
            branch: Branch::new(alloc, graph)?,
            sequents,
            place: None,
            last: None,
            alloc,
        })
    }

    /// Begins with the sequent at a place and no side chosen, anew unless it stands there.
    ///
    /// Cost: constant where it stands there with the sequent at this very place.
    pub(crate) fn begin(&mut self, place: usize) -> Result<(), NoMemory>
        requires low { All (λ n. n < size self.old.on.graph) (list_at self.old.sequents place) }
        requires ascends { IsAscending (list_at self.old.sequents place) }
        ensures graph { self.new.on.graph ≡ self.old.on.graph }
        ensures sequents { self.new.sequents ≡ self.old.sequents }
        ensures sequent { OnOk result (self.new.on.sequent ≡ list_at self.old.sequents place) }
        ensures of { OnOk result (IsSpreadOf self.old.on.graph (list_at self.old.sequents place) [] self.new.on.spread) }
        ensures is_spread { OnOk result (IsSpread self.old.on.graph self.new.on.spread) }
    {
        if self.stands_at(place) {
            self.place = Some(place);
            return Ok(());
        }
        self.place = None;
        self.last = None;
        let sequent = Sequent::of(self.alloc, self.sequents.at(place))?;
        self.branch.begin(sequent)?;
        self.place = Some(place);
        Ok(())
    }

    // is it known that it stands at the beginning, with the sequent at this place?
    fn stands_at(&self, place: usize) -> bool
        ensures { IsTrue result → IsBegun self.now.on self.now.sequents place × (self.now.on.spread.choice ≡ []) }
    {
        match self.place {
            Some(other) => self.branch.choice().is_empty() && self.is_same(other, place),
            None => false,
        }
    }

    // have these places one sequent?
    fn is_same(&self, one: usize, other: usize) -> bool
        ensures { IsTrue result → list_at self.now.sequents one ≡ list_at self.now.sequents other }
    {
        one == other || self.sequents.at(one) == self.sequents.at(other)
    }

    /// Chooses a side, as `Branch::choose` does.
    pub(crate) fn choose(&mut self, node: u32, side: Side) -> Result<(), NoMemory>
        requires spread { IsSpread self.old.on.graph self.old.on.spread }
        requires node { IsOpenOr self.old.on.graph self.old.on.spread node }
        ensures graph { self.new.on.graph ≡ self.old.on.graph }
        ensures sequents { self.new.sequents ≡ self.old.sequents }
        ensures sequent { self.new.on.sequent ≡ self.old.on.sequent }
        ensures before { OnOk result (self.new.on.before ≡ self.old.on.spread ∷ self.old.on.before) }
        ensures of { OnOk result ((C : List ℕ) → IsSpreadOf self.old.on.graph C self.old.on.spread.choice self.old.on.spread
            → IsSpreadOf self.old.on.graph C (with_side self.old.on.spread.choice node side) self.new.on.spread) }
        ensures is_spread { OnOk result (IsSpread self.old.on.graph self.new.on.spread) }
    {
        let place = self.place.take();
        self.last = None;
        self.branch.choose(node, side)?;
        self.place = place;
        Ok(())
    }

    /// Takes back the last choice, if one was made.
    pub(crate) fn undo(&mut self)
        ensures branch { self.new.on ≡ undone self.old.on }
        ensures sequents { self.new.sequents ≡ self.old.sequents }
    {
        self.last = None;
        self.branch.undo();
    }

    /// Is this an or-node of the spread, without a choice?
    pub(crate) fn is_open_or(&self, node: u32) -> bool
        ensures { IsTrue result ↔ IsOpenOr self.now.on.graph self.now.on.spread node }
    {
        self.branch.is_open_or(node)
    }

    /// Is this a diamond of the spread?
    pub(crate) fn has_diamond(&self, node: u32) -> bool
        ensures { IsTrue result ↔ IsDiamondOf self.now.on.graph self.now.on.spread node }
    {
        self.branch.has_diamond(node)
    }

    /// Is this a cause of a clash in the spread?
    pub(crate) fn is_cause(&mut self, cause: ClashCause) -> Result<bool, NoMemory>
        ensures same { self.new ≡ self.old }
        ensures cause { IfOk result (λ b. IsTrue b ↔ IsCause self.old.on.graph self.old.on.spread cause) }
    {
        self.branch.is_cause(cause)
    }

    /// The step along a diamond, with the traces from the nodes of these items at least: the one that is kept, which is
    /// taken, or else one that is made with the traces from these nodes alone.
    ///
    /// Cost: where its diamond is kept and the items stand at its sources, the logarithm of these for each item; else that
    /// of the traces from the nodes of the items.
    pub(crate) fn take_step(&mut self, diamond: u32, items: &[Item]) -> Result<KeptStep, NoMemory>
        requires spread { IsSpreadOf self.old.on.graph self.old.on.sequent self.old.on.spread.choice self.old.on.spread }
        requires diamond { IsDiamondOf self.old.on.graph self.old.on.spread diamond }
        requires items { StandAmong self.old.on.sequent items.now }
        ensures same { self.new ≡ self.old }
        ensures step { IfOk result (IsStepOn self.old.on) }
        ensures diamond { IfOk result (λ step. step.diamond ≡ diamond) }
        ensures sources { IfOk result (λ step. StandAmong step.sources items.now) }
    {
        match self.last.take() {
            Some(last) if last.diamond == diamond => {
                if stand_among(last.sources.values(), items) {
                    return Ok(last);
                }
                self.make_step(diamond, last.targets, items)
            }
            _ => self.make_step(diamond, None, items),
        }
    }

    // the step along a diamond with these targets, if they are known, and with the traces from the nodes of these items
    fn make_step(
        &mut self,
        diamond: u32,
        targets: Option<Sequent>,
        items: &[Item],
    ) -> Result<KeptStep, NoMemory>
        requires spread { IsSpreadOf self.old.on.graph self.old.on.sequent self.old.on.spread.choice self.old.on.spread }
        requires diamond { IsDiamondOf self.old.on.graph self.old.on.spread diamond }
        requires targets { IfSome targets (AreTargets self.old.on.graph self.old.on.spread diamond) }
        requires items { StandAmong self.old.on.sequent items.now }
        ensures same { self.new ≡ self.old }
        ensures step { IfOk result (IsStepOn self.old.on) }
        ensures diamond { IfOk result (λ step. step.diamond ≡ diamond) }
        ensures sources { IfOk result (λ step. StandAmong step.sources items.now) }
    {
        let nodes = items.iter().map(|item| item.node).collect(self.alloc)?;
        let sources = Sequent::of_members(nodes);
        let mut traces = self.branch.traces_from(diamond, sources.values())?;
        sort_by_target(&mut traces);
        Ok(KeptStep {
            diamond,
            targets,
            sources,
            traces,
        })
    }

    /// Are all these nodes targets of a step of this branch? Its targets are looked for, and kept with it, only where no
    /// trace leads to one of the nodes.
    ///
    /// Cost: the logarithm of the traces for each node; where the targets are looked for, linear in the spread.
    pub(crate) fn leads_to(&self, step: &mut KeptStep, nodes: &[u32]) -> Result<bool, NoMemory>
        requires spread { IsSpread self.now.on.graph self.now.on.spread }
        requires diamond { IsDiamondOf self.now.on.graph self.now.on.spread step.old.diamond }
        requires step { IsStepOn self.now.on step.old }
        ensures step { OnOk result (IsStepOn self.now.on step.new) }
        ensures diamond { OnOk result (step.new.diamond ≡ step.old.diamond) }
        ensures sources { OnOk result (step.new.sources ≡ step.old.sources) }
        ensures leads { IfOk result (λ b. IsTrue b
            ↔ All (IsTarget self.now.on.graph self.now.on.spread step.old.diamond) nodes.now) }
    {
        if lead_to_all(&step.traces, nodes) {
            return Ok(true);
        }
        let targets = self.targets(step.diamond, step.targets.take())?;
        let leads = leads_within(targets.values(), nodes);
        step.targets = Some(targets);
        Ok(leads)
    }

    // the targets along a diamond, which may be known
    fn targets(&self, diamond: u32, known: Option<Sequent>) -> Result<Sequent, NoMemory>
        requires spread { IsSpread self.now.on.graph self.now.on.spread }
        requires diamond { IsDiamondOf self.now.on.graph self.now.on.spread diamond }
        requires known { IfSome known (AreTargets self.now.on.graph self.now.on.spread diamond) }
        ensures { IfOk result (AreTargets self.now.on.graph self.now.on.spread diamond) }
    {
        match known {
            Some(targets) => Ok(targets),
            None => self.branch.targets(diamond),
        }
    }

    /// Keeps a step of this branch.
    pub(crate) fn keep(&mut self, step: KeptStep)
        requires { IsStepOn self.old.on step }
        ensures { self.new ≡ self.old }
    {
        self.last = Some(step);
    }
}
