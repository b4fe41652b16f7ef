// A branch of a decision: a sequent, the sides chosen so far, and its spread, which grows with each choice.
ghost use Rattle.std.specs.Prelude.{◌≡◌, ◌<◌, ◌↔◌, ℕ, List, [], ◌∷◌, IfOk, OnOk, IsTrue, MatchOption, All, filter};
ghost use Rattle.ml_graph.specs.Graph.{size, node_at};
ghost use Rattle.ml_lists.specs.Ascending.{IsAscending};
ghost use Rattle.ml_lists.specs.Member.{IsMember};
ghost use Rattle.ml_sequent.specs.Branch.{undone};
ghost use Rattle.ml_sequent.specs.Choice.{with_side};
ghost use Rattle.ml_sequent.specs.Spread.{IsSpread, IsSpreadOf, IsCause, IsOpenOr, IsLeastOpenOr, is_diamond};
ghost use Rattle.ml_sequent.specs.FirstCause.{IsFirstCause};
ghost use Rattle.ml_sequent.specs.Step.{IsDiamondOf, IsTarget, IsTrace, IsStep};
ghost use Rattle.ml_sequent.specs.declared.clashes.ClashCause.{ClashCause};
ghost use Rattle.ml_sequent.specs.declared.clashes.ClashCause.TheVariants.{False, Pair};
ghost use Rattle.ml_trace.specs.declared.letters.Triple.{Triple};

use crate::checking::is_pair;
use crate::choice::{Choice, Side};
use crate::clashes::{ClashCause, is_false};
use crate::descent::Descent;
use crate::extending::child_at;
use crate::growing::{grow, reach_nodes};
use crate::notes::Notes;
use crate::phase::LocalPhase;
use crate::questions::{diamonds_on, is_diamond, is_open};
use crate::sequent::Sequent;
use crate::spreads::Spread;
use crate::stepping::targets_on;
use crate::taken::Taken;
use crate::trail::Trail;
use ml_base::NoMemory;
use ml_graph::ModalGraph;
use ml_trace::{LocalTraces, Triple};
use std::alloc::Global;
use std::marker::Model;

/// A branch of a decision in a graph. Sides are chosen one after the other, and taken back in the reverse order. Contracts
/// see the graph, the sequent, its spread, and the spreads before each choice, the last one first.
///
/// What depends on the graph alone is made once, and the memory of one sequent serves the next.
#[derive(Drop)]
pub struct Branch<'a> {
    phase: LocalPhase<'a>,
    sequent: Sequent,
    choice: Choice,
    trail: Trail,
    taken: Vec<Taken>,
    descent: Descent,
    notes: Notes,
    alloc: Global,
}

impl<'a> Model for Branch<'a> {
    ghost use Rattle.std.specs.Prelude.{reverse};
    ghost use Rattle.ml_sequent.specs.Branch.{BranchList};
    ghost use Rattle.ml_sequent.specs.private.Trails.{HasPlaces, spread_at, earlier};
    ghost use Rattle.ml_sequent.specs.private.Descents.{Falls};
    ghost use Rattle.ml_sequent.specs.private.Notes.{KeepsNotes};

    ghost Value = { BranchList };

    ghost view = { λ a. record {
      graph = a.phase;
      sequent = a.sequent;
      spread = spread_at a.trail.nodes a.choice;
      before = earlier a.trail.nodes a.choice (reverse a.taken.items);
    } };

    ghost invariant = { λ a. record {
      places : HasPlaces a.phase a.trail;
      falls : Falls a.phase a.descent;
      notes : KeepsNotes a.phase a.descent a.choice a.trail.nodes a.notes;
    } };
}

impl<'a> Branch<'a> {
    /// A branch of the sequent of no nodes.
    ///
    /// # Errors
    /// `NoMemory` alone.
    ///
    /// Cost: that of a local phase.
    pub fn new(alloc: Global, graph: &'a ModalGraph) -> Result<Branch<'a>, NoMemory>
        ensures graph { IfOk result (λ branch. branch.graph ≡ graph.now) }
        ensures before { IfOk result (λ branch. branch.before ≡ []) }
    {
        let descent = Descent::of(alloc, graph)?;
        let trail = Trail::new(alloc, graph.size())?;
        let notes = Notes::new(alloc, graph)?;
        let phase = LocalPhase::new(alloc, graph)?;
        Ok(Branch {
            phase,
            sequent: Sequent::empty(alloc),
            choice: Choice::empty(alloc),
            trail,
            taken: Vec::new(alloc),
            descent,
            notes,
            alloc,
        })
    }

    /// Begins anew, with a sequent and no side chosen.
    ///
    /// # Errors
    /// `NoMemory` alone. What was chosen before is taken back even so.
    ///
    /// Cost: linear in the nodes of the spread.
    pub fn begin(&mut self, sequent: Sequent) -> Result<(), NoMemory>
        requires { All (λ n. n < size self.old.graph) sequent }
        ensures graph { self.new.graph ≡ self.old.graph }
        ensures before { self.new.before ≡ [] }
        ensures sequent { OnOk result (self.new.sequent ≡ sequent) }
        ensures of { OnOk result (IsSpreadOf self.old.graph sequent [] self.new.spread) }
        ensures is_spread { OnOk result (IsSpread self.old.graph self.new.spread) }
    {
        let graph = self.phase.graph();
        graph.keeps();
        self.taken.clear();
        self.trail.back_to(0);
        self.notes.cut(0);
        self.choice = Choice::empty(self.alloc);
        self.sequent = sequent;
        reach_nodes(self.sequent.values(), &mut self.trail)?;
        grow(graph, &self.choice, 0, &mut self.trail)
    }

    /// Chooses a side at an open or-node: of each sequent of which the spread is that before, it then is the spread under
    /// the choice with that side.
    ///
    /// # Errors
    /// `NoMemory` alone. The branch is to begin anew then.
    ///
    /// Cost: linear in the nodes that are new and in the sides that were chosen at greater nodes, which move up.
    pub fn choose(&mut self, node: u32, side: Side) -> Result<(), NoMemory>
        requires spread { IsSpread self.old.graph self.old.spread }
        requires node { IsOpenOr self.old.graph self.old.spread node }
        ensures graph { self.new.graph ≡ self.old.graph }
        ensures sequent { self.new.sequent ≡ self.old.sequent }
        ensures before { OnOk result (self.new.before ≡ self.old.spread ∷ self.old.before) }
        ensures of { OnOk result ((C : List ℕ) → IsSpreadOf self.old.graph C self.old.spread.choice self.old.spread
            → IsSpreadOf self.old.graph C (with_side self.old.spread.choice node side) self.new.spread) }
        ensures is_spread { OnOk result (IsSpread self.old.graph self.new.spread) }
    {
        let graph = self.phase.graph();
        graph.keeps();
        let first = self.trail.len();
        let place = self.choice.take(node, side)?;
        self.taken.push(Taken { place, first })?;
        self.trail.reach(child_at(graph, node, side))?;
        grow(graph, &self.choice, first, &mut self.trail)
    }

    /// Takes back the last choice, if one was made.
    ///
    /// Cost: that of the sides that were chosen at greater nodes, which move down.
    pub fn undo(&mut self)
        ensures { self.new ≡ undone self.old }
    {
        if let Some(last) = self.taken.pop() {
            let node = self.choice.leave(last.place);
            self.trail.back_to(last.first);
            self.notes.cut(last.first);
            if let Some(node) = node {
                self.notes.reopen(node);
            }
        }
    }

    /// The sequent.
    pub fn sequent(&self) -> &Sequent
        ensures { result.now ≡ self.now.sequent }
    {
        &self.sequent
    }

    /// The sides that were chosen.
    pub fn choice(&self) -> &Choice
        ensures { result.now ≡ self.now.spread.choice }
    {
        &self.choice
    }

    /// The spread, as a value of one's own.
    ///
    /// # Errors
    /// `NoMemory` alone.
    ///
    /// Cost: `n log n` in its nodes, and linear in the choice.
    pub fn spread(&self) -> Result<Spread, NoMemory>
        ensures { IfOk result (λ spread. spread ≡ self.now.spread) }
    {
        let nodes = self.trail.sorted(self.alloc)?;
        Ok(Spread::of(nodes, self.choice.copy()?))
    }

    /// Is the node in the spread? It may be any number.
    ///
    /// Cost: constant.
    pub fn contains(&self, node: u32) -> bool
        ensures { IsTrue result ↔ IsMember node self.now.spread.nodes }
    {
        self.trail.contains(node)
    }

    /// Is this an or-node of the spread, without a choice? It may be any number.
    ///
    /// Cost: logarithmic in the choice.
    pub fn is_open_or(&self, node: u32) -> bool
        ensures { IsTrue result ↔ IsOpenOr self.now.graph self.now.spread node }
    {
        self.trail.contains(node) && is_open(self.phase.graph(), &self.choice, node)
    }

    /// Is this a diamond of the spread? It may be any number.
    ///
    /// Cost: constant.
    pub fn has_diamond(&self, node: u32) -> bool
        ensures { IsTrue result ↔ IsDiamondOf self.now.graph self.now.spread node }
    {
        self.trail.contains(node) && is_diamond(*self.phase.graph().node(node))
    }

    /// Why the spread clashes: the first cause in the order of variants, and in each by the numbers; `None` exactly
    /// where it doesn't clash.
    ///
    /// # Errors
    /// `NoMemory` alone.
    ///
    /// Cost: linear in the nodes that are new since this or another question was asked. Where the spread clashes, or
    /// has a node of odd priority that may lie on a closed local walk, that of the spread and of its clash.
    pub fn clash(&mut self) -> Result<Option<ClashCause>, NoMemory>
        requires { IsSpread self.old.graph self.old.spread }
        ensures same { self.new ≡ self.old }
        ensures cause { IfOk result (λ found. MatchOption
            found
            ((x : ClashCause) → ¬ (IsCause self.old.graph self.old.spread x))
            (IsFirstCause self.old.graph self.old.spread)) }
    {
        if self.is_calm() {
            return Ok(None);
        }
        let spread = self.spread()?;
        self.phase.clash(&spread)
    }

    /// Does the spread clash?
    ///
    /// # Errors
    /// `NoMemory` alone.
    ///
    /// Cost: linear in the nodes that are new since this or another question was asked. Where the spread has a node of
    /// odd priority that may lie on a closed local walk, and neither False nor both literals of a proposition, that of
    /// the spread and of its clash.
    pub fn is_clashing(&mut self) -> Result<bool, NoMemory>
        requires { IsSpread self.old.graph self.old.spread }
        ensures same { self.new ≡ self.old }
        ensures yes { IfOk result (λ b. IsTrue b → (x : ClashCause) × IsCause self.old.graph self.old.spread x) }
        ensures no { IfOk result (λ b. (x : ClashCause) → IsCause self.old.graph self.old.spread x → IsTrue b) }
    {
        if self.is_calm() {
            return Ok(false);
        }
        if self.notes.has_conflict() {
            return Ok(true);
        }
        let spread = self.spread()?;
        Ok(self.phase.clash(&spread)?.is_some())
    }

    // is it plain from what is noted of the nodes that nothing clashes?
    fn is_calm(&mut self) -> bool
        ensures same { self.new ≡ self.old }
        ensures calm { IsTrue result → (x : ClashCause) → ¬ (IsCause self.old.graph self.old.spread x) }
    {
        let graph = self.phase.graph();
        self.notes.note_all(graph, &self.descent, &self.trail);
        if self.notes.has_conflict() {
            return false;
        }
        !self.notes.has_suspect()
    }

    /// The least or-node of the spread for which no side was chosen; `None` exactly where there is none.
    ///
    /// Cost: linear in the nodes that are new since this or another question was asked, and logarithmic in the graph
    /// for each or-node that was chosen or taken back since.
    pub fn open_or(&mut self) -> Option<u32>
        requires { IsSpread self.old.graph self.old.spread }
        ensures same { self.new ≡ self.old }
        ensures least { MatchOption
            result
            ((n : ℕ) → ¬ (IsOpenOr self.old.graph self.old.spread n))
            (IsLeastOpenOr self.old.graph self.old.spread) }
    {
        let graph = self.phase.graph();
        graph.keeps();
        self.notes.note_all(graph, &self.descent, &self.trail);
        self.notes.least_open(graph, &self.choice, &self.trail)
    }

    /// The diamonds of the spread, ascending.
    ///
    /// # Errors
    /// `NoMemory` alone.
    ///
    /// Cost: linear in the spread, and `n log n` in the diamonds.
    pub fn diamonds(&self) -> Result<Vec<u32>, NoMemory>
        requires { IsSpread self.now.graph self.now.spread }
        ensures { IfOk result (λ diamonds. diamonds.items
            ≡ filter (λ n. is_diamond (node_at self.now.graph n)) self.now.spread.nodes) }
    {
        diamonds_on(self.alloc, self.phase.graph(), &self.trail)
    }

    /// Is this a cause of a clash in the spread? Its numbers may be any.
    ///
    /// # Errors
    /// `NoMemory` alone.
    ///
    /// Cost: constant; for a cycle linear in what its node reaches through nodes of no lower priority.
    pub fn is_cause(&mut self, cause: ClashCause) -> Result<bool, NoMemory>
        ensures same { self.new ≡ self.old }
        ensures cause { IfOk result (λ b. IsTrue b ↔ IsCause self.old.graph self.old.spread cause) }
    {
        match cause {
            ClashCause::False(node) => Ok(self.has_false(node)),
            ClashCause::Pair(positive, negative) => Ok(self.has_pair(positive, negative)),
            ClashCause::Cycle(node) => {
                if !self.trail.contains(node) {
                    return Ok(false);
                }
                self.phase.on_odd_cycle(&self.choice, node)
            }
        }
    }

    // is this a False of the spread?
    fn has_false(&self, node: u32) -> bool
        ensures { IsTrue result ↔ IsCause self.now.graph self.now.spread (False node) }
    {
        self.trail.contains(node) && is_false(*self.phase.graph().node(node))
    }

    // are these the literals of one proposition, and both in the spread?
    fn has_pair(&self, positive: u32, negative: u32) -> bool
        ensures { IsTrue result ↔ IsCause self.now.graph self.now.spread (Pair positive negative) }
    {
        if !self.trail.contains(positive) {
            return false;
        }
        if !self.trail.contains(negative) {
            return false;
        }
        is_pair(self.phase.graph(), positive, negative)
    }

    /// The step along a diamond of the spread: the nodes that have to hold behind it, and the local traces, by which nodes
    /// of the sequent each of them is reached, with which lowest priorities.
    ///
    /// # Errors
    /// `NoMemory` alone.
    ///
    /// Cost: that of `targets` and of `traces_from` for the nodes of the sequent.
    pub fn step(&mut self, diamond: u32) -> Result<(Sequent, LocalTraces), NoMemory>
        requires spread { IsSpreadOf self.old.graph self.old.sequent self.old.spread.choice self.old.spread }
        requires diamond { IsDiamondOf self.old.graph self.old.spread diamond }
        ensures same { self.new ≡ self.old }
        ensures step { IfOk result (λ made. IsStep self.old.graph self.old.sequent self.old.spread diamond made.0 made.1) }
    {
        let targets = self.targets(diamond)?;
        let traces = self.phase.traces_on(
            &self.sequent,
            &self.choice,
            &self.trail,
            diamond,
            self.sequent.values(),
        )?;
        Ok((targets, LocalTraces::new(traces)))
    }

    /// The nodes that have to hold behind a diamond of the spread: the targets of the step along it.
    ///
    /// # Errors
    /// `NoMemory` alone.
    ///
    /// Cost: linear in the spread, and `n log n` in the targets.
    pub fn targets(&self, diamond: u32) -> Result<Sequent, NoMemory>
        requires spread { IsSpread self.now.graph self.now.spread }
        requires diamond { IsDiamondOf self.now.graph self.now.spread diamond }
        ensures ascends { IfOk result IsAscending }
        ensures targets { IfOk result (λ targets. (m : ℕ)
            → IsMember m targets ↔ IsTarget self.now.graph self.now.spread diamond m) }
    {
        targets_on(self.alloc, self.phase.graph(), &self.trail, diamond)
    }

    /// The local traces along a diamond of the spread that begin at one of these nodes of the sequent.
    ///
    /// # Errors
    /// `NoMemory` alone.
    ///
    /// Cost: for each of the given nodes, linear in the pairs of a node that it leads to and a lowest priority on the way,
    /// each of which is visited once. Where the sequent is one node of the lowest priority of the graph, no search is
    /// made: its traces are read off the spread.
    pub fn traces_from(&mut self, diamond: u32, nodes: &[u32]) -> Result<Vec<Triple>, NoMemory>
        requires spread { IsSpreadOf self.old.graph self.old.sequent self.old.spread.choice self.old.spread }
        requires diamond { IsDiamondOf self.old.graph self.old.spread diamond }
        requires nodes { All (λ n. IsMember n self.old.sequent) nodes.now }
        ensures same { self.new ≡ self.old }
        ensures traces { IfOk result (λ traces. (t : Triple) → IsMember t traces.items
            ↔ (IsMember t.from nodes.now × IsTrace self.old.graph self.old.sequent self.old.spread diamond t)) }
    {
        self.phase
            .traces_on(&self.sequent, &self.choice, &self.trail, diamond, nodes)
    }
}
