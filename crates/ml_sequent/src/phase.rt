// The local phase of one graph, with memory that serves many calls.
ghost use Rattle.std.specs.Prelude.{◌≡◌, ◌<◌, ◌↔◌, ℕ, List, IfOk, IsTrue, MatchOption, All, filter};
ghost use Rattle.ml_graph.specs.Graph.{size, node_at};
ghost use Rattle.ml_lists.specs.Member.{IsMember};
ghost use Rattle.ml_sequent.specs.Choice.{with_side};
ghost use Rattle.ml_sequent.specs.Spread.{IsSpread, IsSpreadOf, IsCause, IsOddCycle, IsOpenOr, IsLeastOpenOr, is_diamond};
ghost use Rattle.ml_sequent.specs.FirstCause.{IsFirstCause};
ghost use Rattle.ml_sequent.specs.declared.clashes.ClashCause.{ClashCause};
ghost use Rattle.ml_sequent.specs.Step.{IsDiamondOf, IsStep};
ghost use Rattle.ml_sequent.specs.private.Exits.{AreTracesFrom};
ghost use Rattle.ml_sequent.specs.private.Trails.{spread_at};

use crate::checking::is_cause_by;
use crate::choice::{Choice, Side};
use crate::clashes::{ClashCause, clash_by, on_odd_cycle};
use crate::extending::extend_by;
use crate::levels::Levels;
use crate::making::spread_by;
use crate::parts::Parts;
use crate::questions::{diamonds, open_or};
use crate::reach::Reach;
use crate::sequent::Sequent;
use crate::spreads::Spread;
use crate::stepping::{begins_all, step_by, traces_along, triples_on};
use crate::trail::Trail;
use ml_base::NoMemory;
use ml_graph::ModalGraph;
use ml_trace::{LocalTraces, Triple};
use std::alloc::Global;
use std::marker::Model;

/// The local phase of one graph: what depends on the graph alone is made once, and the memory of each call serves the
/// next. Contracts see the graph.
#[derive(Drop)]
pub struct LocalPhase<'a> {
    graph: &'a ModalGraph,
    levels: Levels,
    reach: Reach,
    parts: Parts,
    alloc: Global,
}

impl<'a> Model for LocalPhase<'a> {
    ghost use Rattle.ml_graph.specs.Graph.{Graph};
    ghost use Rattle.ml_sequent.specs.private.ConnectedParts.{HasStages};
    ghost use Rattle.ml_sequent.specs.private.Reach.{IsRanked, HasRoom};

    ghost Value = { Graph };

    ghost view = { λ a. a.graph.now };

    ghost invariant = { λ a. record { ranked : IsRanked a.graph.now a.levels; room : HasRoom a.graph.now a.levels a.reach; stages : HasStages a.graph.now a.parts } };
}

impl<'a> LocalPhase<'a> {
    /// The local phase of a graph.
    ///
    /// # Errors
    /// `NoMemory` alone.
    ///
    /// Cost: `n log n` in the nodes, and linear in the nodes times the different priorities.
    pub fn new(alloc: Global, graph: &'a ModalGraph) -> Result<LocalPhase<'a>, NoMemory>
        ensures { IfOk result (λ phase. phase ≡ graph.now) }
    {
        let levels = Levels::of(alloc, graph)?;
        let reach = Reach::new(alloc, graph.size(), levels.width())?;
        let parts = Parts::new(alloc, graph.size())?;
        Ok(LocalPhase {
            graph,
            levels,
            reach,
            parts,
            alloc,
        })
    }

    /// The graph.
    pub(crate) fn graph(&self) -> &'a ModalGraph
        ensures { result.now ≡ self.now }
    {
        self.graph
    }

    /// Does the node have an odd priority, and lie on a closed local walk through nodes of no lower priority?
    pub(crate) fn on_odd_cycle(&mut self, choice: &Choice, node: u32) -> Result<bool, NoMemory>
        requires { node < size self.old }
        ensures graph { self.new ≡ self.old }
        ensures cycle { IfOk result (λ b. IsTrue b ↔ IsOddCycle self.old choice.now node) }
    {
        on_odd_cycle(self.graph, choice, &self.levels, node, &mut self.reach)
    }

    /// The local traces along a diamond that begin at these nodes of a sequent, of which the trail holds the spread.
    pub(crate) fn traces_on(
        &mut self,
        sequent: &Sequent,
        choice: &Choice,
        trail: &Trail,
        diamond: u32,
        nodes: &[u32],
    ) -> Result<Vec<Triple>, NoMemory>
        requires trail { trail.now.room ≡ size self.old }
        requires spread { IsSpreadOf self.old sequent.now choice.now (spread_at trail.now.nodes choice.now) }
        requires nodes { All (λ n. IsMember n sequent.now) nodes.now }
        requires diamond { diamond < size self.old }
        ensures graph { self.new ≡ self.old }
        ensures traces { IfOk result (λ traces. AreTracesFrom self.old choice.now diamond nodes.now traces.items) }
    {
        let graph = self.graph;
        graph.keeps();
        match nodes {
            [from] if begins_all(graph, &self.levels, sequent, *from) => {
                triples_on(self.alloc, graph, trail, diamond, *from)
            }
            _ => traces_along(
                self.alloc,
                graph,
                &self.levels,
                &mut self.reach,
                choice,
                diamond,
                nodes,
            ),
        }
    }

    /// As the function `spread`.
    ///
    /// # Errors
    /// `NoMemory` alone.
    ///
    /// Cost: `n log n` in the nodes of the spread, each of which is visited once.
    pub fn spread(&mut self, sequent: &Sequent, choice: &Choice) -> Result<Spread, NoMemory>
        requires { All (λ n. n < size self.old) sequent.now }
        ensures graph { self.new ≡ self.old }
        ensures of { IfOk result (IsSpreadOf self.old sequent.now choice.now) }
        ensures is_spread { IfOk result (IsSpread self.old) }
    {
        spread_by(
            self.alloc,
            self.graph,
            &self.levels,
            &mut self.reach,
            sequent,
            choice,
        )
    }

    /// As the function `step`.
    ///
    /// # Errors
    /// `NoMemory` alone.
    ///
    /// Cost: for each node of the sequent, linear in the pairs of a node of the spread and a lowest priority, each of which
    /// is visited once.
    pub fn step(
        &mut self,
        sequent: &Sequent,
        spread: &Spread,
        diamond: u32,
    ) -> Result<(Sequent, LocalTraces), NoMemory>
        requires spread { IsSpreadOf self.old sequent.now spread.now.choice spread.now }
        requires diamond { IsDiamondOf self.old spread.now diamond }
        ensures graph { self.new ≡ self.old }
        ensures step { IfOk result (λ made. IsStep self.old sequent.now spread.now diamond made.0 made.1) }
    {
        step_by(
            self.alloc,
            self.graph,
            &self.levels,
            &mut self.reach,
            sequent,
            spread,
            diamond,
        )
    }

    /// As the function `clash`.
    ///
    /// # Errors
    /// `NoMemory` alone.
    ///
    /// Cost: `n log n` in the nodes of the spread and linear in the propositions of the graph, and then linear in the spread
    /// for each odd priority that occurs in it, times the logarithm of the choice.
    pub fn clash(&mut self, spread: &Spread) -> Result<Option<ClashCause>, NoMemory>
        requires { IsSpread self.old spread.now }
        ensures graph { self.new ≡ self.old }
        ensures cause { IfOk result (λ found. MatchOption
            found
            ((x : ClashCause) → ¬ (IsCause self.old spread.now x))
            (IsFirstCause self.old spread.now)) }
    {
        clash_by(self.alloc, self.graph, &mut self.parts, spread)
    }

    /// Is this a cause of a clash in the spread? Its numbers may be any.
    ///
    /// # Errors
    /// `NoMemory` alone.
    ///
    /// Cost: logarithmic in the spread; for a cycle also linear in what its node reaches through nodes of no lower
    /// priority.
    pub fn is_cause(&mut self, spread: &Spread, cause: ClashCause) -> Result<bool, NoMemory>
        requires { IsSpread self.old spread.now }
        ensures graph { self.new ≡ self.old }
        ensures cause { IfOk result (λ b. IsTrue b ↔ IsCause self.old spread.now cause) }
    {
        is_cause_by(self.graph, &self.levels, &mut self.reach, spread, cause)
    }

    /// The spread with a side chosen at one of its open or-nodes: of each sequent of which this is the spread, the
    /// spread under the choice with that side.
    ///
    /// # Errors
    /// `NoMemory` alone.
    ///
    /// Cost: `n log n` in the nodes of the new spread; only those that are new go on to their children.
    pub fn extended(&mut self, spread: &Spread, node: u32, side: Side) -> Result<Spread, NoMemory>
        requires spread { IsSpread self.old spread.now }
        requires node { IsOpenOr self.old spread.now node }
        ensures graph { self.new ≡ self.old }
        ensures of { IfOk result (λ longer. (C : List ℕ) → IsSpreadOf self.old C spread.now.choice spread.now
            → IsSpreadOf self.old C (with_side spread.now.choice node side) longer) }
        ensures is_spread { IfOk result (IsSpread self.old) }
    {
        extend_by(
            self.alloc,
            self.graph,
            &self.levels,
            &mut self.reach,
            spread,
            node,
            side,
        )
    }

    /// As the function `open_or`.
    ///
    /// Cost: linear in the spread times the logarithm of the choice. It takes no memory.
    pub fn open_or(&self, spread: &Spread) -> Option<u32>
        requires { IsSpread self.now spread.now }
        ensures { MatchOption result ((n : ℕ) → ¬ (IsOpenOr self.now spread.now n)) (IsLeastOpenOr self.now spread.now) }
    {
        open_or(self.graph, spread)
    }

    /// As the function `diamonds`.
    ///
    /// # Errors
    /// `NoMemory` alone.
    ///
    /// Cost: linear in the spread.
    pub fn diamonds(&self, spread: &Spread) -> Result<Vec<u32>, NoMemory>
        requires { IsSpread self.now spread.now }
        ensures { IfOk result (λ diamonds. diamonds.items ≡ filter (λ n. is_diamond (node_at self.now n)) spread.now.nodes) }
    {
        diamonds(self.alloc, self.graph, spread)
    }
}
