// How a spread and a step are made: by a local phase that serves one call.
ghost use Rattle.std.specs.Prelude.{◌≡◌, ◌<◌, IfOk, length, map, All};
ghost use Rattle.ml_graph.specs.Graph.{size};
ghost use Rattle.ml_sequent.specs.Spread.{IsSpread, IsSpreadOf};
ghost use Rattle.ml_sequent.specs.Step.{IsDiamondOf, IsStep};
ghost use Rattle.ml_sequent.specs.private.Reach.{IsRanked, HasRoom};

use crate::choice::Choice;
use crate::levels::Levels;
use crate::phase::LocalPhase;
use crate::reach::{Reach, reach_all};
use crate::sequent::Sequent;
use crate::spreads::Spread;
use ml_base::NoMemory;
use ml_graph::ModalGraph;
use ml_trace::LocalTraces;
use std::alloc::Global;

/// The spread of a sequent under a choice: the least set of nodes that has the sequent, both children of each of its
/// And nodes, and the chosen child of each of its Or nodes that the choice decides.
///
/// # Errors
/// `NoMemory` alone.
///
/// Cost: that of a local phase, and then that of its spread.
pub fn spread(
    alloc: Global,
    graph: &ModalGraph,
    sequent: &Sequent,
    choice: &Choice,
) -> Result<Spread, NoMemory>
    requires { All (λ n. n < size graph.now) sequent.now }
    ensures of { IfOk result (IsSpreadOf graph.now sequent.now choice.now) }
    ensures is_spread { IfOk result (IsSpread graph.now) }
{
    LocalPhase::new(alloc, graph)?.spread(sequent, choice)
}

/// The step along a diamond of the spread of a sequent: the nodes that have to hold behind it, and the local traces, by
/// which nodes of the sequent each of them is reached, with which lowest priorities.
///
/// # Errors
/// `NoMemory` alone.
///
/// Cost: that of a local phase, and then that of its step.
pub fn step(
    alloc: Global,
    graph: &ModalGraph,
    sequent: &Sequent,
    spread: &Spread,
    diamond: u32,
) -> Result<(Sequent, LocalTraces), NoMemory>
    requires spread { IsSpreadOf graph.now sequent.now spread.now.choice spread.now }
    requires diamond { IsDiamondOf graph.now spread.now diamond }
    ensures { IfOk result (λ made. IsStep graph.now sequent.now spread.now diamond made.0 made.1) }
{
    LocalPhase::new(alloc, graph)?.step(sequent, spread, diamond)
}

/// The spread of a sequent under a choice, by a search.
pub(crate) fn spread_by(
    alloc: Global,
    graph: &ModalGraph,
    levels: &Levels,
    reach: &mut Reach,
    sequent: &Sequent,
    choice: &Choice,
) -> Result<Spread, NoMemory>
    requires nodes { All (λ n. n < size graph.now) sequent.now }
    requires ranked { IsRanked graph.now levels.now }
    requires room { HasRoom graph.now levels.now reach.old }
    ensures room { HasRoom graph.now levels.now reach.new }
    ensures of { IfOk result (IsSpreadOf graph.now sequent.now choice.now) }
{
    let size = graph.size();
    reach_all(graph, choice, levels, sequent.values(), reach)?;
    let nodes = reach.nodes(alloc, size)?;
    Ok(Spread::of(nodes, choice.copy()?))
}
