// A spread with one side more: the search goes on from the chosen child alone.
ghost use Rattle.std.specs.Prelude.{◌≡◌, ◌<◌, ◌⊎◌, ℕ, List, ◌∷◌, IfOk};
ghost use Rattle.ml_graph.specs.Graph.{size, node_at};
ghost use Rattle.ml_graph.specs.declared.node.Node.TheVariants.{Or};
ghost use Rattle.ml_sequent.specs.Choice.{chosen, with_side};
ghost use Rattle.ml_sequent.specs.Spread.{IsSpread, IsSpreadOf, IsOpenOr};
ghost use Rattle.ml_sequent.specs.private.Reach.{IsRanked, HasRoom};

use crate::choice::Side;
use crate::levels::Levels;
use crate::reach::{Reach, reach_more};
use crate::spreads::Spread;
use ml_base::NoMemory;
use ml_graph::{ModalGraph, Node};
use std::alloc::Global;

/// The child of an or-node on a side; of other nodes, of which nobody asks, the node.
pub(crate) fn child_at(graph: &ModalGraph, node: u32, side: Side) -> u32
    requires { node < size graph.now }
    ensures { (l r : ℕ) → node_at graph.now node ≡ Or l r → result ≡ chosen side l r }
{
    match *graph.node(node) {
        Node::Or { left, right } => match side {
            Side::Left => left,
            Side::Right => right,
        },
        _ => node,
    }
}

/// The spread with a side chosen at one of its open or-nodes, by a search from the child there.
pub(crate) fn extend_by(
    alloc: Global,
    graph: &ModalGraph,
    levels: &Levels,
    reach: &mut Reach,
    spread: &Spread,
    node: u32,
    side: Side,
) -> Result<Spread, NoMemory>
    requires spread { IsSpread graph.now spread.now }
    requires node { IsOpenOr graph.now spread.now node }
    requires ranked { IsRanked graph.now levels.now }
    requires room { HasRoom graph.now levels.now reach.old }
    ensures room { HasRoom graph.now levels.now reach.new }
    ensures of { IfOk result (λ longer. (C : List ℕ) → IsSpreadOf graph.now C spread.now.choice spread.now
        → IsSpreadOf graph.now C (with_side spread.now.choice node side) longer) }
{
    let size = graph.size();
    let choice = spread.choice().with(node, side)?;
    reach_more(
        graph,
        &choice,
        levels,
        spread.nodes(),
        child_at(graph, node, side),
        reach,
    )?;
    let nodes = reach.nodes(alloc, size)?;
    Ok(Spread::of(nodes, choice))
}
