// Where a graph surely holds.
ghost use Rattle.std.specs.Prelude.{◌<◌, IfOk, IsTrue};
ghost use Rattle.ml_graph.specs.CheckingGame.{Holds};

use crate::checking::{are_kept, rank_of};
use crate::making::Making;
use ml_base::NoMemory;
use ml_graph::ModalGraph;
use ml_kripke::Structure;
use std::alloc::Global;

/// Does the graph surely hold at the state? True comes only where it holds. False says nothing: it may come where the graph
/// holds too, as in a strong component with fixpoints of both kinds, of which the claims that are made needn't be kept.
///
/// # Errors
/// `NoMemory` alone.
///
/// Cost: near linear in the pairs of a state and a node, and for each edge of the structure in the nodes that look along edges.
pub fn surely_holds(
    alloc: Global,
    graph: &ModalGraph,
    structure: &Structure,
    state: u32,
) -> Result<bool, NoMemory>
    requires { state < structure.now.states }
    ensures { IfOk result (λ holds. IsTrue holds → Holds graph.now structure.now state) }
{
    let mut making = Making::empty(alloc, graph, structure);
    holds_by(graph, structure, state, &mut making)
}

/// Does it by the claims that are made?
fn holds_by(
    graph: &ModalGraph,
    structure: &Structure,
    state: u32,
    making: &mut Making<'_>,
) -> Result<bool, NoMemory>
    requires { state < structure.now.states }
    ensures { IfOk result (λ holds. IsTrue holds → Holds graph.now structure.now state) }
{
    making.make()?;
    Ok(holds_by_claims(graph, structure, &making.ranks, &making.firsts, state))
}

/// Is the root claimed at the state, and is each claim kept?
fn holds_by_claims(
    graph: &ModalGraph,
    structure: &Structure,
    ranks: &[u32],
    firsts: &[u32],
    state: u32,
) -> bool
    requires { state < structure.now.states }
    ensures { IsTrue result → Holds graph.now structure.now state }
{
    graph.keeps();
    structure.keeps();
    if rank_of(graph, ranks, state, graph.root()) == 0 {
        return false;
    }
    are_kept(graph, structure, ranks, firsts)
}
