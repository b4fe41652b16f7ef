// What is asked of a spread that doesn't clash: where a side is still to be chosen, and which diamonds lead on.
ghost use Rattle.std.specs.Prelude.{◌≡◌, ◌<◌, ◌↔◌, ℕ, IfOk, IsTrue, MatchOption, filter};
ghost use Rattle.ml_graph.specs.Graph.{size, node_at};
ghost use Rattle.ml_lists.specs.Ascending.{ascending};
ghost use Rattle.ml_sequent.specs.Spread.{IsSpread, IsOpenOr, IsLeastOpenOr, IsOpenNode, is_diamond};

use crate::choice::Choice;
use crate::sets::ascending;
use crate::spreads::Spread;
use crate::trail::Trail;
use ml_base::NoMemory;
use ml_graph::{ModalGraph, Node};
use std::alloc::Global;

/// Is this an or-node without a choice?
pub(crate) fn is_open(graph: &ModalGraph, choice: &Choice, node: u32) -> bool
    requires { node < size graph.now }
    ensures { IsTrue result ↔ IsOpenNode graph.now choice.now node }
{
    match *graph.node(node) {
        Node::Or { .. } => choice.side(node).is_none(),
        _ => false,
    }
}

/// The least or-node of the spread for which no side was chosen; `None` exactly where there is none.
///
/// Cost: linear in the spread times the logarithm of the choice. It takes no memory.
pub fn open_or(graph: &ModalGraph, spread: &Spread) -> Option<u32>
    requires { IsSpread graph.now spread.now }
    ensures { MatchOption result ((n : ℕ) → ¬ (IsOpenOr graph.now spread.now n)) (IsLeastOpenOr graph.now spread.now) }
{
    for node in spread.nodes() {
        if is_open(graph, spread.choice(), *node) {
            return Some(*node);
        }
    }
    None
}

/// Is this a Diamond?
pub(crate) fn is_diamond(node: Node) -> bool
    ensures { result ≡ is_diamond node }
{
    matches!(node, Node::Diamond { .. })
}

/// The diamonds of the spread, ascending.
///
/// # Errors
/// `NoMemory` alone.
///
/// Cost: linear in the spread.
pub fn diamonds(alloc: Global, graph: &ModalGraph, spread: &Spread) -> Result<Vec<u32>, NoMemory>
    requires { IsSpread graph.now spread.now }
    ensures { IfOk result (λ diamonds. diamonds.items ≡ filter (λ n. is_diamond (node_at graph.now n)) spread.now.nodes) }
{
    let mut diamonds = Vec::new(alloc);
    for node in spread.nodes() {
        if is_diamond(*graph.node(*node)) {
            diamonds.push(*node)?;
        }
    }
    Ok(diamonds)
}

/// The diamonds of a trail, ascending.
///
/// Cost: linear in the trail, and `n log n` in its diamonds.
pub(crate) fn diamonds_on(
    alloc: Global,
    graph: &ModalGraph,
    trail: &Trail,
) -> Result<Vec<u32>, NoMemory>
    requires { trail.now.room ≡ size graph.now }
    ensures { IfOk result (λ diamonds. diamonds.items
        ≡ filter (λ n. is_diamond (node_at graph.now n)) (ascending trail.now.nodes)) }
{
    let mut diamonds = Vec::new(alloc);
    for place in 0..trail.len() {
        let node = trail.node(place);
        if is_diamond(*graph.node(node)) {
            diamonds.push(node)?;
        }
    }
    Ok(ascending(diamonds))
}
