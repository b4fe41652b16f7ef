// Which nodes lie on no closed local walk, whatever is chosen: those with a rank above the ranks of both their
// children.
ghost use Rattle.std.specs.Prelude.{◌≡◌, ◌<◌, ◌↔◌, ℕ, IfOk, OnOk, IsTrue, IfSome, length, get_or, All};
ghost use Rattle.ml_lists.specs.Member.{IsMember};
ghost use Rattle.ml_graph.specs.Graph.{size, node_at};
ghost use Rattle.ml_sequent.specs.private.Children.{child_list};
ghost use Rattle.ml_sequent.specs.private.Descents.{operands, Falls, MayCycle};

use crate::children::LocalChildren;
use ml_base::NoMemory;
use ml_graph::{ModalGraph, Node};
use std::alloc::Global;
use std::cmp::max;
use std::marker::Model;

/// A rank for each node of a graph, above those of the children of an And or an Or; 0 for those that got none.
/// Contracts see the list of ranks.
#[derive(Drop)]
pub(crate) struct Descent {
    ranks: Vec<u32>,
}

impl Model for Descent {
    ghost use Rattle.std.specs.Prelude.{List, ℕ};

    ghost Value = { List ℕ };

    ghost view = { λ a. a.ranks.items };
}

impl Descent {
    /// The ranks of a graph. A node that a node of odd priority reaches by operands gets one where no local walk from
    /// it closes.
    ///
    /// Cost: linear in the nodes.
    pub fn of(alloc: Global, graph: &ModalGraph) -> Result<Descent, NoMemory>
        ensures { IfOk result (Falls graph.now) }
    {
        let size = graph.size();
        let mut ranks = vec![in alloc; 0; size as usize]?;
        let mut entered = vec![in alloc; false; size as usize]?;
        let mut path = odd_nodes(alloc, graph)?;
        // each node is entered once at most, and left as often as it stands on the path
        for _ in 0..3 * size as u64 {
            let Some(node) = path.last().copied() else {
                break;
            };
            go_down(graph, &mut ranks, &mut entered, &mut path, node)?;
        }
        Ok(Descent { ranks })
    }

    /// Has the node an odd priority, and no rank?
    pub fn may_cycle(&self, graph: &ModalGraph, node: u32) -> bool
        requires node { node < size graph.now }
        requires ranks { length self.now ≡ size graph.now }
        ensures { IsTrue result ↔ MayCycle graph.now self.now node }
    {
        graph.priority(node) % 2 == 1 && self.ranks[node as usize] == 0
    }
}

/// The nodes of odd priority.
fn odd_nodes(alloc: Global, graph: &ModalGraph) -> Result<Vec<u32>, NoMemory>
    ensures { IfOk result (λ nodes. All (λ n. n < size graph.now) nodes.items) }
{
    let mut nodes = Vec::new(alloc);
    for node in 0..graph.size() {
        if graph.priority(node) % 2 == 1 {
            nodes.push(node)?;
        }
    }
    Ok(nodes)
}

/// The children of an And or an Or.
fn both(graph: &ModalGraph, node: u32) -> LocalChildren
    requires { node < size graph.now }
    ensures value { child_list result ≡ operands (node_at graph.now node) }
    ensures low { All (λ n. n < size graph.now) (child_list result) }
{
    graph.keeps();
    match *graph.node(node) {
        Node::And { left, right } => LocalChildren::Two(left, right),
        Node::Or { left, right } => LocalChildren::Two(left, right),
        _ => LocalChildren::Leaf,
    }
}

/// A rank above these two, if both are there.
fn above(one: u32, other: u32) -> u32
    ensures { 0 < result → (0 < one) × (one < result) × (0 < other) × (other < result) }
{
    if one == 0 || other == 0 {
        return 0;
    }
    max(one, other).checked_add(1).unwrap_or(0)
}

/// A rank above those of the children of an And or an Or, if they have one; 0 otherwise.
fn rank_for(graph: &ModalGraph, ranks: &[u32], node: u32) -> u32
    requires node { node < size graph.now }
    requires ranks { length ranks.now ≡ size graph.now }
    ensures { (m : ℕ) → 0 < result → IsMember m (operands (node_at graph.now node))
        → (0 < get_or ranks.now m 0) × (get_or ranks.now m 0 < result) }
{
    match both(graph, node) {
        LocalChildren::Leaf => 1,
        LocalChildren::One(child) => above(ranks[child as usize], ranks[child as usize]),
        LocalChildren::Two(left, right) => above(ranks[left as usize], ranks[right as usize]),
    }
}

/// Gives a node a rank, if it has none and its children have.
fn rank(graph: &ModalGraph, ranks: &mut Vec<u32>, node: u32)
    requires node { node < size graph.now }
    requires falls { Falls graph.now ranks.old.items }
    ensures falls { Falls graph.now ranks.new.items }
{
    if ranks[node as usize] > 0 {
        return;
    }
    ranks[node as usize] = rank_for(graph, ranks, node);
}

/// A child of an And or an Or that has no rank, and was not entered.
fn unmet(graph: &ModalGraph, ranks: &[u32], entered: &[bool], node: u32) -> Option<u32>
    requires node { node < size graph.now }
    requires ranks { length ranks.now ≡ size graph.now }
    requires entered { length entered.now ≡ size graph.now }
    ensures { IfSome result (λ child. child < size graph.now) }
{
    match both(graph, node) {
        LocalChildren::Leaf => None,
        LocalChildren::One(child) => if_unmet(ranks, entered, child),
        LocalChildren::Two(left, right) => match if_unmet(ranks, entered, left) {
            Some(child) => Some(child),
            None => if_unmet(ranks, entered, right),
        },
    }
}

/// This node, if it has no rank and was not entered.
fn if_unmet(ranks: &[u32], entered: &[bool], node: u32) -> Option<u32>
    requires ranks { node < length ranks.now }
    requires entered { node < length entered.now }
    ensures { IfSome result (λ n. n ≡ node) }
{
    if ranks[node as usize] == 0 && !entered[node as usize] {
        Some(node)
    } else {
        None
    }
}

/// Enters a child of the last node of the path; where there is none that is new, the node gets its rank and is left.
fn go_down(
    graph: &ModalGraph,
    ranks: &mut Vec<u32>,
    entered: &mut Vec<bool>,
    path: &mut Vec<u32>,
    node: u32,
) -> Result<(), NoMemory>
    requires node { node < size graph.now }
    requires falls { Falls graph.now ranks.old.items }
    requires entered { length entered.old.items ≡ size graph.now }
    requires path { All (λ n. n < size graph.now) path.old.items }
    ensures falls { OnOk result (Falls graph.now ranks.new.items) }
    ensures entered { OnOk result (length entered.new.items ≡ size graph.now) }
    ensures path { OnOk result (All (λ n. n < size graph.now) path.new.items) }
{
    match unmet(graph, ranks, entered, node) {
        Some(child) => {
            entered[child as usize] = true;
            path.push(child)?;
        }
        None => {
            rank(graph, ranks, node);
            let _ = path.pop();
        }
    }
    Ok(())
}
