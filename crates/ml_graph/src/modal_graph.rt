// Modal graphs that a program holds, and how one is built.
ghost use Rattle.std.specs.Prelude.{◌≡◌, ◌<◌, ◌^◌, ◌↔◌, ℕ, [], ◌∷◌, Some, IfOk, IsOk, IsErrOf, length, vec_len};
ghost use Rattle.std.specs.List.{IsDistinct};
ghost use Rattle.std.specs.Str.{bytes_eq};
ghost use Rattle.ml_graph.specs.Graph.{size, node_at, priority_at, IsGraph, references_from, references_of, odd_priorities};
ghost use Rattle.ml_graph.specs.Building.{graph_of, first_bad, first_out_of_range, IsSmall};

use crate::node::Node;
use crate::refusals::GraphRefusal;
use ml_base::{Action, Name, NoMemory};
use std::marker::Model;

/// A modal graph: nodes with priorities, a root, and the names of propositions and actions.
///
/// Contracts see the lists. All numbers are in range, no name stands twice, and there are less than 2^32 nodes.
#[derive(Debug, Drop)]
pub struct ModalGraph {
    nodes: Vec<Node>,
    priorities: Vec<u32>,
    root: u32,
    props: Vec<Name>,
    actions: Vec<Action>,
}

impl Model for ModalGraph {
    ghost use Rattle.ml_graph.specs.Graph.{Graph, IsGraph};
    ghost use Rattle.ml_graph.specs.Building.{graph_of, IsSmall};

    ghost Value = { Graph };

    ghost view = { λ a. graph_of a.nodes a.priorities a.root a.props a.actions };

    ghost invariant = { λ a. IsGraph (graph_of a.nodes a.priorities a.root a.props a.actions) × IsSmall (graph_of a.nodes a.priorities a.root a.props a.actions) };
}

impl ModalGraph {
    /// Builds the graph of its lists: nodes, a priority for each, the root, and the names to which literals and
    /// modalities refer by their places.
    ///
    /// # Errors
    /// `OutOfRange` exactly where a node refers to a number that is out of range, or the root is no node: with the first
    /// such number, the nodes before the root and the fields of a node in their order. Takes no memory, so `NoMemory`
    /// never comes.
    ///
    /// Cost: linear in the nodes.
    pub fn build(
        nodes: Vec<Node>,
        priorities: Vec<u32>,
        root: u32,
        props: Vec<Name>,
        actions: Vec<Action>,
    ) -> Result<ModalGraph, GraphRefusal>
        requires few { vec_len nodes < 2 ^ 32 }
        requires priorities { vec_len priorities ≡ vec_len nodes }
        requires props { IsDistinct bytes_eq props.items }
        requires actions { IsDistinct bytes_eq actions.items }
        ensures ok { IfOk result (λ g. g ≡ graph_of nodes priorities root props actions) }
        ensures accepted { IsOk result ↔ IsGraph (graph_of nodes priorities root props actions) }
        ensures out_of_range { (k : ℕ) → IsErrOf result (GraphRefusal.OutOfRange k)
            ↔ (first_out_of_range (graph_of nodes priorities root props actions) ≡ Some k) }
        ensures takes_no_memory { ¬ (IsErrOf result GraphRefusal.NoMemory) }
    {
        if let Some(number) = first_out_of_range(&nodes, root, props.len(), actions.len()) {
            return Err(GraphRefusal::OutOfRange(number));
        }
        Ok(ModalGraph {
            nodes,
            priorities,
            root,
            props,
            actions,
        })
    }

    /// What each value of the type keeps, for a proof that needs it: nothing is computed.
    #[inline(always)]
    pub fn keeps(&self)
        ensures is_graph { IsGraph self.now }
        ensures small { IsSmall self.now }
    {
        let _nodes = &self.nodes;
    }

    /// How many nodes there are. Says too what the type keeps.
    pub fn size(&self) -> u32
        ensures value { result ≡ size self.now }
        ensures is_graph { IsGraph self.now }
    {
        self.nodes.len() as u32
    }

    /// A node.
    pub fn node(&self, n: u32) -> &Node
        requires { n < size self.now }
        ensures { result.now ≡ node_at self.now n }
    {
        &self.nodes[n as usize]
    }

    /// The priority of a node.
    pub fn priority(&self, n: u32) -> u32
        requires { n < size self.now }
        ensures { result ≡ priority_at self.now n }
    {
        self.priorities[n as usize]
    }

    /// The root, which is a node.
    pub fn root(&self) -> u32
        ensures value { result ≡ self.now.root }
        ensures is_node { result < size self.now }
    {
        self.root
    }

    /// The nodes, by their numbers.
    pub fn nodes(&self) -> &[Node]
        ensures { result.now ≡ self.now.nodes }
    {
        &self.nodes
    }

    /// The priorities of the nodes.
    pub fn priorities(&self) -> &[u32]
        ensures { result.now ≡ self.now.priorities }
    {
        &self.priorities
    }

    /// The propositions to which literals refer; none stands twice.
    pub fn props(&self) -> &[Name]
        ensures value { result.now ≡ self.now.props }
        ensures differ { IsDistinct bytes_eq result.now }
    {
        &self.props
    }

    /// The actions to which modalities refer; none stands twice.
    pub fn actions(&self) -> &[Action]
        ensures value { result.now ≡ self.now.actions }
        ensures differ { IsDistinct bytes_eq result.now }
    {
        &self.actions
    }

    /// The odd priorities that occur, of any node, ascending.
    ///
    /// # Errors
    /// `NoMemory` alone.
    ///
    /// Cost: `n log n` in the nodes.
    pub fn odd_priorities(&self) -> Result<Vec<u32>, NoMemory>
        ensures { IfOk result (λ odds. odds.items ≡ odd_priorities self.now) }
    {
        let alloc = *self.priorities.allocator();
        let mut odds: Vec<u32> = self
            .priorities
            .iter()
            .copied()
            .filter(|d| *d % 2 == 1)
            .collect(alloc)?;
        odds.sort_unstable();
        odds.dedup();
        Ok(odds)
    }
}

/// The first number that is out of range, of the nodes and then of the root.
fn first_out_of_range(nodes: &[Node], root: u32, props: usize, actions: usize) -> Option<u32>
    ensures { result ≡ first_bad (references_from nodes.now root props actions) }
{
    let size = nodes.len();
    for node in nodes {
        if let Some(number) = first_bad_field(*node, size, props, actions) {
            return Some(number);
        }
    }
    out_of_range(root, size)
}

/// The first field of a node that is out of range, in a graph with so many nodes, propositions and actions.
fn first_bad_field(node: Node, nodes: usize, props: usize, actions: usize) -> Option<u32>
    ensures { result ≡ first_bad (references_of nodes props actions node) }
{
    match node {
        Node::True | Node::False => None,
        Node::Lit { prop, .. } => out_of_range(prop, props),
        Node::And { left, right } | Node::Or { left, right } => {
            out_of_range(left, nodes).or_else(|| out_of_range(right, nodes))
        }
        Node::Diamond { action, to } | Node::Square { action, to } => {
            out_of_range(action, actions).or_else(|| out_of_range(to, nodes))
        }
    }
}

/// The number, if it isn't below the bound.
fn out_of_range(number: u32, bound: usize) -> Option<u32>
    ensures { result ≡ first_bad (record { number = number; bound = bound } ∷ []) }
{
    if number as usize >= bound {
        Some(number)
    } else {
        None
    }
}
