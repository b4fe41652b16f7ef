// What depends on the graph alone.
use ml_arrays::{Components, Digraph, NONE, ascend, empty_rows, push_at, small};
use ml_base::NoMemory;
use ml_graph::{ModalGraph, Node};
use std::alloc::Global;

/// A graph, with what the engine asks of it again and again.
#[derive(Drop)]
pub(crate) struct Terms<'a> {
    pub graph: &'a ModalGraph,
    pub alloc: Global,
    pub size: u32,
    /// The odd priorities, ascending.
    pub odds: Vec<u32>,
    /// All priorities, ascending.
    pub levels: Vec<u32>,
    /// The neutral priority.
    pub neutral: u32,
    /// Of each node the Ands and Ors of which it is a side.
    pub parents: Vec<Vec<u32>>,
    /// Of each proposition the positive literals, and the negative ones.
    pub positive: Vec<Vec<u32>>,
    pub negative: Vec<Vec<u32>>,
    /// The places of the nodes in depth-first order.
    pub rank: Vec<u32>,
    /// The nodes on local cycles.
    pub cyclic: Vec<u32>,
}

/// The sides of a node: none, one twice, or two.
pub(crate) fn sides(node: Node) -> Option<(u32, u32)> {
    match node {
        Node::And { left, right } | Node::Or { left, right } => Some((left, right)),
        _ => None,
    }
}

/// The nodes to which a node refers, by modal steps too or not.
fn references(node: Node, modal: bool) -> (u32, u32) {
    match node {
        Node::And { left, right } | Node::Or { left, right } => (left, right),
        Node::Diamond { to, .. } | Node::Square { to, .. } if modal => (to, NONE),
        _ => (NONE, NONE),
    }
}

fn write_references(
    graph: &ModalGraph,
    modal: bool,
    written: &mut Digraph,
) -> Result<(), NoMemory> {
    for node in graph.nodes() {
        let (left, right) = references(*node, modal);
        written.push_target(left)?;
        written.push_target(right)?;
        written.end_node()?;
    }
    Ok(())
}

/// The places of the nodes in depth-first order.
fn depth_first(alloc: Global, graph: &ModalGraph) -> Result<Vec<u32>, NoMemory> {
    let mut rank = Vec::new(alloc);
    let mut references = Digraph::empty(alloc);
    write_references(graph, true, &mut references)?;
    references.rank(alloc, graph.root(), &mut rank)?;
    Ok(rank)
}

/// All priorities, ascending.
fn levels(alloc: Global, graph: &ModalGraph) -> Result<Vec<u32>, NoMemory> {
    let mut levels = Vec::from_slice(alloc, graph.priorities())?;
    ascend(&mut levels);
    Ok(levels)
}

/// The nodes on local cycles.
fn cyclic(alloc: Global, graph: &ModalGraph) -> Result<Vec<u32>, NoMemory> {
    let mut sides = Digraph::empty(alloc);
    write_references(graph, false, &mut sides)?;
    let components = Components::of_graph(alloc, &sides)?;
    let mut cyclic = Vec::new(alloc);
    for n in 0..graph.size() {
        if components.is_on_cycle(&sides, n) {
            cyclic.push(n)?;
        }
    }
    Ok(cyclic)
}

/// Of each node the Ands and Ors of which it is a side.
fn parents_of(alloc: Global, graph: &ModalGraph) -> Result<Vec<Vec<u32>>, NoMemory> {
    let mut parents = empty_rows(alloc, graph.nodes().len())?;
    for (n, node) in graph.nodes().iter().enumerate() {
        if let Some((left, right)) = sides(*node) {
            push_at(&mut parents, left, small(n))?;
            push_at(&mut parents, right, small(n))?;
        }
    }
    Ok(parents)
}

/// Of each proposition the literals with this sign.
fn literals_of(alloc: Global, graph: &ModalGraph, sign: bool) -> Result<Vec<Vec<u32>>, NoMemory> {
    let mut literals = empty_rows(alloc, graph.props().len())?;
    for (n, node) in graph.nodes().iter().enumerate() {
        if let Node::Lit { prop, positive } = *node {
            if positive == sign {
                push_at(&mut literals, prop, small(n))?;
            }
        }
    }
    Ok(literals)
}

impl<'a> Terms<'a> {
    /// What depends on the graph alone.
    pub(crate) fn new(alloc: Global, graph: &'a ModalGraph) -> Result<Terms<'a>, NoMemory> {
        let size = graph.size();
        let odds = graph.odd_priorities()?;
        let states = (size as usize).saturating_mul(odds.len().saturating_add(1));
        Ok(Terms {
            graph,
            alloc,
            size,
            levels: levels(alloc, graph)?,
            neutral: small(states.saturating_add(1).saturating_mul(2)),
            positive: literals_of(alloc, graph, true)?,
            negative: literals_of(alloc, graph, false)?,
            rank: depth_first(alloc, graph)?,
            cyclic: cyclic(alloc, graph)?,
            odds,
            parents: parents_of(alloc, graph)?,
        })
    }

    /// A node.
    pub(crate) fn node(&self, n: u32) -> Node {
        match self.graph.nodes().get(n as usize) {
            Some(node) => *node,
            None => Node::True,
        }
    }

    /// The priority of a node.
    pub(crate) fn priority(&self, n: u32) -> u32 {
        match self.graph.priorities().get(n as usize) {
            Some(priority) => *priority,
            None => 0,
        }
    }

    /// The number of a state of the trace automaton.
    pub(crate) fn state(&self, n: u32, place: usize) -> u32 {
        small(
            (n as usize)
                .saturating_mul(self.odds.len().saturating_add(1))
                .saturating_add(place),
        )
    }
}
