// Parts of a graph, with their strong components.
use ml_arrays::{Components, Digraph, NONE, flag, number};
use ml_base::NoMemory;
use ml_graph::{ModalGraph, Node};
use std::alloc::Global;

/// The nodes to which a node refers.
pub(crate) fn references(node: Node, modal: bool) -> (u32, u32) {
    match node {
        Node::And { left, right } | Node::Or { left, right } => (left, right),
        Node::Diamond { to, .. } | Node::Square { to, .. } if modal => (to, NONE),
        _ => (NONE, NONE),
    }
}

/// Writes to which nodes each node refers.
pub(crate) fn write_references(graph: &ModalGraph, written: &mut Digraph) -> Result<(), NoMemory> {
    for node in graph.nodes() {
        let (left, right) = references(*node, true);
        written.push_target(left)?;
        written.push_target(right)?;
        written.end_node()?;
    }
    Ok(())
}

/// The nodes that are kept, with the edges between them.
#[derive(Drop)]
pub struct Part {
    edges: Digraph,
    components: Components,
}

impl Part {
    /// No node.
    ///
    /// Cost: constant.
    pub fn empty(alloc: Global) -> Part {
        Part {
            edges: Digraph::empty(alloc),
            components: Components::empty(alloc),
        }
    }

    /// Takes these nodes, with edges that are modal ones or not.
    ///
    /// # Errors
    /// `NoMemory` alone.
    ///
    /// Cost: linear in the graph.
    pub fn take(&mut self, graph: &ModalGraph, keep: &[bool], modal: bool) -> Result<(), NoMemory> {
        self.edges.clear();
        for (node, keeps) in graph.nodes().iter().zip(keep) {
            if *keeps {
                let (left, right) = references(*node, modal);
                self.push_kept(keep, left)?;
                self.push_kept(keep, right)?;
            }
            self.edges.end_node()?;
        }
        self.components.find(&self.edges)
    }

    fn push_kept(&mut self, keep: &[bool], to: u32) -> Result<(), NoMemory> {
        if flag(keep, to) {
            self.edges.push_target(to)?;
        }
        Ok(())
    }

    /// The strong component of a node.
    pub fn component(&self, n: u32) -> u32 {
        number(&self.components.of, n)
    }

    /// How many components there are.
    pub fn count(&self) -> usize {
        self.components.ends.len()
    }

    /// Does the node lie on a closed walk?
    pub fn is_on_cycle(&self, n: u32) -> bool {
        self.components.is_on_cycle(&self.edges, n)
    }
}
