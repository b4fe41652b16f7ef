// The part of a graph that asks each state for an edge.
use ml_arrays::NONE;
use ml_graph::{ModalGraph, Node};

/// The nodes of a graph that say that each state has an edge, where its root asks for that beside the node it starts with.
#[derive(Clone, Copy)]
pub(crate) struct Total {
    /// What the root asks for beside this.
    pub start: u32,
    /// Each state has an edge, and so has each that is reached.
    pub total: u32,
    /// Its two parts.
    pub has_edge: u32,
    pub leads_on: u32,
    pub action: u32,
}

/// A node; True where there is none.
pub(crate) fn node_of(graph: &ModalGraph, n: u32) -> Node {
    match graph.nodes().get(n as usize) {
        Some(node) => *node,
        None => Node::True,
    }
}

/// This part of a graph; `None` where it has none.
pub(crate) fn total_of(graph: &ModalGraph) -> Option<Total> {
    let Node::And {
        left: start,
        right: total,
    } = node_of(graph, graph.root())
    else {
        return None;
    };
    let Node::And {
        left: has_edge,
        right: leads_on,
    } = node_of(graph, total)
    else {
        return None;
    };
    let (Node::Diamond { action, to }, Node::Square { to: again, .. }) = (
        node_of(graph, has_edge),
        node_of(graph, leads_on),
    ) else {
        return None;
    };
    if node_of(graph, to) == Node::True && again == total {
        Some(Total {
            start,
            total,
            has_edge,
            leads_on,
            action,
        })
    } else {
        None
    }
}

impl Total {
    /// Is the node one of this part, or the root above it?
    pub(crate) fn has(&self, graph: &ModalGraph, n: u32) -> bool {
        n == self.total || n == self.has_edge || n == self.leads_on || n == graph.root()
    }
}
