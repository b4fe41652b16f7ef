// What depends on the graph alone.
use crate::parts::write_references;
use crate::threads::Threads;
use ml_arrays::{Digraph, NONE, more_numbers, more_rows, number, push_at, put, small};
use ml_base::NoMemory;
use ml_graph::{ModalGraph, Node};
use std::alloc::Global;

/// What a node weighs at most.
const HEAVY: u32 = 1 << 20;

/// How often weights are computed from those of the sides.
const PASSES: u32 = 12;

/// A graph, with what the solver asks of it again and again.
#[derive(Drop)]
pub struct Terms<'a> {
    /// The graph.
    pub graph: &'a ModalGraph,
    /// Where memory comes from.
    pub alloc: Global,
    /// How many nodes it has.
    pub size: u32,
    /// How many actions it has, at least one.
    pub actions: u32,
    /// Of each node the Ands and Ors of which it is a side.
    pub parents: Vec<Vec<u32>>,
    /// Of each proposition the positive literals.
    pub positive: Vec<Vec<u32>>,
    /// Of each proposition the negative literals.
    pub negative: Vec<Vec<u32>>,
    /// Of each node the Squares that lead to it.
    pub squares_to: Vec<Vec<u32>>,
    /// Of each node the Diamonds that lead to it.
    pub diamonds_to: Vec<Vec<u32>>,
    /// The places of the nodes in depth-first order.
    pub rank: Vec<u32>,
    /// What the nodes weigh: disjunctions as much as their lighter side.
    pub weight: Vec<u32>,
    /// Where bad traces can stay.
    pub traces: Threads,
    /// The node that says that there is a next state, where it is part of each sequent; else `NONE`.
    pub always: u32,
}

/// The node that says that there is a next state, in the graphs all of whose sequents have it.
fn always(graph: &ModalGraph) -> u32 {
    let Some(Node::And { right, .. }) = graph.nodes().get(graph.root() as usize).copied() else {
        return NONE;
    };
    let Some(
        Node::And {
            left: diamond,
            right: square,
        },
    ) = graph.nodes().get(right as usize).copied()
    else {
        return NONE;
    };
    let Some(Node::Diamond { to: end, .. }) = graph.nodes().get(diamond as usize).copied() else {
        return NONE;
    };
    let Some(Node::Square { to: again, .. }) = graph.nodes().get(square as usize).copied() else {
        return NONE;
    };
    let Some(Node::True) = graph.nodes().get(end as usize).copied() else {
        return NONE;
    };
    if again == right && graph.actions().len() == 1 {
        right
    } else {
        NONE
    }
}

impl<'a> Terms<'a> {
    /// Of a graph nothing is computed yet: `fill` does that.
    ///
    /// Cost: constant.
    pub fn empty(alloc: Global, graph: &'a ModalGraph) -> Terms<'a> {
        Terms {
            graph,
            alloc,
            size: graph.size(),
            actions: small(graph.actions().len()).max(1),
            parents: Vec::new(alloc),
            positive: Vec::new(alloc),
            negative: Vec::new(alloc),
            squares_to: Vec::new(alloc),
            diamonds_to: Vec::new(alloc),
            rank: Vec::new(alloc),
            weight: Vec::new(alloc),
            traces: Threads::empty(alloc),
            always: NONE,
        }
    }

    /// Computes what depends on the graph.
    ///
    /// # Errors
    /// `NoMemory` alone.
    ///
    /// Cost: linear in the graph for each odd priority.
    pub fn fill(&mut self) -> Result<(), NoMemory> {
        self.always = always(self.graph);
        self.fill_rows()?;
        self.fill_rank()?;
        self.fill_weight()?;
        self.traces.fill(self.alloc, self.graph, &self.rank)
    }

    fn fill_rows(&mut self) -> Result<(), NoMemory> {
        let size = self.size as usize;
        let props = self.graph.props().len();
        more_rows(self.alloc, &mut self.parents, size)?;
        more_rows(self.alloc, &mut self.positive, props)?;
        more_rows(self.alloc, &mut self.negative, props)?;
        more_rows(self.alloc, &mut self.squares_to, size)?;
        more_rows(self.alloc, &mut self.diamonds_to, size)?;
        for n in 0..self.size {
            self.enlist(n)?;
        }
        Ok(())
    }

    /// Adds a node to the rows in which it stands.
    fn enlist(&mut self, n: u32) -> Result<(), NoMemory> {
        match self.node(n) {
            Node::And { left, right } | Node::Or { left, right } => {
                push_at(&mut self.parents, left, n)?;
                if left != right {
                    push_at(&mut self.parents, right, n)?;
                }
                Ok(())
            }
            Node::Lit {
                prop,
                positive: true,
            } => push_at(&mut self.positive, prop, n),
            Node::Lit { prop, .. } => push_at(&mut self.negative, prop, n),
            Node::Square { to, .. } => push_at(&mut self.squares_to, to, n),
            Node::Diamond { to, .. } => push_at(&mut self.diamonds_to, to, n),
            _ => Ok(()),
        }
    }

    /// The places in depth-first order.
    fn fill_rank(&mut self) -> Result<(), NoMemory> {
        let mut references = Digraph::empty(self.alloc);
        write_references(self.graph, &mut references)?;
        references.rank(self.alloc, self.graph.root(), &mut self.rank)
    }

    fn fill_weight(&mut self) -> Result<(), NoMemory> {
        more_numbers(&mut self.weight, self.size as usize, 1)?;
        for _ in 0..PASSES {
            for i in 0..self.size {
                let n = self.size.saturating_sub(1).saturating_sub(i);
                let weight = self.weigh(n);
                put(&mut self.weight, n, weight);
            }
        }
        Ok(())
    }

    /// What a node weighs by what its sides do.
    fn weigh(&self, n: u32) -> u32 {
        match self.node(n) {
            Node::True => 0,
            Node::False => HEAVY,
            Node::Lit { .. } => 1,
            Node::And { left, right } if left == right => number(&self.weight, left),
            Node::And { left, right } => number(&self.weight, left)
                .saturating_add(number(&self.weight, right))
                .min(HEAVY),
            Node::Or { left, right } => {
                number(&self.weight, left).min(number(&self.weight, right))
            }
            Node::Diamond { .. } => 12,
            Node::Square { .. } => 4,
        }
    }

    /// A node.
    pub fn node(&self, n: u32) -> Node {
        match self.graph.nodes().get(n as usize) {
            Some(node) => *node,
            None => Node::True,
        }
    }

    /// Does a thread go along an edge between these nodes?
    pub fn threads(&self, from: u32, to: u32) -> bool {
        let component = number(&self.traces.component, from);
        component != 0 && component != NONE && component == number(&self.traces.component, to)
    }

    /// Where a modal node leads along a diamond; `NONE` where it doesn't.
    pub fn along(&self, n: u32, diamond: u32) -> u32 {
        match (self.node(n), self.node(diamond)) {
            (Node::Diamond { to, .. }, _) if n == diamond => to,
            (Node::Square { action, to }, Node::Diamond { action: other, .. }) if action == other =>
                { to }
            _ => NONE,
        }
    }

    /// The thread component of a node; 0 where it is in none.
    pub fn component(&self, n: u32) -> u32 {
        let component = number(&self.traces.component, n);
        if component == NONE { 0 } else { component }
    }

    /// The place at which something is kept of an action and a node, or, behind all nodes, of a node that its own thread
    /// reaches.
    pub(crate) fn place(&self, action: u32, node: u32) -> u32 {
        action
            .saturating_mul(self.size)
            .saturating_mul(2)
            .saturating_add(node)
    }

    /// How many such places there are, and with them one for cores that are not watched by two nodes.
    pub(crate) fn places(&self) -> u32 {
        self.place(self.actions, 0).saturating_add(1)
    }
}
