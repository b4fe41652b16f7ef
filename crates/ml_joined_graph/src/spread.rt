// What stands at a branch of a decision, and because of what.
use crate::totals::node_of;
use ml_arrays::{NONE, more_numbers, number, put};
use ml_base::NoMemory;
use ml_graph::{ModalGraph, Node};
use std::alloc::Global;

/// Because of which a node of the sequent itself stands.
const SEQUENT: u32 = u32::MAX - 1;

/// The spread of a sequent under the choices of a branch.
#[derive(Drop)]
pub(crate) struct Spread<'a> {
    graph: &'a ModalGraph,
    /// Of each node the one because of which it stands, `SEQUENT`, or `NONE` where it doesn't stand.
    why: Vec<u32>,
    /// The nodes that stand.
    trail: Vec<u32>,
    work: Vec<(u32, u32)>,
    /// How many nodes were looked at since this was read.
    pub steps: u64,
}

impl<'a> Spread<'a> {
    /// Nothing stands.
    pub(crate) fn of(alloc: Global, graph: &'a ModalGraph) -> Result<Spread<'a>, NoMemory> {
        let mut why = Vec::new(alloc);
        more_numbers(&mut why, graph.nodes().len(), NONE)?;
        Ok(Spread {
            graph,
            why,
            trail: Vec::new(alloc),
            work: Vec::new(alloc),
            steps: 0,
        })
    }

    /// How much there is to take back.
    pub(crate) fn mark(&self) -> usize {
        self.trail.len()
    }

    /// Takes back all but so many nodes.
    pub(crate) fn undo(&mut self, mark: usize) {
        for _ in mark..self.trail.len() {
            if let Some(n) = self.trail.pop() {
                put(&mut self.why, n, NONE);
            }
        }
    }

    /// The nodes of a sequent stand, and nothing else but what follows.
    pub(crate) fn start(&mut self, nodes: &[u32]) -> Result<(), NoMemory> {
        self.undo(0);
        for n in nodes {
            self.work.push((*n, SEQUENT))?;
        }
        self.follow()
    }

    /// A side of an or-node is chosen.
    pub(crate) fn choose(&mut self, n: u32, right: bool) -> Result<(), NoMemory> {
        if let Node::Or { left, right: other } = node_of(self.graph, n) {
            self.work.push((if right { other } else { left }, n))?;
        }
        self.follow()
    }

    fn follow(&mut self) -> Result<(), NoMemory> {
        for _ in 0..u64::MAX {
            let Some((n, by)) = self.work.pop() else {
                break;
            };
            self.steps = self.steps.saturating_add(1);
            if number(&self.why, n) == NONE && (n as usize) < self.why.len() {
                put(&mut self.why, n, by);
                self.trail.push(n)?;
                if let Node::And { left, right } = node_of(self.graph, n) {
                    self.work.push((right, n))?;
                    self.work.push((left, n))?;
                }
            }
        }
        Ok(())
    }

    /// Does a node stand?
    pub(crate) fn stands(&self, n: u32) -> bool {
        number(&self.why, n) != NONE
    }

    /// The node because of which one stands; `None` where it doesn't, or is of the sequent itself.
    pub(crate) fn above(&self, n: u32) -> Option<u32> {
        match number(&self.why, n) {
            NONE | SEQUENT => None,
            by => Some(by),
        }
    }

    /// Is the node one of the sequent itself?
    pub(crate) fn is_of_sequent(&self, n: u32) -> bool {
        number(&self.why, n) == SEQUENT
    }
}
