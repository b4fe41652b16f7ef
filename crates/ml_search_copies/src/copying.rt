// The graph with a copy of each node for the passages that are left.
ghost use Rattle.std.specs.Prelude.{◌≡◌, IfOk};

use crate::regions::{Regions, priority};
use indexmap::IndexSet;
use ml_arrays::{NONE, number, small};
use ml_base::{Action, Name, NoMemory};
use ml_graph::{ModalGraph, Node};
use ml_sequent_solver::Terms;
use std::alloc::Global;

/// How many nodes a graph with copies may have.
const COPIES: usize = 20_000;

/// A graph with copies.
#[derive(Drop)]
pub(crate) struct Copied {
    pub graph: ModalGraph,
    /// Of each node the one of which it is a copy; `NONE` where no passage is left.
    pub from: Vec<u32>,
}

/// Copies as they are made. Each is a node with one more than the passages that are left of each odd priority, where these are
/// counted, and 0 elsewhere; or `NONE` alone, where no passage is left.
#[derive(Drop)]
struct Copying<'a> {
    t: &'a Terms<'a>,
    regions: &'a Regions,
    passages: u32,
    all: IndexSet<Vec<u32>>,
    nodes: Vec<Node>,
    priorities: Vec<u32>,
    from: Vec<u32>,
}

/// The same names.
fn copied_names(alloc: Global, names: &[Name]) -> Result<Vec<Name>, NoMemory>
    ensures { IfOk result (λ copy. copy.items ≡ names.now) }
{
    let mut copy = Vec::with_capacity(alloc, names.len())?;
    for name in names {
        copy.push(name.copy()?)?;
    }
    Ok(copy)
}

/// The same actions.
fn copied_actions(alloc: Global, actions: &[Action]) -> Result<Vec<Action>, NoMemory>
    ensures { IfOk result (λ copy. copy.items ≡ actions.now) }
{
    let mut copy = Vec::with_capacity(alloc, actions.len())?;
    for action in actions {
        copy.push(action.copy()?)?;
    }
    Ok(copy)
}

/// The graph of these nodes, with the names of another one.
fn graph_of(
    alloc: Global,
    graph: &ModalGraph,
    nodes: Vec<Node>,
    priorities: Vec<u32>,
) -> Result<Option<ModalGraph>, NoMemory> {
    let props = copied_names(alloc, graph.props())?;
    let actions = copied_actions(alloc, graph.actions())?;
    if nodes.len() > COPIES || priorities.len() != nodes.len() {
        return Ok(None);
    }
    match ModalGraph::build(nodes, priorities, 0, props, actions) {
        Ok(graph) => Ok(Some(graph)),
        Err(_) => Ok(None),
    }
}

/// The copy of a graph with so many passages of each priority that is counted; `None` where it is too large.
pub(crate) fn copy_of(
    t: &Terms,
    regions: &Regions,
    passages: u32,
) -> Result<Option<Copied>, NoMemory> {
    let mut copying = Copying {
        t,
        regions,
        passages,
        all: IndexSet::new(t.alloc),
        nodes: Vec::new(t.alloc),
        priorities: Vec::new(t.alloc),
        from: Vec::new(t.alloc),
    };
    if !copying.make_all()? {
        return Ok(None);
    }
    let Copying {
        nodes,
        priorities,
        from,
        ..
    } = copying;
    match graph_of(t.alloc, t.graph, nodes, priorities)? {
        Some(graph) => Ok(Some(Copied { graph, from })),
        None => Ok(None),
    }
}

impl<'a> Copying<'a> {
    /// Makes all copies, breadth first; tells whether they are few enough.
    fn make_all(&mut self) -> Result<bool, NoMemory> {
        let root = self.fresh(self.t.graph.root())?;
        self.all.insert(root)?;
        for i in 0..COPIES {
            let Some(key) = self.all.as_slice().get(i) else {
                return Ok(true);
            };
            let key = Vec::from_slice(self.t.alloc, key)?;
            self.make(&key)?;
        }
        Ok(false)
    }

    /// A node with all passages left.
    fn fresh(&self, n: u32) -> Result<Vec<u32>, NoMemory> {
        let mut key = vec![in self.t.alloc; n]?;
        for place in 0..self.regions.odds.len() {
            key.push(self.begin(place, n))?;
        }
        Ok(key)
    }

    /// What is counted where a component is entered.
    fn begin(&self, place: usize, n: u32) -> u32 {
        if self.regions.is_counted(place, n) {
            self.passages.saturating_add(1)
        } else {
            0
        }
    }

    fn make(&mut self, key: &[u32]) -> Result<(), NoMemory> {
        let n = number(key, 0);
        let node = if n == NONE {
            Node::False
        } else {
            self.node(key, self.t.node(n))?
        };
        self.nodes.push(node)?;
        let priority = self.priority(n);
        self.priorities.push(priority)?;
        self.from.push(n)?;
        Ok(())
    }

    /// A priority that is counted is no longer odd.
    fn priority(&self, n: u32) -> u32 {
        let own = priority(self.t, n);
        for (place, odd) in self.regions.odds.iter().enumerate() {
            if *odd == own && self.regions.is_counted(place, n) {
                return own.saturating_add(1);
            }
        }
        own
    }

    fn node(&mut self, key: &[u32], node: Node) -> Result<Node, NoMemory> {
        match node {
            Node::And { left, right } => {
                let left = self.next(key, left, false)?;
                let right = self.next(key, right, false)?;
                Ok(Node::And { left, right })
            }
            Node::Or { left, right } => {
                let left = self.next(key, left, false)?;
                let right = self.next(key, right, false)?;
                Ok(Node::Or { left, right })
            }
            Node::Diamond { action, to } => {
                let to = self.next(key, to, true)?;
                Ok(Node::Diamond { action, to })
            }
            Node::Square { action, to } => {
                let to = self.next(key, to, true)?;
                Ok(Node::Square { action, to })
            }
            _ => Ok(node),
        }
    }

    /// The copy of a node to which one refers.
    fn next(&mut self, key: &[u32], to: u32, is_modal: bool) -> Result<u32, NoMemory> {
        let mut next = vec![in self.t.alloc; to]?;
        for place in 0..self.regions.odds.len() {
            match self.left(key, place, to, is_modal) {
                Some(count) => next.push(count)?,
                None => return self.number(vec![in self.t.alloc; NONE]?),
            }
        }
        self.number(next)
    }

    fn number(&mut self, key: Vec<u32>) -> Result<u32, NoMemory> {
        let (number, _) = self.all.insert_full(key)?;
        Ok(small(number))
    }

    /// What is left of the passages of the odd priority at a place, and one; `None` where there are none.
    fn left(&self, key: &[u32], place: usize, to: u32, is_modal: bool) -> Option<u32> {
        let n = number(key, 0);
        if !self.regions.is_counted(place, to)
            || self.regions.of(place, to) != self.regions.of(place, n)
        {
            return Some(self.begin(place, to));
        }
        let before = number(key, small(place).saturating_add(1));
        let mut left = before;
        if priority(self.t, n) == number(&self.regions.odds, small(place)) {
            if before == 0 {
                return None;
            }
            left = before - 1;
        }
        if left == 0 && is_modal {
            return None;
        }
        Some(left)
    }
}
