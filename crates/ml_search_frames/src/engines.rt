// The search as a whole: the path grows or is taken back, until a lasso closes or nothing is left.
use crate::paths::Path;
use ml_arrays::{NONE, ascend, row};
use ml_base::NoMemory;
use ml_candidates::Candidate;
use ml_graph::{ModalGraph, Node};
use ml_search_cores::{Knowledge, steps_of};
use ml_sequent_solver::Outcome;
use std::alloc::Global;

/// A sequent at which a thread is to be ended within so many steps, and the leaf that was found there.
#[derive(Drop)]
pub(crate) struct Stage {
    pub nodes: Vec<u32>,
    pub level: u32,
    /// The positive literals of the leaf.
    pub labels: Vec<u32>,
    /// The threads that go on from it.
    pub on: Vec<u32>,
}

/// The search in a graph.
#[derive(Drop)]
pub(crate) struct Engine<'a> {
    pub known: Knowledge<'a>,
    pub path: Path,
    pub stack: Vec<Stage>,
    /// The squares along which the thread that is sought to be ended would go on.
    pub later: Vec<u32>,
}

/// What the search came to.
#[derive(Clone, Copy)]
pub(crate) enum Verdict {
    /// The last place leads back to this one.
    Lasso(u32),
    /// The root is refuted.
    Refuted,
    GaveUp,
}

/// What came of a sequent at which a thread is to be ended.
#[derive(Clone, Copy)]
pub(crate) enum Reached {
    /// The stages lead to a leaf that ends it.
    Found,
    /// The sequent is refuted.
    Refuted,
    /// It can't be ended within so many steps.
    Blocked,
    /// Enough was done.
    Out,
}

impl<'a> Engine<'a> {
    /// Nothing is known yet.
    pub(crate) fn empty(alloc: Global, graph: &'a ModalGraph, limit: u32) -> Engine<'a> {
        Engine {
            known: Knowledge::empty(alloc, graph, steps_of(limit)),
            path: Path::empty(alloc),
            stack: Vec::new(alloc),
            later: Vec::new(alloc),
        }
    }

    /// The search, if the graph is one of those.
    pub(crate) fn run(&mut self) -> Result<Option<Candidate>, NoMemory> {
        if !has_one_diamond(self.known.terms.graph) {
            return Ok(None);
        }
        self.known.terms.fill()?;
        if !self.fits() {
            return Ok(None);
        }
        self.begin()?;
        match self.search()? {
            Verdict::Lasso(back) => self.model(back),
            Verdict::Refuted => self.known.refutation(),
            Verdict::GaveUp => Ok(None),
        }
    }

    /// Stands the one diamond in each sequent, and does each thread stay at one node?
    fn fits(&self) -> bool {
        let terms = &self.known.terms;
        if terms.always == NONE || !terms.traces.is_weak || terms.traces.has_local_cycles {
            return false;
        }
        for n in 0..terms.size {
            let to = match terms.node(n) {
                Node::Diamond { to, .. } | Node::Square { to, .. } => to,
                _ => continue,
            };
            if terms.threads(n, to) && !terms.traces.is_simple(to) {
                return false;
            }
        }
        true
    }

    /// The path begins at the root.
    fn begin(&mut self) -> Result<(), NoMemory> {
        let alloc = self.known.terms.alloc;
        self.known.fill()?;
        let root = self.known.terms.graph.root();
        self.path.begin(&self.known.terms, vec![in alloc; root]?)
    }

    /// Rounds, until something is found or enough is done.
    fn search(&mut self) -> Result<Verdict, NoMemory> {
        for _ in 0..u64::MAX {
            if let Some(verdict) = self.round()? {
                return Ok(verdict);
            }
        }
        Ok(Verdict::GaveUp)
    }

    /// The path grows by some steps, or is taken back by one.
    fn round(&mut self) -> Result<Option<Verdict>, NoMemory> {
        if self.path.places.is_empty() {
            return Ok(Some(Verdict::Refuted));
        }
        self.known.spend(self.path.places.len());
        let thread = self.path.oldest(&self.known.terms);
        let reached = if thread == NONE {
            self.step_on()?
        } else {
            self.reach(thread)?
        };
        match reached {
            Reached::Found => self.adopt(),
            Reached::Refuted => {
                let _ = self.path.places.pop();
                Ok(None)
            }
            Reached::Blocked => self.walk(thread),
            Reached::Out => Ok(Some(Verdict::GaveUp)),
        }
    }

    /// Any leaf at the last place.
    fn step_on(&mut self) -> Result<Reached, NoMemory> {
        self.known.take_good()?;
        self.stand_at_last(0)?;
        match self.known.query(self.path.last(), &[], NONE)? {
            Outcome::Leaf => {
                self.note_leaf(0)?;
                Ok(Reached::Found)
            }
            Outcome::Closed => {
                self.known.learn()?;
                Ok(Reached::Refuted)
            }
            Outcome::Out => Ok(Reached::Out),
        }
    }

    /// The stages begin with the sequent of the last place.
    pub(crate) fn stand_at_last(&mut self, level: u32) -> Result<(), NoMemory> {
        let alloc = self.known.terms.alloc;
        self.stack.clear();
        self.stack.push(Stage {
            nodes: Vec::from_slice(alloc, self.path.last())?,
            level,
            labels: Vec::new(alloc),
            on: Vec::new(alloc),
        })?;
        Ok(())
    }

    /// Notes the leaf at which the branch stands, with a stage for its next sequent.
    pub(crate) fn note_leaf(&mut self, level: u32) -> Result<(), NoMemory> {
        self.known.solver.save_phases();
        let alloc = self.known.terms.alloc;
        let mut next = Stage {
            nodes: Vec::new(alloc),
            level,
            labels: Vec::new(alloc),
            on: Vec::new(alloc),
        };
        self.write_targets(&mut next.nodes)?;
        self.known.spend(next.nodes.len());
        self.write_leaf(&next.nodes)?;
        self.stack.push(next)?;
        Ok(())
    }

    /// The targets of the squares that stand, ascending.
    fn write_targets(&self, nodes: &mut Vec<u32>) -> Result<(), NoMemory> {
        for n in &self.known.solver.branch.modals {
            if let Node::Square { to, .. } = self.known.terms.node(*n) {
                if self.known.terms.node(to) != Node::True {
                    nodes.push(to)?;
                }
            }
        }
        ascend(nodes);
        Ok(())
    }

    /// Writes labels and threads of the leaf into the last stage.
    fn write_leaf(&mut self, nodes: &[u32]) -> Result<(), NoMemory> {
        let Some(stage) = self.stack.last_mut() else {
            return Ok(());
        };
        let known = &self.known;
        known
            .solver
            .branch
            .write_labels(&known.terms, &mut stage.labels)?;
        write_threads(known, nodes, &mut stage.on)
    }

    /// The stages become places of the path.
    fn adopt(&mut self) -> Result<Option<Verdict>, NoMemory> {
        for i in 1..self.stack.len() {
            if let Some(back) = self.adopt_one(i)? {
                return Ok(Some(Verdict::Lasso(back)));
            }
        }
        Ok(None)
    }

    fn adopt_one(&mut self, i: usize) -> Result<Option<u32>, NoMemory> {
        let alloc = self.known.terms.alloc;
        self.known.spend(self.path.places.len());
        let Some(stage) = self.stack.get_mut(i.saturating_sub(1)) else {
            return Ok(None);
        };
        let labels = std::mem::replace(&mut stage.labels, Vec::new(alloc));
        let on = std::mem::replace(&mut stage.on, Vec::new(alloc));
        let Some(stage) = self.stack.get_mut(i) else {
            return Ok(None);
        };
        let nodes = std::mem::replace(&mut stage.nodes, Vec::new(alloc));
        self.path.go(&self.known.terms, labels, &on, nodes)
    }

    /// One step to where it isn't known that the thread can't be ended.
    fn walk(&mut self, thread: u32) -> Result<Option<Verdict>, NoMemory> {
        let level = self
            .known
            .blocked(thread, self.path.last())
            .saturating_sub(1);
        for i in 0..2 {
            self.stand_at_last(0)?;
            self.known.set_level(level.saturating_add(i));
            let outcome = self.known.query(self.path.last(), &[], thread)?;
            if outcome == Outcome::Leaf {
                self.note_leaf(0)?;
                return self.adopt();
            }
        }
        Ok(Some(Verdict::GaveUp))
    }
}

/// Has the graph one diamond?
fn has_one_diamond(graph: &ModalGraph) -> bool {
    let mut diamonds: u32 = 0;
    for node in graph.nodes() {
        if let Node::Diamond { .. } = node {
            diamonds = diamonds.saturating_add(1);
        }
    }
    diamonds == 1
}

/// Writes the threads among next nodes that go on.
fn write_threads(known: &Knowledge, nodes: &[u32], on: &mut Vec<u32>) -> Result<(), NoMemory> {
    on.clear();
    for n in nodes {
        if known.terms.component(*n) != 0 && goes_on(known, *n) {
            on.push(*n)?;
        }
    }
    Ok(())
}

/// Does a thread go on along a square that stands?
fn goes_on(known: &Knowledge, n: u32) -> bool {
    for square in row(&known.terms.squares_to, n) {
        if known.terms.threads(*square, n) && known.solver.branch.stands(*square) {
            return true;
        }
    }
    false
}
