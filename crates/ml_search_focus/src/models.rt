// The structure of the leaves that end threads.
use crate::engines::Engine;
use crate::leaves::{Go, Leaf};
use indexmap::IndexSet;
use ml_arrays::{NONE, ascend, small};
use ml_base::NoMemory;
use ml_candidates::{Candidate, ModelParts};
use ml_graph::Node;

/// How many states a structure may have.
const STATES: usize = 200_000;

/// A state: a sequent, the thread that is ended first, and those that wait.
type State = (u32, u32, Vec<u32>);

/// States as they are found, with labels and edges.
#[derive(Drop)]
struct States {
    all: IndexSet<State>,
    parts: ModelParts,
}

/// Writes where threads that wait go along a diamond, ascending.
fn write_waiting(go: &Go, waiting: &[u32], next: &mut Vec<u32>) -> Result<(), NoMemory> {
    for thread in waiting {
        let on = go.thread(*thread);
        if on != NONE {
            next.push(on)?;
        }
    }
    ascend(next);
    Ok(())
}

/// Takes the first number out, if there is one.
fn take_first(numbers: &mut Vec<u32>) -> u32 {
    match numbers.first().copied() {
        Some(first) => {
            let _ = numbers.remove(0);
            first
        }
        None => NONE,
    }
}

impl<'a> Engine<'a> {
    /// The structure of the solved pairs.
    pub(crate) fn model(&mut self) -> Result<Option<Candidate>, NoMemory> {
        let alloc = self.known.terms.alloc;
        let mut states = States {
            all: IndexSet::new(alloc),
            parts: ModelParts::empty(alloc),
        };
        let start = self.fresh(0)?;
        states.all.insert(start)?;
        if !self.find_states(&mut states)? {
            return Ok(None);
        }
        let States { all, parts } = states;
        parts.candidate(alloc, small(all.len()))
    }

    /// A sequent of whose threads none is ended yet.
    fn fresh(&self, sequent: u32) -> Result<State, NoMemory> {
        let mut threads = Vec::new(self.known.terms.alloc);
        self.write_threads(sequent, &mut threads)?;
        let first = take_first(&mut threads);
        Ok((sequent, first, threads))
    }

    /// All states that are found from the first one; tells whether there are few enough.
    fn find_states(&mut self, states: &mut States) -> Result<bool, NoMemory> {
        self.known.refuel();
        for state in 0..STATES {
            if self.known.is_out() {
                return Ok(false);
            }
            if state >= states.all.len() {
                return Ok(true);
            }
            if !self.push_state(state, states)? {
                return Ok(false);
            }
        }
        Ok(false)
    }

    /// Adds labels and edges of a state; tells whether its leaf is known.
    fn push_state(&mut self, state: usize, states: &mut States) -> Result<bool, NoMemory> {
        let alloc = self.known.terms.alloc;
        let Some((sequent, thread, waiting)) = states.all.as_slice().get(state) else {
            return Ok(false);
        };
        let (sequent, thread) = (*sequent, *thread);
        let waiting = Vec::from_slice(alloc, waiting)?;
        self.known.spend(waiting.len());
        match self.pairs.leaf((sequent, thread)) {
            Some(leaf) => {
                self.push_leaf(small(state), leaf, thread, &waiting, states)?;
                Ok(true)
            }
            None => Ok(false),
        }
    }

    fn push_leaf(
        &self,
        state: u32,
        leaf: &Leaf,
        thread: u32,
        waiting: &[u32],
        states: &mut States,
    ) -> Result<(), NoMemory> {
        let t = &self.known.terms;
        states.parts.push_labels(t.graph, state, &leaf.labels)?;
        for go in &leaf.gos {
            let next = self.next(go, thread, waiting)?;
            let (target, _) = states.all.insert_full(next)?;
            if let Node::Diamond { action, .. } = t.node(go.diamond) {
                states
                    .parts
                    .push_edge(t.graph, state, action, small(target))?;
            }
        }
        Ok(())
    }

    /// The next state along a diamond.
    fn next(&self, go: &Go, thread: u32, waiting: &[u32]) -> Result<State, NoMemory> {
        let mut rest = Vec::new(self.known.terms.alloc);
        write_waiting(go, waiting, &mut rest)?;
        let on = if thread == NONE {
            NONE
        } else {
            go.thread(thread)
        };
        if on != NONE {
            rest.retain(|other| *other != on);
            return Ok((go.to, on, rest));
        }
        if rest.is_empty() {
            return self.fresh(go.to);
        }
        let first = take_first(&mut rest);
        Ok((go.to, first, rest))
    }
}
