// The search as a whole: what is required is walked again and again, until all of it is ended, or the root is refuted.
use crate::blocking::Call;
use crate::leaves::{Leaf, is_thread_step, write_leaf};
use crate::pairs::Pairs;
use crate::sequents::Sequents;
use crate::trials::{Sought, Trial};
use ml_arrays::{NONE, NumberSet, small};
use ml_base::NoMemory;
use ml_graph::ModalGraph;
use ml_search_cores::{Concluded, Knowledge};
use ml_sequent_solver::{Outcome, Terms};
use std::alloc::Global;

/// The search in a graph.
#[derive(Drop)]
pub(crate) struct Engine<'a> {
    pub known: Knowledge<'a>,
    pub sequents: Sequents,
    pub pairs: Pairs,
    pub calls: Vec<Call>,
    /// The modal nodes along which threads of a component go on.
    pub later: Vec<u32>,
    /// How many cores for good were known when pairs were taken back.
    cleaned: usize,
    /// The sequents that are required, in the order in which they are met.
    required: NumberSet,
    /// A thread that goes to two nodes along a diamond, or `NONE`.
    splits: u32,
}

/// What came of a thread at a sequent.
#[derive(Clone, Copy, PartialEq, Eq)]
pub(crate) enum Reached {
    /// It is ended.
    Won,
    /// It can't be ended within so many steps.
    Blocked,
    /// The sequent is refuted.
    Refuted,
    /// Enough was done, or a thread goes to two nodes.
    Out,
}

/// What the search came to.
#[derive(Clone, Copy, PartialEq, Eq)]
enum Verdict {
    Satisfiable,
    Refuted,
    GaveUp,
    /// More is known.
    Again,
    /// This is done.
    GoesOn,
}

impl<'a> Engine<'a> {
    /// Nothing is known yet.
    pub(crate) fn empty(alloc: Global, graph: &'a ModalGraph, steps: u64) -> Engine<'a> {
        Engine {
            known: Knowledge::empty(alloc, graph, steps),
            sequents: Sequents::empty(alloc),
            pairs: Pairs::empty(alloc),
            calls: Vec::new(alloc),
            later: Vec::new(alloc),
            cleaned: 0,
            required: NumberSet::empty(alloc),
            splits: NONE,
        }
    }

    /// The search, if the graph is one of those.
    pub(crate) fn run(&mut self) -> Result<Trial, NoMemory> {
        self.known.terms.fill()?;
        let traces = &self.known.terms.traces;
        if !traces.is_weak || traces.has_local_cycles {
            return Ok(Trial {
                sought: Sought::NotWeak,
                spent: 0,
            });
        }
        self.known.fill()?;
        let verdict = self.search()?;
        let searched = self.known.spent();
        let sought = self.answer(verdict)?;
        Ok(Trial {
            sought,
            spent: searched.saturating_add(self.made(verdict)),
        })
    }

    /// How much was done to make what may be an answer.
    fn made(&self, verdict: Verdict) -> u64 {
        match verdict {
            Verdict::Satisfiable | Verdict::Refuted => self.known.spent(),
            _ => 0,
        }
    }

    /// What the search came to.
    fn answer(&mut self, verdict: Verdict) -> Result<Sought, NoMemory> {
        let made = match verdict {
            Verdict::Satisfiable => self.model()?,
            Verdict::Refuted => self.known.refutation()?,
            _ => None,
        };
        match made {
            Some(candidate) => Ok(Sought::Found(candidate)),
            None if self.splits != NONE => Ok(Sought::Splits(self.splits)),
            None => Ok(Sought::GaveUp),
        }
    }

    fn search(&mut self) -> Result<Verdict, NoMemory> {
        let alloc = self.known.terms.alloc;
        let root = self.known.terms.graph.root();
        let start = self.sequents.number(vec![in alloc; root]?)?;
        for _ in 0..u64::MAX {
            self.clean()?;
            if self.sequents.is_refuted(&mut self.known, start) {
                return Ok(Verdict::Refuted);
            }
            match self.walk(start)? {
                Verdict::Again => {}
                verdict => return Ok(verdict),
            }
        }
        Ok(Verdict::GaveUp)
    }

    /// Pairs that lead to refuted sequents are taken back.
    fn clean(&mut self) -> Result<(), NoMemory> {
        if self.cleaned >= self.known.good.len() {
            return Ok(());
        }
        self.cleaned = self.known.good.len();
        for sequent in 0..small(self.sequents.len()) {
            if self.sequents.is_refuted(&mut self.known, sequent) {
                self.pairs.forget(sequent)?;
            }
        }
        Ok(())
    }

    /// Walks what is required; stops where more is known.
    fn walk(&mut self, start: u32) -> Result<Verdict, NoMemory> {
        self.required.clear();
        self.required.insert(start)?;
        for i in 0..usize::MAX {
            let Some(sequent) = self.required.list().get(i).copied() else {
                break;
            };
            match self.visit(sequent)? {
                Verdict::GoesOn => {}
                verdict => return Ok(verdict),
            }
        }
        Ok(Verdict::Satisfiable)
    }

    /// Each thread of a required sequent has to be ended.
    fn visit(&mut self, sequent: u32) -> Result<Verdict, NoMemory> {
        let mut threads = Vec::new(self.known.terms.alloc);
        self.write_threads(sequent, &mut threads)?;
        self.visit_threads(sequent, &threads)
    }

    /// Writes the threads of a sequent, or `NONE` where it has none.
    pub(crate) fn write_threads(
        &self,
        sequent: u32,
        threads: &mut Vec<u32>,
    ) -> Result<(), NoMemory> {
        for n in self.sequents.nodes(sequent) {
            if self.known.terms.component(*n) != 0 {
                threads.push(*n)?;
            }
        }
        if threads.is_empty() {
            threads.push(NONE)?;
        }
        Ok(())
    }

    fn visit_threads(&mut self, sequent: u32, threads: &[u32]) -> Result<Verdict, NoMemory> {
        for thread in threads {
            match self.visit_thread(sequent, *thread)? {
                Verdict::GoesOn => {}
                verdict => return Ok(verdict),
            }
        }
        Ok(Verdict::GoesOn)
    }

    fn visit_thread(&mut self, sequent: u32, thread: u32) -> Result<Verdict, NoMemory> {
        if self.known.is_out() {
            return Ok(Verdict::GaveUp);
        }
        if !self.pairs.is_solved((sequent, thread)) {
            let known = self.known.good.len();
            let reached = if thread == NONE {
                self.end_none(sequent)?
            } else {
                self.reach(sequent, thread)?
            };
            if reached == Reached::Out {
                return Ok(Verdict::GaveUp);
            }
            if self.known.good.len() != known {
                return Ok(Verdict::Again);
            }
        }
        self.follow(sequent, thread)
    }

    /// What a solved pair leads to is required.
    fn follow(&mut self, sequent: u32, thread: u32) -> Result<Verdict, NoMemory> {
        let mut next = Vec::new(self.known.terms.alloc);
        self.write_next(sequent, thread, &mut next)?;
        if !self.pairs.is_solved((sequent, thread)) {
            return Ok(Verdict::Again);
        }
        for to in &next {
            self.required.insert(*to)?;
        }
        Ok(Verdict::GoesOn)
    }

    fn write_next(
        &mut self,
        sequent: u32,
        thread: u32,
        next: &mut Vec<u32>,
    ) -> Result<(), NoMemory> {
        self.known.spend(1);
        if let Some(leaf) = self.pairs.leaf((sequent, thread)) {
            for go in &leaf.gos {
                next.push(go.to)?;
            }
        }
        Ok(())
    }

    /// Any leaf of a sequent without threads.
    fn end_none(&mut self, sequent: u32) -> Result<Reached, NoMemory> {
        self.known.take_good()?;
        match self.known.query(self.sequents.nodes(sequent), &[], NONE)? {
            Outcome::Leaf => match self.leaf(sequent)? {
                Some(leaf) => {
                    self.pairs.solve((sequent, NONE), leaf)?;
                    Ok(Reached::Won)
                }
                None => Ok(Reached::Out),
            },
            Outcome::Closed => {
                self.known.learn()?;
                Ok(Reached::Refuted)
            }
            Outcome::Out => Ok(Reached::Out),
        }
    }

    /// The leaf at which the branch stands; `None` where a thread goes to two nodes.
    pub(crate) fn leaf(&mut self, sequent: u32) -> Result<Option<Leaf>, NoMemory> {
        self.known.solver.save_phases();
        let alloc = self.known.terms.alloc;
        let steps = self.known.solver.branch.modals.len();
        self.known.spend(steps);
        let mut leaf = Leaf {
            labels: Vec::new(alloc),
            gos: Vec::new(alloc),
        };
        self.splits = write_leaf(&self.known, &mut self.sequents, sequent, &mut leaf)?;
        Ok(if self.splits == NONE {
            Some(leaf)
        } else {
            None
        })
    }

    /// Seeks to end a thread of a sequent, within more and more steps.
    fn reach(&mut self, sequent: u32, thread: u32) -> Result<Reached, NoMemory> {
        let component = self.known.terms.component(thread);
        self.take_component(component)?;
        let mut level = self.known.blocked(thread, self.sequents.nodes(sequent));
        for _ in 0..u64::MAX {
            match self.block(sequent, thread, level)? {
                Reached::Blocked => {}
                reached => return Ok(reached),
            }
            self.known.push(component, level)?;
            match self.known.conclude(thread, self.sequents.nodes(sequent))? {
                Concluded::Settled => return Ok(Reached::Refuted),
                Concluded::Out => return Ok(Reached::Out),
                Concluded::Open => {}
            }
            if self.sequents.is_refuted(&mut self.known, sequent) {
                return Ok(Reached::Refuted);
            }
            level = level.saturating_add(1).max(level.saturating_mul(3) / 2);
        }
        Ok(Reached::Out)
    }

    /// The frames of a component are active.
    fn take_component(&mut self, component: u32) -> Result<(), NoMemory> {
        write_steps(&self.known.terms, component, &mut self.later)?;
        self.known.take_frames(component)
    }
}

/// Writes the modal nodes along which threads of a component go on.
fn write_steps(t: &Terms, component: u32, steps: &mut Vec<u32>) -> Result<(), NoMemory> {
    steps.clear();
    for n in 0..t.size {
        if t.component(n) == component && is_thread_step(t, n) {
            steps.push(n)?;
        }
    }
    Ok(())
}
