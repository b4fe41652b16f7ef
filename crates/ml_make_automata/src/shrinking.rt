// Automata with fewer states: those from which nothing is accepted go, and those with equal arcs are merged.
use crate::automata::{Arc, Automaton, add_arc, arcs_in, write_signature};
use indexmap::IndexSet;
use ml_arrays::{Components, NONE, empty_rows, number, small};
use ml_base::NoMemory;
use std::alloc::Global;

/// How many arcs are read at most to find which states are alike.
const MOST_READ: u64 = 200_000_000;

/// Classes of states, those that go having none.
#[derive(Drop)]
struct Merging {
    class: Vec<u32>,
    classes: usize,
    alloc: Global,
}

impl Merging {
    fn new(alloc: Global, live: &[bool]) -> Result<Merging, NoMemory> {
        let mut merging = Merging {
            class: Vec::new(alloc),
            classes: 1,
            alloc,
        };
        merging.begin(live)?;
        Ok(merging)
    }

    fn begin(&mut self, live: &[bool]) -> Result<(), NoMemory> {
        for is_live in live {
            self.class.push(if *is_live { 0 } else { NONE })?;
        }
        Ok(())
    }

    /// Writes where the arcs of a state lead, by classes.
    fn write_arcs(&self, arcs: &[Arc], merged: &mut Vec<Arc>) -> Result<(), NoMemory> {
        for arc in arcs {
            let to = number(&self.class, arc.to);
            if to != NONE {
                add_arc(
                    merged,
                    Arc {
                        to,
                        accepting: arc.accepting,
                    },
                )?;
            }
        }
        Ok(())
    }

    /// Writes a signature of where the arcs of a state lead, by classes.
    fn write_classes_behind(
        &self,
        automaton: &Automaton,
        state: usize,
        arcs: &mut Vec<Arc>,
        signature: &mut Vec<u32>,
    ) -> Result<(), NoMemory> {
        for list in &automaton.rows {
            arcs.clear();
            self.write_arcs(arcs_in(list, state), arcs)?;
            write_signature(arcs, signature)?;
        }
        Ok(())
    }

    /// The class of a state by where its arcs lead.
    fn class_of(
        &self,
        automaton: &Automaton,
        state: usize,
        arcs: &mut Vec<Arc>,
        signatures: &mut IndexSet<Vec<u32>>,
    ) -> Result<u32, NoMemory> {
        let mut signature = Vec::new(self.alloc);
        self.write_classes_behind(automaton, state, arcs, &mut signature)?;
        let (class, _) = signatures.insert_full(signature)?;
        Ok(small(class))
    }

    fn write_classes(
        &self,
        automaton: &Automaton,
        signatures: &mut IndexSet<Vec<u32>>,
        classes: &mut Vec<u32>,
    ) -> Result<(), NoMemory> {
        let mut arcs = Vec::new(self.alloc);
        for (state, class) in self.class.iter().enumerate() {
            let new = if *class == NONE {
                NONE
            } else {
                self.class_of(automaton, state, &mut arcs, signatures)?
            };
            classes.push(new)?;
        }
        Ok(())
    }

    /// Takes classes apart whose arcs lead to different ones; tells whether there are more now.
    fn refine(&mut self, automaton: &Automaton) -> Result<bool, NoMemory> {
        let mut signatures = IndexSet::new(self.alloc);
        let mut classes = Vec::with_capacity(self.alloc, self.class.len())?;
        self.write_classes(automaton, &mut signatures, &mut classes)?;
        self.class = classes;
        let more = signatures.len() != self.classes;
        self.classes = signatures.len();
        Ok(more)
    }

    /// Tells whether the classes are stable.
    fn refine_all(&mut self, automaton: &Automaton, size: u64) -> Result<bool, NoMemory> {
        let mut left = MOST_READ;
        for _ in 0..automaton.states.saturating_add(1) {
            if !self.refine(automaton)? {
                return Ok(true);
            }
            if left < size {
                return Ok(false);
            }
            left = left.saturating_sub(size);
        }
        Ok(true)
    }

    fn write_row(&self, old: &[Vec<Arc>], new: &mut [Vec<Arc>]) -> Result<(), NoMemory> {
        for (state, arcs) in old.iter().enumerate() {
            let class = number(&self.class, small(state));
            if let Some(merged) = new.get_mut(class as usize) {
                if merged.is_empty() {
                    self.write_arcs(arcs, merged)?;
                }
            }
        }
        Ok(())
    }

    fn merged_row(&self, old: &[Vec<Arc>]) -> Result<Vec<Vec<Arc>>, NoMemory> {
        let mut new = empty_rows(self.alloc, self.classes)?;
        self.write_row(old, &mut new)?;
        Ok(new)
    }

    fn merge(&self, automaton: &mut Automaton) -> Result<(), NoMemory> {
        for list in automaton.rows.iter_mut() {
            *list = self.merged_row(list)?;
        }
        automaton.start = number(&self.class, automaton.start);
        automaton.states = self.classes;
        Ok(())
    }
}

/// How many arcs an automaton has.
pub(crate) fn size(automaton: &Automaton) -> u64 {
    let mut size: u64 = 0;
    for row in &automaton.rows {
        for arcs in row {
            size = size.saturating_add(arcs.len() as u64).saturating_add(1);
        }
    }
    size
}

/// Only arcs within components accept.
pub(crate) fn tidy(alloc: Global, automaton: &mut Automaton) -> Result<(), NoMemory> {
    let component = automaton.components(alloc)?;
    automaton.accept_within(&component);
    Ok(())
}

/// The states from which something is accepted, where only arcs within components accept.
fn live_states(alloc: Global, automaton: &Automaton) -> Result<Vec<bool>, NoMemory> {
    let mut live = automaton.accepting(alloc)?;
    let digraph = automaton.digraph(alloc)?;
    let components = Components::of_graph(alloc, &digraph)?;
    components.flag_back(&digraph, &mut live);
    Ok(live)
}

/// Leaves out states from which nothing is accepted, and merges those with equal arcs; tells whether that was done.
pub(crate) fn shrink(alloc: Global, automaton: &mut Automaton) -> Result<bool, NoMemory> {
    tidy(alloc, automaton)?;
    let live = live_states(alloc, automaton)?;
    let mut merging = Merging::new(alloc, &live)?;
    let size = size(automaton);
    if !merging.refine_all(automaton, size)? {
        return Ok(false);
    }
    merging.merge(automaton)?;
    tidy(alloc, automaton)?;
    Ok(true)
}
