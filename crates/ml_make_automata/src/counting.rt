// Counting automata: along each of its runs, how often an accepting arc was passed.
use crate::automata::{Arc, Automaton};
use crate::lessening::lessen;
use crate::shrinking::{shrink, tidy};
use crate::simulation::thin;
use ml_arrays::{flag, number, set_flag, small};
use ml_base::NoMemory;
use std::alloc::Global;

/// What an arc does to a counter.
#[derive(Clone, Copy, PartialEq, Eq)]
pub enum Count {
    /// It begins anew: the arc leads to another component, or within one where nothing accepts.
    Anew,
    /// It stays.
    Same,
    /// It grows: the arc accepts.
    More,
}

/// An arc of a state under a letter.
#[derive(Clone, Copy)]
pub struct CountingArc {
    pub to: u32,
    pub count: Count,
}

/// An automaton to be counted.
#[derive(Drop)]
pub struct Counting {
    pub states: usize,
    /// Where it starts; `NONE` where it accepts nothing.
    pub start: u32,
    /// The class of each letter.
    pub class_of: Vec<u32>,
    /// For each class and state its arcs.
    pub rows: Vec<Vec<Vec<CountingArc>>>,
    /// The states from which all words are accepted: they have an accepting arc to themselves under each letter.
    pub doomed: Vec<bool>,
}

impl Counting {
    /// The class of a letter: the set of inputs, and above its bits those of the set of outputs.
    ///
    /// Cost: constant.
    pub fn class(&self, letter: u32) -> u32 {
        number(&self.class_of, letter)
    }

    /// The arcs of a state under the letters of a class.
    ///
    /// Cost: constant.
    pub fn arcs(&self, class: u32, state: u32) -> &[CountingArc] {
        match self.rows.get(class as usize) {
            Some(row) => match row.get(state as usize) {
                Some(arcs) => arcs.as_slice(),
                None => &[],
            },
            None => &[],
        }
    }

    /// Counts on along the arcs of a state; tells whether no counter passes the most.
    fn step_state(&self, next: &mut [u8], class: u32, state: u32, counter: u8, most: u8) -> bool {
        for arc in self.arcs(class, state) {
            let value = match arc.count {
                Count::Anew => 1,
                Count::Same => counter,
                Count::More => counter.saturating_add(1),
            };
            if value > most || flag(&self.doomed, arc.to) {
                return false;
            }
            if let Some(place) = next.get_mut(arc.to as usize) {
                *place = value.max(*place);
            }
        }
        true
    }

    fn step_all(&self, position: &[u8], next: &mut [u8], class: u32, most: u8) -> bool {
        for (state, counter) in position.iter().enumerate() {
            if *counter > 0 && !self.step_state(next, class, small(state), *counter, most) {
                return false;
            }
        }
        true
    }

    /// The position behind a position, under the letters of a class; `None` where a counter would pass `most`, or where
    /// nothing can be saved any more.
    ///
    /// A position has a number for each state: 0 where no run is in it, and else 1 and the greatest counter of such a run.
    ///
    /// # Errors
    /// `NoMemory` alone.
    ///
    /// Cost: linear in the states, and in the arcs of those that runs are in.
    pub fn step(
        &self,
        alloc: Global,
        position: &[u8],
        class: u32,
        most: u8,
    ) -> Result<Option<Vec<u8>>, NoMemory> {
        let mut next = vec![in alloc; 0u8; self.states]?;
        if self.step_all(position, &mut next, class, most) {
            Ok(Some(next))
        } else {
            Ok(None)
        }
    }
}

/// Has each class an accepting arc from the state to itself?
fn is_doomed(automaton: &Automaton, state: usize) -> bool {
    for row in &automaton.rows {
        if !accepts_itself(row, state) {
            return false;
        }
    }
    true
}

fn accepts_itself(row: &[Vec<Arc>], state: usize) -> bool {
    let Some(arcs) = row.get(state) else {
        return false;
    };
    for arc in arcs {
        if arc.to as usize == state && arc.accepting {
            return true;
        }
    }
    false
}

/// Components, and whether an arc within them accepts.
#[derive(Drop)]
struct Counted {
    component: Vec<u32>,
    counts: Vec<bool>,
}

impl Counted {
    fn of(alloc: Global, automaton: &Automaton) -> Result<Counted, NoMemory> {
        let mut counted = Counted {
            component: automaton.components(alloc)?,
            counts: vec![in alloc; false; automaton.states]?,
        };
        counted.fill(automaton);
        Ok(counted)
    }

    fn fill(&mut self, automaton: &Automaton) {
        for row in &automaton.rows {
            for (state, arcs) in row.iter().enumerate() {
                for arc in arcs {
                    if arc.accepting {
                        let component = number(&self.component, small(state));
                        set_flag(&mut self.counts, component, true);
                    }
                }
            }
        }
    }

    fn count(&self, state: u32, arc: Arc) -> Count {
        let component = number(&self.component, state);
        if arc.accepting {
            Count::More
        } else if component == number(&self.component, arc.to) && flag(&self.counts, component) {
            Count::Same
        } else {
            Count::Anew
        }
    }

    fn counting_arcs(
        &self,
        alloc: Global,
        state: usize,
        arcs: &[Arc],
    ) -> Result<Vec<CountingArc>, NoMemory> {
        let mut list = Vec::with_capacity(alloc, arcs.len())?;
        for arc in arcs {
            list.push(CountingArc {
                to: arc.to,
                count: self.count(small(state), *arc),
            })?;
        }
        Ok(list)
    }

    fn counting_row(
        &self,
        alloc: Global,
        row: &[Vec<Arc>],
    ) -> Result<Vec<Vec<CountingArc>>, NoMemory> {
        let mut list = Vec::with_capacity(alloc, row.len())?;
        for (state, arcs) in row.iter().enumerate() {
            list.push(self.counting_arcs(alloc, state, arcs)?)?;
        }
        Ok(list)
    }

    fn write_rows(
        &self,
        alloc: Global,
        automaton: &Automaton,
        rows: &mut Vec<Vec<Vec<CountingArc>>>,
    ) -> Result<(), NoMemory> {
        for row in &automaton.rows {
            rows.push(self.counting_row(alloc, row)?)?;
        }
        Ok(())
    }
}

fn write_doomed(automaton: &Automaton, doomed: &mut Vec<bool>) -> Result<(), NoMemory> {
    for state in 0..automaton.states {
        doomed.push(is_doomed(automaton, state))?;
    }
    Ok(())
}

/// Makes an automaton smaller; tells whether that was done.
fn reduce(alloc: Global, automaton: &mut Automaton) -> Result<bool, NoMemory> {
    if !shrink(alloc, automaton)? {
        return Ok(false);
    }
    lessen(alloc, automaton)?;
    if !shrink(alloc, automaton)? {
        return Ok(false);
    }
    thin(alloc, automaton)?;
    tidy(alloc, automaton)?;
    Ok(true)
}

fn fill(alloc: Global, automaton: &Automaton, counting: &mut Counting) -> Result<(), NoMemory> {
    let counted = Counted::of(alloc, automaton)?;
    counted.write_rows(alloc, automaton, &mut counting.rows)?;
    counting.class_of.extend_from_slice(&automaton.class_of)?;
    write_doomed(automaton, &mut counting.doomed)
}

/// An automaton made smaller and ready to be counted; `None` where it is too large.
pub(crate) fn counting_of(
    alloc: Global,
    mut automaton: Automaton,
) -> Result<Option<Counting>, NoMemory> {
    if !reduce(alloc, &mut automaton)? {
        return Ok(None);
    }
    let mut counting = Counting {
        states: automaton.states,
        start: automaton.start,
        class_of: Vec::new(alloc),
        rows: Vec::new(alloc),
        doomed: Vec::new(alloc),
    };
    fill(alloc, &automaton, &mut counting)?;
    Ok(Some(counting))
}
