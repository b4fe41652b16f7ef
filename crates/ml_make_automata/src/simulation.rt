// Direct simulation: a state lies below another one if it accepts, move by move, what that accepts. Beside an arc to the
// lower one the arc to the other isn't needed.
use crate::automata::{Arc, Automaton, arcs_in};
use ml_arrays::small;
use ml_base::NoMemory;
use std::alloc::Global;

/// How large an automaton may be: the square of its states, for each class of letters.
const MOST: u64 = 4_000_000;

/// How many pairs of arcs are compared at most.
const MOST_COMPARED: u64 = 200_000_000;

/// Pairs of states, the first one below the second.
#[derive(Drop)]
struct Below {
    states: usize,
    pairs: Vec<bool>,
    /// How many pairs of arcs may still be compared.
    left: u64,
}

impl Below {
    fn place(&self, lower: u32, upper: u32) -> usize {
        (lower as usize)
            .saturating_mul(self.states)
            .saturating_add(upper as usize)
    }

    fn has(&self, lower: u32, upper: u32) -> bool {
        match self.pairs.get(self.place(lower, upper)) {
            Some(has) => *has,
            None => false,
        }
    }

    fn remove(&mut self, lower: u32, upper: u32) {
        let place = self.place(lower, upper);
        if let Some(has) = self.pairs.get_mut(place) {
            *has = false;
        }
    }

    /// Has one of the lower state's arcs what this arc has?
    fn has_arc(&self, arcs: &[Arc], arc: Arc) -> bool {
        for other in arcs {
            if (other.accepting || !arc.accepting)
                && (other.to == arc.to || self.has(other.to, arc.to))
            {
                return true;
            }
        }
        false
    }

    fn has_arcs(&self, lower: &[Arc], upper: &[Arc]) -> bool {
        for arc in upper {
            if !self.has_arc(lower, *arc) {
                return false;
            }
        }
        true
    }

    fn is_below(&mut self, automaton: &Automaton, lower: u32, upper: u32) -> bool {
        for row in &automaton.rows {
            let (less, more) = (arcs_in(row, lower as usize), arcs_in(row, upper as usize));
            let pairs = less.len().saturating_add(1).saturating_mul(more.len());
            self.left = self.left.saturating_sub(pairs as u64).saturating_sub(1);
            if !self.has_arcs(less, more) {
                return false;
            }
        }
        true
    }

    /// Removes the pairs of a lower state that aren't such; tells whether there were some.
    fn refine_state(&mut self, automaton: &Automaton, lower: u32) -> bool {
        let mut changed = false;
        for upper in 0..small(self.states) {
            if lower != upper && self.has(lower, upper) && !self.is_below(automaton, lower, upper) {
                self.remove(lower, upper);
                changed = true;
            }
        }
        changed
    }

    fn refine(&mut self, automaton: &Automaton) -> bool {
        let mut changed = false;
        for lower in 0..small(self.states) {
            if self.left > 0 && self.refine_state(automaton, lower) {
                changed = true;
            }
        }
        changed
    }

    /// Removes pairs until nothing changes; tells whether that came to its end.
    fn refine_all(&mut self, automaton: &Automaton) -> bool {
        // each time but the last one there is a pair less
        for _ in 0..self.pairs.len().saturating_add(1) {
            if !self.refine(automaton) {
                break;
            }
        }
        self.left > 0
    }

    /// Is an arc needless beside another one?
    fn makes_needless(&self, other: Arc, arc: Arc) -> bool {
        other.to != arc.to
            && (other.accepting || !arc.accepting)
            && self.has(other.to, arc.to)
            && (!self.has(arc.to, other.to)
                || other.to < arc.to
                || (other.accepting && !arc.accepting))
    }

    fn is_needless(&self, arcs: &[Arc], arc: Arc) -> bool {
        for other in arcs {
            if self.makes_needless(*other, arc) {
                return true;
            }
        }
        false
    }

    fn needed(&self, alloc: Global, arcs: &[Arc]) -> Result<Vec<Arc>, NoMemory> {
        let mut needed = Vec::new(alloc);
        for arc in arcs {
            if !self.is_needless(arcs, *arc) {
                needed.push(*arc)?;
            }
        }
        Ok(needed)
    }
}

fn thin_row(alloc: Global, below: &Below, row: &mut [Vec<Arc>]) -> Result<(), NoMemory> {
    for arcs in row.iter_mut() {
        *arcs = below.needed(alloc, arcs)?;
    }
    Ok(())
}

fn thin_by(alloc: Global, below: &Below, automaton: &mut Automaton) -> Result<(), NoMemory> {
    for row in automaton.rows.iter_mut() {
        thin_row(alloc, below, row)?;
    }
    Ok(())
}

/// Leaves out needless arcs, if the automaton is small enough.
pub(crate) fn thin(alloc: Global, automaton: &mut Automaton) -> Result<(), NoMemory> {
    let pairs = automaton.states.saturating_mul(automaton.states);
    let size = (pairs as u64).saturating_mul(automaton.rows.len() as u64);
    if size > MOST {
        return Ok(());
    }
    let mut below = Below {
        states: automaton.states,
        pairs: vec![in alloc; true; pairs]?,
        left: MOST_COMPARED,
    };
    if below.refine_all(automaton) {
        thin_by(alloc, &below, automaton)
    } else {
        Ok(())
    }
}
