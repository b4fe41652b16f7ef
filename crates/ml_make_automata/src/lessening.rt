// Fewer accepting arcs with the same words: those of a state needn't accept if each loop through one of them has another
// accepting arc. So a loop counts once, where a focus that goes round would count at each of its steps.
use crate::automata::Automaton;
use ml_arrays::{NumberSet, ascend, empty_rows, push_at, row, small};
use ml_base::NoMemory;
use std::alloc::Global;

/// How many ways between states are walked at most.
const MOST_WALKED: u64 = 100_000_000;

/// The states to which each state leads: by some arc that accepts, and by some that doesn't.
#[derive(Drop)]
struct Ways {
    accepting: Vec<Vec<u32>>,
    plain: Vec<Vec<u32>>,
}

impl Ways {
    fn of(alloc: Global, automaton: &Automaton) -> Result<Ways, NoMemory> {
        let mut ways = Ways {
            accepting: empty_rows(alloc, automaton.states)?,
            plain: empty_rows(alloc, automaton.states)?,
        };
        ways.fill(automaton)?;
        Ok(ways)
    }

    fn add(&mut self, from: u32, to: u32, accepting: bool) -> Result<(), NoMemory> {
        if accepting {
            push_at(&mut self.accepting, from, to)
        } else {
            push_at(&mut self.plain, from, to)
        }
    }

    fn fill(&mut self, automaton: &Automaton) -> Result<(), NoMemory> {
        for class in &automaton.rows {
            for (state, arcs) in class.iter().enumerate() {
                for arc in arcs {
                    self.add(small(state), arc.to, arc.accepting)?;
                }
            }
        }
        sort_all(&mut self.accepting);
        sort_all(&mut self.plain);
        Ok(())
    }

    /// How many ways there are.
    fn size(&self) -> u64 {
        let mut size: u64 = 0;
        for list in &self.plain {
            size = size.saturating_add(list.len() as u64);
        }
        size
    }

    /// The arcs of a state don't accept any more.
    fn clear(&mut self, alloc: Global, state: u32) -> Result<(), NoMemory> {
        let Some(place) = self.accepting.get_mut(state as usize) else {
            return Ok(());
        };
        let list = std::mem::replace(place, Vec::new(alloc));
        if let Some(plain) = self.plain.get_mut(state as usize) {
            plain.extend_from_slice(&list)?;
            ascend(plain);
        }
        Ok(())
    }
}

fn sort_all(lists: &mut [Vec<u32>]) {
    for list in lists.iter_mut() {
        ascend(list);
    }
}

/// Adds those of these states that weren't reached.
fn reach(states: &[u32], reached: &mut NumberSet) -> Result<(), NoMemory> {
    for state in states {
        reached.insert(*state)?;
    }
    Ok(())
}

/// Is there a loop through an accepting arc of a state whose other arcs don't accept?
fn has_loop(ways: &Ways, state: u32, reached: &mut NumberSet) -> Result<bool, NoMemory> {
    reached.clear();
    reach(row(&ways.accepting, state), reached)?;
    for place in 0..usize::MAX {
        let Some(at) = reached.list().get(place).copied() else {
            break;
        };
        if at == state {
            return Ok(true);
        }
        reach(row(&ways.plain, at), reached)?;
    }
    Ok(false)
}

/// The arcs of a state don't accept any more.
fn clear_state(automaton: &mut Automaton, state: u32) {
    for class in automaton.rows.iter_mut() {
        if let Some(arcs) = class.get_mut(state as usize) {
            for arc in arcs.iter_mut() {
                arc.accepting = false;
            }
        }
    }
}

fn lessen_by(alloc: Global, automaton: &mut Automaton, ways: &mut Ways) -> Result<(), NoMemory> {
    let size = ways.size();
    let mut left = MOST_WALKED;
    let mut reached = NumberSet::empty(alloc);
    for state in 0..small(automaton.states) {
        if row(&ways.accepting, state).is_empty() || left < size {
            continue;
        }
        left = left.saturating_sub(size);
        if !has_loop(ways, state, &mut reached)? {
            ways.clear(alloc, state)?;
            clear_state(automaton, state);
        }
    }
    Ok(())
}

/// Fewer arcs of an automaton accept, whose accepting arcs all lie within components.
pub(crate) fn lessen(alloc: Global, automaton: &mut Automaton) -> Result<(), NoMemory> {
    let mut ways = Ways::of(alloc, automaton)?;
    lessen_by(alloc, automaton, &mut ways)
}
