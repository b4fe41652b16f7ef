// Names of what is followed, and their step, where each thread is named when it is born.
use ml_arrays::{flag, more_flags, more_numbers, number, put, set_flag, small};
use ml_base::NoMemory;
use ml_trace::{Mark, Transition};
use std::alloc::Global;

/// The stacks of the states that are followed, ascending by the states.
#[derive(Drop)]
pub(crate) struct Names {
    pub stacks: Vec<(u32, Vec<u32>)>,
    /// How many names are in use.
    pub live: u32,
}

/// How threads go on along a diamond.
#[derive(Drop)]
pub(crate) struct Letter {
    pub moves: Vec<Transition>,
    /// The states that are followed behind it, ascending.
    pub states: Vec<u32>,
}

/// Stacks as they are offered, and what comes of their names.
#[derive(Drop)]
struct Offers {
    stacks: Vec<(u32, Vec<u32>)>,
    /// Whether a name stands in a stack, and whether one ends in it.
    occurs: Vec<bool>,
    ends: Vec<bool>,
    /// Whether a name is still there when stacks are cut.
    survives: Vec<bool>,
}

/// Is a stack better than another one? A longer one is better than its beginning, else the smaller first difference.
fn beats(stack: &[u32], other: &[u32]) -> bool {
    for (name, known) in stack.iter().zip(other) {
        if *name != *known {
            return *name < *known;
        }
    }
    stack.len() > other.len()
}

/// The stack of a state.
fn stack_of(stacks: &[(u32, Vec<u32>)], state: u32) -> Option<&[u32]> {
    for (other, stack) in stacks {
        if *other == state {
            return Some(stack.as_slice());
        }
    }
    None
}

/// Cuts a stack behind its first name in which no stack ends.
fn cut(stack: &mut Vec<u32>, ends: &[bool]) {
    for i in 0..stack.len() {
        if !flag(ends, number(stack, small(i))) {
            stack.truncate(i.saturating_add(1));
            break;
        }
    }
}

/// The last name of a stack.
fn last(stack: &[u32]) -> u32 {
    match stack.last() {
        Some(name) => *name,
        None => 0,
    }
}

/// Gives the names of a stack their new numbers.
fn rename(stack: &mut [u32], new: &[u32]) {
    for name in stack.iter_mut() {
        *name = number(new, *name);
    }
}

impl Offers {
    fn empty(alloc: Global) -> Offers {
        Offers {
            stacks: Vec::new(alloc),
            occurs: Vec::new(alloc),
            ends: Vec::new(alloc),
            survives: Vec::new(alloc),
        }
    }

    /// Takes a stack for a state, if it is better than what was offered.
    fn offer(&mut self, state: u32, stack: Vec<u32>) -> Result<(), NoMemory> {
        for (other, known) in self.stacks.iter_mut() {
            if *other == state {
                if beats(&stack, known) {
                    *known = stack;
                }
                return Ok(());
            }
        }
        self.stacks.push((state, stack))?;
        Ok(())
    }

    /// Offers what the moves lead on.
    fn offer_moves(
        &mut self,
        alloc: Global,
        names: &Names,
        moves: &[Transition],
    ) -> Result<(), NoMemory> {
        for step in moves {
            if let Some(stack) = stack_of(&names.stacks, step.from) {
                let mut offer = Vec::from_slice(alloc, stack)?;
                if step.accepting {
                    offer.push(names.live.saturating_add(last(stack)))?;
                }
                self.offer(step.to, offer)?;
            }
        }
        Ok(())
    }

    /// Gives each state that has no stack a name of its own, from this one on; the name behind them.
    fn bear(&mut self, alloc: Global, states: &[u32], first: u32) -> Result<u32, NoMemory> {
        let mut fresh = first;
        for state in states {
            if stack_of(&self.stacks, *state).is_none() {
                self.stacks.push((*state, vec![in alloc; fresh]?))?;
                fresh = fresh.saturating_add(1);
            }
        }
        self.stacks.sort_unstable();
        Ok(fresh)
    }

    /// Notes which of so many names stand in stacks, and in which stacks end; then cuts these.
    fn cut_all(&mut self, count: u32) -> Result<(), NoMemory> {
        more_flags(&mut self.occurs, count as usize)?;
        more_flags(&mut self.ends, count as usize)?;
        more_flags(&mut self.survives, count as usize)?;
        for (_, stack) in &self.stacks {
            for name in stack {
                set_flag(&mut self.occurs, *name, true);
            }
            set_flag(&mut self.ends, last(stack), true);
        }
        for (_, stack) in self.stacks.iter_mut() {
            cut(stack, &self.ends);
        }
        for (_, stack) in &self.stacks {
            for name in stack {
                set_flag(&mut self.survives, *name, true);
            }
        }
        Ok(())
    }

    /// The mark of the step, where so many names were in use and so many there were then.
    fn mark(&self, live: u32, count: u32) -> Mark {
        for name in 0..count {
            if name < live && !flag(&self.survives, name) {
                return Mark::Red(name);
            }
            if flag(&self.occurs, name) && !flag(&self.ends, name) && flag(&self.survives, name) {
                return Mark::Green(name);
            }
        }
        Mark::Neutral
    }

    /// Numbers the names that survive; how many there are.
    fn renumber(&mut self, alloc: Global, count: u32) -> Result<u32, NoMemory> {
        let mut new = Vec::new(alloc);
        more_numbers(&mut new, count as usize, 0)?;
        let mut live: u32 = 0;
        for name in 0..count {
            if flag(&self.survives, name) {
                put(&mut new, name, live);
                live = live.saturating_add(1);
            }
        }
        for (_, stack) in self.stacks.iter_mut() {
            rename(stack, &new);
        }
        Ok(live)
    }
}

impl Names {
    /// Nothing is followed.
    pub(crate) fn empty(alloc: Global) -> Names {
        Names {
            stacks: Vec::new(alloc),
            live: 0,
        }
    }

    /// The names behind a letter, and the mark of the step: what no thread reaches is born with a name of its own behind all
    /// others.
    pub(crate) fn step(&self, alloc: Global, letter: &Letter) -> Result<(Names, Mark), NoMemory> {
        let mut offers = Offers::empty(alloc);
        offers.offer_moves(alloc, self, &letter.moves)?;
        let first = self.live.saturating_mul(2);
        let count = offers.bear(alloc, &letter.states, first)?;
        offers.cut_all(count)?;
        let mark = offers.mark(self.live, count);
        let live = offers.renumber(alloc, count)?;
        let Offers { stacks, .. } = offers;
        Ok((Names { stacks, live }, mark))
    }

    /// The names in one list: of each state that is followed the state, how long its stack is, and the stack.
    pub(crate) fn write(&self, code: &mut Vec<u32>) -> Result<(), NoMemory> {
        for (state, stack) in &self.stacks {
            code.push(*state)?;
            code.push(small(stack.len()))?;
            code.extend_from_slice(stack)?;
        }
        Ok(())
    }
}
