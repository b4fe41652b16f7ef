// Numbers in the order in which something is met.
use crate::lists::{NONE, more_numbers, number, put, small};
use ml_base::NoMemory;
use std::alloc::Global;

/// Numbers from 0 for what is met, each of which is itself a number below some bound.
#[derive(Drop)]
pub struct Numbering {
    /// The number of each, or `NONE`.
    numbers: Vec<u32>,
    met: Vec<u32>,
}

impl Numbering {
    /// Nothing is met, and there is no room.
    ///
    /// Cost: constant.
    pub fn empty(alloc: Global) -> Numbering {
        Numbering {
            numbers: Vec::new(alloc),
            met: Vec::new(alloc),
        }
    }

    /// Makes room for what is below a bound.
    ///
    /// # Errors
    /// `NoMemory` alone.
    ///
    /// Cost: linear in the bound.
    pub fn make_room(&mut self, bound: usize) -> Result<(), NoMemory> {
        more_numbers(&mut self.numbers, bound, NONE)
    }

    /// The number of what is met, the next one if it is new. What there is no room for is new each time.
    ///
    /// # Errors
    /// `NoMemory` alone.
    ///
    /// Cost: constant.
    pub fn number(&mut self, n: u32) -> Result<u32, NoMemory> {
        let known = number(&self.numbers, n);
        if known != NONE {
            return Ok(known);
        }
        let new = small(self.met.len());
        put(&mut self.numbers, n, new);
        self.met.push(n)?;
        Ok(new)
    }

    /// What was met, by its numbers.
    pub fn met(&self) -> &[u32] {
        &self.met
    }

    /// Forgets all, and keeps the room.
    ///
    /// Cost: linear in what was met.
    pub fn clear(&mut self) {
        for n in &self.met {
            put(&mut self.numbers, *n, NONE);
        }
        self.met.clear();
    }
}
