// Sets of numbers: ascending lists, and sets that are emptied often.
use crate::lists::{flag, more_flags, set_flag};
use ml_base::NoMemory;
use std::alloc::Global;

/// Sorts numbers, each of which stands there once then.
///
/// Cost: that of sorting them.
pub fn ascend(numbers: &mut Vec<u32>) {
    numbers.sort_unstable();
    numbers.dedup();
}

/// Do the first numbers, which ascend, lie within the second ones, which ascend?
///
/// Cost: linear in the second ones.
pub fn within(numbers: &[u32], others: &[u32]) -> bool {
    if numbers.len() > others.len() {
        return false;
    }
    let mut at: usize = 0;
    for other in others {
        match numbers.get(at) {
            Some(n) if *n < *other => return false,
            Some(n) if *n == *other => at = at.saturating_add(1),
            Some(_) => {}
            None => return true,
        }
    }
    at == numbers.len()
}

/// A set of bits for numbers, such that what lies within others has no bit that they lack.
///
/// Cost: linear in the numbers.
pub fn signature(numbers: &[u32]) -> u64 {
    let mut bits: u64 = 0;
    for n in numbers {
        bits |= 1u64 << ((n.wrapping_mul(0x9E37_79B1) >> 16) % 64);
    }
    bits
}

/// Numbers, with the list of those that were added; one that was taken out may stand there still.
#[derive(Drop)]
pub struct NumberSet {
    flags: Vec<bool>,
    list: Vec<u32>,
}

impl NumberSet {
    /// No number.
    ///
    /// Cost: constant.
    pub fn empty(alloc: Global) -> NumberSet {
        NumberSet {
            flags: Vec::new(alloc),
            list: Vec::new(alloc),
        }
    }

    /// Is the number there?
    pub fn has(&self, n: u32) -> bool {
        flag(&self.flags, n)
    }

    /// Adds a number; tells whether it is new.
    ///
    /// # Errors
    /// `NoMemory` alone.
    pub fn insert(&mut self, n: u32) -> Result<bool, NoMemory> {
        if self.has(n) {
            return Ok(false);
        }
        more_flags(&mut self.flags, (n as usize).saturating_add(1))?;
        set_flag(&mut self.flags, n, true);
        self.list.push(n)?;
        Ok(true)
    }

    /// Takes a number out.
    pub fn remove(&mut self, n: u32) {
        set_flag(&mut self.flags, n, false);
    }

    /// Takes all out.
    ///
    /// Cost: linear in what was added.
    pub fn clear(&mut self) {
        for n in &self.list {
            set_flag(&mut self.flags, *n, false);
        }
        self.list.clear();
    }

    /// The numbers that were added.
    pub fn list(&self) -> &[u32] {
        &self.list
    }

    /// The numbers, ascending.
    ///
    /// # Errors
    /// `NoMemory` alone.
    pub fn write(&self, out: &mut Vec<u32>) -> Result<(), NoMemory> {
        out.clear();
        for n in &self.list {
            if self.has(*n) {
                out.push(*n)?;
            }
        }
        ascend(out);
        Ok(())
    }
}
