// Lists of numbers by keys.
use ml_arrays::{NONE, more_numbers, number, put};
use ml_base::NoMemory;
use std::alloc::Global;

/// For each key a list of numbers, each of which stands in one list.
#[derive(Drop)]
pub(crate) struct Rows {
    heads: Vec<u32>,
    nexts: Vec<u32>,
}

impl Rows {
    /// Without a key.
    pub(crate) fn empty(alloc: Global) -> Rows {
        Rows {
            heads: Vec::new(alloc),
            nexts: Vec::new(alloc),
        }
    }

    /// Makes room for so many keys, and for the numbers below a count.
    pub(crate) fn make_room(&mut self, keys: usize, count: usize) -> Result<(), NoMemory> {
        more_numbers(&mut self.heads, keys, NONE)?;
        more_numbers(&mut self.nexts, count, NONE)
    }

    /// Puts a number at the head of the list of a key.
    pub(crate) fn add(&mut self, key: u32, value: u32) {
        let head = self.first(key);
        put(&mut self.nexts, value, head);
        put(&mut self.heads, key, value);
    }

    /// The first number of the list of a key.
    pub(crate) fn first(&self, key: u32) -> u32 {
        number(&self.heads, key)
    }

    /// The number behind this one.
    pub(crate) fn after(&self, value: u32) -> u32 {
        number(&self.nexts, value)
    }
}
