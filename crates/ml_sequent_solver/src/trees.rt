// Trees of choices all of whose ends clash.
use crate::branches::Clash;
use ml_arrays::{NONE, small};
use ml_base::NoMemory;
use std::alloc::Global;

/// A tree of choices all of whose ends clash, by the numbers of its parts.
#[derive(Clone, Copy)]
pub enum Tree {
    /// A clash.
    Closed(Clash),
    /// Both sides of an or-node.
    Split {
        /// The or-node.
        node: u32,
        /// The tree of its left side.
        left: u32,
        /// The tree of its right side.
        right: u32,
    },
    /// An or-node one side of which can't hold.
    Unit {
        /// The or-node.
        node: u32,
        /// Whether it is the right side.
        right: bool,
        /// The tree of the other side.
        rest: u32,
    },
}

/// All trees that were made.
#[derive(Drop)]
pub struct Trees {
    all: Vec<Tree>,
}

impl Trees {
    /// No tree.
    ///
    /// Cost: constant.
    pub fn empty(alloc: Global) -> Trees {
        Trees {
            all: Vec::new(alloc),
        }
    }

    /// A tree, if there is one with this number.
    pub fn at(&self, tree: u32) -> Option<Tree> {
        self.all.get(tree as usize).copied()
    }

    /// Adds a tree.
    pub(crate) fn push(&mut self, tree: Tree) -> Result<u32, NoMemory> {
        let number = small(self.all.len());
        if number == NONE {
            return Err(NoMemory);
        }
        self.all.push(tree)?;
        Ok(number)
    }

    /// How many trees there are.
    pub fn len(&self) -> usize {
        self.all.len()
    }

    /// Forgets all but so many.
    pub fn truncate(&mut self, len: usize) {
        self.all.truncate(len);
    }
}
