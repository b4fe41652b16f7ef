// Directed graphs in flat lists.
use crate::lists::{NONE, more_numbers, number, put, small};
use ml_base::NoMemory;
use std::alloc::Global;

/// A directed graph whose nodes are the numbers below some number.
#[derive(Drop)]
pub struct Digraph {
    /// Where the nodes lead, node by node.
    targets: Vec<u32>,
    /// How many targets stand up to the end of each node's.
    ends: Vec<u32>,
}

impl Digraph {
    /// No node.
    ///
    /// Cost: constant.
    pub fn empty(alloc: Global) -> Digraph {
        Digraph {
            targets: Vec::new(alloc),
            ends: Vec::new(alloc),
        }
    }

    /// Takes all nodes out.
    pub fn clear(&mut self) {
        self.targets.clear();
        self.ends.clear();
    }

    /// Adds a target of the node that is written, unless it is `NONE`.
    ///
    /// # Errors
    /// `NoMemory` alone.
    pub fn push_target(&mut self, to: u32) -> Result<(), NoMemory> {
        if to != NONE {
            self.targets.push(to)?;
        }
        Ok(())
    }

    /// Ends the node that is written: it has the targets that were added behind the last one's.
    ///
    /// # Errors
    /// `NoMemory` alone.
    pub fn end_node(&mut self) -> Result<(), NoMemory> {
        self.ends.push(small(self.targets.len()))?;
        Ok(())
    }

    /// How many nodes there are.
    pub fn size(&self) -> u32 {
        small(self.ends.len())
    }

    /// Where a node leads.
    ///
    /// Cost: constant.
    pub fn targets(&self, n: u32) -> &[u32] {
        let first = if n == 0 { 0 } else { number(&self.ends, n - 1) };
        let end = number(&self.ends, n);
        self.targets
            .get(first as usize..end as usize)
            .unwrap_or(&[])
    }

    /// Writes the places of the nodes in depth-first order from a root, `NONE` for those that aren't reached.
    ///
    /// # Errors
    /// `NoMemory` alone.
    ///
    /// Cost: linear in nodes and targets.
    pub fn rank(&self, alloc: Global, root: u32, ranks: &mut Vec<u32>) -> Result<(), NoMemory> {
        ranks.clear();
        more_numbers(ranks, self.ends.len(), NONE)?;
        let mut open = vec![in alloc; root]?;
        self.walk(&mut open, ranks)
    }

    fn walk(&self, open: &mut Vec<u32>, ranks: &mut [u32]) -> Result<(), NoMemory> {
        let mut next: u32 = 0;
        for _ in 0..u64::MAX {
            let Some(n) = open.pop() else {
                break;
            };
            if n >= self.size() || number(ranks, n) != NONE {
                continue;
            }
            put(ranks, n, next);
            next = next.saturating_add(1);
            for to in self.targets(n).iter().rev() {
                open.push(*to)?;
            }
        }
        Ok(())
    }
}
