// Entries of refutations, with the lists that they name.
use crate::candidates::Candidate;
use ml_base::NoMemory;
use ml_parity::{Arc, OneSided, heights};
use ml_refutation::{Decision, Entry, Item, Lists};
use ml_trace::Mark;
use std::alloc::Global;

/// A go, by the entries.
#[derive(Clone, Copy)]
pub struct Go {
    /// The entry that is left.
    pub from: u32,
    /// What it does to the names.
    pub mark: Mark,
    /// The entry to which it goes.
    pub to: u32,
}

/// The priority of a mark, where neutral has this one.
pub fn priority_of(top: u32, mark: Mark) -> u32 {
    match mark {
        Mark::Red(name) => name.saturating_mul(2),
        Mark::Green(name) => name.saturating_mul(2).saturating_add(1),
        Mark::Neutral => top,
    }
}

/// The graph of these arcs, if it is one.
fn one_sided(size: u64, top: u32, arcs: Vec<Arc>) -> Option<OneSided> {
    let priorities = arcs.iter().all(|arc| arc.priority <= top);
    let begins = arcs.iter().all(|arc| arc.from < size);
    let ends = arcs.iter().all(|arc| arc.to < size);
    if top % 2 == 0 && priorities && begins && ends {
        return Some(OneSided::build(size, top, arcs));
    }
    None
}

/// Heights of so many entries by the goes between them, where marks have so many names; `None` where there are none.
///
/// # Errors
/// `NoMemory` alone.
///
/// Cost: that of `heights`.
pub fn heights_of(
    alloc: Global,
    names: u32,
    count: usize,
    gos: &[Go],
) -> Result<Option<Vec<Vec<u64>>>, NoMemory> {
    let top = names.saturating_mul(2);
    let mut arcs = Vec::new(alloc);
    for go in gos {
        arcs.push(Arc {
            from: u64::from(go.from),
            priority: priority_of(top, go.mark),
            to: u64::from(go.to),
        })?;
    }
    let Some(graph) = one_sided(count as u64, top, arcs) else {
        return Ok(None);
    };
    match heights(alloc, &graph)? {
        Ok(heights) => Ok(Some(heights.rows)),
        Err(_) => Ok(None),
    }
}

/// Puts the split at a node in place of the last two decisions; tells whether there were two.
///
/// # Errors
/// `NoMemory` alone.
pub fn join(alloc: Global, node: u32, done: &mut Vec<Decision>) -> Result<bool, NoMemory> {
    let Some(right) = done.pop() else {
        return Ok(false);
    };
    let Some(left) = done.pop() else {
        return Ok(false);
    };
    done.push(Decision::Split {
        node,
        left: Box::new(alloc, left)?,
        right: Box::new(alloc, right)?,
    })?;
    Ok(true)
}

/// Entries that were made, with the lists that they name.
#[derive(Drop)]
pub struct Tables {
    /// The sequents, by their places.
    pub sequents: Lists,
    /// The stacks, by their places.
    pub stacks: Lists,
    entries: Vec<Entry>,
}

/// Writes the heights of an entry; tells whether each fits.
fn write_heights(row: &[u64], heights: &mut Vec<u32>) -> Result<bool, NoMemory> {
    for height in row {
        match u32::try_from(*height) {
            Ok(height) => heights.push(height)?,
            Err(_) => return Ok(false),
        }
    }
    Ok(true)
}

impl Tables {
    /// No entry.
    ///
    /// Cost: constant.
    pub fn empty(alloc: Global) -> Tables {
        Tables {
            sequents: Lists::new(alloc),
            stacks: Lists::new(alloc),
            entries: Vec::new(alloc),
        }
    }

    /// Adds an entry with the sequent at a place, so many names in use, these items, heights and decision; tells whether the
    /// heights fit.
    ///
    /// # Errors
    /// `NoMemory` alone.
    pub fn push(
        &mut self,
        alloc: Global,
        sequent: usize,
        live: u32,
        items: Vec<Item>,
        row: &[u64],
        decision: Decision,
    ) -> Result<bool, NoMemory> {
        self.entries.push(Entry {
            sequent,
            live,
            items,
            heights: Vec::new(alloc),
            decision,
        })?;
        match self.entries.last_mut() {
            Some(entry) => write_heights(row, &mut entry.heights),
            None => Ok(false),
        }
    }

    /// What may be a refutation with so many names.
    pub fn candidate(self, names: u32) -> Candidate {
        let Tables {
            sequents,
            stacks,
            entries,
        } = self;
        Candidate::Refutation {
            names,
            sequents,
            stacks,
            entries,
        }
    }
}
