// Which threads of which sequents are ended, and by which leaves.
use crate::leaves::Leaf;
use indexmap::IndexSet;
use ml_arrays::{NONE, more_rows, push_at, row, small};
use ml_base::NoMemory;
use std::alloc::Global;

/// Pairs of a sequent and a thread of it, or `NONE` for a sequent without one.
#[derive(Drop)]
pub(crate) struct Pairs {
    numbers: IndexSet<(u32, u32)>,
    /// Of each pair the leaf that ends the thread.
    leaves: Vec<Option<Leaf>>,
    /// Of each pair those that go on to it.
    users: Vec<Vec<u32>>,
    /// Of each sequent the pairs that lead there.
    leads: Vec<Vec<u32>>,
    alloc: Global,
}

impl Pairs {
    /// No pair.
    pub(crate) fn empty(alloc: Global) -> Pairs {
        Pairs {
            numbers: IndexSet::new(alloc),
            leaves: Vec::new(alloc),
            users: Vec::new(alloc),
            leads: Vec::new(alloc),
            alloc,
        }
    }

    /// The number of a pair.
    fn number(&mut self, pair: (u32, u32)) -> Result<u32, NoMemory> {
        let (number, _) = self.numbers.insert_full(pair)?;
        if number >= self.leaves.len() {
            self.leaves.push(None)?;
            self.users.push(Vec::new(self.alloc))?;
        }
        Ok(small(number))
    }

    /// The leaf that ends the thread of a pair.
    pub(crate) fn leaf(&self, pair: (u32, u32)) -> Option<&Leaf> {
        let number = self.numbers.get_index_of(&pair)?;
        match self.leaves.get(number) {
            Some(leaf) => leaf.as_ref(),
            None => None,
        }
    }

    /// Is the thread of a pair ended?
    pub(crate) fn is_solved(&self, pair: (u32, u32)) -> bool {
        self.leaf(pair).is_some()
    }

    /// The thread of a pair is ended by a leaf.
    pub(crate) fn solve(&mut self, pair: (u32, u32), leaf: Leaf) -> Result<(), NoMemory> {
        let number = self.number(pair)?;
        self.note_ways(number, pair.1, &leaf)?;
        if let Some(place) = self.leaves.get_mut(number as usize) {
            *place = Some(leaf);
        }
        Ok(())
    }

    fn note_ways(&mut self, number: u32, thread: u32, leaf: &Leaf) -> Result<(), NoMemory> {
        for go in &leaf.gos {
            self.note_lead(go.to, number)?;
            let on = go.thread(thread);
            if thread != NONE && on != NONE {
                let next = self.number((go.to, on))?;
                push_at(&mut self.users, next, number)?;
            }
        }
        Ok(())
    }

    fn note_lead(&mut self, sequent: u32, number: u32) -> Result<(), NoMemory> {
        let count = (sequent as usize).saturating_add(1);
        more_rows(self.alloc, &mut self.leads, count)?;
        push_at(&mut self.leads, sequent, number)
    }

    /// The pairs that lead to a sequent are taken back, with those that go on to them.
    pub(crate) fn forget(&mut self, sequent: u32) -> Result<(), NoMemory> {
        let mut work = Vec::from_slice(self.alloc, row(&self.leads, sequent))?;
        if let Some(leads) = self.leads.get_mut(sequent as usize) {
            leads.clear();
        }
        self.forget_all(&mut work)
    }

    fn forget_all(&mut self, work: &mut Vec<u32>) -> Result<(), NoMemory> {
        for _ in 0..u64::MAX {
            let Some(number) = work.pop() else {
                break;
            };
            if let Some(leaf) = self.leaves.get_mut(number as usize) {
                if leaf.is_some() {
                    *leaf = None;
                    work.extend_from_slice(row(&self.users, number))?;
                    if let Some(users) = self.users.get_mut(number as usize) {
                        users.clear();
                    }
                }
            }
        }
        Ok(())
    }
}
