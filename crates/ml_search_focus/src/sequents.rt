// Sequents by their numbers.
use indexmap::IndexSet;
use ml_arrays::{flag, number, put, set_flag, signature, small};
use ml_base::NoMemory;
use ml_search_cores::{Knowledge, lies_within};
use std::alloc::Global;

/// The sequents that were met.
#[derive(Drop)]
pub(crate) struct Sequents {
    all: IndexSet<Vec<u32>>,
    /// Of each one, how many of the cores for good were looked at.
    looked: Vec<u32>,
    /// The sequents within which a core for good lies.
    refuted: Vec<bool>,
}

impl Sequents {
    /// No sequent.
    pub(crate) fn empty(alloc: Global) -> Sequents {
        Sequents {
            all: IndexSet::new(alloc),
            looked: Vec::new(alloc),
            refuted: Vec::new(alloc),
        }
    }

    /// How many there are.
    pub(crate) fn len(&self) -> usize {
        self.looked.len()
    }

    /// The number of a sequent, whose nodes ascend.
    pub(crate) fn number(&mut self, nodes: Vec<u32>) -> Result<u32, NoMemory> {
        let (number, _) = self.all.insert_full(nodes)?;
        if number >= self.looked.len() {
            self.looked.push(0)?;
            self.refuted.push(false)?;
        }
        Ok(small(number))
    }

    /// The nodes of a sequent.
    pub(crate) fn nodes(&self, sequent: u32) -> &[u32] {
        match self.all.as_slice().get(sequent as usize) {
            Some(nodes) => nodes.as_slice(),
            None => &[],
        }
    }

    /// Does a core for good lie within a sequent?
    pub(crate) fn is_refuted(&mut self, known: &mut Knowledge, sequent: u32) -> bool {
        if flag(&self.refuted, sequent) {
            return true;
        }
        let from = number(&self.looked, sequent);
        let bits = signature(self.nodes(sequent));
        for i in from as usize..known.good.len() {
            known.spend(1);
            if self.contains(known, sequent, bits, i) {
                set_flag(&mut self.refuted, sequent, true);
                return true;
            }
        }
        put(&mut self.looked, sequent, small(known.good.len()));
        false
    }

    fn contains(&self, known: &Knowledge, sequent: u32, bits: u64, i: usize) -> bool {
        let Some(id) = known.good.get(i) else {
            return false;
        };
        match known.solver.branch.watches.cores.at(*id) {
            Some(core) => lies_within(core, self.nodes(sequent), bits),
            None => false,
        }
    }
}
