// Whether cores of a component's frames refute each other, and with them a sequent.
use crate::knowing::{Knowledge, core_at, lies_within, owner_of};
use ml_arrays::{NONE, row, signature};
use ml_base::NoMemory;
use ml_sequent_solver::FOR_GOOD;

/// What came of an attempt to settle cores.
#[derive(Clone, Copy, PartialEq, Eq)]
pub enum Concluded {
    /// Some are settled, one of them within the sequent.
    Settled,
    /// None refutes the sequent yet.
    Open,
    /// Enough was done.
    Out,
}

impl<'a> Knowledge<'a> {
    /// Settles the cores on which one of the thread's within these nodes rests, if they refute each other.
    ///
    /// # Errors
    /// `NoMemory` alone.
    pub fn conclude(&mut self, thread: u32, nodes: &[u32]) -> Result<Concluded, NoMemory> {
        let component = self.terms.component(thread);
        self.gather(component)?;
        for _ in 0..u64::MAX {
            if self.is_out() {
                return Ok(Concluded::Out);
            }
            if !self.thin_out(component) {
                break;
            }
        }
        let top = self.first_within(thread, nodes);
        if top == NONE {
            return Ok(Concluded::Open);
        }
        self.gather_part(component, top)?;
        self.settle(component)
    }

    /// All cores of the frames that were closed.
    fn gather(&mut self, component: u32) -> Result<(), NoMemory> {
        self.set.clear();
        for id in row(&self.frames, component) {
            if let Some(core) = self.solver.branch.watches.cores.at(*id) {
                if core.tree != NONE {
                    self.set.insert(*id)?;
                }
            }
        }
        Ok(())
    }

    /// Takes out cores that use one that isn't there; tells whether there were such.
    fn thin_out(&mut self, component: u32) -> bool {
        let mut has_changed = false;
        let count = self.set.list().len();
        self.solver.branch.spend(count as u64);
        for i in 0..count {
            let id = core_at(self.set.list(), i);
            if self.set.has(id) && !self.rests_on_set(component, id) {
                self.set.remove(id);
                has_changed = true;
            }
        }
        has_changed
    }

    /// Uses a core only those that are there, and those for good?
    fn rests_on_set(&self, component: u32, id: u32) -> bool {
        let cores = &self.solver.branch.watches.cores;
        let Some(core) = cores.at(id) else {
            return false;
        };
        for used in &core.used {
            let used = cores.resolve(*used);
            let owner = cores.owner(used);
            if owner != FOR_GOOD && (owner != owner_of(component) || !self.set.has(used)) {
                return false;
            }
        }
        true
    }

    /// A core of the thread that is there and lies within these nodes.
    fn first_within(&self, thread: u32, nodes: &[u32]) -> u32 {
        let bits = signature(nodes);
        for id in self.set.list() {
            if self.set.has(*id) {
                if let Some(core) = self.solver.branch.watches.cores.at(*id) {
                    if core.thread == thread && lies_within(core, nodes, bits) {
                        return *id;
                    }
                }
            }
        }
        NONE
    }

    /// The cores on which one rests.
    fn gather_part(&mut self, component: u32, top: u32) -> Result<(), NoMemory> {
        self.part.clear();
        self.part.insert(top)?;
        for i in 0..usize::MAX {
            if i >= self.part.list().len() {
                break;
            }
            let id = core_at(self.part.list(), i);
            self.gather_used(component, id)?;
        }
        Ok(())
    }

    fn gather_used(&mut self, component: u32, id: u32) -> Result<(), NoMemory> {
        let cores = &self.solver.branch.watches.cores;
        let Some(core) = cores.at(id) else {
            return Ok(());
        };
        for used in &core.used {
            let used = cores.resolve(*used);
            if cores.owner(used) == owner_of(component) {
                self.part.insert(used)?;
            }
        }
        Ok(())
    }
}
