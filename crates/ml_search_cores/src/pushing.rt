// Cores of frames are tried one frame higher.
use crate::knowing::{Knowledge, owner_of};
use ml_arrays::{NONE, row};
use ml_base::NoMemory;
use ml_sequent_solver::Outcome;

impl<'a> Knowledge<'a> {
    /// Cores of a component's frames, up to this level, are tried one frame higher.
    ///
    /// # Errors
    /// `NoMemory` alone.
    pub fn push(&mut self, component: u32, level: u32) -> Result<(), NoMemory> {
        let mut cores = Vec::new(self.terms.alloc);
        self.push_all(component, level, &mut cores)
    }

    fn push_all(
        &mut self,
        component: u32,
        level: u32,
        cores: &mut Vec<u32>,
    ) -> Result<(), NoMemory> {
        for i in 0..level.saturating_add(1) {
            cores.clear();
            cores.extend_from_slice(row(&self.frames, component))?;
            for core in cores.iter() {
                self.push_one(component, *core, i)?;
            }
        }
        Ok(())
    }

    /// A core of this level is tried one level higher.
    fn push_one(&mut self, component: u32, core: u32, level: u32) -> Result<(), NoMemory> {
        let cores = &self.solver.branch.watches.cores;
        if cores.level(core) != level || cores.owner(core) != owner_of(component) {
            return Ok(());
        }
        let size = cores.nodes(core).len();
        let thread = self.thread_of(core);
        if self.is_out() {
            return Ok(());
        }
        self.set_level(level);
        if self.solver.query_core(&self.terms, core, thread, NONE)? != Outcome::Closed {
            return Ok(());
        }
        self.push_closed(core, thread, size, level.saturating_add(1))
    }

    /// A core of so many nodes is closed one level higher, maybe by fewer nodes.
    fn push_closed(
        &mut self,
        core: u32,
        thread: u32,
        size: usize,
        level: u32,
    ) -> Result<(), NoMemory> {
        let mut used = self.solver.roots.len();
        if self.solver.roots.binary_search(&thread).is_err() {
            used = used.saturating_add(1);
        }
        if used < size {
            self.learn_frame(thread, level)
        } else {
            let tree = self.solver.tree;
            self.raise(core, level, tree)
        }
    }
}
