// Learning from closed queries.
use crate::knowing::{Knowledge, core_at, lies_within, owner_of};
use ml_arrays::{NONE, ascend, push_at, row};
use ml_base::NoMemory;
use ml_sequent_solver::FOR_GOOD;

impl<'a> Knowledge<'a> {
    /// Learns what the closed query used, for good, without going round.
    ///
    /// # Errors
    /// `NoMemory` alone.
    pub fn learn(&mut self) -> Result<(), NoMemory> {
        self.now = self.now.saturating_add(1);
        self.list_roots()?;
        let tree = self.solver.tree;
        self.put_good(NONE, self.now, tree)?;
        Ok(())
    }

    /// The nodes that the closed query used are listed.
    fn list_roots(&mut self) -> Result<(), NoMemory> {
        self.listed.clear();
        self.listed.extend_from_slice(&self.solver.roots)?;
        Ok(())
    }

    /// Adds a core for good of the listed nodes.
    pub(crate) fn put_good(&mut self, thread: u32, group: u32, tree: u32) -> Result<u32, NoMemory> {
        let id = self.put_listed(thread, FOR_GOOD, group)?;
        self.good.push(id)?;
        if let Some(core) = self.solver.branch.watches.cores.at_mut(id) {
            core.tree = tree;
        }
        Ok(id)
    }

    /// Adds a core of the listed nodes.
    pub(crate) fn put_listed(
        &mut self,
        thread: u32,
        owner: u32,
        born: u32,
    ) -> Result<u32, NoMemory> {
        let nodes = std::mem::replace(&mut self.listed, Vec::new(self.terms.alloc));
        let id = self.put(&nodes, thread, owner, born);
        self.listed = nodes;
        id
    }

    /// Learns a core of a frame: what the closed query used, with the thread.
    ///
    /// # Errors
    /// `NoMemory` alone.
    pub fn learn_frame(&mut self, thread: u32, level: u32) -> Result<(), NoMemory> {
        self.list_roots()?;
        self.listed.push(thread)?;
        ascend(&mut self.listed);
        let component = self.terms.component(thread);
        let tree = self.solver.tree;
        let id = self.put_listed(thread, owner_of(component), self.now)?;
        self.raise(id, level, tree)?;
        self.replace_frames(component, id, level);
        push_at(&mut self.frames, component, id)
    }

    /// A core is one of this level, with the tree that closes it and the cores that it used.
    pub(crate) fn raise(&mut self, id: u32, level: u32, tree: u32) -> Result<(), NoMemory> {
        for action in 0..self.terms.actions {
            let cores = &mut self.solver.branch.watches.cores;
            if let Some(core) = cores.at_mut(id.saturating_add(action)) {
                core.level = level;
            }
        }
        let Some(core) = self.solver.branch.watches.cores.at_mut(id) else {
            return Ok(());
        };
        core.used.clear();
        core.tree = NONE;
        if level > 0 {
            core.tree = tree;
            core.used.extend_from_slice(&self.solver.cores)?;
        }
        Ok(())
    }

    /// A new core stands in place of those of its thread that contain it, of no higher level.
    fn replace_frames(&mut self, component: u32, id: u32, level: u32) {
        let mut i: usize = 0;
        let count = row(&self.frames, component).len();
        self.solver.branch.spend(count as u64);
        for _ in 0..count {
            let core = core_at(row(&self.frames, component), i);
            if self.is_replaced(core, id, level) {
                self.turn_off(core, id);
                self.drop_frame(component, i);
            } else {
                i = i.saturating_add(1);
            }
        }
    }

    fn is_replaced(&self, core: u32, id: u32, level: u32) -> bool {
        let cores = &self.solver.branch.watches.cores;
        match (cores.at(core), cores.at(id)) {
            (Some(core), Some(new)) => {
                core.level <= level
                    && core.thread == new.thread
                    && lies_within(new, &core.nodes, core.signature)
            }
            _ => false,
        }
    }

    fn drop_frame(&mut self, component: u32, i: usize) {
        if let Some(frames) = self.frames.get_mut(component as usize) {
            if i < frames.len() {
                let _ = frames.swap_remove(i);
            }
        }
    }
}
