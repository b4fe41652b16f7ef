// Cores that refute each other are settled: with the nodes alone that they need, for good.
use crate::concluding::Concluded;
use crate::knowing::{Knowledge, write_copies};
use ml_arrays::{NONE, ascend, more_rows, push_at, row};
use ml_base::NoMemory;
use ml_sequent_solver::Outcome;

/// The owner of the first group.
const GROUPS: u32 = 1 << 31;

/// The owner of a group's cores.
pub(crate) fn owner_of_group(group: u32) -> u32 {
    GROUPS.saturating_add(group).min(u32::MAX - 1)
}

impl<'a> Knowledge<'a> {
    /// Settles the cores of the part.
    pub(crate) fn settle(&mut self, component: u32) -> Result<Concluded, NoMemory> {
        let alloc = self.terms.alloc;
        let mut cores = Vec::new(alloc);
        let mut guides = Vec::new(alloc);
        self.settle_all(component, &mut cores, &mut guides)
    }

    fn settle_all(
        &mut self,
        component: u32,
        cores: &mut Vec<u32>,
        guides: &mut Vec<u32>,
    ) -> Result<Concluded, NoMemory> {
        self.now = self.now.saturating_add(1);
        cores.extend_from_slice(self.part.list())?;
        self.take_from_frames(component)?;
        self.give_all(cores)?;
        if !self.close_all(cores, guides)? {
            return Ok(Concluded::Out);
        }
        self.narrow_all(cores)?;
        for _ in 0..u64::MAX {
            match self.need_more(cores, guides)? {
                None => return Ok(Concluded::Out),
                Some(true) => {}
                Some(false) => break,
            }
        }
        self.twin_all(cores)?;
        Ok(Concluded::Settled)
    }

    /// The frames lose the cores.
    fn take_from_frames(&mut self, component: u32) -> Result<(), NoMemory> {
        let Some(frames) = self.frames.get_mut(component as usize) else {
            return Ok(());
        };
        let mut kept = Vec::new(self.terms.alloc);
        for id in frames.iter() {
            if !self.part.has(*id) {
                kept.push(*id)?;
            }
        }
        *frames = kept;
        Ok(())
    }

    /// The group has the cores, and they are active.
    fn give_all(&mut self, cores: &[u32]) -> Result<(), NoMemory> {
        let owner = owner_of_group(self.now);
        for id in cores {
            self.give(*id, owner);
        }
        write_copies(self.terms.actions, cores, &mut self.copies)?;
        self.solver.set_owner(&self.terms, owner, &self.copies)?;
        self.set_level(0);
        Ok(())
    }

    /// Closes each core by those of the group, and keeps the trees; tells whether it went well.
    fn close_all(&mut self, cores: &[u32], guides: &mut Vec<u32>) -> Result<bool, NoMemory> {
        for id in cores {
            let thread = self.thread_of(*id);
            if self.solver.query_core(&self.terms, *id, thread, NONE)? != Outcome::Closed {
                return Ok(false);
            }
            guides.push(self.solver.tree)?;
        }
        Ok(true)
    }

    /// Of each core nothing counts now but its thread.
    fn narrow_all(&mut self, cores: &[u32]) -> Result<(), NoMemory> {
        write_copies(self.terms.actions, cores, &mut self.copies)?;
        for id in &self.copies {
            if let Some(core) = self.solver.branch.watches.cores.at_mut(*id) {
                core.is_narrow = true;
                core.need.clear();
                core.need.push(core.thread)?;
            }
        }
        Ok(())
    }

    /// Closes each core again; tells whether one needs more, or `None` where it didn't go well.
    fn need_more(&mut self, cores: &[u32], guides: &[u32]) -> Result<Option<bool>, NoMemory> {
        let mut has_changed = false;
        for (id, guide) in cores.iter().zip(guides) {
            let thread = self.thread_of(*id);
            if self.solver.query_core(&self.terms, *id, thread, *guide)? != Outcome::Closed {
                return Ok(None);
            }
            if self.note_needs(*id)? {
                has_changed = true;
            }
        }
        Ok(Some(has_changed))
    }

    /// Adds what the closed query used to what a core needs, along all actions; tells whether that is more.
    fn note_needs(&mut self, id: u32) -> Result<bool, NoMemory> {
        let mut is_more = false;
        for action in 0..self.terms.actions {
            if self.note_need(id.saturating_add(action))? {
                is_more = true;
            }
        }
        Ok(is_more)
    }

    fn note_need(&mut self, id: u32) -> Result<bool, NoMemory> {
        let Some(core) = self.solver.branch.watches.cores.at_mut(id) else {
            return Ok(false);
        };
        core.tree = self.solver.tree;
        let before = core.need.len();
        core.need.extend_from_slice(&self.solver.roots)?;
        ascend(&mut core.need);
        Ok(core.need.len() != before)
    }

    /// Each core has one for good in its place, with the nodes alone that it needs, and a twin that is the group's.
    fn twin_all(&mut self, cores: &[u32]) -> Result<(), NoMemory> {
        let count = (self.now as usize).saturating_add(1);
        more_rows(self.terms.alloc, &mut self.twins, count)?;
        for id in cores {
            let known = self.twin_like(*id);
            let stands = if known == NONE {
                self.twin(*id)?
            } else {
                known
            };
            self.turn_off(*id, stands);
        }
        Ok(())
    }

    /// A core for good of the group with the nodes and the thread of this one, or `NONE`.
    fn twin_like(&mut self, id: u32) -> u32 {
        let twins = row(&self.twins, self.now);
        let steps = twins.len() as u64;
        self.solver.branch.spend(steps);
        let cores = &self.solver.branch.watches.cores;
        let Some(core) = cores.at(id) else {
            return NONE;
        };
        for twin in twins {
            if let Some(other) = cores.at(*twin) {
                if other.thread == core.thread && other.nodes.as_slice() == core.need.as_slice() {
                    return cores.resolve(*twin);
                }
            }
        }
        NONE
    }

    /// Makes both.
    fn twin(&mut self, id: u32) -> Result<u32, NoMemory> {
        let group = self.now;
        let (thread, tree) = self.list_need(id)?;
        let stands = self.put_good(thread, group, tree)?;
        let twin = self.put_listed(thread, owner_of_group(group), group)?;
        self.redirect(twin, stands);
        push_at(&mut self.twins, group, twin)?;
        Ok(stands)
    }

    /// The nodes that a core needs are listed; its thread and its tree.
    fn list_need(&mut self, id: u32) -> Result<(u32, u32), NoMemory> {
        self.listed.clear();
        match self.solver.branch.watches.cores.at(id) {
            Some(core) => {
                self.listed.extend_from_slice(&core.need)?;
                Ok((core.thread, core.tree))
            }
            None => Ok((NONE, NONE)),
        }
    }
}
