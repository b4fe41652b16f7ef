// The refutation: an entry for each core for good that is met, from that of the root on.
use crate::decisions::Making;
use crate::knowing::{Knowledge, write_copies};
use crate::settling::owner_of_group;
use ml_arrays::{NONE, Numbering, ascend, number, row, small};
use ml_base::NoMemory;
use ml_candidates::{Candidate, Go, Tables, heights_of};
use ml_refutation::{Decision, Item};
use ml_sequent_solver::{Core, FOR_GOOD, Terms};
use std::alloc::Global;

/// Entries as they are found.
#[derive(Drop)]
pub(crate) struct Entries {
    /// Their cores.
    pub cores: Numbering,
    pub gos: Vec<Go>,
    pub names: u32,
}

impl Entries {
    fn empty(alloc: Global) -> Entries {
        Entries {
            cores: Numbering::empty(alloc),
            gos: Vec::new(alloc),
            names: 0,
        }
    }
}

/// Adds the item of a thread.
fn push_item(t: &Terms, thread: u32, items: &mut Vec<Item>) -> Result<(), NoMemory> {
    if thread != NONE {
        items.push(Item {
            node: thread,
            odd: Some(number(&t.traces.odd, t.component(thread))),
            stack: 0,
        })?;
    }
    Ok(())
}

/// Writes the sequent of a core: its nodes, with the one that says that there is a next state.
fn write_sequent(t: &Terms, core: &Core, nodes: &mut Vec<u32>) -> Result<(), NoMemory> {
    nodes.clear();
    if t.always != NONE && core.nodes.as_slice() != [t.graph.root()].as_slice() {
        nodes.push(t.always)?;
    }
    nodes.extend_from_slice(&core.nodes)?;
    ascend(nodes);
    Ok(())
}

impl<'a> Knowledge<'a> {
    /// The refutation of a root that is refuted; `None` where it can't be had.
    ///
    /// # Errors
    /// `NoMemory` alone.
    ///
    /// Cost: at most as much as may be done at first.
    pub fn refutation(&mut self) -> Result<Option<Candidate>, NoMemory> {
        self.refuel();
        let alloc = self.terms.alloc;
        let start = self.root_core();
        if start == NONE {
            return Ok(None);
        }
        let mut entries = Entries::empty(alloc);
        self.begin_entries(start, &mut entries)?;
        let mut decisions = Vec::new(alloc);
        if !self.decide_all(&mut entries, &mut decisions)? {
            return Ok(None);
        }
        self.joined(&entries, decisions)
    }

    /// The last core for good that the root contains.
    fn root_core(&self) -> u32 {
        let root = self.terms.graph.root();
        let mut last = NONE;
        for id in &self.good {
            if let Some(core) = self.solver.branch.watches.cores.at(*id) {
                if core.nodes.iter().all(|n| *n == root) {
                    last = *id;
                }
            }
        }
        last
    }

    /// The first entry is that of the root, which has just the root.
    fn begin_entries(&mut self, start: u32, entries: &mut Entries) -> Result<(), NoMemory> {
        self.solver.branch.is_patient = true;
        let cores = &self.solver.branch.watches.cores.all;
        entries.cores.make_room(cores.len())?;
        for core in cores {
            if core.owner == FOR_GOOD && core.tree != NONE && core.thread != NONE {
                entries.names = 1;
            }
        }
        let root = self.terms.graph.root();
        if let Some(core) = self.solver.branch.watches.cores.at_mut(start) {
            core.nodes.clear();
            core.nodes.push(root)?;
        }
        let _ = entries.cores.number(start)?;
        Ok(())
    }

    /// The decisions at all entries; tells whether all could be had.
    fn decide_all(
        &mut self,
        entries: &mut Entries,
        decisions: &mut Vec<Decision>,
    ) -> Result<bool, NoMemory> {
        let alloc = self.terms.alloc;
        let mut making = Making {
            tasks: Vec::new(alloc),
            done: Vec::new(alloc),
        };
        self.decide_each(entries, decisions, &mut making)
    }

    fn decide_each(
        &mut self,
        entries: &mut Entries,
        decisions: &mut Vec<Decision>,
        making: &mut Making,
    ) -> Result<bool, NoMemory> {
        for i in 0..usize::MAX {
            let Some(core) = entries.cores.met().get(i).copied() else {
                break;
            };
            let tree = self.stand_at(core)?;
            match self.decide(small(i), tree, entries, making)? {
                Some(decision) => decisions.push(decision)?,
                None => return Ok(false),
            }
        }
        Ok(true)
    }

    /// The branch stands at a core's sequent, with the cores that it may use; its tree.
    fn stand_at(&mut self, id: u32) -> Result<u32, NoMemory> {
        let Some(core) = self.solver.branch.watches.cores.at(id) else {
            return Ok(NONE);
        };
        let (group, thread, tree) = (core.born, core.thread, core.tree);
        self.listed.clear();
        self.listed.extend_from_slice(&core.nodes)?;
        let twins = row(&self.twins, group);
        write_copies(self.terms.actions, twins, &mut self.copies)?;
        self.solver
            .set_owner(&self.terms, owner_of_group(group), &self.copies)?;
        self.solver.branch.watches.min_level = 0;
        self.solver.branch.watches.max_born = group;
        self.solver
            .branch
            .start(&self.terms, &self.listed, &[], thread)?;
        Ok(tree)
    }

    /// The refutation with these decisions at the entries; `None` where there are no heights.
    fn joined(
        &mut self,
        entries: &Entries,
        decisions: Vec<Decision>,
    ) -> Result<Option<Candidate>, NoMemory> {
        let alloc = self.terms.alloc;
        let Some(rows) = heights_of(alloc, entries.names, decisions.len(), &entries.gos)? else {
            return Ok(None);
        };
        let mut tables = Tables::empty(alloc);
        if !self.write_tables(entries, &rows, decisions, &mut tables)? {
            return Ok(None);
        }
        Ok(Some(tables.candidate(entries.names)))
    }

    fn write_tables(
        &mut self,
        entries: &Entries,
        rows: &[Vec<u64>],
        decisions: Vec<Decision>,
        tables: &mut Tables,
    ) -> Result<bool, NoMemory> {
        let _ = tables.stacks.push(&[0])?;
        for (id, (row, decision)) in entries.cores.met().iter().zip(rows.iter().zip(decisions)) {
            if !self.write_entry(*id, row, decision, tables)? {
                return Ok(false);
            }
        }
        Ok(true)
    }

    fn write_entry(
        &mut self,
        id: u32,
        row: &[u64],
        decision: Decision,
        tables: &mut Tables,
    ) -> Result<bool, NoMemory> {
        let Some(core) = self.solver.branch.watches.cores.at(id) else {
            return Ok(false);
        };
        let thread = core.thread;
        write_sequent(&self.terms, core, &mut self.listed)?;
        let alloc = self.terms.alloc;
        let mut items = Vec::new(alloc);
        push_item(&self.terms, thread, &mut items)?;
        let live = small(items.len());
        let sequent = tables.sequents.push(&self.listed)?;
        tables.push(alloc, sequent, live, items, row, decision)
    }
}
