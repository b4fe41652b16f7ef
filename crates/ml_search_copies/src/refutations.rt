// The refutation of what Odd does.
use crate::classes::Step;
use crate::playing::{Plan, Play};
use crate::positions::{Next, Position};
use ml_arrays::{NONE, Numbering, number, small};
use ml_base::NoMemory;
use ml_candidates::{Candidate, Go, Tables, heights_of, join};
use ml_refutation::{Decision, Item};
use ml_trace::state_of;

/// Entries as they are found.
#[derive(Drop)]
struct Entries {
    positions: Numbering,
    gos: Vec<Go>,
    names: u32,
}

/// What is to be done.
#[derive(Clone, Copy)]
enum Task {
    Decide(u32),
    Join(u32),
}

/// Where a plan goes at a leaf of its tree, whose leaves ascend.
fn go_of(leaves: &[u32], plan: &Plan, leaf: u32) -> Option<Next> {
    match leaves.binary_search(&leaf) {
        Ok(place) => plan.goes.get(place).copied(),
        Err(_) => None,
    }
}

impl<'a> Play<'a> {
    /// The refutation that begins at the position of the first class; `None` where it can't be had.
    pub(crate) fn refutation(&self, start: u32) -> Result<Option<Candidate>, NoMemory> {
        let mut entries = Entries {
            positions: Numbering::empty(self.alloc),
            gos: Vec::new(self.alloc),
            names: 1,
        };
        entries.positions.make_room(self.positions.all.len())?;
        entries.positions.number(number(&self.won, start))?;
        let mut decisions = Vec::new(self.alloc);
        if !self.decide_all(&mut entries, &mut decisions)? {
            return Ok(None);
        }
        self.joined(&entries, decisions)
    }

    /// The decisions at all entries; tells whether all could be had.
    fn decide_all(
        &self,
        entries: &mut Entries,
        decisions: &mut Vec<Decision>,
    ) -> Result<bool, NoMemory> {
        for i in 0..usize::MAX {
            let Some(p) = entries.positions.met().get(i).copied() else {
                break;
            };
            match self.decide(small(i), p, entries)? {
                Some(decision) => decisions.push(decision)?,
                None => return Ok(false),
            }
        }
        Ok(true)
    }

    /// The decision at a position.
    fn decide(
        &self,
        entry: u32,
        p: u32,
        entries: &mut Entries,
    ) -> Result<Option<Decision>, NoMemory> {
        let Some(Some(plan)) = self.plans.get(p as usize) else {
            return Ok(None);
        };
        let class = self.positions.class(p);
        let Some(tree) = self.classes.trees(class).get(plan.tree) else {
            return Ok(None);
        };
        if let Some(position) = self.positions.all.get(p as usize) {
            entries.names = entries.names.max(position.names.live);
        }
        let mut done = Vec::new(self.alloc);
        let mut tasks = vec![in self.alloc; Task::Decide(tree.root)]?;
        for _ in 0..u64::MAX {
            let Some(task) = tasks.pop() else {
                break;
            };
            if !self.work(
                entry,
                plan,
                &tree.leaves,
                task,
                entries,
                &mut tasks,
                &mut done,
            )? {
                return Ok(None);
            }
        }
        Ok(done.pop())
    }

    /// Does a task; tells whether it went well.
    fn work(
        &self,
        entry: u32,
        plan: &Plan,
        leaves: &[u32],
        task: Task,
        entries: &mut Entries,
        tasks: &mut Vec<Task>,
        done: &mut Vec<Decision>,
    ) -> Result<bool, NoMemory> {
        let place = match task {
            Task::Join(node) => return join(self.alloc, node, done),
            Task::Decide(place) => place,
        };
        match self.classes.step(place) {
            Some(Step::Split { node, left, right }) => {
                tasks.push(Task::Join(node))?;
                tasks.push(Task::Decide(right))?;
                tasks.push(Task::Decide(left))?;
                Ok(true)
            }
            Some(Step::Clash(cause)) => {
                done.push(Decision::Clash(cause))?;
                Ok(true)
            }
            Some(Step::Leaf(leaf)) => match go_of(leaves, plan, leaf) {
                Some(next) if next.to != NONE => {
                    let decision = self.go(entry, leaf, next, entries)?;
                    done.push(decision)?;
                    Ok(true)
                }
                _ => Ok(false),
            },
            None => Ok(false),
        }
    }

    /// A go at a leaf.
    fn go(
        &self,
        from: u32,
        leaf: u32,
        next: Next,
        entries: &mut Entries,
    ) -> Result<Decision, NoMemory> {
        let entry = entries.positions.number(next.to)?;
        entries.gos.push(Go {
            from,
            mark: next.mark,
            to: entry,
        })?;
        let diamond = match self.classes.leaves.get(leaf as usize) {
            Some(leaf) => leaf.diamond,
            None => NONE,
        };
        Ok(Decision::Go {
            diamond,
            entry,
            mark: next.mark,
        })
    }

    /// The refutation with these decisions at the entries; `None` where there are no heights.
    fn joined(
        &self,
        entries: &Entries,
        decisions: Vec<Decision>,
    ) -> Result<Option<Candidate>, NoMemory> {
        let Some(rows) = heights_of(self.alloc, entries.names, decisions.len(), &entries.gos)?
        else {
            return Ok(None);
        };
        let mut tables = Tables::empty(self.alloc);
        if !self.write_tables(entries, &rows, decisions, &mut tables)? {
            return Ok(None);
        }
        Ok(Some(tables.candidate(entries.names)))
    }

    fn write_tables(
        &self,
        entries: &Entries,
        rows: &[Vec<u64>],
        decisions: Vec<Decision>,
        tables: &mut Tables,
    ) -> Result<bool, NoMemory> {
        for (p, (row, decision)) in entries
            .positions
            .met()
            .iter()
            .zip(rows.iter().zip(decisions))
        {
            let Some(position) = self.positions.all.get(*p as usize) else {
                return Ok(false);
            };
            if !self.write_entry(position, row, decision, tables)? {
                return Ok(false);
            }
        }
        Ok(true)
    }

    fn write_entry(
        &self,
        position: &Position,
        row: &[u64],
        decision: Decision,
        tables: &mut Tables,
    ) -> Result<bool, NoMemory> {
        let mut items = Vec::new(self.alloc);
        for (state, stack) in &position.names.stacks {
            let stack = tables.stacks.push(stack)?;
            let state = state_of(*state, &self.regions.odds);
            items.push(Item {
                node: state.node,
                odd: state.odd,
                stack,
            })?;
        }
        let sequent = tables.sequents.push(self.classes.sequent(position.class))?;
        let live = position.names.live;
        tables.push(self.alloc, sequent, live, items, row, decision)
    }
}
