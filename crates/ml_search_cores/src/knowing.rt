// What is known of a graph.
use ml_arrays::{NONE, NumberSet, more_rows, number, row, signature, small, within};
use ml_base::NoMemory;
use ml_graph::ModalGraph;
use ml_sequent_solver::{Core, FOR_GOOD, OFF, Outcome, Solver, Terms};
use std::alloc::Global;

/// How many steps of the solver are made for each position of the limit.
const STEPS: u64 = 4096;

/// How many steps of the solver go with a limit of positions.
pub fn steps_of(limit: u32) -> u64 {
    STEPS.saturating_mul(limit as u64)
}

/// What is known of a graph: its terms, a solver with cores, and whose cores they are.
#[derive(Drop)]
pub struct Knowledge<'a> {
    /// What depends on the graph alone.
    pub terms: Terms<'a>,
    /// The solver.
    pub solver: Solver,
    /// Of each component of threads the cores of its frames.
    pub frames: Vec<Vec<u32>>,
    /// The cores for good.
    pub good: Vec<u32>,
    /// Of each group its cores, as those of the group.
    pub(crate) twins: Vec<Vec<u32>>,
    /// The number of the last group.
    pub(crate) now: u32,
    /// Cores or nodes that are looked at one after the other.
    pub(crate) listed: Vec<u32>,
    /// The same cores along all actions.
    pub(crate) copies: Vec<u32>,
    /// Cores that refute each other.
    pub(crate) set: NumberSet,
    /// Those that are to be settled.
    pub(crate) part: NumberSet,
    fuel: u64,
}

/// The owner of the frames of a component.
pub(crate) fn owner_of(component: u32) -> u32 {
    component.saturating_add(1)
}

/// The number of a core among those of a list.
pub(crate) fn core_at(cores: &[u32], i: usize) -> u32 {
    number(cores, small(i))
}

/// Lies a core within nodes with these bits?
pub fn lies_within(core: &Core, nodes: &[u32], bits: u64) -> bool {
    core.signature & !bits == 0 && within(&core.nodes, nodes)
}

/// Writes cores with those of the same nodes along other actions, whose numbers follow.
pub(crate) fn write_copies(
    actions: u32,
    cores: &[u32],
    copies: &mut Vec<u32>,
) -> Result<(), NoMemory> {
    copies.clear();
    for core in cores {
        for action in 0..actions {
            copies.push(core.saturating_add(action))?;
        }
    }
    Ok(())
}

impl<'a> Knowledge<'a> {
    /// Nothing is known yet, also not of the graph, and so many steps may be made.
    ///
    /// Cost: constant.
    pub fn empty(alloc: Global, graph: &'a ModalGraph, steps: u64) -> Knowledge<'a> {
        Knowledge {
            terms: Terms::empty(alloc, graph),
            solver: Solver::empty(alloc),
            frames: Vec::new(alloc),
            good: Vec::new(alloc),
            twins: Vec::new(alloc),
            now: 0,
            listed: Vec::new(alloc),
            copies: Vec::new(alloc),
            set: NumberSet::empty(alloc),
            part: NumberSet::empty(alloc),
            fuel: steps,
        }
    }

    /// Makes room, where the terms are known.
    ///
    /// # Errors
    /// `NoMemory` alone.
    ///
    /// Cost: linear in the graph.
    pub fn fill(&mut self) -> Result<(), NoMemory> {
        self.solver.fill(&self.terms, self.fuel)?;
        let components = self.terms.traces.odd.len();
        more_rows(self.terms.alloc, &mut self.frames, components)
    }

    /// As much may be done as at first.
    pub fn refuel(&mut self) {
        self.solver.branch.fuel = self.fuel;
    }

    /// How many steps were made, since the beginning or since as much may be done as at first.
    pub fn spent(&self) -> u64 {
        self.fuel.saturating_sub(self.solver.branch.fuel)
    }

    /// Is nothing more to be done?
    pub fn is_out(&self) -> bool {
        self.solver.branch.fuel == 0
    }

    /// The thread of a core.
    pub(crate) fn thread_of(&self, core: u32) -> u32 {
        match self.solver.branch.watches.cores.at(core) {
            Some(core) => core.thread,
            None => NONE,
        }
    }

    /// Cores of this level or a higher one are active.
    pub fn set_level(&mut self, level: u32) {
        self.solver.branch.watches.min_level = level;
    }

    /// The frames of a component are active, beside the cores for good.
    ///
    /// # Errors
    /// `NoMemory` alone.
    pub fn take_frames(&mut self, component: u32) -> Result<(), NoMemory> {
        let owner = owner_of(component);
        if owner == self.solver.branch.watches.owner {
            return Ok(());
        }
        write_copies(
            self.terms.actions,
            row(&self.frames, component),
            &mut self.copies,
        )?;
        self.solver.set_owner(&self.terms, owner, &self.copies)
    }

    /// Seeks choices under which the nodes can stand, where some aren't wanted, and one thread is followed (or `NONE`).
    ///
    /// # Errors
    /// `NoMemory` alone.
    ///
    /// Cost: at most what is left to be done.
    pub fn query(
        &mut self,
        nodes: &[u32],
        unwanted: &[u32],
        thread: u32,
    ) -> Result<Outcome, NoMemory> {
        self.solver
            .query(&self.terms, nodes, unwanted, thread, NONE)
    }

    /// So much was done.
    pub fn spend(&mut self, steps: usize) {
        self.solver.branch.spend(steps as u64);
    }

    /// The cores for good alone are active.
    ///
    /// # Errors
    /// `NoMemory` alone.
    pub fn take_good(&mut self) -> Result<(), NoMemory> {
        self.solver.set_owner(&self.terms, FOR_GOOD, &[])
    }

    /// One more than the highest level of a core of the thread's frames within these nodes, or 0.
    pub fn blocked(&mut self, thread: u32, nodes: &[u32]) -> u32 {
        let bits = signature(nodes);
        let mut most: u32 = 0;
        let cores = row(&self.frames, self.terms.component(thread));
        for core in cores {
            if let Some(core) = self.solver.branch.watches.cores.at(*core) {
                if core.thread == thread && lies_within(core, nodes, bits) {
                    most = most.max(core.level.saturating_add(1));
                }
            }
        }
        let steps = cores.len() as u64;
        self.solver.branch.spend(steps);
        most
    }

    /// Adds a core of these nodes, which ascend, along each action; the first number.
    pub(crate) fn put(
        &mut self,
        nodes: &[u32],
        thread: u32,
        owner: u32,
        born: u32,
    ) -> Result<u32, NoMemory> {
        let mut first = NONE;
        for action in 0..self.terms.actions {
            let copy = Vec::from_slice(self.terms.alloc, nodes)?;
            let id = self
                .solver
                .put(&self.terms, action, copy, thread, owner, born)?;
            if action == 0 {
                first = id;
            } else {
                self.redirect(id, first);
            }
        }
        Ok(first)
    }

    /// Another core stands in place of this one.
    pub(crate) fn redirect(&mut self, core: u32, to: u32) {
        if let Some(core) = self.solver.branch.watches.cores.at_mut(core) {
            core.redirect = to;
        }
    }

    /// Gives a core another owner, along all actions.
    pub(crate) fn give(&mut self, core: u32, owner: u32) {
        for action in 0..self.terms.actions {
            self.solver
                .give(&self.terms, core.saturating_add(action), owner);
        }
    }

    /// A core is for no one, and another one stands in its place.
    pub(crate) fn turn_off(&mut self, core: u32, redirect: u32) {
        self.give(core, OFF);
        self.redirect(core, redirect);
    }
}
