// Cores: sets of targets that were refuted.
use ml_arrays::{NONE, number, signature, small};
use ml_base::NoMemory;
use std::alloc::Global;

/// A core for everyone, at all times.
pub const FOR_GOOD: u32 = 0;

/// A core for no one.
pub const OFF: u32 = u32::MAX;

/// Nodes that can't all be targets along a diamond: for good, or for one thread and so many steps.
#[derive(Drop)]
pub struct Core {
    /// The action of the diamond.
    pub action: u32,
    /// The nodes, ascending.
    pub nodes: Vec<u32>,
    /// The signature of the nodes.
    pub signature: u64,
    /// The nodes that are watched, the two at which it is first: without those that always are targets; the number of
    /// nodes and more is a node that its own thread reaches.
    pub watched: Vec<u32>,
    /// For whom it is active: `FOR_GOOD`, `OFF`, or a number.
    pub owner: u32,
    /// Of a core for good: it is active for those that are born later.
    pub born: u32,
    /// Of another one: for how many steps it is known.
    pub level: u32,
    /// The thread that can't be ended; `NONE` where nothing can hold at all.
    pub thread: u32,
    /// The tree that closes it.
    pub tree: u32,
    /// The cores on which this rests.
    pub used: Vec<u32>,
    /// The core that stands in place of this one, or `NONE`: also the first one of the same nodes along other actions.
    pub redirect: u32,
    /// Only the nodes of `need` count in an analysis.
    pub is_narrow: bool,
    /// Nodes that count, ascending.
    pub need: Vec<u32>,
}

/// All cores.
#[derive(Drop)]
pub struct Cores {
    /// The cores by their numbers.
    pub all: Vec<Core>,
    alloc: Global,
}

impl Cores {
    /// No core.
    ///
    /// Cost: constant.
    pub fn empty(alloc: Global) -> Cores {
        Cores {
            all: Vec::new(alloc),
            alloc,
        }
    }

    /// A core, if there is one with this number.
    pub fn at(&self, core: u32) -> Option<&Core> {
        self.all.get(core as usize)
    }

    /// The owner of a core.
    pub fn owner(&self, core: u32) -> u32 {
        match self.at(core) {
            Some(core) => core.owner,
            None => OFF,
        }
    }

    /// The level of a core.
    pub fn level(&self, core: u32) -> u32 {
        match self.at(core) {
            Some(core) => core.level,
            None => 0,
        }
    }

    /// The nodes of a core.
    pub fn nodes(&self, core: u32) -> &[u32] {
        match self.at(core) {
            Some(core) => core.nodes.as_slice(),
            None => &[],
        }
    }

    /// The core that stands in place of this one.
    pub fn resolve(&self, core: u32) -> u32 {
        let mut at = core;
        for _ in 0..self.all.len() {
            match self.at(at) {
                Some(core) if core.redirect != NONE => at = core.redirect,
                _ => break,
            }
        }
        at
    }

    /// Adds a core of these nodes, which ascend, and of these that are watched.
    pub(crate) fn push(
        &mut self,
        action: u32,
        nodes: Vec<u32>,
        watched: Vec<u32>,
        owner: u32,
        born: u32,
    ) -> Result<u32, NoMemory> {
        let id = small(self.all.len());
        self.all.push(Core {
            action,
            signature: signature(&nodes),
            nodes,
            watched,
            owner,
            born,
            level: 0,
            thread: NONE,
            tree: NONE,
            used: Vec::new(self.alloc),
            redirect: NONE,
            is_narrow: false,
            need: Vec::new(self.alloc),
        })?;
        Ok(id)
    }

    /// Changes what is kept of a core.
    pub fn at_mut(&mut self, core: u32) -> Option<&mut Core> {
        self.all.get_mut(core as usize)
    }
}

impl Core {
    /// The watched node at a place.
    pub(crate) fn watched(&self, place: u32) -> u32 {
        number(&self.watched, place)
    }
}
