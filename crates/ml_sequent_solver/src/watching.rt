// Which cores are looked at when a node becomes a target.
use crate::cores::{Core, Cores, FOR_GOOD, OFF};
use crate::terms::Terms;
use ml_arrays::{NONE, more_rows, number, push_at, row};
use ml_base::NoMemory;
use std::alloc::Global;

/// The cores, with lists of those that watch a node, and for whom they are active.
#[derive(Drop)]
pub struct Watches {
    /// The cores.
    pub cores: Cores,
    /// Of each place the cores for good that are watched there; last those with less than two nodes.
    good: Vec<Vec<u32>>,
    /// The same of the cores of the owner.
    own: Vec<Vec<u32>>,
    /// Whose cores are active beside those for good.
    pub owner: u32,
    /// Of the owner's cores those of this level or a higher one are active.
    pub min_level: u32,
    /// Of the cores for good those that were born before are active.
    pub max_born: u32,
}

/// What comes of a visit to a watched core.
#[derive(Clone, Copy)]
enum Visit {
    /// It isn't watched here.
    Leaves,
    /// It stays, for it isn't active.
    Rests,
    /// It stays, and is looked at.
    Fires,
    /// This is watched instead.
    Moves(u32),
    /// This is watched instead, and it is looked at too.
    MovesAndFires(u32),
}

/// Does no square lead to the node?
fn is_free(leads: &[u32], place: u32) -> bool {
    match leads.get(place as usize) {
        Some(count) => *count == 0,
        None => false,
    }
}

/// The first place behind the two that are watched whose node is no target.
fn free_place(core: &Core, leads: &[u32], base: u32) -> Option<usize> {
    for (i, node) in core.watched.iter().enumerate() {
        if i >= 2 && is_free(leads, base.saturating_add(*node)) {
            return Some(i);
        }
    }
    None
}

/// Looks for another node to watch.
fn rewatch(core: &mut Core, leads: &[u32], base: u32, node: u32) -> Visit {
    if core.watched.len() < 2 {
        return Visit::Fires;
    }
    let (here, other): (u32, u32) = if core.watched(0) == node {
        (0, 1)
    } else {
        (1, 0)
    };
    let Some(free) = free_place(core, leads, base) else {
        return Visit::Fires;
    };
    if free >= core.watched.len() {
        return Visit::Fires;
    }
    core.watched.swap(here as usize, free);
    let to = base.saturating_add(core.watched(here));
    let beside = base.saturating_add(core.watched(other));
    if is_free(leads, beside) {
        Visit::Moves(to)
    } else {
        Visit::MovesAndFires(to)
    }
}

/// Takes the number at a place out of a row; the last one stands there then.
fn take_from(rows: &mut [Vec<u32>], row: u32, i: usize) {
    if let Some(list) = rows.get_mut(row as usize) {
        if i < list.len() {
            let _ = list.swap_remove(i);
        }
    }
}

impl Watches {
    /// No core.
    pub(crate) fn empty(alloc: Global) -> Watches {
        Watches {
            cores: Cores::empty(alloc),
            good: Vec::new(alloc),
            own: Vec::new(alloc),
            owner: FOR_GOOD,
            min_level: 0,
            max_born: u32::MAX,
        }
    }

    /// Lists for a graph.
    pub(crate) fn fill(&mut self, t: &Terms) -> Result<(), NoMemory> {
        let places = t.places() as usize;
        more_rows(t.alloc, &mut self.good, places)?;
        more_rows(t.alloc, &mut self.own, places)
    }

    /// Is a core active?
    pub(crate) fn is_active(&self, core: &Core) -> bool {
        if core.owner == FOR_GOOD {
            core.born < self.max_born
        } else {
            core.owner == self.owner && core.level >= self.min_level
        }
    }

    /// Adds a core of these nodes, which ascend, along an action, for an owner; its thread, where it has an owner, is watched
    /// as such.
    pub(crate) fn add(
        &mut self,
        t: &Terms,
        action: u32,
        nodes: Vec<u32>,
        thread: u32,
        owner: u32,
        born: u32,
    ) -> Result<u32, NoMemory> {
        let mut watched = Vec::with_capacity(t.alloc, nodes.len())?;
        for n in &nodes {
            if *n != t.always {
                let is_thread = owner != FOR_GOOD && *n == thread;
                watched.push(if is_thread {
                    n.saturating_add(t.size)
                } else {
                    *n
                })?;
            }
        }
        let id = self.cores.push(action, nodes, watched, owner, born)?;
        self.home(t, id)?;
        Ok(id)
    }

    /// Watches a core, if it is for good or of the owner. No node is a target now.
    pub(crate) fn home(&mut self, t: &Terms, id: u32) -> Result<(), NoMemory> {
        let Some(core) = self.cores.at(id) else {
            return Ok(());
        };
        let base = t.place(core.action, 0);
        let last = t.places().saturating_sub(1);
        let (first, second) = match core.watched.len() {
            0 => (last, NONE),
            1 => (last, base.saturating_add(core.watched(0))),
            _ => (
                base.saturating_add(core.watched(0)),
                base.saturating_add(core.watched(1)),
            ),
        };
        if core.owner == FOR_GOOD {
            push_at(&mut self.good, first, id)?;
            push_at(&mut self.good, second, id)?;
        } else if core.owner == self.owner {
            push_at(&mut self.own, first, id)?;
            push_at(&mut self.own, second, id)?;
        }
        Ok(())
    }

    /// From now on these cores are the owner's. No node is a target now.
    pub fn set_owner(&mut self, t: &Terms, owner: u32, cores: &[u32]) -> Result<(), NoMemory> {
        if owner == self.owner {
            return Ok(());
        }
        for list in self.own.iter_mut() {
            list.clear();
        }
        self.owner = owner;
        for core in cores {
            if owner != FOR_GOOD && self.cores.owner(*core) == owner {
                self.home(t, *core)?;
            }
        }
        Ok(())
    }

    /// Gives a core another owner. No node is a target now.
    pub fn give(&mut self, core: u32, owner: u32) {
        if let Some(core) = self.cores.at_mut(core) {
            core.owner = owner;
        }
    }

    /// How many cores are watched at a place.
    pub(crate) fn count(&self, place: u32, is_own: bool) -> usize {
        self.list(place, is_own).len()
    }

    fn list(&self, place: u32, is_own: bool) -> &[u32] {
        if is_own {
            row(&self.own, place)
        } else {
            row(&self.good, place)
        }
    }

    /// A core that is watched at a place.
    pub(crate) fn core_at(&self, place: u32, is_own: bool, i: u32) -> u32 {
        number(self.list(place, is_own), i)
    }

    /// Visits a core that is watched at a place, whose node is a target now.
    fn visit_core(&mut self, id: u32, leads: &[u32], base: u32, place: u32, is_own: bool) -> Visit {
        let (owner, min_level, max_born) = (self.owner, self.min_level, self.max_born);
        let Some(core) = self.cores.at_mut(id) else {
            return Visit::Leaves;
        };
        if is_own {
            if core.owner != owner {
                return Visit::Leaves;
            }
            if core.level < min_level {
                return Visit::Rests;
            }
        } else {
            if core.owner == OFF {
                return Visit::Leaves;
            }
            if core.born >= max_born {
                return Visit::Rests;
            }
        }
        rewatch(core, leads, base, place.saturating_sub(base))
    }

    fn take_out(&mut self, place: u32, is_own: bool, i: usize) {
        if is_own {
            take_from(&mut self.own, place, i);
        } else {
            take_from(&mut self.good, place, i);
        }
    }

    fn put_in(&mut self, place: u32, is_own: bool, id: u32) -> Result<(), NoMemory> {
        if is_own {
            push_at(&mut self.own, place, id)
        } else {
            push_at(&mut self.good, place, id)
        }
    }

    /// Visits the cores that are watched at a place, whose node is a target now; those that are nearly complete become
    /// pending. Says how many there were.
    pub(crate) fn visit(
        &mut self,
        leads: &[u32],
        base: u32,
        place: u32,
        is_own: bool,
        pending: &mut Vec<u32>,
    ) -> Result<u64, NoMemory> {
        let mut i: usize = 0;
        let mut steps: u64 = 0;
        for _ in 0..u64::MAX {
            let Some(id) = self.list(place, is_own).get(i).copied() else {
                break;
            };
            steps = steps.saturating_add(1);
            match self.visit_core(id, leads, base, place, is_own) {
                Visit::Leaves => self.take_out(place, is_own, i),
                Visit::Rests => i = i.saturating_add(1),
                Visit::Fires => {
                    pending.push(id)?;
                    i = i.saturating_add(1);
                }
                Visit::Moves(to) => {
                    self.take_out(place, is_own, i);
                    self.put_in(to, is_own, id)?;
                }
                Visit::MovesAndFires(to) => {
                    self.take_out(place, is_own, i);
                    self.put_in(to, is_own, id)?;
                    pending.push(id)?;
                }
            }
        }
        Ok(steps)
    }
}
