// Which or-nodes wait for a choice.
use crate::branches::Branch;
use crate::order::Order;
use crate::terms::Terms;
use ml_arrays::{NONE, more_numbers, number, put, small};
use ml_base::NoMemory;
use std::alloc::Global;
use std::cmp::Reverse;
use std::collections::BinaryHeap;

/// A node that waits no longer, until the changes from a mark on are taken back.
#[derive(Clone, Copy)]
struct Aside {
    node: u32,
    mark: usize,
    is_unit: bool,
}

/// The or-nodes of a branch that wait for a choice, and perhaps some that are settled or don't stand.
#[derive(Drop)]
pub(crate) struct Choices {
    order: Order,
    /// Those with a side that can't hold which waited before, by their places among the or-nodes that stand.
    units: BinaryHeap<Reverse<(u32, u32)>>,
    aside: Vec<Aside>,
    /// How many of the or-nodes that stand were taken in.
    taken: usize,
    /// The places of these.
    places: Vec<u32>,
}

impl Choices {
    /// Nothing waits, and there is no room.
    pub(crate) fn empty(alloc: Global) -> Choices {
        Choices {
            order: Order::empty(alloc),
            units: BinaryHeap::new(alloc),
            aside: Vec::new(alloc),
            taken: 0,
            places: Vec::new(alloc),
        }
    }

    /// Makes room for a graph.
    pub(crate) fn fill(&mut self, t: &Terms) -> Result<(), NoMemory> {
        let size = t.size as usize;
        more_numbers(&mut self.places, size, NONE)?;
        self.order.fill(size)
    }

    /// Nothing waits.
    pub(crate) fn clear(&mut self) {
        self.order.clear();
        self.units.clear();
        self.aside.clear();
        self.taken = 0;
    }

    /// These nodes gain activity, and later ones gain more.
    pub(crate) fn raise(&mut self, t: &Terms, nodes: &[u32]) {
        for n in nodes {
            self.order.raise(&t.rank, *n);
        }
        self.order.gain_more(&t.rank);
    }

    /// Takes in what stands newly, and what waits again since changes were taken back.
    pub(crate) fn refresh(&mut self, t: &Terms, branch: &mut Branch) -> Result<(), NoMemory> {
        let (mark, ors) = branch.take_least();
        self.taken = self.taken.min(ors);
        let steps = branch.ors.len().saturating_sub(self.taken) as u64;
        branch.spend(steps);
        self.take_in(t, &branch.ors)?;
        self.take_back(t, branch, mark)
    }

    /// Takes in the or-nodes that stand newly.
    fn take_in(&mut self, t: &Terms, ors: &[u32]) -> Result<(), NoMemory> {
        for i in self.taken..ors.len() {
            let n = number(ors, small(i));
            put(&mut self.places, n, small(i));
            self.order.push(&t.rank, n)?;
        }
        self.taken = ors.len();
        Ok(())
    }

    /// What was set aside later than at a mark waits again.
    fn take_back(&mut self, t: &Terms, branch: &mut Branch, mark: usize) -> Result<(), NoMemory> {
        for _ in 0..self.aside.len() {
            match self.aside.pop() {
                Some(aside) if aside.mark > mark => {
                    branch.spend(1);
                    self.wait_again(t, aside)?;
                }
                Some(aside) => {
                    self.aside.push(aside)?;
                    break;
                }
                None => break,
            }
        }
        Ok(())
    }

    fn wait_again(&mut self, t: &Terms, aside: Aside) -> Result<(), NoMemory> {
        if aside.is_unit {
            let place = number(&self.places, aside.node);
            self.units.push(Reverse((place, aside.node)))?;
            return Ok(());
        }
        self.order.push(&t.rank, aside.node)
    }

    /// The next or-node with a side that can't hold, and whether that is the right one.
    pub(crate) fn next_unit(
        &mut self,
        t: &Terms,
        branch: &mut Branch,
    ) -> Result<Option<(u32, bool)>, NoMemory> {
        for _ in 0..u64::MAX {
            let Some(n) = self.pop_unit(branch) else {
                break;
            };
            branch.spend(1);
            if let Some(right) = self.look_at_unit(t, branch, n)? {
                return Ok(Some((n, right)));
            }
        }
        Ok(None)
    }

    fn pop_unit(&mut self, branch: &mut Branch) -> Option<u32> {
        if let Some(n) = branch.units.pop() {
            return Some(n);
        }
        let Reverse((_, n)) = self.units.pop()?;
        Some(n)
    }

    /// Whether the right side can't hold, or the left one can't; `None` where the node waits for no choice.
    fn look_at_unit(
        &mut self,
        t: &Terms,
        branch: &Branch,
        n: u32,
    ) -> Result<Option<bool>, NoMemory> {
        if !branch.stands(n) {
            return Ok(None);
        }
        let Some(right) = branch.unit(t, n) else {
            return Ok(None);
        };
        let is_open = self.set_aside(t, branch, n, true)?;
        Ok(if is_open { Some(right) } else { None })
    }

    /// The or-node that comes first.
    pub(crate) fn next(&mut self, t: &Terms, branch: &mut Branch) -> Result<Option<u32>, NoMemory> {
        for _ in 0..u64::MAX {
            let Some(n) = self.order.pop(&t.rank) else {
                break;
            };
            branch.spend(1);
            if branch.stands(n) && self.set_aside(t, branch, n, false)? {
                return Ok(Some(n));
            }
        }
        Ok(None)
    }

    /// Sets a node aside, which is settled, or a side of which is chosen next; tells which.
    fn set_aside(
        &mut self,
        t: &Terms,
        branch: &Branch,
        node: u32,
        is_unit: bool,
    ) -> Result<bool, NoMemory> {
        let is_open = !branch.is_settled(t, node);
        let mark = branch.mark().saturating_add(if is_open { 1 } else { 0 });
        self.aside.push(Aside {
            node,
            mark,
            is_unit,
        })?;
        Ok(is_open)
    }
}
