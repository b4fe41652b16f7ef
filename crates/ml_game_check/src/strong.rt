// Strongly connected components (Tarjan, Depth-first search and linear graph algorithms, 1972), of which nothing is claimed.
use crate::arcs::Arc;
use crate::numbers::{NONE, count_at, number, put};
use ml_base::NoMemory;
use std::alloc::Global;

/// To which points each point leads.
#[derive(Drop)]
pub(crate) struct Targets {
    /// Where the targets of each point begin.
    pub first: Vec<u32>,
    pub all: Vec<u32>,
    /// Where the next target is put.
    next: Vec<u32>,
}

impl Targets {
    pub(crate) fn empty(alloc: Global) -> Targets {
        Targets {
            first: Vec::new(alloc),
            all: Vec::new(alloc),
            next: Vec::new(alloc),
        }
    }

    /// Takes the arcs of a level or higher ones, between so many points.
    pub(crate) fn fill(&mut self, points: u32, arcs: &[Arc], level: u32) -> Result<(), NoMemory> {
        self.count(points, arcs, level)?;
        for arc in arcs {
            if level <= arc.level {
                let place = number(&self.next, arc.from);
                put(&mut self.all, place, arc.to);
                count_at(&mut self.next, arc.from);
            }
        }
        Ok(())
    }

    /// Where the targets of each point begin.
    fn count(&mut self, points: u32, arcs: &[Arc], level: u32) -> Result<(), NoMemory> {
        self.next.clear();
        self.next.resize(points as usize, 0)?;
        for arc in arcs {
            if level <= arc.level {
                count_at(&mut self.next, arc.from);
            }
        }
        self.first.clear();
        let mut begin: u32 = 0;
        for point in 0..points {
            self.first.push(begin)?;
            let many = number(&self.next, point);
            put(&mut self.next, point, begin);
            begin = begin.saturating_add(many);
        }
        self.first.push(begin)?;
        self.all.clear();
        self.all.resize(begin as usize, NONE)?;
        Ok(())
    }
}

/// A walk depth first, which finds the strongly connected classes of points. Nothing is claimed of them.
#[derive(Drop)]
pub struct Strong {
    targets: Targets,
    /// The place of the next target of each point.
    next: Vec<u32>,
    /// When each point was met.
    met: Vec<u32>,
    /// The point met first that each point is known to reach.
    low: Vec<u32>,
    /// The class of each point. From a class arcs lead to lower ones alone.
    pub class: Vec<u32>,
    /// The points whose class isn't closed.
    waiting: Vec<u32>,
    /// The points that are walked from.
    path: Vec<u32>,
    count: u32,
    /// How many classes there are.
    pub classes: u32,
}

impl Strong {
    /// Room for a walk.
    pub fn empty(alloc: Global) -> Strong {
        Strong {
            targets: Targets::empty(alloc),
            next: Vec::new(alloc),
            met: Vec::new(alloc),
            low: Vec::new(alloc),
            class: Vec::new(alloc),
            waiting: Vec::new(alloc),
            path: Vec::new(alloc),
            count: 0,
            classes: 0,
        }
    }

    /// Finds the classes of so many points, by the arcs of a level or higher ones.
    ///
    /// # Errors
    /// `NoMemory` alone.
    ///
    /// Cost: linear in points and arcs.
    pub fn search(&mut self, points: u32, arcs: &[Arc], level: u32) -> Result<(), NoMemory> {
        self.targets.fill(points, arcs, level)?;
        self.clear(points as usize)?;
        for point in 0..points {
            if number(&self.met, point) == NONE {
                self.meet(point)?;
                self.walk()?;
            }
        }
        Ok(())
    }

    fn clear(&mut self, points: usize) -> Result<(), NoMemory> {
        self.next.clear();
        self.met.clear();
        self.low.clear();
        self.class.clear();
        self.next.resize(points, 0)?;
        self.met.resize(points, NONE)?;
        self.low.resize(points, NONE)?;
        self.class.resize(points, NONE)?;
        self.count = 0;
        self.classes = 0;
        Ok(())
    }

    fn meet(&mut self, point: u32) -> Result<(), NoMemory> {
        put(&mut self.met, point, self.count);
        put(&mut self.low, point, self.count);
        self.count = self.count.saturating_add(1);
        let first = number(&self.targets.first, point);
        put(&mut self.next, point, first);
        self.waiting.push(point)?;
        self.path.push(point)?;
        Ok(())
    }

    fn lower(&mut self, point: u32, low: u32) {
        if low < number(&self.low, point) {
            put(&mut self.low, point, low);
        }
    }

    /// Goes along an arc.
    fn follow(&mut self, point: u32, to: u32) -> Result<(), NoMemory> {
        let met = number(&self.met, to);
        if met == NONE {
            return self.meet(to);
        }
        if number(&self.class, to) == NONE {
            self.lower(point, met);
        }
        Ok(())
    }

    /// Nothing is left to follow from a point.
    fn leave(&mut self, point: u32) {
        let _ = self.path.pop();
        let low = number(&self.low, point);
        if low == number(&self.met, point) {
            self.close(point);
        }
        if let Some(before) = self.path.last().copied() {
            self.lower(before, low);
        }
    }

    fn close(&mut self, root: u32) {
        for _ in 0..u64::MAX {
            let Some(point) = self.waiting.pop() else {
                break;
            };
            put(&mut self.class, point, self.classes);
            if point == root {
                break;
            }
        }
        self.classes = self.classes.saturating_add(1);
    }

    fn walk(&mut self) -> Result<(), NoMemory> {
        for _ in 0..u64::MAX {
            let Some(point) = self.path.last().copied() else {
                break;
            };
            let place = number(&self.next, point);
            if place < number(&self.targets.first, point.saturating_add(1)) {
                put(&mut self.next, point, place.saturating_add(1));
                let to = number(&self.targets.all, place);
                self.follow(point, to)?;
            } else {
                self.leave(point);
            }
        }
        Ok(())
    }
}
