// Strong components within strong components, by halving the levels, near linear: nothing is claimed of it.
//
// The levels of arcs go from 1 on. A task has points, which the arcs of its upper level and higher ones have made classes, all
// within classes that the arcs of its lower level and higher ones make. It is halved by the classes for the level in the
// middle: within these go the arcs of higher levels, and between them all arcs go.
use crate::arcs::Arc;
use crate::nests::Nest;
use crate::numbers::{NONE, count_at, number, put, small};
use crate::strong::Strong;
use ml_base::NoMemory;
use std::alloc::Global;

/// Points that are to be put into a nest.
#[derive(Drop)]
struct Task {
    lower: u32,
    upper: u32,
    /// The node of each point.
    nodes: Vec<u32>,
    /// The class into which each point's node is to be put, or `NONE`.
    classes: Vec<u32>,
    arcs: Vec<Arc>,
}

/// The halving of tasks.
#[derive(Drop)]
struct Halving {
    alloc: Global,
    nest: Nest,
    strong: Strong,
    tasks: Vec<Task>,
    new: Vec<u32>,
    sizes: Vec<u32>,
}

/// What the halving finds.
#[derive(Drop)]
pub(crate) enum Halved {
    /// The classes.
    Nested(Nest),
    /// A vertex of bad priority on a cycle of arcs that are no lower.
    Bad(u32),
}

/// How many arcs go within classes and are higher than the level, and how many between classes.
fn counts(arcs: &[Arc], class: &[u32], level: u32) -> (usize, usize) {
    let mut inner: usize = 0;
    let mut outer: usize = 0;
    for arc in arcs {
        if number(class, arc.from) != number(class, arc.to) {
            outer = outer.saturating_add(1);
        } else if level < arc.level {
            inner = inner.saturating_add(1);
        }
    }
    (inner, outer)
}

impl Halving {
    /// Numbers anew the points that have arcs, and places the others.
    fn add(&mut self, task: Task) -> Result<(), NoMemory> {
        let mut task = task;
        self.new.clear();
        self.new.resize(task.nodes.len(), NONE)?;
        let mut count: u32 = 0;
        for arc in task.arcs.iter_mut() {
            arc.from = renumbered(&mut self.new, arc.from, &mut count);
            arc.to = renumbered(&mut self.new, arc.to, &mut count);
        }
        let mut nodes = Vec::new(self.alloc);
        let mut classes = Vec::new(self.alloc);
        nodes.resize(count as usize, NONE)?;
        classes.resize(count as usize, NONE)?;
        for point in 0..small(task.nodes.len()) {
            let node = number(&task.nodes, point);
            let class = number(&task.classes, point);
            let new = number(&self.new, point);
            if new != NONE {
                put(&mut nodes, new, node);
                put(&mut classes, new, class);
            } else if class != NONE {
                self.nest.place(node, class);
            }
        }
        if 0 < count {
            self.tasks.push(Task {
                lower: task.lower,
                upper: task.upper,
                nodes,
                classes,
                arcs: task.arcs,
            })?;
        }
        Ok(())
    }

    /// Places the points of a task with one level, so that arcs lead to earlier ones.
    fn settle(&mut self, task: &Task) -> Result<(), NoMemory> {
        let points = small(task.nodes.len());
        self.strong.search(points, &task.arcs, 0)?;
        self.new.clear();
        self.new.resize(points as usize, NONE)?;
        for point in 0..points {
            put(&mut self.new, number(&self.strong.class, point), point);
        }
        for class in 0..points {
            let point = number(&self.new, class);
            if point != NONE {
                self.nest
                    .place(number(&task.nodes, point), number(&task.classes, point));
            }
        }
        Ok(())
    }

    /// Halves a task by the classes of the level in the middle, or finds a bad vertex.
    fn halve(&mut self, task: &Task, bad: &[bool]) -> Result<Option<u32>, NoMemory> {
        let middle = task
            .lower
            .saturating_add(task.upper.saturating_sub(task.lower) / 2);
        self.strong
            .search(small(task.nodes.len()), &task.arcs, middle)?;
        let (inner_count, outer_count) = counts(&task.arcs, &self.strong.class, middle);
        let mut inner = Vec::with_capacity(self.alloc, inner_count)?;
        let mut outer = Vec::with_capacity(self.alloc, outer_count)?;
        for arc in &task.arcs {
            let from = number(&self.strong.class, arc.from);
            let to = number(&self.strong.class, arc.to);
            if from != to {
                outer.push(Arc {
                    from,
                    to,
                    level: arc.level,
                    source: arc.source,
                })?;
            } else if middle < arc.level {
                inner.push(*arc)?;
            } else if is_set(bad, arc.source) {
                return Ok(Some(arc.source));
            }
        }
        self.divide(task, middle, inner, outer)?;
        Ok(None)
    }

    /// Adds the task within the classes and that between them.
    fn divide(
        &mut self,
        task: &Task,
        middle: u32,
        inner: Vec<Arc>,
        outer: Vec<Arc>,
    ) -> Result<(), NoMemory> {
        let points = small(task.nodes.len());
        self.count_sizes(points)?;
        let mut nodes = Vec::new(self.alloc);
        let mut classes = Vec::new(self.alloc);
        let mut within = Vec::with_capacity(self.alloc, points as usize)?;
        nodes.resize(self.strong.classes as usize, NONE)?;
        classes.resize(self.strong.classes as usize, NONE)?;
        for point in 0..points {
            let class = number(&self.strong.class, point);
            put(&mut classes, class, number(&task.classes, point));
            if number(&self.sizes, class) == 1 {
                put(&mut nodes, class, number(&task.nodes, point));
                within.push(NONE)?;
            } else {
                if number(&nodes, class) == NONE {
                    let node = self.nest.class(middle)?;
                    put(&mut nodes, class, node);
                }
                within.push(number(&nodes, class))?;
            }
        }
        let own = Vec::from_slice(self.alloc, &task.nodes)?;
        self.add(Task {
            lower: middle,
            upper: task.upper,
            nodes: own,
            classes: within,
            arcs: inner,
        })?;
        self.add(Task {
            lower: task.lower,
            upper: middle,
            nodes,
            classes,
            arcs: outer,
        })
    }

    /// How many points each class has.
    fn count_sizes(&mut self, points: u32) -> Result<(), NoMemory> {
        self.sizes.clear();
        self.sizes.resize(self.strong.classes as usize, 0)?;
        for point in 0..points {
            count_at(&mut self.sizes, number(&self.strong.class, point));
        }
        Ok(())
    }

    fn run(&mut self, bad: &[bool]) -> Result<Option<u32>, NoMemory> {
        for _ in 0..u64::MAX {
            let Some(task) = self.tasks.pop() else {
                break;
            };
            if task.upper <= task.lower.saturating_add(1) {
                self.settle(&task)?;
            } else if let Some(vertex) = self.halve(&task, bad)? {
                return Ok(Some(vertex));
            }
        }
        Ok(None)
    }
}

fn is_set(flags: &[bool], i: u32) -> bool {
    match flags.get(i as usize) {
        Some(flag) => *flag,
        None => false,
    }
}

/// The new number of a point, which gets one when it is first met.
fn renumbered(new: &mut [u32], point: u32, count: &mut u32) -> u32 {
    let known = number(new, point);
    if known != NONE {
        return known;
    }
    let next = *count;
    put(new, point, next);
    *count = next.saturating_add(1);
    next
}

/// The numbers from 0 on.
fn ascending(alloc: Global, count: u32) -> Result<Vec<u32>, NoMemory> {
    let mut numbers = Vec::with_capacity(alloc, count as usize)?;
    for number in 0..count {
        numbers.push(number)?;
    }
    Ok(numbers)
}

/// The classes of arcs of at most so many levels between so many vertices, of which some have bad priorities.
pub(crate) fn halve_all(
    alloc: Global,
    vertices: u32,
    levels: u32,
    bad: &[bool],
    arcs: Vec<Arc>,
) -> Result<Halved, NoMemory> {
    let mut halving = Halving {
        alloc,
        nest: Nest::of(alloc, vertices)?,
        strong: Strong::empty(alloc),
        tasks: Vec::new(alloc),
        new: Vec::new(alloc),
        sizes: Vec::new(alloc),
    };
    let nodes = ascending(alloc, vertices)?;
    let mut classes = Vec::new(alloc);
    classes.resize(vertices as usize, vertices)?;
    halving.add(Task {
        lower: 0,
        upper: levels.saturating_add(1),
        nodes,
        classes,
        arcs,
    })?;
    match halving.run(bad)? {
        Some(vertex) => Ok(Halved::Bad(vertex)),
        None => Ok(Halved::Nested(halving.nest)),
    }
}
