// Decisions over copies become trees over the graph itself.
use crate::classes::{Classes, Leaf, Step, Trace, Tree, Way};
use crate::copying::Copied;
use crate::regions::{Regions, priority};
use ml_arrays::{NONE, NumberSet, ascend, number, small};
use ml_base::NoMemory;
use ml_graph::Node;
use ml_refutation::{Decision, Entry, Item, Lists};
use ml_sequent::ClashCause;
use ml_sequent_solver::{Branch, Clash, Terms};

/// What is to be done.
#[derive(Clone, Copy)]
enum Task<'a> {
    Close(&'a Decision),
    /// The left side is decided; the right one is next.
    Right {
        node: u32,
        mark: usize,
        rest: &'a Decision,
    },
    /// Both sides are decided.
    Join {
        node: u32,
        mark: usize,
    },
}

/// What was decided of an entry so far.
#[derive(Drop)]
struct Deciding {
    done: Vec<u32>,
    leaves: Vec<u32>,
}

/// Projects decisions.
#[derive(Drop)]
pub(crate) struct Projector<'a> {
    pub t: &'a Terms<'a>,
    pub regions: &'a Regions,
    pub branch: Branch,
    levels: Vec<u32>,
    seen: NumberSet,
    walk: Vec<(u32, u32)>,
}

/// A refutation over copies.
#[derive(Clone, Copy)]
pub(crate) struct Over<'a> {
    pub copied: &'a Copied,
    pub entries: &'a [Entry],
    /// The class of each entry; `NONE` where no passage is left.
    pub classes: &'a [u32],
}

/// The nodes of which these are copies, ascending.
fn write_origins(copied: &Copied, nodes: &[u32], origins: &mut Vec<u32>) -> Result<(), NoMemory> {
    for n in nodes {
        origins.push(number(&copied.from, *n))?;
    }
    ascend(origins);
    Ok(())
}

/// The state of the thread in focus, or `NONE`.
fn thread_of(regions: &Regions, copied: &Copied, items: &[Item]) -> u32 {
    match items.first() {
        Some(item) => regions.state_of(number(&copied.from, item.node), item.odd),
        None => NONE,
    }
}

/// Writes the class of each entry.
pub(crate) fn write_classes(
    t: &Terms,
    regions: &Regions,
    copied: &Copied,
    sequents: &Lists,
    entries: &[Entry],
    classes: &mut Classes,
    numbers: &mut Vec<u32>,
) -> Result<(), NoMemory> {
    for entry in entries {
        let mut origins = Vec::new(t.alloc);
        write_origins(copied, sequents.at(entry.sequent), &mut origins)?;
        if origins.last() == Some(&NONE) {
            numbers.push(NONE)?;
        } else {
            let thread = thread_of(regions, copied, &entry.items);
            numbers.push(classes.number(origins, thread)?)?;
        }
    }
    Ok(())
}

impl<'a> Projector<'a> {
    /// Nothing is projected yet; so many steps may be made.
    pub(crate) fn new(
        t: &'a Terms<'a>,
        regions: &'a Regions,
        fuel: u64,
    ) -> Result<Projector<'a>, NoMemory> {
        let mut branch = Branch::empty(t.alloc);
        branch.fuel = fuel;
        branch.fill(t)?;
        branch.is_patient = true;
        let mut levels = Vec::from_slice(t.alloc, t.graph.priorities())?;
        ascend(&mut levels);
        Ok(Projector {
            t,
            regions,
            branch,
            levels,
            seen: NumberSet::empty(t.alloc),
            walk: Vec::new(t.alloc),
        })
    }

    /// Adds the trees of all entries to their classes, as far as fuel reaches.
    pub(crate) fn take(&mut self, over: Over, classes: &mut Classes) -> Result<(), NoMemory> {
        for (i, entry) in over.entries.iter().enumerate() {
            let class = number(over.classes, small(i));
            if class != NONE {
                self.take_entry(over, class, &entry.decision, classes)?;
            }
        }
        let steps = classes.open_ended()?;
        self.branch.spend(steps as u64);
        Ok(())
    }

    fn take_entry(
        &mut self,
        over: Over,
        class: u32,
        decision: &Decision,
        classes: &mut Classes,
    ) -> Result<(), NoMemory> {
        let made = classes.made();
        self.branch
            .start(self.t, classes.sequent(class), &[], NONE)?;
        match self.project(over, class, decision, classes)? {
            Some(tree) => {
                let steps = classes.add(class, tree, made)?;
                self.branch.spend(steps as u64);
            }
            None => classes.take_back(made),
        }
        Ok(())
    }

    /// The tree of a decision at a class, at whose sequent the branch stands; `None` where the graph has no clash.
    fn project(
        &mut self,
        over: Over,
        class: u32,
        decision: &Decision,
        classes: &mut Classes,
    ) -> Result<Option<Tree>, NoMemory> {
        let alloc = self.t.alloc;
        let mut deciding = Deciding {
            done: Vec::new(alloc),
            leaves: Vec::new(alloc),
        };
        let mut tasks = vec![in alloc; Task::Close(decision)]?;
        for _ in 0..u64::MAX {
            let Some(task) = tasks.pop() else {
                break;
            };
            if self.branch.fuel == 0
                || !self.work(over, class, task, &mut tasks, classes, &mut deciding)?
            {
                return Ok(None);
            }
        }
        let Deciding { mut done, leaves } = deciding;
        match done.pop() {
            Some(root) => Ok(Some(Tree { root, leaves })),
            None => Ok(None),
        }
    }

    /// Does a task; tells whether it went well.
    fn work<'b>(
        &mut self,
        over: Over,
        class: u32,
        task: Task<'b>,
        tasks: &mut Vec<Task<'b>>,
        classes: &mut Classes,
        deciding: &mut Deciding,
    ) -> Result<bool, NoMemory> {
        self.branch.spend(1);
        match task {
            Task::Close(decision) => self.close(over, class, decision, tasks, classes, deciding),
            Task::Right { node, mark, rest } => {
                self.branch.undo(self.t, mark);
                self.branch.choose(self.t, node, true)?;
                tasks.push(Task::Join { node, mark })?;
                tasks.push(Task::Close(rest))?;
                Ok(true)
            }
            Task::Join { node, mark } => {
                self.branch.undo(self.t, mark);
                join(node, classes, deciding)
            }
        }
    }

    /// Goes on with a decision; where the graph itself clashes, it ends there.
    fn close<'b>(
        &mut self,
        over: Over,
        class: u32,
        decision: &'b Decision,
        tasks: &mut Vec<Task<'b>>,
        classes: &mut Classes,
        deciding: &mut Deciding,
    ) -> Result<bool, NoMemory> {
        if let Some(cause) = self.cause() {
            let place = classes.push_step(Step::Clash(cause))?;
            deciding.done.push(place)?;
            return Ok(true);
        }
        match decision {
            Decision::Clash(_) => Ok(false),
            Decision::Split { node, left, right } => {
                let node = number(&over.copied.from, *node);
                self.split(node, left, right, tasks)
            }
            Decision::Go { diamond, entry, .. } => {
                let diamond = number(&over.copied.from, *diamond);
                let to = number(over.classes, *entry);
                self.go(class, diamond, to, classes, deciding)
            }
        }
    }

    /// Why the graph clashes, if it does.
    fn cause(&self) -> Option<ClashCause> {
        match self.branch.clash {
            Some(Clash::False(n)) => Some(ClashCause::False(n)),
            Some(Clash::Pair(positive, negative)) => Some(ClashCause::Pair(positive, negative)),
            _ => None,
        }
    }

    /// Splits an or-node, or follows the side that was chosen.
    fn split<'b>(
        &mut self,
        node: u32,
        left: &'b Decision,
        right: &'b Decision,
        tasks: &mut Vec<Task<'b>>,
    ) -> Result<bool, NoMemory> {
        match self.branch.side(node) {
            0 => {
                if !self.branch.stands(node) {
                    return Ok(false);
                }
                let mark = self.branch.mark();
                tasks.push(Task::Right {
                    node,
                    mark,
                    rest: right,
                })?;
                self.branch.choose(self.t, node, false)?;
                tasks.push(Task::Close(left))?;
            }
            1 => tasks.push(Task::Close(left))?,
            _ => tasks.push(Task::Close(right))?,
        }
        Ok(true)
    }

    /// A leaf along a diamond to a class, or `NONE` where no passage is left.
    fn go(
        &mut self,
        class: u32,
        diamond: u32,
        to: u32,
        classes: &mut Classes,
        deciding: &mut Deciding,
    ) -> Result<bool, NoMemory> {
        if !self.branch.stands(diamond) {
            return Ok(false);
        }
        let alloc = self.t.alloc;
        let mut leaf = Leaf {
            diamond,
            targets: Vec::new(alloc),
            traces: Vec::new(alloc),
            ways: Vec::new(alloc),
            won: NONE,
        };
        self.write_targets(diamond, &mut leaf.targets)?;
        self.write_traces(classes.sequent(class), diamond, &mut leaf.traces)?;
        let number = small(classes.leaves.len());
        if to == NONE {
            classes.ended.push(number)?;
        } else {
            leaf.ways.push(Way { to, letter: None })?;
        }
        classes.leaves.push(leaf)?;
        let place = classes.push_step(Step::Leaf(number))?;
        deciding.leaves.push(number)?;
        deciding.done.push(place)?;
        Ok(true)
    }

    /// Writes the targets along a diamond, ascending.
    fn write_targets(&mut self, diamond: u32, targets: &mut Vec<u32>) -> Result<(), NoMemory> {
        for n in &self.branch.modals {
            let to = self.t.along(*n, diamond);
            if to != NONE {
                targets.push(to)?;
            }
        }
        ascend(targets);
        let steps = self.branch.modals.len() as u64;
        self.branch.spend(steps);
        Ok(())
    }

    /// Writes the walks from nodes of a sequent in which threads are to targets along a diamond.
    fn write_traces(
        &mut self,
        nodes: &[u32],
        diamond: u32,
        traces: &mut Vec<Trace>,
    ) -> Result<(), NoMemory> {
        for n in nodes {
            if self.regions.has_threads(*n) {
                self.write_from(*n, diamond, traces)?;
            }
        }
        Ok(())
    }

    fn write_from(
        &mut self,
        from: u32,
        diamond: u32,
        traces: &mut Vec<Trace>,
    ) -> Result<(), NoMemory> {
        self.seen.clear();
        self.walk.clear();
        self.walk.push((from, small(self.levels.len())))?;
        for _ in 0..u64::MAX {
            let Some((n, before)) = self.walk.pop() else {
                break;
            };
            if n == NONE {
                continue;
            }
            let level = self.level(n).min(before);
            let count = small(self.levels.len());
            if !self
                .seen
                .insert(n.saturating_mul(count).saturating_add(level))?
            {
                continue;
            }
            self.branch.spend(1);
            let to = self.t.along(n, diamond);
            if to != NONE {
                let lowest = number(&self.levels, level);
                traces.push(Trace { from, lowest, to })?;
            }
            let (left, right) = self.children(n);
            self.walk.push((left, level))?;
            self.walk.push((right, level))?;
        }
        Ok(())
    }

    /// The place of a node's priority.
    fn level(&self, n: u32) -> u32 {
        match self.levels.binary_search(&priority(self.t, n)) {
            Ok(place) => small(place),
            Err(place) => small(place),
        }
    }

    /// Where a walk without modal steps goes on from a node that stands.
    fn children(&self, n: u32) -> (u32, u32) {
        match (self.t.node(n), self.branch.side(n)) {
            (Node::And { left, right }, _) => (left, right),
            (Node::Or { left, .. }, 1) => (left, NONE),
            (Node::Or { right, .. }, 2) => (NONE, right),
            _ => (NONE, NONE),
        }
    }
}

/// Puts the split at a node in place of the last two places; tells whether there were two.
fn join(node: u32, classes: &mut Classes, deciding: &mut Deciding) -> Result<bool, NoMemory> {
    let Some(right) = deciding.done.pop() else {
        return Ok(false);
    };
    let Some(left) = deciding.done.pop() else {
        return Ok(false);
    };
    let place = classes.push_step(Step::Split { node, left, right })?;
    deciding.done.push(place)?;
    Ok(true)
}
