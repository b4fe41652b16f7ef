// The decision of a tree: it is walked again, patiently, until each branch ends in a clash that stands.
use crate::knowing::{Knowledge, core_at};
use crate::refutations::Entries;
use ml_arrays::{NONE, number, row, small};
use ml_base::NoMemory;
use ml_candidates::{Go, join};
use ml_graph::Node;
use ml_refutation::Decision;
use ml_sequent::ClashCause;
use ml_sequent_solver::{Clash, FOR_GOOD, Tree, Why};
use ml_trace::Mark;

/// So many nodes that are looked at one after the other count as one step.
const LOOKED: usize = 16;

/// Where a branch is closed.
#[derive(Clone, Copy)]
pub(crate) enum Rest {
    /// Along a tree.
    Tree(u32),
    /// At a node that stands and can't hold.
    Dead(u32),
}

/// What is to be done.
#[derive(Clone, Copy)]
pub(crate) enum Task {
    Close(Rest),
    /// The left side is decided; the right one is next.
    Right { node: u32, mark: usize, rest: Rest },
    /// Both sides are decided.
    Join { node: u32, mark: usize },
}

/// Decisions in the making.
#[derive(Drop)]
pub(crate) struct Making {
    pub tasks: Vec<Task>,
    pub done: Vec<Decision>,
}

/// Adds a number, unless it is there.
fn push_new(n: u32, numbers: &mut Vec<u32>) -> Result<(), NoMemory> {
    if !numbers.contains(&n) {
        numbers.push(n)?;
    }
    Ok(())
}

impl<'a> Knowledge<'a> {
    /// The decision of a tree at the sequent at which the branch stands; `None` where it can't be had.
    pub(crate) fn decide(
        &mut self,
        from: u32,
        tree: u32,
        entries: &mut Entries,
        making: &mut Making,
    ) -> Result<Option<Decision>, NoMemory> {
        making.tasks.clear();
        making.done.clear();
        making.tasks.push(Task::Close(Rest::Tree(tree)))?;
        for _ in 0..u64::MAX {
            let Some(task) = making.tasks.pop() else {
                break;
            };
            if self.solver.branch.fuel == 0 || !self.work(from, task, entries, making)? {
                return Ok(None);
            }
        }
        Ok(making.done.pop())
    }

    /// Does a task; tells whether it went well.
    fn work(
        &mut self,
        from: u32,
        task: Task,
        entries: &mut Entries,
        making: &mut Making,
    ) -> Result<bool, NoMemory> {
        self.solver.branch.spend(1);
        match task {
            Task::Close(rest) => match self.solver.branch.clash {
                Some(clash) => self.end(from, clash, entries, making),
                None => self.close(rest, making),
            },
            Task::Right { node, mark, rest } => {
                self.solver.branch.undo(&self.terms, mark);
                self.solver.branch.choose(&self.terms, node, true)?;
                making.tasks.push(Task::Join { node, mark })?;
                making.tasks.push(Task::Close(rest))?;
                Ok(true)
            }
            Task::Join { node, mark } => {
                self.solver.branch.undo(&self.terms, mark);
                join(self.terms.alloc, node, &mut making.done)
            }
        }
    }

    /// A branch ends in a clash.
    fn end(
        &mut self,
        from: u32,
        clash: Clash,
        entries: &mut Entries,
        making: &mut Making,
    ) -> Result<bool, NoMemory> {
        let decision = match clash {
            Clash::False(n) => Decision::Clash(ClashCause::False(n)),
            Clash::Pair(positive, negative) => {
                Decision::Clash(ClashCause::Pair(positive, negative))
            }
            Clash::Core(core, diamond) => self.go(from, core, diamond, entries)?,
            Clash::Dead(_) => return Ok(false),
        };
        making.done.push(decision)?;
        Ok(true)
    }

    /// A go along a diamond to the entry of a core.
    fn go(
        &mut self,
        from: u32,
        core: u32,
        diamond: u32,
        entries: &mut Entries,
    ) -> Result<Decision, NoMemory> {
        let to = self.solver.branch.watches.cores.resolve(core);
        let mark = self.mark_of(core, to, diamond, entries)?;
        let entry = entries.cores.number(to)?;
        entries.gos.push(Go {
            from,
            mark,
            to: entry,
        })?;
        Ok(Decision::Go {
            diamond,
            entry,
            mark,
        })
    }

    /// The mark of a go: within a group the thread goes on, and may pass its priority.
    fn mark_of(
        &mut self,
        core: u32,
        to: u32,
        diamond: u32,
        entries: &Entries,
    ) -> Result<Mark, NoMemory> {
        if self.solver.branch.watches.cores.owner(core) == FOR_GOOD {
            return Ok(if entries.names == 0 {
                Mark::Neutral
            } else {
                Mark::Red(0)
            });
        }
        let thread = self.thread_of(to);
        if self.passes(diamond, thread)? {
            Ok(Mark::Green(0))
        } else {
            Ok(Mark::Neutral)
        }
    }

    /// Does the thread that is followed pass the priority of its component on a walk along a diamond to this node?
    fn passes(&mut self, diamond: u32, to: u32) -> Result<bool, NoMemory> {
        let mut work = Vec::new(self.terms.alloc);
        let mut seen = Vec::new(self.terms.alloc);
        self.walk(diamond, to, &mut work, &mut seen)
    }

    fn walk(
        &mut self,
        diamond: u32,
        to: u32,
        work: &mut Vec<(u32, bool)>,
        seen: &mut Vec<(u32, bool)>,
    ) -> Result<bool, NoMemory> {
        work.push((self.solver.branch.focus, false))?;
        for _ in 0..u64::MAX {
            let Some((n, was_passed)) = work.pop() else {
                break;
            };
            let passed = was_passed || self.is_low(n);
            if n == NONE || seen.contains(&(n, passed)) {
                continue;
            }
            seen.push((n, passed))?;
            self.solver.branch.spend(seen.len() as u64);
            if passed && to != NONE && self.terms.along(n, diamond) == to {
                return Ok(true);
            }
            let (left, right) = self.solver.branch.next_on_thread(&self.terms, n);
            work.push((left, passed))?;
            work.push((right, passed))?;
        }
        Ok(false)
    }

    /// Has the node the priority of the component of the thread that is followed?
    fn is_low(&self, n: u32) -> bool {
        let component = self.terms.component(self.solver.branch.focus);
        match self.terms.graph.priorities().get(n as usize) {
            Some(priority) => { *priority == number(&self.terms.traces.odd, component) }
            None => false,
        }
    }

    /// Goes on to close a branch without a clash; tells whether it went well. Where what is needed doesn't stand, it lies
    /// behind an or-node with one node as both sides.
    fn close(&mut self, rest: Rest, making: &mut Making) -> Result<bool, NoMemory> {
        if self.close_here(rest, making)? {
            return Ok(true);
        }
        let wanted = self.wanted(rest);
        let node = self.same_sided(wanted)?;
        if node == NONE {
            return Ok(false);
        }
        self.split(node, rest, rest, making)
    }

    fn close_here(&mut self, rest: Rest, making: &mut Making) -> Result<bool, NoMemory> {
        match rest {
            Rest::Dead(n) => self.close_dead(n, making),
            Rest::Tree(tree) => match self.solver.tree(tree) {
                Some(Tree::Split { node, left, right }) => {
                    self.split(node, Rest::Tree(left), Rest::Tree(right), making)
                }
                Some(Tree::Unit { node, right, rest }) => {
                    self.close_unit(node, right, rest, making)
                }
                Some(Tree::Closed(Clash::Dead(n))) => self.close_dead(n, making),
                _ => self.close_dead(NONE, making),
            },
        }
    }

    /// A node that is needed and doesn't stand, or `NONE`.
    fn wanted(&self, rest: Rest) -> u32 {
        match rest {
            Rest::Dead(n) => n,
            Rest::Tree(tree) => match self.solver.tree(tree) {
                Some(Tree::Split { node, .. }) | Some(Tree::Unit { node, .. }) => node,
                Some(Tree::Closed(clash)) => self.wanted_by(clash),
                None => NONE,
            },
        }
    }

    fn wanted_by(&self, clash: Clash) -> u32 {
        match clash {
            Clash::False(n) | Clash::Dead(n) => n,
            Clash::Pair(positive, negative) => {
                if self.solver.branch.stands(positive) {
                    negative
                } else {
                    positive
                }
            }
            Clash::Core(core, diamond) => {
                if self.solver.branch.stands(diamond) {
                    self.wanted_square(core)
                } else {
                    diamond
                }
            }
        }
    }

    /// A square to a node of the core to which none that stands leads, or `NONE`.
    fn wanted_square(&self, core: u32) -> u32 {
        let cores = &self.solver.branch.watches.cores;
        for n in cores.nodes(cores.resolve(core)) {
            if !self.is_target(*n) {
                return core_at(row(&self.terms.squares_to, *n), 0);
            }
        }
        NONE
    }

    /// Does a square that stands lead to the node?
    fn is_target(&self, n: u32) -> bool {
        for square in row(&self.terms.squares_to, n) {
            if self.solver.branch.stands(*square) {
                return true;
            }
        }
        false
    }

    /// An open or-node with one node as both sides, behind which a node lies if there is such a one; else any, or `NONE`.
    fn same_sided(&mut self, wanted: u32) -> Result<u32, NoMemory> {
        let mut seen = Vec::new(self.terms.alloc);
        let mut any = NONE;
        for i in 0..self.solver.branch.ors.len() {
            let n = core_at(&self.solver.branch.ors, i);
            if self.is_same_sided(n) && self.solver.branch.side(n) == 0 {
                any = n;
                if self.lies_behind(n, wanted, &mut seen)? {
                    return Ok(n);
                }
            }
        }
        Ok(any)
    }

    fn is_same_sided(&self, n: u32) -> bool {
        match self.terms.node(n) {
            Node::Or { left, right } => left == right,
            _ => false,
        }
    }

    /// Does a node lie behind another one, by Ands and by or-nodes with one node as both sides?
    fn lies_behind(&mut self, n: u32, wanted: u32, seen: &mut Vec<u32>) -> Result<bool, NoMemory> {
        seen.clear();
        seen.push(n)?;
        for i in 0..usize::MAX {
            let Some(at) = seen.get(i).copied() else {
                break;
            };
            if at == wanted {
                return Ok(true);
            }
            self.solver.branch.spend(seen.len() as u64);
            match self.terms.node(at) {
                Node::And { left, right } => {
                    push_new(left, seen)?;
                    push_new(right, seen)?;
                }
                Node::Or { left, right } if left == right => push_new(left, seen)?,
                _ => {}
            }
        }
        Ok(false)
    }

    /// Both sides of an or-node, or the one that was chosen.
    fn split(
        &mut self,
        node: u32,
        left: Rest,
        right: Rest,
        making: &mut Making,
    ) -> Result<bool, NoMemory> {
        match self.solver.branch.side(node) {
            0 => {
                if !self.solver.branch.stands(node) {
                    return Ok(false);
                }
                let mark = self.solver.branch.mark();
                making.tasks.push(Task::Right {
                    node,
                    mark,
                    rest: right,
                })?;
                self.solver.branch.choose(&self.terms, node, false)?;
                making.tasks.push(Task::Close(left))?;
            }
            1 => making.tasks.push(Task::Close(left))?,
            _ => making.tasks.push(Task::Close(right))?,
        }
        Ok(true)
    }

    /// One side of an or-node can't hold.
    fn close_unit(
        &mut self,
        node: u32,
        is_right: bool,
        rest: u32,
        making: &mut Making,
    ) -> Result<bool, NoMemory> {
        let Node::Or { left, right } = self.terms.node(node) else {
            return Ok(false);
        };
        if is_right {
            self.split(node, Rest::Tree(rest), Rest::Dead(right), making)
        } else {
            self.split(node, Rest::Dead(left), Rest::Tree(rest), making)
        }
    }

    /// Follows why a node that stands can't hold, to an or-node neither of whose sides can.
    fn close_dead(&mut self, node: u32, making: &mut Making) -> Result<bool, NoMemory> {
        let mut at = self.standing_dead(node);
        if at != node {
            let steps = self.terms.size as usize / LOOKED;
            self.spend(steps);
        }
        for _ in 0..self.terms.size {
            match (self.solver.branch.facts.why(at), self.terms.node(at)) {
                (Why::Child(child), _) => at = child,
                (Why::Both, Node::Or { left, right }) => {
                    return self.split(at, Rest::Dead(left), Rest::Dead(right), making);
                }
                _ => return Ok(false),
            }
        }
        Ok(false)
    }

    /// The node, if it stands and can't hold; else another such one.
    fn standing_dead(&mut self, node: u32) -> u32 {
        let branch = &self.solver.branch;
        if branch.stands(node) && branch.is_dead(node) {
            return node;
        }
        for n in 0..self.terms.size {
            if branch.stands(n) && branch.is_dead(n) {
                return n;
            }
        }
        NONE
    }
}
