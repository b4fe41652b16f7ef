// Which conjuncts a refutation needs.
//
// Of each entry the nodes of its sequent are found that its decision needs: those from which a clash comes, and those from
// which a diamond comes that is gone along, with what leads to the nodes that the entry behind it needs; and the nodes whose
// traces it follows. These are the least such sets, found by going round until nothing is new.
use crate::joining::Joined;
use crate::spread::Spread;
use crate::totals::node_of;
use ml_arrays::{NONE, empty_rows, more_numbers, number, push_at, put, row, set_flag, small};
use ml_base::NoMemory;
use ml_graph::{ModalGraph, Node};
use ml_refutation::{Decision, Entry, Lists};
use ml_sequent::ClashCause;
use std::alloc::Global;

/// What is to be done on a walk over a decision.
#[derive(Clone, Copy)]
enum Task<'a> {
    Walk(&'a Decision),
    /// The left side of an or-node is walked; the right one is next.
    Right {
        node: u32,
        mark: usize,
        decision: &'a Decision,
    },
}

/// Entries, with what is known of their needs.
#[derive(Drop)]
struct Needs<'a> {
    graph: &'a ModalGraph,
    sequents: &'a Lists,
    entries: &'a [Entry],
    spread: Spread<'a>,
    /// Of each entry the nodes that it needs.
    needed: Vec<Vec<u32>>,
    /// Of each entry those that go to it.
    users: Vec<Vec<u32>>,
    /// Entries that are to be walked.
    open: Vec<u32>,
    is_open: Vec<u32>,
    /// Of each node the squares that lead to it.
    squares: Vec<Vec<u32>>,
    /// Of each node when a chain went through it last.
    passed: Vec<u32>,
    now: u32,
    /// Of each node the conjunct for which it stands, or `NONE`.
    conjuncts: Vec<u32>,
    fuel: u64,
}

/// Flags the conjuncts that a refutation of the joined graph needs; where that takes more than so many steps, all of them.
///
/// # Errors
/// `NoMemory` alone.
pub(crate) fn flag_needed(
    alloc: Global,
    joined: &Joined,
    sequents: &Lists,
    entries: &[Entry],
    fuel: u64,
    flags: &mut [bool],
) -> Result<(), NoMemory> {
    let mut needs = Needs {
        graph: &joined.graph,
        sequents,
        entries,
        spread: Spread::of(alloc, &joined.graph)?,
        needed: Vec::new(alloc),
        users: Vec::new(alloc),
        open: Vec::new(alloc),
        is_open: Vec::new(alloc),
        squares: Vec::new(alloc),
        passed: Vec::new(alloc),
        now: 0,
        conjuncts: Vec::new(alloc),
        fuel,
    };
    needs.run(alloc, &joined.tops, flags)
}

impl<'a> Needs<'a> {
    /// Flags what is needed; where that takes too long, everything.
    fn run(&mut self, alloc: Global, tops: &[u32], flags: &mut [bool]) -> Result<(), NoMemory> {
        self.fill(alloc, tops)?;
        self.walk_all(alloc, flags)?;
        if self.fuel == 0 {
            for flag in flags.iter_mut() {
                *flag = true;
            }
        }
        Ok(())
    }

    fn fill(&mut self, alloc: Global, tops: &[u32]) -> Result<(), NoMemory> {
        let (graph, entries) = (self.graph, self.entries);
        let size = graph.nodes().len();
        let count = entries.len();
        self.needed = empty_rows(alloc, count)?;
        self.users = empty_rows(alloc, count)?;
        more_numbers(&mut self.is_open, count, 0)?;
        more_numbers(&mut self.passed, size, 0)?;
        more_numbers(&mut self.conjuncts, size, NONE)?;
        self.squares = empty_rows(alloc, size)?;
        for (i, top) in tops.iter().enumerate() {
            put(&mut self.conjuncts, *top, small(i));
        }
        for (n, node) in graph.nodes().iter().enumerate() {
            if let Node::Square { to, .. } = node {
                push_at(&mut self.squares, *to, small(n))?;
            }
        }
        for (i, entry) in entries.iter().enumerate() {
            for item in &entry.items {
                push_at(&mut self.needed, small(i), item.node)?;
            }
        }
        Ok(())
    }

    /// Walks entries until nothing is new.
    fn walk_all(&mut self, alloc: Global, flags: &mut [bool]) -> Result<(), NoMemory> {
        let mut tasks = Vec::new(alloc);
        for i in 0..small(self.entries.len()) {
            self.note_users(i, &mut tasks)?;
            self.reopen(i)?;
        }
        for _ in 0..u64::MAX {
            let Some(i) = self.open.pop() else {
                break;
            };
            put(&mut self.is_open, i, 0);
            if self.fuel == 0 {
                break;
            }
            self.walk(i, &mut tasks, flags)?;
        }
        Ok(())
    }

    fn reopen(&mut self, i: u32) -> Result<(), NoMemory> {
        if number(&self.is_open, i) == 0 {
            put(&mut self.is_open, i, 1);
            self.open.push(i)?;
        }
        Ok(())
    }

    fn spend(&mut self, steps: u64) {
        self.fuel = self.fuel.saturating_sub(steps);
    }

    /// Notes to which entries one goes.
    fn note_users(&mut self, i: u32, tasks: &mut Vec<Task<'a>>) -> Result<(), NoMemory> {
        tasks.clear();
        let entries = self.entries;
        let Some(entry) = entries.get(i as usize) else {
            return Ok(());
        };
        tasks.push(Task::Walk(&entry.decision))?;
        for _ in 0..u64::MAX {
            let Some(task) = tasks.pop() else {
                break;
            };
            self.spend(1);
            if let Task::Walk(decision) = task {
                match decision {
                    Decision::Split { left, right, .. } => {
                        tasks.push(Task::Walk(right))?;
                        tasks.push(Task::Walk(left))?;
                    }
                    Decision::Go { entry, .. } => self.note_user(*entry, i)?,
                    Decision::Clash(_) => {}
                }
            }
        }
        Ok(())
    }

    fn note_user(&mut self, to: u32, from: u32) -> Result<(), NoMemory> {
        if row(&self.users, to).last().copied() == Some(from) {
            return Ok(());
        }
        push_at(&mut self.users, to, from)
    }

    /// Walks the decision of an entry.
    fn walk(
        &mut self,
        i: u32,
        tasks: &mut Vec<Task<'a>>,
        flags: &mut [bool],
    ) -> Result<(), NoMemory> {
        let (entries, sequents) = (self.entries, self.sequents);
        let Some(entry) = entries.get(i as usize) else {
            return Ok(());
        };
        let before = row(&self.needed, i).len();
        tasks.clear();
        self.spread.start(sequents.at(entry.sequent))?;
        tasks.push(Task::Walk(&entry.decision))?;
        for _ in 0..u64::MAX {
            let Some(task) = tasks.pop() else {
                break;
            };
            self.work(i, task, tasks, flags)?;
            let steps = self.spread.steps;
            self.spread.steps = 0;
            self.spend(steps.saturating_add(1));
        }
        if row(&self.needed, i).len() != before {
            self.reopen_users(i)?;
        }
        Ok(())
    }

    fn reopen_users(&mut self, i: u32) -> Result<(), NoMemory> {
        for k in 0..row(&self.users, i).len() {
            let user = number(row(&self.users, i), small(k));
            self.reopen(user)?;
        }
        Ok(())
    }

    fn work(
        &mut self,
        i: u32,
        task: Task<'a>,
        tasks: &mut Vec<Task<'a>>,
        flags: &mut [bool],
    ) -> Result<(), NoMemory> {
        match task {
            Task::Walk(Decision::Split { node, left, right }) => {
                let mark = self.spread.mark();
                tasks.push(Task::Right {
                    node: *node,
                    mark,
                    decision: right,
                })?;
                tasks.push(Task::Walk(left))?;
                self.spread.choose(*node, false)
            }
            Task::Right {
                node,
                mark,
                decision,
            } => {
                self.spread.undo(mark);
                tasks.push(Task::Walk(decision))?;
                self.spread.choose(node, true)
            }
            Task::Walk(Decision::Clash(cause)) => self.need_clash(i, *cause, flags),
            Task::Walk(Decision::Go { diamond, entry, .. }) => {
                self.need_go(i, *diamond, *entry, flags)
            }
        }
    }

    fn need_clash(
        &mut self,
        i: u32,
        cause: ClashCause,
        flags: &mut [bool],
    ) -> Result<(), NoMemory> {
        self.now = self.now.saturating_add(1);
        match cause {
            ClashCause::False(n) | ClashCause::Cycle(n) => self.need(i, n, flags),
            ClashCause::Pair(positive, negative) => {
                self.need(i, positive, flags)?;
                self.need(i, negative, flags)
            }
        }
    }

    /// The diamond is needed, and what leads along it to the nodes that the entry behind it needs.
    fn need_go(
        &mut self,
        i: u32,
        diamond: u32,
        entry: u32,
        flags: &mut [bool],
    ) -> Result<(), NoMemory> {
        let Node::Diamond { action, to } = node_of(self.graph, diamond) else {
            return Ok(());
        };
        self.now = self.now.saturating_add(1);
        self.need(i, diamond, flags)?;
        for k in 0..row(&self.needed, entry).len() {
            let n = number(row(&self.needed, entry), small(k));
            if n != to {
                self.need_square(i, action, n, flags)?;
            }
        }
        Ok(())
    }

    /// A square by the action that stands and leads to the node is needed.
    fn need_square(
        &mut self,
        i: u32,
        action: u32,
        n: u32,
        flags: &mut [bool],
    ) -> Result<(), NoMemory> {
        let square = self.square_to(action, n);
        if square == NONE {
            return Ok(());
        }
        self.need(i, square, flags)
    }

    /// The first square by the action that stands and leads to a node; `NONE` without one.
    fn square_to(&self, action: u32, n: u32) -> u32 {
        for square in row(&self.squares, n) {
            match node_of(self.graph, *square) {
                Node::Square { action: other, .. }
                    if other == action && self.spread.stands(*square) => {
                    return *square;
                }
                _ => {}
            }
        }
        NONE
    }

    /// A node is needed, and so are those because of which it stands, up to one of the sequent.
    fn need(&mut self, i: u32, n: u32, flags: &mut [bool]) -> Result<(), NoMemory> {
        let mut at = n;
        for _ in 0..u64::MAX {
            self.spend(1);
            if number(&self.passed, at) == self.now {
                break;
            }
            put(&mut self.passed, at, self.now);
            set_flag(flags, number(&self.conjuncts, at), true);
            if self.spread.is_of_sequent(at) {
                return self.need_of_sequent(i, at);
            }
            match self.spread.above(at) {
                Some(by) => at = by,
                None => break,
            }
        }
        Ok(())
    }

    fn need_of_sequent(&mut self, i: u32, n: u32) -> Result<(), NoMemory> {
        if row(&self.needed, i).contains(&n) {
            return Ok(());
        }
        push_at(&mut self.needed, i, n)
    }
}
