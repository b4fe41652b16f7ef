// The branches of a set of formulas: what is asked of the names at a moment, and what is left for the next one.
use crate::formulas::{FALSE, Formulas, Part, TRUE};
use ml_arrays::within;
use ml_base::{IdSet, NoMemory};
use std::alloc::Global;

/// How many branches are looked at, and how many comparisons of two are made, for all sets of an automaton.
const BRANCHES: u64 = 400_000;

const COMPARISONS: u64 = 20_000_000;

/// How many branches a set may have.
const MOST_BRANCHES: usize = 20_000;

/// A branch.
#[derive(Drop)]
pub(crate) struct Branch {
    /// The names that are to be true, and those that are to be false.
    pub yes: u32,
    pub no: u32,
    /// What is asked of the next moment.
    pub next: IdSet,
    /// The untils that are put off.
    pub off: IdSet,
    /// What was asked for at this moment.
    asked: IdSet,
    /// What is still to be looked at.
    todo: Vec<u32>,
    /// Where a side has to be chosen.
    forks: Vec<u32>,
}

/// A bit for a name.
fn bit(name: u32) -> u32 {
    if name < 32 { 1 << name } else { 0 }
}

/// The sides of a formula one of which has to hold; the second one may be left for the next moment.
fn sides(part: Part) -> (u32, u32) {
    match part {
        Part::Or(x, y) => (x, y),
        Part::Until(x, y) => (y, x),
        Part::Release(x, _) => (x, TRUE),
        _ => (TRUE, TRUE),
    }
}

impl Branch {
    /// A branch that is to look at these formulas.
    fn new(alloc: Global, todo: Vec<u32>) -> Branch {
        Branch {
            yes: 0,
            no: 0,
            next: IdSet::new(alloc),
            off: IdSet::new(alloc),
            asked: IdSet::new(alloc),
            todo,
            forks: Vec::new(alloc),
        }
    }

    /// An equal branch, where nothing is left to look at.
    fn copy(&self, alloc: Global) -> Result<Branch, NoMemory> {
        let mut branch = Branch::new(alloc, Vec::new(alloc));
        branch.take_from(self)?;
        Ok(branch)
    }

    fn take_from(&mut self, other: &Branch) -> Result<(), NoMemory> {
        self.yes = other.yes;
        self.no = other.no;
        self.next = other.next.copy()?;
        self.off = other.off.copy()?;
        self.asked = other.asked.copy()?;
        self.forks.extend_from_slice(&other.forks)?;
        Ok(())
    }

    /// Asks this branch for no more than the other one?
    fn is_within(&self, other: &Branch) -> bool {
        self.yes & !other.yes == 0
            && self.no & !other.no == 0
            && within(self.next.values(), other.next.values())
            && within(self.off.values(), other.off.values())
    }

    /// Asks for a literal; tells whether its other sign wasn't asked for.
    fn ask_literal(&mut self, name: u32, positive: bool) -> bool {
        if positive {
            self.yes |= bit(name);
        } else {
            self.no |= bit(name);
        }
        self.yes & self.no == 0
    }

    /// Asks for a formula; tells whether that may hold.
    fn ask(&mut self, formulas: &Formulas, formula: u32) -> Result<bool, NoMemory> {
        match formulas.part(formula) {
            Part::True => {}
            Part::False => return Ok(false),
            Part::Literal { name, positive } => return Ok(self.ask_literal(name, positive)),
            Part::And(x, y) => {
                self.todo.push(x)?;
                self.todo.push(y)?;
            }
            Part::Next(x) => {
                self.next.insert(x)?;
            }
            Part::Release(x, y) => {
                self.todo.push(y)?;
                if x == FALSE {
                    self.next.insert(formula)?;
                } else {
                    self.forks.push(formula)?;
                }
            }
            Part::Or(_, _) | Part::Until(_, _) => self.forks.push(formula)?,
        }
        Ok(true)
    }

    /// Looks at all that is left to look at; tells whether it may hold.
    fn settle(&mut self, formulas: &Formulas) -> Result<bool, NoMemory> {
        for _ in 0..u64::MAX {
            let Some(formula) = self.todo.pop() else {
                break;
            };
            if self.asked.insert(formula)? && !self.ask(formulas, formula)? {
                return Ok(false);
            }
        }
        Ok(true)
    }

    /// Is a formula known not to hold here?
    fn is_dead(&self, formulas: &Formulas, formula: u32) -> bool {
        match formulas.part(formula) {
            Part::False => true,
            Part::Literal { name, positive } => {
                let other = if positive { self.no } else { self.yes };
                other & bit(name) != 0
            }
            _ => false,
        }
    }

    /// Holds one side already?
    fn is_settled(&self, formulas: &Formulas, fork: u32) -> bool {
        let part = formulas.part(fork);
        let (first, second) = sides(part);
        let holds = self.asked.contains(first);
        match part {
            Part::Or(_, _) => holds || self.asked.contains(second),
            _ => holds,
        }
    }

    /// Leaves out the forks of which one side holds already.
    fn drop_settled(&mut self, alloc: Global, formulas: &Formulas) -> Result<(), NoMemory> {
        let forks = std::mem::replace(&mut self.forks, Vec::new(alloc));
        for fork in &forks {
            if !self.is_settled(formulas, *fork) {
                self.forks.push(*fork)?;
            }
        }
        Ok(())
    }

    /// The place of the first fork with a side that can't hold, or else of the first one.
    fn next_fork(&self, formulas: &Formulas) -> usize {
        for (place, fork) in self.forks.iter().enumerate() {
            let (first, second) = sides(formulas.part(*fork));
            if self.is_dead(formulas, first) || self.is_dead(formulas, second) {
                return place;
            }
        }
        0
    }

    /// Takes a fork out.
    fn take_fork(&mut self, formulas: &Formulas) -> Option<u32> {
        let place = self.next_fork(formulas);
        if place < self.forks.len() {
            Some(self.forks.remove(place))
        } else {
            None
        }
    }

    /// Takes the second side of a fork.
    fn put_off(&mut self, part: Part, fork: u32) -> Result<(), NoMemory> {
        match part {
            Part::Until(_, _) => {
                self.next.insert(fork)?;
                self.off.insert(fork)?;
            }
            Part::Release(_, _) => {
                self.next.insert(fork)?;
            }
            _ => {}
        }
        Ok(())
    }
}

/// Branches as they are made.
#[derive(Drop)]
pub(crate) struct Branches<'a> {
    formulas: &'a Formulas,
    /// Those that are made.
    pub made: Vec<Branch>,
    open: Vec<Branch>,
    looked: u64,
    compared: u64,
    alloc: Global,
}

impl<'a> Branches<'a> {
    /// No branch.
    pub(crate) fn empty(alloc: Global, formulas: &'a Formulas) -> Branches<'a> {
        Branches {
            formulas,
            made: Vec::new(alloc),
            open: Vec::new(alloc),
            looked: 0,
            compared: 0,
            alloc,
        }
    }

    /// Makes the branches of a set; tells whether there weren't too many.
    pub(crate) fn make(&mut self, set: &[u32]) -> Result<bool, NoMemory> {
        self.made.clear();
        self.open.clear();
        let todo = Vec::from_slice(self.alloc, set)?;
        self.open.push(Branch::new(self.alloc, todo))?;
        for _ in 0..BRANCHES {
            let Some(branch) = self.open.pop() else {
                return Ok(true);
            };
            self.looked = self.looked.saturating_add(1);
            if self.is_too_much() {
                return Ok(false);
            }
            self.follow(branch)?;
        }
        Ok(false)
    }

    fn is_too_much(&self) -> bool {
        self.looked > BRANCHES || self.compared > COMPARISONS || self.made.len() > MOST_BRANCHES
    }

    /// Lies one that is made within this branch?
    fn is_covered(&mut self, branch: &Branch) -> bool {
        for other in &self.made {
            self.compared = self.compared.saturating_add(1);
            if other.is_within(branch) {
                return true;
            }
        }
        false
    }

    fn follow(&mut self, mut branch: Branch) -> Result<(), NoMemory> {
        if !branch.settle(self.formulas)? || self.is_covered(&branch) {
            return Ok(());
        }
        branch.drop_settled(self.alloc, self.formulas)?;
        match branch.take_fork(self.formulas) {
            Some(fork) => self.split(branch, fork),
            None => self.add(branch),
        }
    }

    /// A branch for each side of a fork; the first side is looked at first.
    fn split(&mut self, branch: Branch, fork: u32) -> Result<(), NoMemory> {
        let part = self.formulas.part(fork);
        let (first, second) = sides(part);
        self.open_later(&branch, part, fork, second)?;
        self.open_first(branch, first)
    }

    fn open_first(&mut self, mut branch: Branch, side: u32) -> Result<(), NoMemory> {
        branch.todo.push(side)?;
        self.open.push(branch)?;
        Ok(())
    }

    fn open_later(
        &mut self,
        branch: &Branch,
        part: Part,
        fork: u32,
        side: u32,
    ) -> Result<(), NoMemory> {
        let mut later = branch.copy(self.alloc)?;
        later.put_off(part, fork)?;
        self.open_first(later, side)
    }

    /// Adds a branch that is made, and removes those that it lies within.
    fn add(&mut self, branch: Branch) -> Result<(), NoMemory> {
        let made = std::mem::replace(&mut self.made, Vec::new(self.alloc));
        self.keep_others(&branch, made)?;
        self.made.push(branch)?;
        Ok(())
    }

    fn keep_others(&mut self, branch: &Branch, made: Vec<Branch>) -> Result<(), NoMemory> {
        for other in made {
            self.compared = self.compared.saturating_add(1);
            if !branch.is_within(&other) {
                self.made.push(other)?;
            }
        }
        Ok(())
    }
}
