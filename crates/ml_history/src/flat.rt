// Histories as flat arrays.
ghost use Rattle.std.specs.Prelude.{◌≡◌, ℕ, ◌<◌, ◌^◌, ◌↔◌, IsTrue, IfOk, Some, map, length};
ghost use Rattle.ml_history.specs.History.{IsSmallHistory};
ghost use Rattle.ml_history.specs.HistoryStep.{start};
ghost use Rattle.ml_history.specs.HistoryOrder.{history_eq, history_eq_equiv, hash_writes, names_of};
ghost use Rattle.ml_history.specs.HistoryStep.{live, stepped, step_mark};
ghost use Rattle.ml_history.specs.Stacks.{stacked};
ghost use Rattle.ml_history.specs.private.Keys.{stack_at};

mod comparing;
mod cutting;
mod laying;
mod offers;
mod places;
mod stacks;

use crate::flat::comparing::compare;
use crate::flat::cutting::{cut, full_names, standing};
use crate::flat::laying::laid;
use crate::flat::offers::best_offers;
use crate::flat::places::places;
use crate::flat::stacks::Stacks;
use crate::names::{how_many, mark, numbers};
use crate::tree::TreeHistory;
use ml_base::NoMemory;
use ml_trace::{Letter, Mark};
use std::alloc::Global;
use std::cmp::Ordering;
use std::hash::{Hash, Hasher};
use std::marker::Model;

/// A history: some states of the trace automaton, each with a stack of names. Contracts see the list of the states with
/// their stacks, by ascending states.
///
/// It is held as flat arrays, one stack behind the other. The type keeps that it is a history of the definition, and that
/// states have numbers below 2^30 (`keeps`).
#[derive(Debug, Drop)]
pub struct History {
    stacks: Stacks,
    live: u32,
}

impl Model for History {
    ghost use Rattle.std.specs.Prelude.{ℕ, List};
    ghost use Rattle.ml_trace.specs.Stack.{Item};

    ghost Value = { List (Item ℕ) };

    ghost use Rattle.ml_history.specs.private.Arrays.{IsHeld};

    ghost view = { λ h. h.stacks };

    ghost invariant = { λ h. IsHeld h.live h.stacks };
}

impl History {
    /// The history of one state, with the stack 0. The state has a number below 2^30.
    ///
    /// # Errors
    /// `NoMemory` alone.
    ///
    /// Cost: constant.
    pub fn start(alloc: Global, state: u32) -> Result<History, NoMemory>
        requires { state < 2 ^ 30 }
        ensures { IfOk result (λ h. h ≡ start state) }
    {
        let states = Vec::from_slice(alloc, &[state])?;
        let starts = Vec::from_slice(alloc, &[0])?;
        let names = Vec::from_slice(alloc, &[0])?;
        Ok(History {
            stacks: Stacks::of(states, starts, names),
            live: 1,
        })
    }

    // How many states it has.
    pub(crate) fn len(&self) -> usize
        ensures { result ≡ length self.now }
    {
        self.stacks.len()
    }

    // The states.
    pub(crate) fn states(&self) -> &[u32]
        ensures { result.now ≡ map (λ a. a.state) self.now }
    {
        self.stacks.states()
    }

    // The names of all stacks, one stack behind the other.
    pub(crate) fn names(&self) -> &[u32]
        ensures { result.now ≡ names_of self.now }
    {
        self.stacks.names()
    }

    // The stack of the i-th state.
    pub(crate) fn stack(&self, i: usize) -> &[u32]
        requires { i < length self.now }
        ensures { result.now ≡ stack_at self.now i }
    {
        self.stacks.stack(i)
    }

    /// What the type keeps: its states with their stacks are a history of the definition, and the states have numbers below
    /// 2^30. The call does nothing.
    pub fn keeps(&self)
        ensures { IsSmallHistory self.now }
    {
        let _stacks = &self.stacks;
    }

    /// The number of names in use.
    ///
    /// Cost: constant.
    pub fn live(&self) -> u32
        ensures { result ≡ live self.now }
    {
        self.live
    }

    /// The states with their stacks, the innermost name last, by ascending states.
    ///
    /// # Errors
    /// `NoMemory` alone.
    ///
    /// Cost: linear in the names of all stacks, with a vector for each state.
    pub fn stacks(&self) -> Result<Vec<(u32, Vec<u32>)>, NoMemory>
        ensures { IfOk result (λ all. map stacked all.items ≡ self.now) }
    {
        let alloc = self.stacks.allocator();
        let mut all = Vec::new(alloc);
        for (i, state) in self.states().iter().enumerate() {
            all.push((*state, Vec::from_slice(alloc, self.stack(i))?))?;
        }
        Ok(all)
    }

    /// The history after the step along the letter, and the mark of the step.
    ///
    /// Each name in use has a place in the order of offers, so an offer is known by two things: the place of the last name
    /// of its source, and whether its transition accepts. No stacks are compared.
    ///
    /// # Errors
    /// `NoMemory` alone.
    ///
    /// Cost: for each transition a search for its source, logarithmic in the states; linear in the names in use; and a copy
    /// of the stacks that are taken, of which only those are looked at name by name that may have a full one, and else the
    /// names whose numbers change.
    /// Source: the history trees of Schewe and the ages of Piterman.
    pub fn step(&self, letter: &Letter) -> Result<(History, Mark), NoMemory>
        ensures history { IfOk result (λ r. r.0 ≡ stepped self.now letter.now) }
        ensures mark { IfOk result (λ r. r.1 ≡ step_mark self.now letter.now) }
    {
        let alloc = self.stacks.allocator();
        let places = places(alloc, self)?;
        let best = best_offers(alloc, self, places.as_slice(), letter.transitions())?;
        let full = full_names(alloc, self, best.as_slice())?;
        let cut = cut(alloc, self, best.as_slice(), full.as_slice())?;
        let standing = standing(alloc, &cut, 2 * self.live)?;
        let mark = mark(self.live, full.as_slice(), standing.as_slice());
        let numbers = numbers(alloc, standing.as_slice())?;
        let live = how_many(standing.as_slice());
        let stacks = cut.renamed(numbers.as_slice());
        Ok((History { stacks, live }, mark))
    }

    /// The history of a tree: the same states with the same stacks.
    ///
    /// # Errors
    /// `NoMemory` alone.
    ///
    /// Cost: that of the tree's `stacks`.
    pub fn of_tree(alloc: Global, tree: &TreeHistory) -> Result<History, NoMemory>
        ensures { IfOk result (λ h. h ≡ tree.now) }
    {
        tree.keeps();
        let all = tree.stacks()?;
        Ok(History {
            stacks: laid(alloc, all.as_slice())?,
            live: tree.live(),
        })
    }

    /// An equal history.
    ///
    /// # Errors
    /// `NoMemory` alone.
    ///
    /// Cost: linear in the arrays.
    pub fn copy(&self) -> Result<History, NoMemory>
        ensures { IfOk result (λ copy. copy ≡ self.now) }
    {
        Ok(History {
            stacks: self.stacks.copy()?,
            live: self.live,
        })
    }
}

/// Two histories are equal exactly where their states with their stacks are.
///
/// Cost: a comparison of the arrays.
impl PartialEq for History {
    ghost use Rattle.std.specs.Cmp.{partial_equiv_from_equiv};

    ghost eq = { history_eq };

    ghost laws = { partial_equiv_from_equiv history_eq_equiv };

    fn eq(&self, other: &History) -> bool
        ensures value { result ≡ history_eq self.now other.now }
        ensures exact { IsTrue result ↔ self.now ≡ other.now }
    {
        self.stacks.is_same(&other.stacks)
    }
}

impl Eq for History {
    ghost laws = { history_eq_equiv };
}

/// Histories compare as the lists that `stacks` gives: item by item, by the state and then by the stack.
///
/// Cost: linear in the arrays; no memory.
impl Ord for History {
    ghost use Rattle.std.specs.Prelude.{Some, refl};
    ghost use Rattle.ml_history.specs.HistoryOrder.{history_cmp, history_cmp_total, history_ties};

    ghost cmp = { history_cmp };

    ghost total = { history_cmp_total };

    ghost matches_partial_cmp = { λ h g. refl };

    ghost matches_eq = { history_ties };

    fn cmp(&self, other: &History) -> Ordering {
        compare(&self.stacks, &other.stacks)
    }
}

impl PartialOrd for History {
    ghost use Rattle.std.specs.Cmp.{partial_order_from_agreeing_total};
    ghost use Rattle.std.specs.Prelude.{Some, refl};
    ghost use Rattle.ml_history.specs.HistoryOrder.{history_cmp, history_cmp_total, history_ties};

    ghost partial_cmp = { λ h g. Some (history_cmp h g) };

    ghost laws = { partial_order_from_agreeing_total history_cmp history_cmp_total (λ h g. refl) history_ties };

    fn partial_cmp(&self, other: &History) -> Option<Ordering> {
        Some(self.cmp(other))
    }
}

/// A hash reads the states, and then the names of all stacks.
impl Hash for History {
    ghost use Rattle.std.proofs.Common.{ap};
    ghost use Rattle.ml_history.specs.HistoryOrder.{history_eq-same};

    ghost hash_input = { hash_writes };

    ghost respects_eq = { λ h g e. ap hash_writes (history_eq-same h g e) };

    fn hash<H: Hasher>(&self, state: &mut H) {
        self.stacks.states().hash(state);
        self.stacks.names().hash(state);
    }
}
