// Whether a problem of LTL on words holds at a state of a structure.
ghost use Rattle.std.specs.Prelude.{ℕ, ◌≡◌, ◌<◌, ◌↔◌, true, All, map, IfOk, OnOk, IsErrOf, IsTrue};
ghost use Rattle.ml_lists.specs.Search.{IsFirst};
ghost use Rattle.ml_word_graph.specs.Problem.{HoldsAt, IsAdmitted, IsFork};
ghost use Rattle.ml_word_check.specs.private.Steps.{is_only, target_of};
ghost use Rattle.ml_word_check.specs.private.Walked.{Leads};

use crate::refusal::WordRefusal;
use crate::steps::{Steps, first_fork, steps_of};
use crate::truths::truths;
use crate::word::word_from;
use ml_base::NoMemory;
use ml_kripke::Structure;
use ml_ltl::Formula;
use std::alloc::Global;

// where the edges lead, where each state has exactly one
fn targets(alloc: Global, steps: &[Steps]) -> Result<Vec<u32>, NoMemory>
    requires { All (λ x. is_only x ≡ true) steps.now }
    ensures { IfOk result (λ next. next.items ≡ map target_of steps.now) }
{
    let mut next = Vec::with_capacity(alloc, steps.len())?;
    for step in steps {
        match step {
            Steps::Only(target) => next.push(*target)?,
            Steps::Nowhere | Steps::Apart => unreachable!(),
        }
    }
    Ok(next)
}

// where the edge of each state leads
fn next_states(alloc: Global, structure: &Structure) -> Result<Vec<u32>, WordRefusal>
    ensures leads { IfOk result (λ next. Leads structure.now next.items) }
    ensures admitted { OnOk result (IsAdmitted structure.now) }
    ensures fork { (s : ℕ) → IsErrOf result (WordRefusal.NotAWord s) → IsFirst (IsFork structure.now) structure.now.states s }
{
    let _states = structure.states();
    let steps = steps_of(alloc, structure)?;
    match first_fork(steps.as_slice()) {
        Some(state) => Err(WordRefusal::NotAWord(state as u32)),
        None => Ok(targets(alloc, steps.as_slice())?),
    }
}

// on a structure of words, whose edges lead as told
fn holds_along(
    alloc: Global,
    formula: &Formula,
    negated: bool,
    structure: &Structure,
    next: &[u32],
    state: u32,
) -> Result<bool, NoMemory>
    requires state { state < structure.now.states }
    requires admitted { IsAdmitted structure.now }
    requires leads { Leads structure.now next.now }
    ensures { IfOk result (λ holds. IsTrue holds ↔ HoldsAt structure.now state formula.now negated) }
{
    let word = word_from(alloc, next, state)?;
    let truths = truths(alloc, formula.root(), structure, &word)?;
    Ok(truths[0] != negated)
}

/// Does a problem of LTL on words hold at this state of a structure?
///
/// # Errors
/// `NotAWord` exactly where some state hasn't exactly one edge by `_`, with the least such state. `NoMemory`.
///
/// Cost: linear in the states and edges, and in the places of the path from the state times the occurrences of the formula,
/// with a look among the labels of each state for each proposition. Calls are nested as deep as the formula.
pub fn holds(
    alloc: Global,
    formula: &Formula,
    negated: bool,
    structure: &Structure,
    state: u32,
) -> Result<bool, WordRefusal>
    requires { state < structure.now.states }
    ensures holds { IfOk result (λ holds. IsTrue holds
        ↔ HoldsAt structure.now state formula.now negated) }
    ensures admitted { OnOk result (IsAdmitted structure.now) }
    ensures fork { (s : ℕ) → IsErrOf result (WordRefusal.NotAWord s) → IsFirst (IsFork structure.now) structure.now.states s }
{
    let next = next_states(alloc, structure)?;
    let holds = holds_along(alloc, formula, negated, structure, next.as_slice(), state)?;
    Ok(holds)
}
