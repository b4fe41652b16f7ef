// The moves of the deterministic automaton: from a history along the letters, to numbers of histories.
ghost use Rattle.std.specs.Prelude.{◌≡◌, ◌<◌, ◌≤◌, ◌^◌, IfOk, OnOk, IsErrOf, length, ◌++◌};
ghost use Rattle.ml_lists.proofs.FirstEntries.{AreApart, firsts};
ghost use Rattle.ml_lists.specs.Added.{IsAdded};
ghost use Rattle.ml_trace.specs.Marks.{priority};
ghost use Rattle.ml_trace.specs.MarkOrder.{FitsBelow};
ghost use Rattle.ml_history.specs.HistoryOrder.{history_eq};
ghost use Rattle.ml_history.specs.HistoryStep.{stepped, step_mark};
ghost use Rattle.ml_determinise.specs.Histories.{neutral};
ghost use Rattle.ml_determinise.specs.Numbering.{successors};
ghost use Rattle.ml_determinise.specs.private.Walk.{history_at, FitAll, HasNoRoom, IsPartway};
ghost use Rattle.ml_determinise.specs.declared.refusals.DetRefusal.TheVariants as refusal;

use crate::refusals::DetRefusal;
use indexmap::IndexSet;
use ml_base::NoMemory;
use ml_history::History;
use ml_trace::{Letter, priority_of};
use std::alloc::Global;

/// A move of the deterministic automaton along a letter: its priority, and the number of the state that it leads to.
#[derive(Clone, Copy, PartialEq, Eq)]
pub struct DetMove {
    pub priority: u32,
    pub to: u32,
}

// the number of a history
fn add(histories: &mut IndexSet<History>, history: History) -> Result<usize, NoMemory>
    ensures { IfOk result (IsAdded histories.old.keys history histories.new.keys) }
{
    let (number, _) = histories.insert_full(history)?;
    Ok(number)
}

// the number of a history, if that many are allowed
fn number(
    histories: &mut IndexSet<History>,
    history: History,
    limit: u32,
) -> Result<u32, DetRefusal>
    requires few { length histories.old.keys ≤ limit }
    ensures added { IfOk result (IsAdded histories.old.keys history histories.new.keys) }
    ensures few { OnOk result (length histories.new.keys ≤ limit) }
    ensures passed { IsErrOf result refusal.Passed → HasNoRoom limit histories.old.keys history }
{
    let number = add(histories, history)?;
    if number >= limit as usize {
        return Err(DetRefusal::Passed);
    }
    Ok(number as u32)
}

// the move along a letter from the history with the number v
fn follow(
    histories: &mut IndexSet<History>,
    v: usize,
    letter: &Letter,
    states: u32,
    limit: u32,
) -> Result<DetMove, DetRefusal>
    requires number { v < length histories.old.keys }
    requires few_states { states ≤ 2 ^ 30 }
    requires fits { FitsBelow (neutral states) (step_mark (history_at histories.old.keys v) letter.now) }
    requires few { length histories.old.keys ≤ limit }
    ensures added { IfOk result (λ m. IsAdded histories.old.keys (stepped (history_at histories.old.keys v) letter.now)
        histories.new.keys m.to) }
    ensures priority { IfOk result (λ m. m.priority ≡ priority (neutral states)
        (step_mark (history_at histories.old.keys v) letter.now)) }
    ensures few { OnOk result (length histories.new.keys ≤ limit) }
    ensures passed { IsErrOf result refusal.Passed
        → HasNoRoom limit histories.old.keys (stepped (history_at histories.old.keys v) letter.now) }
{
    let (history, mark) = histories.as_slice()[v].step(letter)?;
    let to = number(histories, history, limit)?;
    Ok(DetMove {
        priority: priority_of(mark, 2 * (states + 1)),
        to,
    })
}

// the moves from the history with the number v, letter by letter
pub(crate) fn follow_all(
    alloc: Global,
    histories: &mut IndexSet<History>,
    v: usize,
    letters: &[Letter],
    states: u32,
    limit: u32,
) -> Result<Vec<DetMove>, DetRefusal>
    requires number { v < length histories.old.keys }
    requires few_states { states ≤ 2 ^ 30 }
    requires fit { FitAll (neutral states) (history_at histories.old.keys v) letters.now }
    requires apart { AreApart histories.old.keys }
    requires few { length histories.old.keys ≤ limit }
    ensures followed { IfOk result (λ moves. IsPartway states limit histories.old.keys
        (history_at histories.old.keys v) letters.now histories.new.keys moves.items) }
    ensures passed { IsErrOf result refusal.Passed → limit < length (firsts history_eq
        (histories.old.keys ++ successors letters.now (history_at histories.old.keys v))) }
{
    let mut moves = Vec::with_capacity(alloc, letters.len())?;
    for letter in letters {
        moves.push(follow(histories, v, letter, states, limit)?)?;
    }
    Ok(moves)
}
