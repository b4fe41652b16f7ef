// The automata of a task, and the sets of a formula.
use crate::counting::{Counting, counting_of};
use crate::degeneralising::{Pace, automaton_of};
use crate::formulas::{Formulas, Source, formula_in};
use crate::sets::{Sets, sets_of};
use ml_base::{Name, NoMemory};
use ml_ltl::Formula;
use ml_task::Task;
use std::alloc::Global;

/// How many letters there are for so many names, up to eight names: a letter is a set of names.
pub fn letters_of(names: usize) -> u32 {
    if names < 8 { 1 << names } else { 256 }
}

/// Adds the automaton of one pace, if it isn't too large.
fn add(
    alloc: Global,
    sets: &Sets,
    letters: u32,
    pace: Pace,
    automata: &mut Vec<Counting>,
) -> Result<(), NoMemory> {
    if let Some(automaton) = automaton_of(alloc, sets, letters, pace)? {
        if let Some(counting) = counting_of(alloc, automaton)? {
            automata.push(counting)?;
        }
    }
    Ok(())
}

/// Adds the automata of both paces; of fewer than two untils there is one alone.
fn add_both(
    alloc: Global,
    sets: &Sets,
    letters: u32,
    automata: &mut Vec<Counting>,
) -> Result<(), NoMemory> {
    add(alloc, sets, letters, Pace::Quick, automata)?;
    if sets.untils >= 2 {
        add(alloc, sets, letters, Pace::Slow, automata)?;
    }
    Ok(())
}

fn add_formula(
    alloc: Global,
    formulas: &Formulas,
    root: u32,
    letters: u32,
    automata: &mut Vec<Counting>,
) -> Result<(), NoMemory> {
    match sets_of(alloc, formulas, root)? {
        Some(sets) => add_both(alloc, &sets, letters, automata),
        None => Ok(()),
    }
}

/// Adds automata of a task's formula, or of its negation: none where they would be too large, and at most two, of which the
/// first one has fewer states.
///
/// # Errors
/// `NoMemory` alone.
///
/// Cost: at most some hundred million steps, whatever the formula.
pub fn add_automata(
    alloc: Global,
    task: &Task,
    negated: bool,
    automata: &mut Vec<Counting>,
) -> Result<(), NoMemory> {
    let letters = letters_of(task.inputs.len().saturating_add(task.outputs.len()));
    let source = Source {
        first: &task.inputs,
        second: &task.outputs,
        root: task.formula.root(),
    };
    let (formulas, root) = formula_in(alloc, source, negated)?;
    add_formula(alloc, &formulas, root, letters, automata)
}

/// How many names a formula may have whose sets are made.
const MOST_NAMES: usize = 32;

/// The sets of a formula that speaks of these names, as an automaton before its untils are passed in turn: the formula's own
/// set is the first, and literals go by the places of their names. `None` where they would be too many, or the names are.
///
/// # Errors
/// `NoMemory` alone.
///
/// Cost: at most some hundred million steps, whatever the formula.
pub fn sets_of_formula(
    alloc: Global,
    names: &[Name],
    formula: &Formula,
) -> Result<Option<Sets>, NoMemory> {
    if names.len() > MOST_NAMES {
        return Ok(None);
    }
    let source = Source {
        first: names,
        second: &[],
        root: formula.root(),
    };
    let (formulas, root) = formula_in(alloc, source, false)?;
    sets_of(alloc, &formulas, root)
}
