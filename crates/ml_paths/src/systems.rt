// A structure as a system that begins in a given state.
ghost use Rattle.std.specs.Prelude.{◌≡◌, ◌<◌, [], ℕ, IfOk, OnOk, length, map};
ghost use Rattle.std.specs.Str.{bytes_eq};
ghost use Rattle.ml_emptiness.specs.Systems.{moves_of, table_of};
ghost use Rattle.ml_paths.specs.private.Systems.{IsMoved, IsSystemOf, pushed, swapped};

use ml_base::{Action, Edge, NoMemory};
use ml_emptiness::Move;
use ml_kripke::Structure;
use std::alloc::Global;

// A system begins in its state 0: so the start and state 0 change their numbers.
fn swapped(start: u32, state: u32) -> u32
    ensures { result ≡ swapped start state }
{
    if state == 0 {
        start
    } else if state == start {
        0
    } else {
        state
    }
}

// a row without a move for each state
fn empty_rows(alloc: Global, states: u32) -> Result<Vec<Vec<Move>>, NoMemory>
    ensures each { IfOk result (λ system. length system.items ≡ states) }
    ensures empty { IfOk result (λ system. (a : ℕ) → moves_of (table_of system.items) a ≡ []) }
{
    let count = states as usize;
    let mut system = Vec::with_capacity(alloc, count)?;
    while system.len() < count {
        system.push(Vec::new(alloc))?;
    }
    Ok(system)
}

// a move behind those of a state
fn push_move(system: &mut Vec<Vec<Move>>, from: u32, step: Move) -> Result<(), NoMemory>
    requires { from < length system.old.items }
    ensures { OnOk result (table_of system.new.items ≡ pushed (table_of system.old.items) from step) }
{
    system[from as usize].push(step)?;
    Ok(())
}

// adds the move of an edge, if it is one by the action
fn add_move(
    system: &mut Vec<Vec<Move>>,
    start: u32,
    numbers: &[u32],
    edge: &Edge,
    action: &Action,
) -> Result<(), NoMemory>
    requires states { length system.old.items ≡ length numbers.now }
    requires start { start < length numbers.now }
    requires source { edge.now.source < length numbers.now }
    requires target { edge.now.target < length numbers.now }
    ensures { OnOk result (IsMoved start numbers.now (bytes_eq edge.now.action action.now) edge.now (table_of system.old.items) (table_of system.new.items)) }
{
    if edge.action == *action {
        let letter = numbers[edge.source as usize];
        let to = swapped(start, edge.target);
        push_move(system, swapped(start, edge.source), Move { letter, to })?;
    }
    Ok(())
}

/// The structure as a system whose states have these letters, and which begins in the start.
///
/// # Errors
/// `NoMemory` alone.
///
/// Cost: linear in the states and edges.
pub(crate) fn system_from(
    alloc: Global,
    structure: &Structure,
    start: u32,
    numbers: &[u32],
) -> Result<Vec<Vec<Move>>, NoMemory>
    requires start { start < structure.now.states }
    requires numbers { length numbers.now ≡ structure.now.states }
    ensures { IfOk result (λ system. IsSystemOf structure.now start numbers.now structure.now.edges (table_of system.items)) }
{
    let blank = Action::blank(alloc)?;
    let mut system = empty_rows(alloc, structure.states())?;
    for edge in structure.edges() {
        add_move(&mut system, start, numbers, edge, &blank)?;
    }
    Ok(system)
}

/// States of the system, as states of the structure.
///
/// # Errors
/// `NoMemory` alone.
///
/// Cost: linear in them.
pub(crate) fn swapped_back(alloc: Global, start: u32, states: &[u32]) -> Result<Vec<u32>, NoMemory>
    ensures { IfOk result (λ back. back.items ≡ map (swapped start) states.now) }
{
    let mut back = Vec::with_capacity(alloc, states.len())?;
    for state in states {
        back.push(swapped(start, *state))?;
    }
    Ok(back)
}
