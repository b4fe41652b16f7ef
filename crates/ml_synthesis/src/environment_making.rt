// The environment of Odd's moves.
ghost use Rattle.std.specs.Prelude.{◌≡◌, ◌^◌, ◌<◌, ◌≤◌, IfOk};
ghost use Rattle.ml_parity.specs.Game.{size};
ghost use Rattle.ml_synthesis.specs.private.Numbered.{AreNumbers, IsAnswerAt, IsEnvironment, IsRowMet};
ghost use Rattle.ml_synthesis.specs.private.Solved.{IsSolved};

use crate::arena::{Arena, moves_at};
use crate::machines::Environment;
use crate::numbering::{begun, number, pending};
use indexmap::IndexSet;
use ml_base::NoMemory;
use ml_parity::Solution;
use std::alloc::Global;

/// The set of inputs that is played at a vertex, and the numbers of the states to which the sets of outputs lead then.
fn answer_at(
    alloc: Global,
    arena: &Arena,
    solution: &Solution,
    states: &mut IndexSet<u64>,
    vertex: u64,
) -> Result<(u32, Vec<u32>), NoMemory>
    requires solved { IsSolved
        arena.now.input_sets
        arena.now.base
        arena.now.arrivals.keys
        arena.now.game
        solution.now }
    requires small { size arena.now.game ≤ 2 ^ 32 }
    requires is_state { arena.now.base ≤ vertex }
    requires is_vertex { vertex < size arena.now.game }
    requires numbers { AreNumbers arena.now.base (size arena.now.game) states.old.keys }
    ensures answer { IfOk result (λ answer. IsAnswerAt
        arena.now.input_sets
        arena.now.game
        solution.now.choice
        states.new.keys
        vertex
        answer.0
        answer.1.items) }
    ensures met { IfOk result (λ answer. IsRowMet
        arena.now.base
        (size arena.now.game)
        states.old.keys
        answer.1.items
        states.new.keys) }
{
    let choice = solution.choice[vertex as usize];
    let moves = moves_at(&arena.game, choice as usize);
    let mut numbers = Vec::with_capacity(alloc, moves.len())?;
    for state in moves {
        numbers.push(number(states, *state)? as u32)?;
    }
    Ok(((choice % u64::from(arena.input_sets)) as u32, numbers))
}

/// The environment of the choices, its states numbered breadth first.
///
/// # Errors
/// `NoMemory` alone.
///
/// Cost: for each state and set of outputs a hash of the next state.
pub(crate) fn environment_of(
    alloc: Global,
    arena: &Arena,
    solution: &Solution,
) -> Result<Environment, NoMemory>
    requires solved { IsSolved
        arena.now.input_sets
        arena.now.base
        arena.now.arrivals.keys
        arena.now.game
        solution.now }
    requires small { size arena.now.game ≤ 2 ^ 32 }
    ensures { IfOk result (λ environment. IsEnvironment
        arena.now.input_sets
        arena.now.base
        arena.now.game
        solution.now.choice
        environment) }
{
    let mut states = begun(alloc, arena.base as u64)?;
    let mut plays = Vec::new(alloc);
    let mut next = Vec::new(alloc);
    while let Some(state) = pending(&states, next.len()) {
        let (play, row) = answer_at(alloc, arena, solution, &mut states, state)?;
        plays.push(play)?;
        next.push(row)?;
    }
    Ok(Environment { plays, next })
}
