// The machine of Even's moves.
ghost use Rattle.std.specs.Prelude.{◌≡◌, ◌+◌, ◌*◌, ◌/◌, ◌^◌, ◌<◌, ◌≤◌, [], ◌∷◌, length, IfOk};
ghost use Rattle.ml_parity.specs.Game.{HasMove, moves_of, size};
ghost use Rattle.ml_parity.specs.Solution.{choice_at};
ghost use Rattle.ml_synthesis.specs.Synthesis.{nexts};
ghost use Rattle.ml_synthesis.specs.private.Arena.{IsNumberOf};
ghost use Rattle.ml_synthesis.specs.private.Numbered.{AreNumbers, AreStepsAt, IsChosen, IsMachine, IsRowMet, IsStepAt};
ghost use Rattle.ml_synthesis.specs.private.Solved.{HasFewMoves, IsSolved};

use crate::arena::{Arena, moves_at};
use crate::arrival::Arrival;
use crate::machines::{Machine, MachineStep};
use crate::numbering::{begun, number, pending};
use indexmap::IndexSet;
use ml_base::NoMemory;
use ml_parity::{Game, Solution};
use std::alloc::Global;

/// Which of its moves is the choice at a vertex.
fn give(game: &Game, solution: &Solution, vertex: usize) -> u32
    requires vertex { vertex < size game.now }
    requires choices { length solution.now.choice ≡ size game.now }
    requires is_move { HasMove game.now vertex (choice_at solution.now.choice vertex) }
    requires few { length (moves_of game.now vertex) ≤ 256 }
    ensures { IsChosen game.now solution.now.choice vertex result }
{
    let choice = solution.choice[vertex];
    moves_at(game, vertex)
        .iter()
        .position(|w| *w == choice)
        .unwrap() as u32
}

/// Where the choice at a position with inputs leads.
fn chosen(arena: &Arena, solution: &Solution, vertex: usize) -> Arrival
    requires solved { IsSolved
        arena.now.input_sets
        arena.now.base
        arena.now.arrivals.keys
        arena.now.game
        solution.now }
    requires vertex { vertex < arena.now.base }
    ensures { IsNumberOf
        arena.now.base
        arena.now.arrivals.keys
        result
        (choice_at solution.now.choice vertex) }
{
    let choice = solution.choice[vertex] as usize;
    arena.arrivals.as_slice()[choice - arena.base]
}

/// The step at a position with inputs.
fn step_at(
    arena: &Arena,
    solution: &Solution,
    states: &mut IndexSet<u64>,
    vertex: usize,
) -> Result<MachineStep, NoMemory>
    requires solved { IsSolved
        arena.now.input_sets
        arena.now.base
        arena.now.arrivals.keys
        arena.now.game
        solution.now }
    requires small { size arena.now.game ≤ 2 ^ 32 }
    requires few { HasFewMoves arena.now.game }
    requires vertex { vertex < arena.now.base }
    requires numbers { AreNumbers 0 (arena.now.base / arena.now.input_sets) states.old.keys }
    ensures step { IfOk result (IsStepAt
        arena.now.base
        arena.now.arrivals.keys
        arena.now.game
        solution.now.choice
        states.new.keys
        vertex) }
    ensures met { IfOk result (λ step. IsRowMet
        0
        (arena.now.base / arena.now.input_sets)
        states.old.keys
        (step.next ∷ [])
        states.new.keys) }
{
    let arrival = chosen(arena, solution, vertex);
    Ok(MachineStep {
        give: give(&arena.game, solution, vertex),
        next: number(states, u64::from(arrival.state))? as u32,
    })
}

/// The steps of a state.
fn steps_of(
    alloc: Global,
    arena: &Arena,
    solution: &Solution,
    states: &mut IndexSet<u64>,
    state: u64,
) -> Result<Vec<MachineStep>, NoMemory>
    requires solved { IsSolved
        arena.now.input_sets
        arena.now.base
        arena.now.arrivals.keys
        arena.now.game
        solution.now }
    requires small { size arena.now.game ≤ 2 ^ 32 }
    requires few { HasFewMoves arena.now.game }
    requires state { state < arena.now.base / arena.now.input_sets }
    requires numbers { AreNumbers 0 (arena.now.base / arena.now.input_sets) states.old.keys }
    ensures steps { IfOk result (λ row. AreStepsAt
        arena.now.input_sets
        arena.now.base
        arena.now.arrivals.keys
        arena.now.game
        solution.now.choice
        states.new.keys
        state
        arena.now.input_sets
        row.items) }
    ensures met { IfOk result (λ row. IsRowMet
        0
        (arena.now.base / arena.now.input_sets)
        states.old.keys
        (nexts row.items)
        states.new.keys) }
{
    let first = state as usize * arena.input_sets as usize;
    let mut row = Vec::with_capacity(alloc, arena.input_sets as usize)?;
    for ins in 0..arena.input_sets as usize {
        row.push(step_at(arena, solution, states, first + ins)?)?;
    }
    Ok(row)
}

/// The machine of the choices, its states numbered breadth first.
///
/// # Errors
/// `NoMemory` alone.
///
/// Cost: for each state and set of inputs a look at the sets of outputs, and a hash of the next state.
pub(crate) fn machine_of(
    alloc: Global,
    arena: &Arena,
    solution: &Solution,
) -> Result<Machine, NoMemory>
    requires solved { IsSolved
        arena.now.input_sets
        arena.now.base
        arena.now.arrivals.keys
        arena.now.game
        solution.now }
    requires small { size arena.now.game ≤ 2 ^ 32 }
    requires few { HasFewMoves arena.now.game }
    ensures { IfOk result (λ machine. IsMachine
        arena.now.input_sets
        arena.now.base
        arena.now.arrivals.keys
        arena.now.game
        solution.now.choice
        machine) }
{
    let mut states = begun(alloc, 0)?;
    let mut steps = Vec::new(alloc);
    while let Some(state) = pending(&states, steps.len()) {
        steps.push(steps_of(alloc, arena, solution, &mut states, state)?)?;
    }
    Ok(Machine { steps })
}
