// A machine or an environment, from a deterministic parity automaton.
ghost use Rattle.std.specs.Prelude.{◌≡◌, ◌+◌, ◌^◌, ◌<◌, ◌≤◌, length, IfOk, OnOk, IsErrOf};
ghost use Rattle.ml_parity.specs.Game.{size};
ghost use Rattle.ml_parity.specs.Solution.{IsSolution, winner_at};
ghost use Rattle.ml_determinise.specs.Numbering.{automaton_of, rows_of};
ghost use Rattle.ml_synthesis.specs.Game.{HasMorePositions};
ghost use Rattle.ml_synthesis.specs.Synthesis.{IsAccessible, IsAutomaton, IsOutcome};
ghost use Rattle.ml_synthesis.specs.private.Solved.{IsArenaOver, IsOverSome};
ghost use Rattle.ml_synthesis.specs.declared.refusals.SynthesisRefusal.TheVariants as refusal;

use crate::arena::{Arena, Automaton};
use crate::environment_making::environment_of;
use crate::machine_making::machine_of;
use crate::outcome::Outcome;
use crate::refusals::SynthesisRefusal;
use ml_base::NoMemory;
use ml_determinise::DetMove;
use ml_parity::{Player, Solution, solve};
use std::alloc::Global;

/// How many sets there are of so many inputs, or outputs.
fn sets_of(signals: u32) -> u32
    requires { signals ≤ 8 }
    ensures sets { result ≡ 2 ^ signals }
    ensures few { result ≤ 256 }
{
    1 << signals
}

/// Who wins a vertex.
fn winner(solution: &Solution, vertex: usize) -> Player
    requires { vertex < length solution.now.winner }
    ensures { result ≡ winner_at solution.now.winner vertex }
{
    solution.winner[vertex]
}

/// The game over an automaton.
fn arena_over(
    alloc: Global,
    moves: &[Vec<DetMove>],
    inputs: u32,
    outputs: u32,
    neutral: u32,
) -> Result<Arena, NoMemory>
    requires few { inputs + outputs ≤ 8 }
    requires few_states { length moves.now ≤ 2 ^ 32 }
    requires automaton { IsAutomaton inputs outputs neutral (rows_of moves.now) }
    ensures { IfOk result (λ arena. IsArenaOver
        inputs
        outputs
        neutral
        (rows_of moves.now)
        arena.input_sets
        arena.base
        arena.arrivals.keys
        arena.game) }
{
    let automaton = Automaton {
        moves,
        input_sets: sets_of(inputs),
        output_sets: sets_of(outputs),
        neutral,
    };
    let arena = Arena::of(alloc, &automaton)?;
    Ok(arena)
}

/// What the solution of the game makes: a machine where Even wins the start, and else an environment.
fn read_off(alloc: Global, arena: &Arena, solution: &Solution) -> Result<Outcome, NoMemory>
    requires over { IsOverSome arena.now.input_sets arena.now.base arena.now.arrivals.keys arena.now.game }
    requires small { size arena.now.game ≤ 2 ^ 32 }
    requires solution { IsSolution arena.now.game solution.now }
    ensures { IfOk result (λ outcome. (a : IsOverSome
        arena.now.input_sets
        arena.now.base
        arena.now.arrivals.keys
        arena.now.game)
        → IsOutcome a.inputs a.outputs a.neutral a.moves outcome) }
{
    match winner(solution, arena.base) {
        Player::Even => Ok(Outcome::Made(machine_of(alloc, arena, solution)?)),
        Player::Odd => Ok(Outcome::Defeated(environment_of(alloc, arena, solution)?)),
    }
}

/// What the game over an automaton makes.
fn outcome_of(alloc: Global, arena: &Arena) -> Result<Outcome, NoMemory>
    requires over { IsOverSome arena.now.input_sets arena.now.base arena.now.arrivals.keys arena.now.game }
    requires small { size arena.now.game ≤ 2 ^ 32 }
    ensures { IfOk result (λ outcome. (a : IsOverSome
        arena.now.input_sets
        arena.now.base
        arena.now.arrivals.keys
        arena.now.game)
        → IsOutcome a.inputs a.outputs a.neutral a.moves outcome) }
{
    let solution = solve(alloc, &arena.game)?;
    read_off(alloc, arena, &solution)
}

/// A machine none of whose words a deterministic parity automaton accepts, or an environment all of whose words it
/// accepts.
///
/// `moves` are the moves of the automaton, state by state, one for each valuation: that of the set of inputs `I` and
/// the set of outputs `O` is `I + 2^inputs * O`. It begins in state 0, each state is reached from there, and it accepts
/// a word if the lowest priority that its run meets again and again is odd. There are at most 8 inputs and outputs
/// together. `neutral` is even, and no priority is greater.
///
/// Back comes the machine, or the environment, of a positional strategy in the game in which the environment chooses
/// the inputs and the machine the outputs. A machine's states are the automaton's states that its steps reach, an
/// environment's the states with the priorities with which it reaches them; both are numbered breadth first, sets
/// ascending.
///
/// # Errors
/// `Passed` exactly where the game has more than `limit` positions: the states with the priorities with which they are
/// reached, and each state with each set of inputs; `NoMemory`.
///
/// Cost: linear in the moves, and that of `ml_parity::solve` on this game.
/// Source: Pnueli and Rosner, On the synthesis of a reactive module (1989).
pub fn synthesise(
    alloc: Global,
    moves: &[Vec<DetMove>],
    inputs: u32,
    outputs: u32,
    neutral: u32,
    limit: u32,
) -> Result<Outcome, SynthesisRefusal>
    requires few { inputs + outputs ≤ 8 }
    requires automaton { IsAutomaton inputs outputs neutral (rows_of moves.now) }
    requires accessible { IsAccessible inputs outputs (rows_of moves.now) }
    ensures outcome { IfOk result (IsOutcome inputs outputs neutral (rows_of moves.now)) }
    ensures not_passed { OnOk result
        (¬ (HasMorePositions (automaton_of (rows_of moves.now)) 0 neutral inputs outputs limit)) }
    ensures passed { IsErrOf result refusal.Passed
        → HasMorePositions (automaton_of (rows_of moves.now)) 0 neutral inputs outputs limit }
{
    if moves.len() > limit as usize {
        return Err(SynthesisRefusal::Passed);
    }
    let arena = arena_over(alloc, moves, inputs, outputs, neutral)?;
    if arena.game.size() > limit as usize {
        return Err(SynthesisRefusal::Passed);
    }
    Ok(outcome_of(alloc, &arena)?)
}
