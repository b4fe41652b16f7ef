// Machines and environments as systems whose letters are valuations.
ghost use Rattle.std.specs.Prelude.{◌≡◌, ◌<◌, ◌≤◌, ◌+◌, ◌^◌, ℕ, IfOk, length};
ghost use Rattle.ml_emptiness.specs.Systems.{table_of};
ghost use Rattle.ml_synthesis.specs.Machines.{EnvironmentFits, EnvironmentGoes, MachineFits, MachineGoes};
ghost use Rattle.ml_machine_check.specs.private.AsSystems.{AreMoves, AreMovesOf, IsReply, IsStep, step_in};

use ml_base::NoMemory;
use ml_emptiness::Move;
use ml_synthesis::{Environment, Machine, MachineStep};
use std::alloc::Global;

// how many sets of so many names there are
fn sets(names: u32) -> u32
    requires { names ≤ 8 }
    ensures is { result ≡ 2 ^ names }
    ensures few { result ≤ 256 }
{
    1 << names
}

// the moves of a machine from a state, one for each set of inputs
fn step_moves(alloc: Global, inputs: u32, steps: &[MachineStep]) -> Result<Vec<Move>, NoMemory>
    requires few { inputs ≤ 8 }
    requires long { length steps.now ≤ 256 }
    requires gives { (k : ℕ) → k < length steps.now → (step_in steps.now k).give < 256 }
    ensures { IfOk result (λ moves. AreMoves (IsStep inputs steps.now (length steps.now)) moves.items) }
{
    let weight = sets(inputs);
    let mut moves = Vec::with_capacity(alloc, steps.len())?;
    for (set, step) in steps.iter().enumerate() {
        moves.push(Move {
            letter: set as u32 + weight * step.give,
            to: step.next,
        })?;
    }
    Ok(moves)
}

// the moves of an environment from a state, one for each set of outputs
fn reply_moves(alloc: Global, inputs: u32, play: u32, next: &[u32]) -> Result<Vec<Move>, NoMemory>
    requires few { inputs ≤ 8 }
    requires plays { play < 256 }
    requires long { length next.now ≤ 256 }
    ensures { IfOk result (λ moves. AreMoves (IsReply inputs play next.now (length next.now)) moves.items) }
{
    let weight = sets(inputs);
    let mut moves = Vec::with_capacity(alloc, next.len())?;
    for (set, to) in next.iter().enumerate() {
        moves.push(Move {
            letter: play + weight * set as u32,
            to: *to,
        })?;
    }
    Ok(moves)
}

/// A machine as a system.
pub(crate) fn machine_system(
    alloc: Global,
    inputs: u32,
    _outputs: u32,
    machine: &Machine,
) -> Result<Vec<Vec<Move>>, NoMemory>
    requires few { inputs + _outputs ≤ 8 }
    requires fits { MachineFits inputs _outputs machine.now }
    ensures { IfOk result (λ s. AreMovesOf (MachineGoes inputs machine.now) (length machine.now) (table_of s.items)) }
{
    let mut system = Vec::new(alloc);
    for steps in machine.steps() {
        system.push(step_moves(alloc, inputs, steps)?)?;
    }
    Ok(system)
}

/// An environment as a system.
pub(crate) fn environment_system(
    alloc: Global,
    inputs: u32,
    outputs: u32,
    environment: &Environment,
) -> Result<Vec<Vec<Move>>, NoMemory>
    requires few { inputs + outputs ≤ 8 }
    requires fits { EnvironmentFits inputs outputs environment.now }
    ensures { IfOk result (λ s. AreMovesOf (EnvironmentGoes inputs outputs environment.now)
        (length environment.now.plays) (table_of s.items)) }
{
    let mut system = Vec::new(alloc);
    let next = environment.next();
    for (state, play) in environment.plays().iter().enumerate() {
        system.push(reply_moves(alloc, inputs, *play, &next[state])?)?;
    }
    Ok(system)
}
