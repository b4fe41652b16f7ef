// Machines and environments of moves.
use crate::games::{Side, Signals};
use crate::moves::Move;
use ml_base::NoMemory;
use ml_synthesis::{Environment, Machine, MachineStep, Outcome};
use std::alloc::Global;

fn steps_of(alloc: Global, row: &[Move], inputs: u32) -> Result<Vec<MachineStep>, NoMemory> {
    let mut steps = Vec::with_capacity(alloc, row.len())?;
    for step in row {
        steps.push(MachineStep {
            give: step.letter.checked_div(inputs).unwrap_or(0),
            next: step.to,
        })?;
    }
    Ok(steps)
}

fn machine_of(alloc: Global, moves: &[Vec<Move>], inputs: u32) -> Result<Machine, NoMemory> {
    let mut steps = Vec::with_capacity(alloc, moves.len())?;
    for row in moves {
        steps.push(steps_of(alloc, row, inputs)?)?;
    }
    Ok(Machine { steps })
}

fn nexts_of(alloc: Global, row: &[Move]) -> Result<Vec<u32>, NoMemory> {
    let mut nexts = Vec::with_capacity(alloc, row.len())?;
    for step in row {
        nexts.push(step.to)?;
    }
    Ok(nexts)
}

/// The set of inputs that a row plays.
fn play_of(row: &[Move], inputs: u32) -> u32 {
    match row.first() {
        Some(step) => step.letter.checked_rem(inputs).unwrap_or(0),
        None => 0,
    }
}

fn write_environment(
    alloc: Global,
    moves: &[Vec<Move>],
    inputs: u32,
    environment: &mut Environment,
) -> Result<(), NoMemory> {
    for row in moves {
        environment.plays.push(play_of(row, inputs))?;
        environment.next.push(nexts_of(alloc, row)?)?;
    }
    Ok(())
}

fn environment_of(
    alloc: Global,
    moves: &[Vec<Move>],
    inputs: u32,
) -> Result<Environment, NoMemory> {
    let mut environment = Environment {
        plays: Vec::new(alloc),
        next: Vec::new(alloc),
    };
    write_environment(alloc, moves, inputs, &mut environment)?;
    Ok(environment)
}

/// What has these moves.
pub(crate) fn outcome_of(
    alloc: Global,
    side: Side,
    signals: Signals,
    moves: &[Vec<Move>],
) -> Result<Outcome, NoMemory> {
    match side {
        Side::Machine => {
            let machine = machine_of(alloc, moves, signals.inputs)?;
            Ok(Outcome::Made(machine))
        }
        Side::Environment => {
            let environment = environment_of(alloc, moves, signals.inputs)?;
            Ok(Outcome::Defeated(environment))
        }
    }
}
