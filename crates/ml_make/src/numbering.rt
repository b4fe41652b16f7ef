// Whether the states of a machine or an environment are numbered breadth first from 0.
ghost use Rattle.std.specs.Prelude.{◌∷◌, [], IfSome, IsTrue, map};
ghost use Rattle.ml_lists.specs.InTurn.{RunsOn};
ghost use Rattle.ml_make.specs.Making.{IsNumbered};
ghost use Rattle.ml_synthesis.specs.Synthesis.{AreInOrder, nexts};

use ml_synthesis::{Environment, Machine, MachineStep, Outcome};

// how many numbers were met with one more, if it was met before or is the next one
fn met_with(next: u32, met: usize) -> Option<usize>
    ensures { IfSome result (RunsOn met (next ∷ [])) }
{
    let next = next as usize;
    if next < met {
        Some(met)
    } else if next == met {
        Some(next + 1)
    } else {
        None
    }
}

// how many numbers were met with the next states of some steps, if the new ones come in turn
fn met_with_steps(steps: &[MachineStep], met: usize) -> Option<usize>
    ensures { IfSome result (RunsOn met (nexts steps.now)) }
{
    let mut more = met;
    for step in steps {
        more = met_with(step.next, more)?;
    }
    Some(more)
}

// how many numbers were met with some next states, if the new ones come in turn
fn met_with_nexts(nexts: &[u32], met: usize) -> Option<usize>
    ensures { IfSome result (RunsOn met nexts.now) }
{
    let mut more = met;
    for next in nexts {
        more = met_with(*next, more)?;
    }
    Some(more)
}

fn is_machine_numbered(machine: &Machine) -> bool
    ensures { IsTrue result → AreInOrder (map nexts machine.now) }
{
    let rows = machine.steps();
    let mut met = 1;
    for (state, row) in rows.iter().enumerate() {
        if met <= state {
            return false;
        }
        match met_with_steps(row, met) {
            Some(more) => met = more,
            None => return false,
        }
    }
    met == rows.len()
}

fn is_environment_numbered(environment: &Environment) -> bool
    ensures { IsTrue result → AreInOrder environment.now.next }
{
    let rows = environment.next();
    let mut met = 1;
    for (state, row) in rows.iter().enumerate() {
        if met <= state {
            return false;
        }
        match met_with_nexts(row, met) {
            Some(more) => met = more,
            None => return false,
        }
    }
    met == rows.len()
}

/// Are the states numbered breadth first from 0?
///
/// Cost: linear in its moves.
pub(crate) fn is_numbered(outcome: &Outcome) -> bool
    ensures { IsTrue result → IsNumbered outcome.now }
{
    match outcome {
        Outcome::Made(machine) => is_machine_numbered(machine),
        Outcome::Defeated(environment) => is_environment_numbered(environment),
    }
}
