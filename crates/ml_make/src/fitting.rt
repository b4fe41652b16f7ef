// Whether machines and environments have the inputs and outputs of a task, and no more states than a document may have.
ghost use Rattle.std.specs.Prelude.{◌≡◌, ◌^◌, ◌<◌, ◌≤◌, IsTrue, length};
ghost use Rattle.ml_machine_check.specs.Checked.{Fits};
ghost use Rattle.ml_make.specs.private.Fitting.{NextsFit, StepsFit};
ghost use Rattle.ml_realize_text.specs.ReadText.{states_of};
ghost use Rattle.ml_synthesis.specs.Machines.{EnvironmentFits, MachineFits};
ghost use Rattle.ml_task.specs.Task.{task_of};

use ml_synthesis::{Environment, Machine, MachineStep, Outcome};
use ml_task::Task;

// how many sets of so many names there are
fn sets(names: usize) -> u32
    requires { names ≤ 8 }
    ensures { result ≡ 2 ^ names }
{
    1 << names
}

// is there a step for each set of inputs, and does each give a set of outputs and lead to a state?
fn steps_fit(steps: &[MachineStep], input_sets: u32, output_sets: u32, states: usize) -> bool
    ensures { IsTrue result → StepsFit input_sets output_sets states steps.now }
{
    steps.len() == input_sets as usize
        && steps.iter().all(|step| step.give < output_sets && (step.next as usize) < states)
}

// is there a next state for each set of outputs?
fn nexts_fit(nexts: &[u32], output_sets: u32, states: usize) -> bool
    ensures { IsTrue result → NextsFit output_sets states nexts.now }
{
    nexts.len() == output_sets as usize && nexts.iter().all(|next| (*next as usize) < states)
}

fn machine_fits(machine: &Machine, inputs: usize, outputs: usize) -> bool
    requires few_inputs { inputs ≤ 8 }
    requires few_outputs { outputs ≤ 8 }
    ensures { IsTrue result → MachineFits inputs outputs machine.now }
{
    let rows = machine.steps();
    for row in rows {
        if !steps_fit(row, sets(inputs), sets(outputs), rows.len()) {
            return false;
        }
    }
    !rows.is_empty()
}

fn environment_fits(environment: &Environment, inputs: usize, outputs: usize) -> bool
    requires few_inputs { inputs ≤ 8 }
    requires few_outputs { outputs ≤ 8 }
    ensures { IsTrue result → EnvironmentFits inputs outputs environment.now }
{
    let (plays, rows) = (environment.plays(), environment.next());
    if plays.is_empty() || rows.len() != plays.len() {
        return false;
    }
    for row in rows {
        if !nexts_fit(row, sets(outputs), plays.len()) {
            return false;
        }
    }
    let most = sets(inputs);
    plays.iter().all(|play| *play < most)
}

/// Has a machine or an environment the inputs and outputs of a task?
///
/// Cost: linear in its moves.
pub(crate) fn fits(task: &Task, outcome: &Outcome) -> bool
    ensures { IsTrue result
        → Fits (task_of task.now.inputs.items task.now.outputs.items task.now.formula) outcome.now }
{
    let (inputs, outputs) = (task.inputs.len(), task.outputs.len());
    match outcome {
        Outcome::Made(machine) => machine_fits(machine, inputs, outputs),
        Outcome::Defeated(environment) => environment_fits(environment, inputs, outputs),
    }
}

/// Has it as few states as a document may have?
///
/// Cost: constant.
pub(crate) fn has_few_states(outcome: &Outcome) -> bool
    ensures { IsTrue result → states_of outcome.now < 2 ^ 32 }
{
    let states = match outcome {
        Outcome::Made(machine) => machine.steps().len(),
        Outcome::Defeated(environment) => environment.plays().len(),
    };
    u32::try_from(states).is_ok()
}
