// Tasks that keep what is asked of them.
ghost use Rattle.ml_task.specs.Task.{IsTask, task_of};
ghost use Rattle.ml_task.specs.private.Propositions.{prop_task};

use ml_base::Name;
use ml_ltl::Formula;

/// How many inputs and outputs a task has at most, together.
pub const MOST_NAMES: usize = 8;

/// A task: the inputs that a machine is told at each moment, the outputs that it answers, and the formula that is asked of
/// both. The names are propositions, each once and at most eight, and the formula speaks of these alone.
#[derive(Drop)]
pub struct Task {
    pub inputs: Vec<Name>,
    pub outputs: Vec<Name>,
    pub formula: Formula,
    pub ghost is_task: { IsTask (task_of inputs.items outputs.items formula) } by { prop_task (task_of inputs.items outputs.items formula) },
}
