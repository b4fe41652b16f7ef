// Machines and environments checked.
ghost use Rattle.std.specs.Prelude.{◌^◌, ◌+◌, IfOk, length};
ghost use Rattle.ml_emptiness.specs.Systems.{IsSystem, table_of};
ghost use Rattle.ml_task.specs.Task.{task_of};
ghost use Rattle.ml_word_automaton.specs.Letters.{IsAutomatonOf};
ghost use Rattle.ml_machine_check.specs.Checked.{Fits, IsChecked};
ghost use Rattle.ml_machine_check.specs.private.AsSystems.{IsFoundIn, IsSoughtIn};

use crate::found::{MachineVerdict, Run};
use crate::systems::{environment_system, machine_system};
use ml_base::NoMemory;
use ml_emptiness::{Move, SystemLasso, accepted_lasso};
use ml_graph::ClosureRefusal;
use ml_realize::row_of;
use ml_synthesis::Outcome;
use ml_task::Task;
use ml_word_automaton::{WordAutomaton, automaton_of};
use std::alloc::Global;

/// How many nodes the graph of the word automaton of a formula may have, where machines are checked.
pub const MOST_NODES: u32 = 65_536;

// a word of the system that the automaton accepts
fn sought(
    alloc: Global,
    task: &Task,
    _negated: bool,
    automaton: &WordAutomaton,
    system: &[Vec<Move>],
) -> Result<Option<SystemLasso>, NoMemory>
    requires automaton { IsAutomatonOf automaton.now task.now.formula _negated }
    requires system { IsSystem (2 ^ (length task.now.inputs.items + length task.now.outputs.items)) (table_of system.now) }
    ensures { IfOk result (IsSoughtIn (task_of task.now.inputs.items task.now.outputs.items task.now.formula) _negated (table_of system.now)) }
{
    let row = row_of(alloc, automaton, &task.inputs, &task.outputs)?;
    let lasso = accepted_lasso(alloc, system, &row)?;
    Ok(lasso)
}

// what is found of the words of a system
fn check_system(
    alloc: Global,
    task: &Task,
    negated: bool,
    system: &[Vec<Move>],
) -> Result<MachineVerdict, NoMemory>
    requires { IsSystem (2 ^ (length task.now.inputs.items + length task.now.outputs.items)) (table_of system.now) }
    ensures { IfOk result (IsFoundIn (task_of task.now.inputs.items task.now.outputs.items task.now.formula) negated (table_of system.now)) }
{
    let automaton = match automaton_of(alloc, &task.formula, negated, MOST_NODES) {
        Ok(automaton) => automaton,
        Err(ClosureRefusal::ClosureTooLarge) => return Ok(MachineVerdict::ClosureTooLarge),
        Err(ClosureRefusal::NoMemory) => return Err(NoMemory),
    };
    match sought(alloc, task, negated, &automaton, system)? {
        Some(lasso) => Ok(MachineVerdict::Fails(Run::new(lasso.letters, lasso.loop_start))),
        None => Ok(MachineVerdict::Holds),
    }
}

/// Whether a machine realizes a task, or an environment defeats it.
///
/// The outcome has the inputs and outputs of the task (`Fits`).
///
/// Back comes `ClosureTooLarge` exactly where the graph of the word automaton has more than `MOST_NODES` nodes: that of the
/// negated formula for a machine, of the formula for an environment. Else it is `Holds` exactly where each word of the machine
/// satisfies the task's formula, or none of the environment does, and `Fails` exactly where that isn't so, with a word that
/// shows it.
///
/// # Errors
/// `NoMemory` alone.
///
/// Cost: that of the word automaton, a letter for each of the 2^n valuations of n names, and that of
/// `ml_emptiness::accepted_lasso`.
///
/// Source: Vardi and Wolper, An automata-theoretic approach to automatic program verification (1986).
pub fn check(alloc: Global, task: &Task, outcome: &Outcome) -> Result<MachineVerdict, NoMemory>
    requires { Fits (task_of task.now.inputs.items task.now.outputs.items task.now.formula) outcome.now }
    ensures { IfOk result (IsChecked (task_of task.now.inputs.items task.now.outputs.items task.now.formula) outcome.now) }
{
    let (inputs, outputs) = (task.inputs.len() as u32, task.outputs.len() as u32);
    match outcome {
        Outcome::Made(machine) => {
            let system = machine_system(alloc, inputs, outputs, machine)?;
            let found = check_system(alloc, task, true, &system)?;
            Ok(found)
        }
        Outcome::Defeated(environment) => {
            let system = environment_system(alloc, inputs, outputs, environment)?;
            let found = check_system(alloc, task, false, &system)?;
            Ok(found)
        }
    }
}
