// Answers to tasks: a candidate that is confirmed, or else what the whole game finds.
ghost use Rattle.std.specs.Prelude.{◌≤◌, IfOk, IfSome, IsErrOf, IsTrue};
ghost use Rattle.ml_make.specs.Making.{IsAnswer, IsConfirmed, IsNumbered};
ghost use Rattle.ml_realize.specs.Realizing.{IsRight};
ghost use Rattle.ml_realize.specs.TaskGame.{IsLarge, PassesLimit};
ghost use Rattle.ml_realize.specs.declared.refusals.RealizeRefusal.TheVariants as refusal;
ghost use Rattle.ml_task.specs.Task.{task_of};

use crate::fitting::{fits, has_few_states};
use crate::numbering::is_numbered;
use ml_base::NoMemory;
use ml_machine_check::{MachineVerdict, check};
use ml_make_engine::candidate;
use ml_realize::{RealizeRefusal, realize};
use ml_synthesis::Outcome;
use ml_task::Task;
use std::alloc::Global;

// are its states numbered breadth first and no more than a document may have, and does the check say that it holds?
fn is_confirmed(alloc: Global, task: &Task, outcome: &Outcome) -> Result<bool, NoMemory>
    ensures { IfOk result (λ holds. IsTrue holds
        → IsConfirmed (task_of task.now.inputs.items task.now.outputs.items task.now.formula) outcome.now) }
{
    if !fits(task, outcome) || !is_numbered(outcome) || !has_few_states(outcome) {
        return Ok(false);
    }
    match check(alloc, task, outcome)? {
        MachineVerdict::Holds => Ok(true),
        MachineVerdict::Fails(_) | MachineVerdict::ClosureTooLarge => Ok(false),
    }
}

// what is confirmed of what the search makes
fn confirmed(alloc: Global, task: &Task, limit: u32) -> Result<Option<Outcome>, NoMemory>
    ensures { IfOk result (λ found. IfSome found
        (IsConfirmed (task_of task.now.inputs.items task.now.outputs.items task.now.formula))) }
{
    let Some(outcome) = candidate(alloc, task, limit)? else {
        return Ok(None);
    };
    if is_confirmed(alloc, task, &outcome)? {
        Ok(Some(outcome))
    } else {
        Ok(None)
    }
}

/// A machine that realizes a task, or an environment that defeats it: of few states, where a search finds some.
///
/// `limit` is 1 or more.
///
/// Back comes the machine, each of whose words satisfies the formula, or the environment, none of whose words does. Either
/// `ml_machine_check::check` says that it holds, and it has fewer than 2^32 states, or it is one that `ml_realize::realize` may
/// give for the same task and limit. Its states are numbered breadth first from 0, sets ascending, so that each of them is
/// reached.
///
/// # Errors
/// Those of `realize` for the same task and limit, and only where it refuses so: `ClosureTooLarge`, where the graph of the
/// word automaton of the negated formula has more than 4,096 nodes; `Passed`, where it hasn't, and the game has more than
/// `limit` positions. There too a machine or an environment may come. `NoMemory`.
///
/// Cost: the search does at most a fixed multiple of `limit` steps; the check of a candidate is that of `check`, with at most
/// 65,536 nodes of a word automaton; and where nothing is confirmed, that of `realize`.
/// Source: Schewe and Finkbeiner, Bounded synthesis (2007).
pub fn make(alloc: Global, task: &Task, limit: u32) -> Result<Outcome, RealizeRefusal>
    requires { 1 ≤ limit }
    ensures right { IfOk result (IsRight (task_of task.now.inputs.items task.now.outputs.items task.now.formula)) }
    ensures numbered { IfOk result IsNumbered }
    ensures answer { IfOk result (IsAnswer (task_of task.now.inputs.items task.now.outputs.items task.now.formula) limit) }
    ensures passed { IsErrOf result refusal.Passed
        → PassesLimit (task_of task.now.inputs.items task.now.outputs.items task.now.formula) limit }
    ensures too_large { IsErrOf result refusal.ClosureTooLarge
        → IsLarge (task_of task.now.inputs.items task.now.outputs.items task.now.formula) }
{
    match confirmed(alloc, task, limit)? {
        Some(outcome) => Ok(outcome),
        None => realize(alloc, task, limit),
    }
}
