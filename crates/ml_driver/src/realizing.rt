// Tasks answered from their texts: a machine that realizes the task, or an environment that defeats it.
//
// `realize` explores the game of the task. `make` searches for a machine or an environment of few states first.
ghost use Rattle.std.specs.Prelude.{◌≡◌, ◌≤◌, true, IfOk, IsErrOf};
ghost use Rattle.ml_driver.specs.Said.{IsTold, is_answered};
ghost use Rattle.ml_driver.specs.Tasks.{IsFoundBy, IsOpenFor, IsTaskAnswered, IsTaskTold};
ghost use Rattle.ml_driver.specs.private.Outcomes.{status_of};
ghost use Rattle.ml_realize.specs.Realizing.{IsRight};
ghost use Rattle.ml_realize.specs.TaskGame.{IsLarge, PassesLimit};
ghost use Rattle.ml_realize.specs.declared.refusals.RealizeRefusal.TheVariants as refusal;
ghost use Rattle.ml_task.specs.Task.{task_of};

use crate::{Output, Said, Status};
use ml_base::{DocRefusal, NoMemory};
use ml_decide::Way;
use ml_make::make;
use ml_realize::{MOST_NODES, RealizeRefusal, realize};
use ml_realize_text::{Cause, write, write_undecided};
use ml_synthesis::Outcome;
use ml_task::{Task, read};
use std::alloc::Global;

// the answer to `realize`, or by a search to `make`, on the text of a task
pub(crate) fn answer_task(
    alloc: Global,
    way: Way,
    limit: u32,
    text: &[u8],
) -> Result<Output, NoMemory>
    requires { 1 ≤ limit }
    ensures answer { IfOk result (λ output. IsTaskAnswered way limit text.now output.status output.bytes.items) }
    ensures told { IfOk result (λ output. IsTold is_answered output.status output.bytes.items output.said) }
{
    match read(alloc, text) {
        Ok(task) => answer(alloc, way, &task, limit),
        Err(DocRefusal::Fault(fault)) => Output::refused(alloc, Said::RefusedDocument(fault)),
        Err(DocRefusal::NoMemory) => Err(NoMemory),
    }
}

// what is told of a task
fn answer(alloc: Global, way: Way, task: &Task, limit: u32) -> Result<Output, NoMemory>
    requires { 1 ≤ limit }
    ensures answer { IfOk result (λ output. IsTaskTold way (task_of task.now.inputs.items task.now.outputs.items task.now.formula)
        limit output.status output.bytes.items) }
    ensures told { IfOk result (λ output. IsTold is_answered output.status output.bytes.items output.said) }
{
    match made_by(alloc, way, task, limit) {
        Ok(outcome) => Ok(Output {
            status: status_of(&outcome),
            bytes: write(alloc, task, &outcome)?,
            said: None,
        }),
        Err(RealizeRefusal::Passed) => left_open(alloc, way, task, limit, Cause::Positions(limit)),
        Err(RealizeRefusal::ClosureTooLarge) => {
            left_open(alloc, way, task, limit, Cause::Closure(MOST_NODES))
        }
        Err(RealizeRefusal::NoMemory) => Err(NoMemory),
    }
}

// the machine or the environment
fn made_by(alloc: Global, way: Way, task: &Task, limit: u32) -> Result<Outcome, RealizeRefusal>
    requires { 1 ≤ limit }
    ensures right { IfOk result (IsRight (task_of task.now.inputs.items task.now.outputs.items task.now.formula)) }
    ensures found { IfOk result (IsFoundBy way (task_of task.now.inputs.items task.now.outputs.items task.now.formula) limit) }
    ensures passed { IsErrOf result refusal.Passed → PassesLimit (task_of task.now.inputs.items task.now.outputs.items task.now.formula) limit }
    ensures too_large { IsErrOf result refusal.ClosureTooLarge → IsLarge (task_of task.now.inputs.items task.now.outputs.items task.now.formula) }
{
    match way {
        Way::WholeGame => realize(alloc, task, limit),
        Way::Search => make(alloc, task, limit),
    }
}

fn status_of(outcome: &Outcome) -> Status
    ensures status { result ≡ status_of outcome.now }
    ensures answered { is_answered result ≡ true }
{
    match outcome {
        Outcome::Made(_) => Status::Yes,
        Outcome::Defeated(_) => Status::No,
    }
}

// the cause for which the task is undecided within the limit
fn left_open(
    alloc: Global,
    _way: Way,
    task: &Task,
    _limit: u32,
    cause: Cause,
) -> Result<Output, NoMemory>
    requires { IsOpenFor (task_of task.now.inputs.items task.now.outputs.items task.now.formula) _limit cause }
    ensures answer { IfOk result (λ output. IsTaskTold _way (task_of task.now.inputs.items task.now.outputs.items task.now.formula)
        _limit output.status output.bytes.items) }
    ensures told { IfOk result (λ output. IsTold is_answered output.status output.bytes.items output.said) }
{
    Ok(Output {
        status: Status::Undecided,
        bytes: write_undecided(alloc, task, cause)?,
        said: None,
    })
}
