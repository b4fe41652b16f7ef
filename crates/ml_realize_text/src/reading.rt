// The document of a machine or an environment is read as a whole.
ghost use Rattle.std.specs.Prelude.{ℕ, ◌≡◌, ◌<◌, IfErr, IfOk, IsErrOf};
ghost use Rattle.ml_base.specs.declared.doc_fault.DocFault.{DocFault};
ghost use Rattle.ml_synthesis.specs.declared.outcome.Outcome as made;
ghost use Rattle.ml_task.specs.Task as spec;
ghost use Rattle.ml_task.specs.Task.{task_of};
ghost use Rattle.ml_realize_text.specs.ReadText.{IsRealizeText};
ghost use Rattle.ml_realize_text.specs.RealizeRules.{AtStates, AtTitle, IsRealizeFault, at_state};
ghost use Rattle.ml_realize_text.specs.private.Reads.{AreStatesRead, HasRoom, IsBodyRead, TellsFault, answer_of, signals_of};

use crate::head::{BodyOf, read_head, read_task};
use crate::read_environment::read_environment;
use crate::read_lines::{read_end, read_states};
use crate::read_machine::read_machine;
use crate::rest::Rest;
use ml_base::DocRefusal;
use ml_synthesis::Outcome;
use ml_task::Task;
use std::alloc::Global;

/// What a document of a machine or an environment stands for: a task, and the outcome that is told of it.
#[derive(Drop)]
pub struct Document {
    pub task: Task,
    pub outcome: Outcome,
}

// the machine or the environment of so many states, with whose lines the text goes on
fn read_body<'a>(
    alloc: Global,
    at: Rest<'a>,
    body: BodyOf,
    task: &Task,
    states: u32,
) -> Result<(Outcome, Rest<'a>), DocRefusal>
    requires room { HasRoom at }
    requires some { 0 < states }
    ensures read { IfOk result (λ r. AreStatesRead at.entry (answer_of body)
        (task_of task.now.inputs.items task.now.outputs.items task.now.formula) states r.0 r.1) }
    ensures refused { IfErr result (TellsFault
        (at_state (signals_of (answer_of body) (task_of task.now.inputs.items task.now.outputs.items task.now.formula)) states 0)
        at.entry) }
{
    match body {
        BodyOf::AMachine => match read_machine(alloc, at, &task.inputs, &task.outputs, states) {
            Ok((machine, rest)) => Ok((Outcome::Made(machine), rest)),
            Err(refusal) => Err(refusal),
        },
        BodyOf::AnEnvironment => match read_environment(
            alloc,
            at,
            &task.inputs,
            &task.outputs,
            states,
        ) {
            Ok((environment, rest)) => Ok((Outcome::Defeated(environment), rest)),
            Err(refusal) => Err(refusal),
        },
    }
}

// the machine or the environment of a body, behind which nothing stands
fn read_outcome(alloc: Global, at: Rest, body: BodyOf, task: &Task) -> Result<Outcome, DocRefusal>
    requires { HasRoom at }
    ensures read { IfOk result (IsBodyRead at.entry (answer_of body) (task_of task.now.inputs.items task.now.outputs.items task.now.formula)) }
    ensures refused { IfErr result (TellsFault
        (AtStates (signals_of (answer_of body) (task_of task.now.inputs.items task.now.outputs.items task.now.formula))) at.entry) }
{
    let (states, behind) = match read_states(at) {
        Ok(read) => read,
        Err(refusal) => return Err(refusal),
    };
    let (outcome, end) = match read_body(alloc, behind, body, task, states) {
        Ok(read) => read,
        Err(refusal) => return Err(refusal),
    };
    match read_end(end) {
        Ok(()) => Ok(outcome),
        Err(refusal) => Err(refusal),
    }
}

// the document of a whole text
fn read_lines(alloc: Global, at: Rest) -> Result<Document, DocRefusal>
    requires room { HasRoom at }
    requires whole { at.line ≡ 1 }
    ensures read { IfOk result (λ d.
        IsRealizeText at.entry.text.now (task_of d.task.inputs.items d.task.outputs.items d.task.formula) d.outcome) }
    ensures refused { IfErr result (TellsFault AtTitle at.entry) }
{
    let (body, lines) = match read_head(at) {
        Ok(read) => read,
        Err(refusal) => return Err(refusal),
    };
    let (task, rest) = match read_task(alloc, lines) {
        Ok(read) => read,
        Err(refusal) => return Err(refusal),
    };
    match read_outcome(alloc, rest, body, &task) {
        Ok(outcome) => Ok(Document { task, outcome }),
        Err(refusal) => Err(refusal),
    }
}

/// The task and the outcome of which this text is the document. Any text that is parsed as the formula may stand for it. The
/// outcome fits the task: it has its inputs and outputs, at least one state, and a line for each set.
///
/// # Errors
/// `Fault` exactly where the bytes are the document of no task and no outcome, with the first bad line, counted from 1, and the
/// lowest rule that it breaks: 1 where the first line isn't `mlsolver realize 1` or the second one tells no answer; 3 where
/// that is `undecided`; 41 to 46 where one of the lines 3 to 5 is refused, as `ml_task::read` says of the three lines; 51 where
/// a line of the body is missing or not of the kind that stands there, or something follows `end`; 52 where a number isn't
/// spelt as numbers are, or is above 4,294,967,295; 53 where there are no states; 54 where a `state` line hasn't the next
/// number; 55 where a set isn't `-`, or names of its line in their order; 56 where the state behind `goto` is none. A last line
/// without its LF is missing. `NoMemory`.
///
/// Cost: linear in the bytes, on average.
pub fn read(alloc: Global, text: &[u8]) -> Result<Document, DocRefusal>
    ensures read { IfOk result (λ d. IsRealizeText text.now (task_of d.task.inputs.items d.task.outputs.items d.task.formula) d.outcome) }
    ensures refused { (fault : DocFault) → IsErrOf result (DocRefusal.Fault fault) → IsRealizeFault text.now fault }
    ensures no_document { (fault : DocFault) → IsErrOf result (DocRefusal.Fault fault)
        → (t : spec.Task) (r : made.Outcome) → ¬ (IsRealizeText text.now t r) }
{
    read_lines(alloc, Rest { text, line: 1 })
}
