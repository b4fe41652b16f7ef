// The title, the answer and the lines of the task stand before the body of a document, and are read here.
ghost use Rattle.std.specs.Prelude.{◌≡◌, ◌+◌, ◌<◌, ◌≤◌, ◌^◌, ◌∷◌, [], IfErr, IfOk, List, length};
ghost use Rattle.ml_base.specs.declared.doc_refusal.DocRefusal.{DocRefusal};
ghost use Rattle.ml_lines.specs.Lines.{Line};
ghost use Rattle.ml_lines.specs.Reading.{words_of};
ghost use Rattle.ml_realize_text.specs.RealizeRules.{AtAnswer, AtInputs, AtTitle};
ghost use Rattle.ml_realize_text.specs.RealizeText.{title_line, told_line};
ghost use Rattle.ml_realize_text.specs.declared.realizability.Realizability as spec;
ghost use Rattle.ml_realize_text.specs.private.Reads.{Breaks, Goes, HasRoom, IsBehindLine, IsBehindTask, IsTaskRead, TellsFault, answer_of};
ghost use Rattle.ml_task.specs.Task.{task_of};
ghost use Rattle.ml_task.specs.TaskText.{task_lines};

use crate::line_rule::LineRule;
use crate::rest::{Rest, fault, next_line};
use ml_base::{DocFault, DocRefusal};
use ml_task::Task;
use std::alloc::Global;

/// What the body of a document is of, as its second line tells.
#[derive(Clone, Copy)]
pub(crate) enum BodyOf {
    AMachine,
    AnEnvironment,
}

// how many lines the task has
const TASK_LINES: u32 = 3;

// the title
fn read_title<'a>(at: Rest<'a>) -> Result<Rest<'a>, DocRefusal>
    requires { HasRoom at }
    ensures read { IfOk result (λ rest. Goes at.entry (title_line ∷ []) rest) }
    ensures refused { IfErr result (TellsFault AtTitle at.entry) }
{
    match next_line(at) {
        Some((line, rest)) => {
            if line == b"mlsolver realize 1".as_slice() {
                Ok(rest)
            } else {
                Err(fault(at.line, LineRule::OfHead))
            }
        }
        None => Err(fault(at.line, LineRule::OfHead)),
    }
}

// the answer that a line tells
fn answer_in(line: &[u8]) -> Result<BodyOf, LineRule>
    ensures read { IfOk result (λ body. words_of line.now ≡ told_line (answer_of body)) }
    ensures refused { IfErr result (Breaks AtAnswer (words_of line.now)) }
{
    if line == b"answer realizable".as_slice() {
        Ok(BodyOf::AMachine)
    } else if line == b"answer unrealizable".as_slice() {
        Ok(BodyOf::AnEnvironment)
    } else if line == b"answer undecided".as_slice() {
        Err(LineRule::Decided)
    } else {
        Err(LineRule::OfHead)
    }
}

// the answer
fn read_answer<'a>(at: Rest<'a>) -> Result<(BodyOf, Rest<'a>), DocRefusal>
    requires { HasRoom at }
    ensures read { IfOk result (λ r. Goes at.entry (told_line (answer_of r.0) ∷ []) r.1) }
    ensures refused { IfErr result (TellsFault AtAnswer at.entry) }
{
    match next_line(at) {
        Some((line, rest)) => match answer_in(line) {
            Ok(body) => Ok((body, rest)),
            Err(rule) => Err(fault(at.line, rule)),
        },
        None => Err(fault(at.line, LineRule::OfHead)),
    }
}

// the title and the answer
pub(crate) fn read_head<'a>(at: Rest<'a>) -> Result<(BodyOf, Rest<'a>), DocRefusal>
    requires { HasRoom at }
    ensures read { IfOk result (λ r. Goes at.entry (title_line ∷ told_line (answer_of r.0) ∷ []) r.1) }
    ensures refused { IfErr result (TellsFault AtTitle at.entry) }
{
    match read_title(at) {
        Ok(rest) => read_answer(rest),
        Err(refusal) => Err(refusal),
    }
}

// what stands behind the next line, where there is one
fn behind_line<'a>(at: Rest<'a>) -> Rest<'a>
    requires { HasRoom at }
    ensures { IsBehindLine at.entry result }
{
    match next_line(at) {
        Some((_, rest)) => rest,
        None => at,
    }
}

// what stands behind the lines of a task, or behind all lines where there are fewer
fn behind_task<'a>(at: Rest<'a>) -> Rest<'a>
    requires { HasRoom at }
    ensures { IsBehindTask at.entry result }
{
    let mut rest = at;
    for _ in 0..TASK_LINES {
        rest = behind_line(rest);
    }
    rest
}

// the text of the lines before the rest
fn text_before<'a>(at: Rest<'a>, rest: Rest) -> &'a [u8]
    requires { (lines : List Line) × Goes at lines rest }
    ensures { (lines : List Line) → Goes at.entry lines rest.entry → task_lines result.now ≡ lines }
{
    &at.text[..at.text.len() - rest.text.len()]
}

// the task of the next three lines
pub(crate) fn read_task<'a>(alloc: Global, at: Rest<'a>) -> Result<(Task, Rest<'a>), DocRefusal>
    requires { HasRoom at }
    ensures read { IfOk result (λ r. IsTaskRead at.entry (task_of r.0.inputs.items r.0.outputs.items r.0.formula) r.1) }
    ensures refused { IfErr result (λ e. (a : spec.Realizability) → TellsFault (AtInputs a) at.entry e) }
{
    let rest = behind_task(at);
    match ml_task::read(alloc, text_before(at, rest)) {
        Ok(task) => Ok((task, rest)),
        Err(DocRefusal::Fault(fault)) => Err(DocRefusal::Fault(DocFault {
            line: at.line + (fault.line - 1),
            rule: fault.rule,
        })),
        Err(DocRefusal::NoMemory) => Err(DocRefusal::NoMemory),
    }
}
