// The documents of undecided tasks.
ghost use Rattle.std.specs.Prelude.{◌≡◌, ◌≢◌, ◌∷◌, [], IfErr, IfOk, List, MatchOption, OnOk};
ghost use Rattle.ml_lines.specs.Lines.{Line};
ghost use Rattle.ml_lines.specs.Reading.{lines_of, words_of};
ghost use Rattle.ml_lines.specs.private.Fronts.{GoesOn};
ghost use Rattle.ml_show_text.specs.UndecidedTasks.{IsFaultOf, IsUndecidedTask};
ghost use Rattle.ml_show_text.specs.private.TaskLines.{IsBehindLine, IsBehindTask, IsTaskRead, TellsFault, TellsTaskFault, head_lines};
ghost use Rattle.ml_task.specs.TaskText.{task_lines};

use crate::undecided::read_undecided;
use ml_base::{DocFault, DocRefusal};
use ml_lines::split_line;
use ml_realize_text::LineRule;
use ml_show::Cause;
use ml_task::Task;
use std::alloc::Global;

// how many lines stand before the task, and how many it has
const LINES_BEFORE_TASK: u64 = 2;

const TASK_LINES: u32 = 3;

// what stands behind the first line of a text, where it is this one
fn behind_fixed<'a>(text: &'a [u8], fixed: &[u8]) -> Option<&'a [u8]>
    ensures { MatchOption result ((rest : List Line) → lines_of text.now ≢ words_of fixed.now ∷ rest)
        (λ rest. GoesOn text.now (words_of fixed.now ∷ []) rest.now) }
{
    match split_line(text) {
        Some((line, rest)) => { if line == fixed { Some(rest) } else { None } }
        None => None,
    }
}

fn head_fault(line: u64) -> DocFault
    ensures line { result.line ≡ line }
    ensures rule { result.rule ≡ 1 }
{
    DocFault {
        line,
        rule: LineRule::OfHead.number(),
    }
}

// what stands behind the title and the answer
fn read_head(text: &[u8]) -> Result<&[u8], DocFault>
    ensures read { IfOk result (λ rest. GoesOn text.now head_lines rest.now) }
    ensures refused { IfErr result (IsFaultOf text.now) }
{
    match behind_fixed(text, b"mlsolver realize 1") {
        Some(rest) => match behind_fixed(rest, b"answer undecided") {
            Some(lines) => Ok(lines),
            None => Err(head_fault(2)),
        },
        None => Err(head_fault(1)),
    }
}

// what stands behind the next line, where there is one
pub(crate) fn behind_line(text: &[u8]) -> &[u8]
    ensures { IsBehindLine text.now result.now }
{
    match split_line(text) {
        Some((_, rest)) => rest,
        None => text,
    }
}

// what stands behind the lines of a task, or behind all lines where there are fewer
fn behind_task(text: &[u8]) -> &[u8]
    ensures { IsBehindTask text.now result.now }
{
    let mut rest = text;
    for _ in 0..TASK_LINES {
        rest = behind_line(rest);
    }
    rest
}

// the text of the lines before the rest
fn text_before<'a>(text: &'a [u8], rest: &[u8]) -> &'a [u8]
    requires { (lines : List Line) × GoesOn text.now lines rest.now }
    ensures { (lines : List Line) → GoesOn text.now lines rest.now → task_lines result.now ≡ lines }
{
    &text[..text.len() - rest.len()]
}

// the task of the lines behind the head, and what stands behind them
fn read_task(alloc: Global, text: &[u8]) -> Result<(Task, &[u8]), DocRefusal>
    ensures read { IfOk result (λ r. IsTaskRead text.now r.1.now) }
    ensures refused { IfErr result (TellsTaskFault text.now) }
{
    let rest = behind_task(text);
    match ml_task::read(alloc, text_before(text, rest)) {
        Ok(task) => Ok((task, rest)),
        Err(DocRefusal::Fault(fault)) => Err(DocRefusal::Fault(DocFault {
            line: LINES_BEFORE_TASK + fault.line,
            rule: fault.rule,
        })),
        Err(DocRefusal::NoMemory) => Err(DocRefusal::NoMemory),
    }
}

// The task of which a document tells that it is undecided, and why, or the first bad line.
//
// Cost: linear in the text, on average.
pub(crate) fn read_undecided_task(alloc: Global, text: &[u8]) -> Result<(Task, Cause), DocRefusal>
    ensures read { OnOk result (IsUndecidedTask text.now) }
    ensures refused { IfErr result (TellsFault text.now) }
{
    let lines = match read_head(text) {
        Ok(lines) => lines,
        Err(fault) => return Err(DocRefusal::Fault(fault)),
    };
    let (task, body) = match read_task(alloc, lines) {
        Ok(read) => read,
        Err(refusal) => return Err(refusal),
    };
    match read_undecided(body) {
        Ok(cause) => Ok((task, cause)),
        Err(fault) => Err(DocRefusal::Fault(fault)),
    }
}
