// Documents read, and shown to people.
ghost use Rattle.std.specs.Prelude.{IfErr, IfOk, IsErrOf, OnOk};
ghost use Rattle.ml_base.specs.declared.doc_fault.DocFault.{DocFault};
ghost use Rattle.ml_show.specs.Pages.{EndsWithLf};
ghost use Rattle.ml_show_text.specs.Shown.{IsDocument, IsFault, IsFaultOfKind, IsOfKind};
ghost use Rattle.ml_show_text.specs.declared.refusal.ShowFault.{ShowFault};

use crate::answers::show_answers;
use crate::input::{ReadAs, read_as};
use crate::kind::Kind;
use crate::refusal::{ShowFault, ShowRefusal};
use crate::undecided::read_undecided;
use crate::undecided_tasks::read_undecided_task;
use ml_base::{DocRefusal, NoMemory};
use ml_front::{Answer, read_head};
use ml_model_check::read_document;
use ml_realize_text::Document;
use ml_show::{
    show_environment, show_machine, show_model, show_refutation, show_undecided,
    show_undecided_task,
};
use ml_synthesis::Outcome;
use std::alloc::Global;

const FIRST_BODY_LINE: u64 = 6;

fn show_satisfied(alloc: Global, text: &[u8]) -> Result<Vec<u8>, DocRefusal>
    ensures shown { OnOk result (IsOfKind (Kind.Decision Answer.Satisfiable) text.now) }
    ensures ends { IfOk result (λ page. EndsWithLf page.items) }
    ensures refused { (fault : DocFault) → IsErrOf result (DocRefusal.Fault fault)
        → IsFaultOfKind (Kind.Decision Answer.Satisfiable) text.now fault }
{
    let shown = read_document(alloc, text)?;
    Ok(show_model(alloc, &shown.problem, &shown.model)?)
}

fn show_refuted(alloc: Global, text: &[u8]) -> Result<Vec<u8>, DocRefusal>
    ensures shown { OnOk result (IsOfKind (Kind.Decision Answer.Unsatisfiable) text.now) }
    ensures ends { IfOk result (λ page. EndsWithLf page.items) }
    ensures refused { (fault : DocFault) → IsErrOf result (DocRefusal.Fault fault)
        → IsFaultOfKind (Kind.Decision Answer.Unsatisfiable) text.now fault }
{
    let head = read_head(alloc, text, Answer::Unsatisfiable)?;
    match ml_refutation_text::read(alloc, head.rest, FIRST_BODY_LINE, head.version) {
        Ok((refutation, _)) => Ok(show_refutation(alloc, &head.problem, &refutation)?),
        Err(refusal) => Err(refusal),
    }
}

fn show_open(alloc: Global, text: &[u8]) -> Result<Vec<u8>, DocRefusal>
    ensures shown { OnOk result (IsOfKind (Kind.Decision Answer.Undecided) text.now) }
    ensures ends { IfOk result (λ page. EndsWithLf page.items) }
    ensures refused { (fault : DocFault) → IsErrOf result (DocRefusal.Fault fault)
        → IsFaultOfKind (Kind.Decision Answer.Undecided) text.now fault }
{
    let head = read_head(alloc, text, Answer::Undecided)?;
    match read_undecided(head.rest) {
        Ok(cause) => Ok(show_undecided(alloc, &head.problem, cause)?),
        Err(fault) => Err(DocRefusal::Fault(fault)),
    }
}

// the page of a document that was read
fn outcome_page(alloc: Global, document: &Document) -> Result<Vec<u8>, NoMemory>
    ensures { IfOk result (λ page. EndsWithLf page.items) }
{
    match &document.outcome {
        Outcome::Made(machine) => show_machine(alloc, &document.task, machine),
        Outcome::Defeated(environment) => show_environment(alloc, &document.task, environment),
    }
}

fn show_outcome(alloc: Global, text: &[u8]) -> Result<Vec<u8>, DocRefusal>
    ensures shown { OnOk result (IsOfKind Kind.Realizability text.now) }
    ensures ends { IfOk result (λ page. EndsWithLf page.items) }
    ensures refused { (fault : DocFault) → IsErrOf result (DocRefusal.Fault fault)
        → IsFaultOfKind Kind.Realizability text.now fault }
{
    let document = ml_realize_text::read(alloc, text)?;
    Ok(outcome_page(alloc, &document)?)
}

fn show_open_task(alloc: Global, text: &[u8]) -> Result<Vec<u8>, DocRefusal>
    ensures shown { OnOk result (IsOfKind Kind.UndecidedTask text.now) }
    ensures ends { IfOk result (λ page. EndsWithLf page.items) }
    ensures refused { (fault : DocFault) → IsErrOf result (DocRefusal.Fault fault)
        → IsFaultOfKind Kind.UndecidedTask text.now fault }
{
    let (task, cause) = read_undecided_task(alloc, text)?;
    Ok(show_undecided_task(alloc, &task, cause)?)
}

// a document of this kind
fn show_document(alloc: Global, kind: Kind, text: &[u8]) -> Result<Vec<u8>, DocRefusal>
    ensures shown { OnOk result (IsOfKind kind text.now) }
    ensures ends { IfOk result (λ page. EndsWithLf page.items) }
    ensures refused { (fault : DocFault) → IsErrOf result (DocRefusal.Fault fault) → IsFaultOfKind kind text.now fault }
{
    match kind {
        Kind::Realizability => show_outcome(alloc, text),
        Kind::UndecidedTask => show_open_task(alloc, text),
        Kind::Decision(Answer::Satisfiable) => show_satisfied(alloc, text),
        Kind::Decision(Answer::Unsatisfiable) => show_refuted(alloc, text),
        Kind::Decision(Answer::Undecided) => show_open(alloc, text),
    }
}

/// What a document says, as a text for people: of a structure the table of its moments, if it is a word, and else its states;
/// of a refutation the argument, step by step; of a machine or an environment its states; of an undecided document which size
/// passed its limit; of answers behind their specification each line, and so what shows it. Of this text nothing is claimed but
/// that it ends with LF: in particular, whether what the document says is true is another question, and so is whether its logic
/// speaks of its structure.
///
/// # Errors
/// `Fault` exactly where the text is no document. Where a document of answers begins in it, `Answers` tells what
/// `ml_answers::read_answers` says of it. Else `Document` tells the first bad line, counted from 1, and the lowest rule that it
/// breaks. Where the first line is `mlsolver realize 1`, these are those of `ml_realize_text::read`, or 41 to 46 of the lines 3
/// to 5 where the second one is `answer undecided`; and else, by the answer that the second line tells, those of
/// `ml_model_check::read_document`, those of `ml_refute_check::check`, or for `undecided` 1 and 2 of the head, as
/// `ml_front::read_head` says. Of the body of an undecided document they are 11 where a line is missing or not of the kind that
/// stands there, or bytes follow `end`, and 12 where the number isn't spelt as numbers are or doesn't fit 32 bits. Where the
/// second line tells no answer, the first bad line is the same for each. `NoMemory`.
///
/// Cost: linear in the bytes to read them, and then that of the page.
pub fn show(alloc: Global, text: &[u8]) -> Result<Vec<u8>, ShowRefusal>
    ensures shown { OnOk result (IsDocument text.now) }
    ensures ends { IfOk result (λ page. EndsWithLf page.items) }
    ensures refused { (fault : ShowFault) → IsErrOf result (ShowRefusal.Fault fault) → IsFault text.now fault }
{
    match read_as(text) {
        ReadAs::Answers => show_answers(alloc, text),
        ReadAs::Document(kind) => match show_document(alloc, kind, text) {
            Ok(page) => Ok(page),
            Err(DocRefusal::Fault(fault)) => Err(ShowRefusal::Fault(ShowFault::Document(fault))),
            Err(DocRefusal::NoMemory) => Err(ShowRefusal::NoMemory),
        },
    }
}
