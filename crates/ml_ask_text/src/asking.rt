// Answers told of a text.
ghost use Rattle.std.specs.Prelude.{◌≡◌, ◌≤◌, IfOk, map};
ghost use Rattle.ml_spec.specs.Specification.{IsSpecification, IsSpecified};
ghost use Rattle.ml_replies.specs.Replies.{AreReplies};
ghost use Rattle.ml_answers.specs.Lines.{lines_of};
ghost use Rattle.ml_replies.specs.Answers.{replied_of};
ghost use Rattle.ml_ask_text.specs.Told.{IsToldOf, IsWrittenAs};

use crate::document::document_of;
use crate::lines::write_lines;
use crate::told::{Form, Told, WrittenAnswers};
use crate::verdict::verdict_of;
use ml_ask::ask;
use ml_base::NoMemory;
use ml_front::Logic;
use ml_replies::Answered;
use ml_spec::{Item, SpecRefusal, Specification, read};
use std::alloc::Global;

/// The answers to the questions of a text of requirements, in their order, as lines or as a document.
///
/// The limit, which says how many positions the decision game of a problem may have, is 1 or more.
///
/// - `Answered` exactly where the text is a specification, with what its answers come to. As `Lines` they are a line each:
///   `consistent`, `rest`, `possible NAME` or `follows NAME` with `yes`, `no` or `open` behind it. Where some requirements
///   can't be met together, their names stand behind `because`: without each of the first ones a structure meets the others,
///   and without those behind `perhaps:` the others stay open with this limit. As `Files` these lines stand between `mlsolver
///   answers 1` and `end`, each with the structures and the refutation that show it behind it;
/// - `Refused` exactly where it is none, with the first line and column, counted from 1, at which it breaks a rule, and of
///   those the rule with the lowest number, as `ml_spec::read` tells.
///
/// # Errors
/// `NoMemory` alone.
///
/// Cost: that of `ml_spec::read` and of `ml_ask::ask`, and linear in what is written.
pub fn ask_text(alloc: Global, text: &[u8], limit: u32, form: Form) -> Result<Told, NoMemory>
    requires { 1 ≤ limit }
    ensures { IfOk result (IsToldOf form text.now limit) }
{
    match read(alloc, text) {
        Ok(specification) => answer(alloc, text, &specification, limit, form),
        Err(SpecRefusal::Refused { line, column, rule }) => {
            Ok(Told::Refused { line, column, rule })
        }
        Err(SpecRefusal::NoMemory) => Err(NoMemory),
    }
}

// the answers to a specification's questions
fn answer(
    alloc: Global,
    _text: &[u8],
    specification: &Specification,
    limit: u32,
    form: Form,
) -> Result<Told, NoMemory>
    requires is_specification { IsSpecification _text.now specification.now.logic specification.now.items.items }
    requires specified { IsSpecified specification.now.logic specification.now.items.items }
    requires some { 1 ≤ limit }
    ensures { IfOk result (IsToldOf form _text.now limit) }
{
    let answers = ask(alloc, specification, limit)?;
    tell(alloc, _text, specification, limit, form, &answers)
}

// these answers
fn tell(
    alloc: Global,
    _text: &[u8],
    specification: &Specification,
    _limit: u32,
    form: Form,
    answers: &[Answered],
) -> Result<Told, NoMemory>
    requires is_specification { IsSpecification _text.now specification.now.logic specification.now.items.items }
    requires answers { AreReplies specification.now.logic specification.now.items.items _limit (map replied_of answers.now) }
    ensures { IfOk result (IsToldOf form _text.now _limit) }
{
    let bytes = written(
        alloc,
        specification.logic,
        &specification.items,
        _limit,
        form,
        answers,
    )?;
    let verdict = verdict_of(&specification.items, answers);
    Ok(Told::Answered(verdict, WrittenAnswers::new(bytes)))
}

// as they are written
fn written(
    alloc: Global,
    _logic: Logic,
    items: &[Item],
    _limit: u32,
    form: Form,
    answers: &[Answered],
) -> Result<Vec<u8>, NoMemory>
    requires { AreReplies _logic items.now _limit (map replied_of answers.now) }
    ensures { IfOk result (λ bytes. IsWrittenAs form items.now (map replied_of answers.now) bytes.items) }
{
    match form {
        Form::Lines => lines(alloc, items, answers),
        Form::Files => document_of(alloc, items, answers),
    }
}

fn lines(alloc: Global, items: &[Item], answers: &[Answered]) -> Result<Vec<u8>, NoMemory>
    ensures { IfOk result (λ bytes. bytes.items ≡ lines_of items.now (map replied_of answers.now)) }
{
    let mut bytes = Vec::new(alloc);
    write_lines(&mut bytes, items, answers)?;
    Ok(bytes)
}
