// Documents of answers, read.
ghost use Rattle.std.specs.Prelude.{ℕ, ◌≡◌, ◌+◌, ◌<◌, Bool, [], drop, true, length, not, replicate, ◌&&◌, IfErr, IfOk, IsTrue, OnOk, ◌↔◌};
ghost use Rattle.std.specs.List.{AllByRecursion, list_any};
ghost use Rattle.ml_lines.specs.Lines.{line_text};
ghost use Rattle.ml_lines.specs.Reading.{words_of};
ghost use Rattle.ml_replies.specs.Answers.{reply_of};
ghost use Rattle.ml_replies.specs.Replies as replies;
ghost use Rattle.ml_spec.specs.Items.{is_name};
ghost use Rattle.ml_spec.specs.Kinds.{is_requirement};
ghost use Rattle.ml_spec.specs.Questions.{asking, asking_from, is_in};
ghost use Rattle.ml_spec.specs.Specification.{AreNew};
ghost use Rattle.ml_answers.specs.Documents.{IsBlock, IsBody, last_line, title_line};
ghost use Rattle.ml_answers.specs.Due.{rest_behind, Fits};
ghost use Rattle.ml_answers.specs.Texts.{IsLine, IsThen};
ghost use Rattle.ml_answers.specs.Rules.{IsAnswerFault, IsAnswersFault, IsBodyFault, IsEndFault, IsMore, replied};
ghost use Rattle.ml_answers.specs.private.Reads.{AreRead, AreReadBehind, HasRoom, IsConflict, IsFaultBehind, IsMadeOf, IsReadUpTo, Takes, TellsFault};
ghost use Rattle.ml_answers.specs.private.Words.{Agrees};

use crate::line::{ToldLine, read_line};
use crate::parts::{read_core, read_structure};
use crate::rest::{Rest, fault, next_line};
use crate::rule::AnswersRule;
use crate::stated::Stated;
use ml_base::{DocRefusal, NoMemory};
use ml_lines::{LineRefusal, one_word};
use ml_replies::Answer;
use ml_spec::{Item, Question};
use std::alloc::Global;

/// The answers of a document, of which the first line is known to be the title.
///
/// Cost: linear in the bytes, and in the items times the lines with names.
pub(crate) fn read_document(
    alloc: Global,
    items: &[Item],
    at: Rest,
) -> Result<Vec<Stated>, DocRefusal>
    requires room { HasRoom at }
    requires new { AreNew items.now }
    requires named { AllByRecursion (λ x. is_name x.name ≡ true) items.now }
    requires title { IsThen (IsLine title_line) (λ t. Unit {0}) at.text.now }
    ensures read { IfOk result (λ stated. AreReadBehind items.now at.entry stated.items) }
    ensures refused { IfErr result (TellsFault (IsAnswersFault items.now) at.entry) }
{
    let all = match flags(alloc, items.len()) {
        Ok(all) => all,
        Err(_) => return Err(DocRefusal::NoMemory),
    };
    match next_line(at) {
        Some((_, behind)) => read_answers(alloc, items, &all, behind),
        None => Err(fault(at.line, AnswersRule::OfKind)),
    }
}

/// A flag for each item, set.
pub(crate) fn flags(alloc: Global, count: usize) -> Result<Vec<bool>, NoMemory>
    ensures { IfOk result (λ all. all.items ≡ replicate count true) }
{
    let mut all = Vec::with_capacity(alloc, count)?;
    for _ in 0..count {
        all.push(true)?;
    }
    Ok(all)
}

// the answers, and the line `end` behind them
fn read_answers(
    alloc: Global,
    items: &[Item],
    all: &[bool],
    at: Rest,
) -> Result<Vec<Stated>, DocRefusal>
    requires room { HasRoom at }
    requires new { AreNew items.now }
    requires named { AllByRecursion (λ x. is_name x.name ≡ true) items.now }
    requires all { all.now ≡ replicate (length items.now) true }
    ensures read { IfOk result (λ stated. AreRead items.now at.entry stated.items) }
    ensures refused { IfErr result (TellsFault (IsFaultBehind items.now) at.entry) }
{
    let mut stated = Vec::new(alloc);
    let behind = match read_conflicts(alloc, items, all, &mut stated, at) {
        Ok(behind) => behind,
        Err(refusal) => return Err(refusal),
    };
    let end = match read_others(alloc, items, all, &mut stated, behind, at) {
        Ok(end) => end,
        Err(refusal) => return Err(refusal),
    };
    match read_end(end) {
        Ok(()) => Ok(stated),
        Err(refusal) => Err(refusal),
    }
}

// the line `end`, behind which nothing stands
fn read_end(at: Rest) -> Result<(), DocRefusal>
    requires room { HasRoom at }
    ensures read { OnOk result (at.entry.text.now ≡ line_text last_line) }
    ensures refused { IfErr result (TellsFault IsEndFault at.entry) }
{
    match next_line(at) {
        Some((line, behind)) => {
            if is_last(line) {
                read_nothing(behind)
            } else {
                Err(fault(at.line, AnswersRule::OfKind))
            }
        }
        None => Err(fault(at.line, AnswersRule::OfKind)),
    }
}

fn is_last(line: &[u8]) -> bool
    ensures { IsTrue result ↔ (words_of line.now ≡ last_line) }
{
    match one_word(line) {
        Some(word) => word == b"end".as_slice(),
        None => false,
    }
}

// the end of the text
fn read_nothing(at: Rest) -> Result<(), DocRefusal>
    ensures read { OnOk result (at.entry.text.now ≡ []) }
    ensures refused { IfErr result (TellsFault IsMore at.entry) }
{
    if at.text.is_empty() {
        Ok(())
    } else {
        Err(fault(at.line, AnswersRule::OfKind))
    }
}

// whether the requirements are consistent, and behind each conflict the rest
fn read_conflicts<'a>(
    alloc: Global,
    items: &[Item],
    all: &[bool],
    stated: &mut Vec<Stated>,
    at: Rest<'a>,
) -> Result<Rest<'a>, DocRefusal>
    requires room { HasRoom at }
    requires new { AreNew items.now }
    requires named { AllByRecursion (λ x. is_name x.name ≡ true) items.now }
    requires all { all.now ≡ replicate (length items.now) true }
    requires none { stated.old.items ≡ [] }
    ensures room { IfOk result HasRoom }
    ensures read { IfOk result (λ rest. IsReadUpTo items.now at.entry stated.new.items rest (asking items.now)) }
    ensures refused { IfErr result (TellsFault (IsFaultBehind items.now) at.entry) }
{
    if !has_requirement(items) {
        return Ok(at);
    }
    let mut among = match Vec::from_slice(alloc, all) {
        Ok(among) => among,
        Err(_) => return Err(DocRefusal::NoMemory),
    };
    let mut question = Question::Consistent;
    let mut rest = at;
    loop {
        match read_answer(alloc, items, &among, question, rest) {
            Ok((statement, behind)) => {
                let goes_on = leave_out(&mut among, &statement);
                stated.push(Stated {
                    line: rest.line,
                    question,
                    statement,
                })?;
                rest = behind;
                if !goes_on {
                    return Ok(rest);
                }
                question = Question::Rest;
            }
            Err(refusal) => return Err(refusal),
        }
    }
}

fn has_requirement(items: &[Item]) -> bool
    ensures { result ≡ list_any (λ x. is_requirement x.kind) items.now }
{
    items.iter().any(|item| item.kind.is_requirement())
}

/// Leaves out the requirements that a conflict names, and tells whether it is one.
pub(crate) fn leave_out(among: &mut [bool], statement: &Answer) -> bool
    ensures length { length among.new ≡ length among.old }
    ensures conflict { IsConflict result (reply_of statement.now) }
    ensures left { (k : ℕ) → is_in among.new k ≡ rest_behind (is_in among.old) Question.Rest (reply_of statement.now) k }
{
    match statement {
        Answer::No(core) => {
            leave(among, &core.taken);
            true
        }
        Answer::Yes(_) | Answer::Open => false,
    }
}

fn leave(among: &mut [bool], taken: &[bool])
    ensures length { length among.new ≡ length among.old }
    ensures left { (k : ℕ) → is_in among.new k ≡ (is_in among.old k && not (is_in taken.now k)) }
{
    for number in 0..among.len() {
        among[number] = stays(among, taken, number);
    }
}

fn stays(among: &[bool], taken: &[bool], number: usize) -> bool
    requires { number < length among.now }
    ensures { result ≡ (is_in among.now number && not (is_in taken.now number)) }
{
    if number < taken.len() {
        among[number] && !taken[number]
    } else {
        among[number]
    }
}

// what is asked by the items, behind what was read from the start on
fn read_others<'a>(
    alloc: Global,
    items: &[Item],
    all: &[bool],
    stated: &mut Vec<Stated>,
    at: Rest<'a>,
    _start: Rest,
) -> Result<Rest<'a>, DocRefusal>
    requires room { HasRoom at }
    requires new { AreNew items.now }
    requires named { AllByRecursion (λ x. is_name x.name ≡ true) items.now }
    requires all { all.now ≡ replicate (length items.now) true }
    requires read { IsReadUpTo items.now _start stated.old.items at (asking items.now) }
    ensures room { IfOk result HasRoom }
    ensures read { IfOk result (λ rest. IsReadUpTo items.now _start.entry stated.new.items rest []) }
    ensures refused { IfErr result (TellsFault (IsFaultBehind items.now) _start.entry) }
{
    let mut rest = at;
    for number in 0..items.len() {
        match read_other(alloc, items, all, number, stated, rest, _start) {
            Ok(behind) => rest = behind,
            Err(refusal) => return Err(refusal),
        }
    }
    Ok(rest)
}

// what is asked by the item with this number, if it asks something
fn read_other<'a>(
    alloc: Global,
    items: &[Item],
    all: &[bool],
    number: usize,
    stated: &mut Vec<Stated>,
    at: Rest<'a>,
    _start: Rest,
) -> Result<Rest<'a>, DocRefusal>
    requires room { HasRoom at }
    requires new { AreNew items.now }
    requires named { AllByRecursion (λ x. is_name x.name ≡ true) items.now }
    requires all { all.now ≡ replicate (length items.now) true }
    requires number { number < length items.now }
    requires read { IsReadUpTo items.now _start stated.old.items at (asking_from number (drop number items.now)) }
    ensures room { IfOk result HasRoom }
    ensures read { IfOk result (λ rest. IsReadUpTo items.now _start.entry stated.new.items rest
        (asking_from (number + 1) (drop (number + 1) items.now))) }
    ensures refused { IfErr result (TellsFault (IsFaultBehind items.now) _start.entry) }
{
    if items[number].kind.is_requirement() {
        return Ok(at);
    }
    let question = Question::Asks(number);
    match read_answer(alloc, items, all, question, at) {
        Ok((statement, behind)) => {
            stated.push(Stated {
                line: at.line,
                question,
                statement,
            })?;
            Ok(behind)
        }
        Err(refusal) => Err(refusal),
    }
}

// what is said in answer to a question, which is asked of these requirements
fn read_answer<'a>(
    alloc: Global,
    items: &[Item],
    among: &[bool],
    question: Question,
    at: Rest<'a>,
) -> Result<(Answer, Rest<'a>), DocRefusal>
    requires room { HasRoom at }
    requires among { length among.now ≡ length items.now }
    requires new { AreNew items.now }
    requires named { AllByRecursion (λ x. is_name x.name ≡ true) items.now }
    ensures fits { IfOk result (λ r. (S : ℕ → Bool) → Agrees items.now S among.now → Fits items.now S question (reply_of r.0)) }
    ensures read { IfOk result (λ r. Takes (IsBlock items.now (replied question (reply_of r.0))) at.entry r.1) }
    ensures shorter { IfOk result (λ r. length r.1.text.now < length at.entry.text.now) }
    ensures room { IfOk result (λ r. HasRoom r.1) }
    ensures refused { IfErr result (λ e. (S : ℕ → Bool) → Agrees items.now S among.now
        → TellsFault (IsAnswerFault items.now S question) at.entry e) }
{
    match next_line(at) {
        Some((line, behind)) => match read_line(alloc, items, among, question, line) {
            Ok(told) => read_body(alloc, items, &told, behind),
            Err(LineRefusal::Breaks(rule)) => Err(fault(at.line, rule)),
            Err(LineRefusal::NoMemory) => Err(DocRefusal::NoMemory),
        },
        None => Err(fault(at.line, AnswersRule::OfKind)),
    }
}

// what is said, where the line before told this
fn read_body<'a>(
    alloc: Global,
    items: &[Item],
    told: &ToldLine,
    at: Rest<'a>,
) -> Result<(Answer, Rest<'a>), DocRefusal>
    requires room { HasRoom at }
    ensures made { IfOk result (λ r. IsMadeOf told.now (reply_of r.0)) }
    ensures read { IfOk result (λ r. Takes (IsBody items.now (reply_of r.0)) at.entry r.1) }
    ensures refused { IfErr result (λ e. (r : replies.Reply) → IsMadeOf told.now r → TellsFault (IsBodyFault items.now r) at.entry e) }
{
    match told {
        ToldLine::Structure => match read_structure(alloc, at) {
            Ok((model, rest)) => Ok((Answer::Yes(model), rest)),
            Err(refusal) => Err(refusal),
        },
        ToldLine::Names(marks) => match read_core(alloc, items, marks, at) {
            Ok((core, rest)) => Ok((Answer::No(core), rest)),
            Err(refusal) => Err(refusal),
        },
        ToldLine::LeftOpen => Ok((Answer::Open, at)),
    }
}
