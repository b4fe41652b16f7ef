// The bodies behind the line of an answer, read.
ghost use Rattle.std.specs.Prelude.{◌≡◌, ◌+◌, List, ◌∷◌, drop, map, IfErr, IfOk, IsTrue, ◌↔◌};
ghost use Rattle.ml_lines.specs.Reading.{words_of};
ghost use Rattle.ml_replies.specs.Answers.{core_of, part_of};
ghost use Rattle.ml_replies.specs.Replies as replies;
ghost use Rattle.ml_replies.specs.Replies.{StillMet};
ghost use Rattle.ml_answers.specs.Documents.{ArePartsText, IsBody, IsModel, IsRefutationOf, IsWithoutText, without_line};
ghost use Rattle.ml_answers.specs.Rules.{ArePartsFault, IsBodyFault, IsModelFault, IsRefutationFault, IsWithoutFault};
ghost use Rattle.ml_answers.specs.private.Marks as naming;
ghost use Rattle.ml_answers.specs.declared.names.Mark as spec;
ghost use Rattle.ml_answers.specs.declared.rest.Rest as declared;
ghost use Rattle.ml_answers.specs.private.Plain.{plain};
ghost use Rattle.ml_answers.specs.private.Reads.{ArePartsOf, ArePartsReadTo, HasRoom, Takes, TellsFault};

use crate::names::Mark;
use crate::rest::{Rest, fault, next_body, next_line};
use crate::rule::AnswersRule;
use crate::words::name_at;
use ml_base::{DocRefusal, NoMemory, Version};
use ml_kripke::{Model, read_model};
use ml_lines::two_words;
use ml_refutation::Refutation;
use ml_replies::{Core, Part, Without};
use ml_spec::Item;
use std::alloc::Global;

/// A structure with a start.
pub(crate) fn read_structure<'a>(
    alloc: Global,
    at: Rest<'a>,
) -> Result<(Model, Rest<'a>), DocRefusal>
    requires { HasRoom at }
    ensures read { IfOk result (λ r. Takes (IsModel r.0.structure r.0.start) at.entry r.1) }
    ensures refused { IfErr result (TellsFault IsModelFault at.entry) }
{
    let (body, behind) = next_body(at);
    match read_model(alloc, body, at.line) {
        Ok(model) => {
            model.structure.keeps();
            Ok((model, behind))
        }
        Err(refusal) => Err(refusal),
    }
}

// a refutation
fn read_refutation<'a>(alloc: Global, at: Rest<'a>) -> Result<(Refutation, Rest<'a>), DocRefusal>
    requires { HasRoom at }
    ensures read { IfOk result (λ r. Takes (IsRefutationOf (plain r.0)) at.entry r.1) }
    ensures refused { IfErr result (TellsFault IsRefutationFault at.entry) }
{
    let (body, behind) = next_body(at);
    match ml_refutation_text::read(alloc, body, at.line, Version::Two) {
        Ok((refutation, _)) => Ok((refutation, behind)),
        Err(refusal) => Err(refusal),
    }
}

/// What stands behind a line with these names: a refutation, and a structure without each requirement that is needed.
pub(crate) fn read_core<'a>(
    alloc: Global,
    items: &[Item],
    marks: &[Mark],
    at: Rest<'a>,
) -> Result<(Core, Rest<'a>), DocRefusal>
    requires { HasRoom at }
    ensures taken { IfOk result (λ r. r.0.taken.items ≡ map naming.is_named marks.now) }
    ensures parts { IfOk result (λ r. ArePartsOf 0 marks.now (map part_of r.0.parts.items)) }
    ensures read { IfOk result (λ r. Takes (IsBody items.now (replies.Unmet (core_of r.0))) at.entry r.1) }
    ensures refused { IfErr result (λ e. (c : replies.Core) → ArePartsOf 0 marks.now c.parts
        → TellsFault (IsBodyFault items.now (replies.Unmet c)) at.entry e) }
{
    let (refutation, behind) = match read_refutation(alloc, at) {
        Ok(read) => read,
        Err(refusal) => return Err(refusal),
    };
    let (parts, rest) = match read_parts(alloc, items, marks, behind) {
        Ok(read) => read,
        Err(refusal) => return Err(refusal),
    };
    match taken_by(alloc, marks) {
        Ok(taken) => Ok((
            Core {
                taken,
                parts,
                refutation,
            },
            rest,
        )),
        Err(_) => Err(DocRefusal::NoMemory),
    }
}

// of each item, whether it is named
fn taken_by(alloc: Global, marks: &[Mark]) -> Result<Vec<bool>, NoMemory>
    ensures { IfOk result (λ taken. taken.items ≡ map naming.is_named marks.now) }
{
    let mut taken = Vec::with_capacity(alloc, marks.len())?;
    for mark in marks {
        taken.push(is_named(*mark))?;
    }
    Ok(taken)
}

fn is_named(mark: Mark) -> bool
    ensures { result ≡ naming.is_named mark }
{
    match mark {
        Mark::Unnamed => false,
        Mark::Needed | Mark::Perhaps => true,
    }
}

// a part for each item that is named
fn read_parts<'a>(
    alloc: Global,
    items: &[Item],
    marks: &[Mark],
    at: Rest<'a>,
) -> Result<(Vec<Part>, Rest<'a>), DocRefusal>
    requires { HasRoom at }
    ensures parts { IfOk result (λ r. ArePartsOf 0 marks.now (map part_of r.0.items)) }
    ensures read { IfOk result (λ r. Takes (ArePartsText items.now (map part_of r.0.items)) at.entry r.1) }
    ensures refused { IfErr result (λ e. (ps : List replies.Part) → ArePartsOf 0 marks.now ps
        → TellsFault (ArePartsFault items.now ps) at.entry e) }
{
    let mut parts = Vec::new(alloc);
    let mut rest = at;
    for number in 0..marks.len() {
        match read_part(alloc, items, marks[number], number, &mut parts, rest) {
            Ok(behind) => rest = behind,
            Err(refusal) => return Err(refusal),
        }
    }
    Ok((parts, rest))
}

// the part of an item with this mark, behind those before it
fn read_part<'a>(
    alloc: Global,
    items: &[Item],
    mark: Mark,
    number: usize,
    parts: &mut Vec<Part>,
    at: Rest<'a>,
) -> Result<Rest<'a>, DocRefusal>
    requires { HasRoom at }
    ensures read { IfOk result (λ rest. (ms : List spec.Mark) (start : declared.Rest)
        → drop number ms ≡ mark ∷ drop (number + 1) ms
        → ArePartsReadTo items.now ms start number (map part_of parts.old.items) at.entry
        → ArePartsReadTo items.now ms start (number + 1) (map part_of parts.new.items) rest) }
    ensures refused { IfErr result (λ e. (ms : List spec.Mark) (start : declared.Rest)
        → drop number ms ≡ mark ∷ drop (number + 1) ms
        → ArePartsReadTo items.now ms start number (map part_of parts.old.items) at.entry
        → (ps : List replies.Part)
        → ArePartsOf 0 ms ps
        → TellsFault (ArePartsFault items.now ps) start e) }
{
    match mark {
        Mark::Unnamed => Ok(at),
        Mark::Perhaps => {
            parts.push(Part {
                requirement: number,
                without: Without::Open,
            })?;
            Ok(at)
        }
        Mark::Needed => match read_without(alloc, items, number, at) {
            Ok((model, behind)) => {
                parts.push(Part {
                    requirement: number,
                    without: Without::Met(model),
                })?;
                Ok(behind)
            }
            Err(refusal) => Err(refusal),
        },
    }
}

// the line `without`, and the structure behind it
fn read_without<'a>(
    alloc: Global,
    items: &[Item],
    number: usize,
    at: Rest<'a>,
) -> Result<(Model, Rest<'a>), DocRefusal>
    requires { HasRoom at }
    ensures read { IfOk result (λ r. Takes (IsWithoutText items.now number (StillMet r.0.structure r.0.start)) at.entry r.1) }
    ensures refused { IfErr result (TellsFault (IsWithoutFault items.now number) at.entry) }
{
    match next_line(at) {
        Some((line, behind)) => {
            if is_without(items, number, line) {
                read_structure(alloc, behind)
            } else {
                Err(fault(at.line, AnswersRule::OfKind))
            }
        }
        None => Err(fault(at.line, AnswersRule::OfKind)),
    }
}

// is it the line `without` with the name of this item?
fn is_without(items: &[Item], number: usize, line: &[u8]) -> bool
    ensures { IsTrue result ↔ (words_of line.now ≡ without_line items.now number) }
{
    match two_words(line) {
        Some((word, name)) => word == b"without".as_slice() && name == name_at(items, number),
        None => false,
    }
}
