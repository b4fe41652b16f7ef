// Requirements left out that aren't needed.
//
// Of requirements that can't be met together one is left out at a time, and stays out where the others can't be met together
// either. Where a hint says that it is needed, that isn't tried. Once none can be left out any more, each has a structure for
// the others, or that stays open: first a hint is checked, and where that fails or there is none, the others are decided.
ghost use Rattle.std.specs.Prelude.{◌≡◌, ◌<◌, false, length, slice_set, IfOk, IsTrue, MatchOption, OnOk};
ghost use Rattle.ml_spec.specs.Questions.{is_in};
ghost use Rattle.ml_replies.specs.Meeting.{without};
ghost use Rattle.ml_replies.specs.Replies.{IsShown};
ghost use Rattle.ml_ask.specs.private.Steps.{ArePartsOf, IsAsked, IsCoreOf, IsLook, IsRefuted, IsSmaller};

use crate::asked::Asked;
use crate::deciding::{Judged, judge};
use crate::hints::Hints;
use crate::sets::left_out;
use crate::sought::Refuted;
use ml_base::NoMemory;
use ml_kripke::Model;
use ml_refutation::Refutation;
use ml_replies::{Core, Meets, Part, Without, meets};
use std::alloc::Global;

/// The requirements of these that are needed, with what is known without each of them.
///
/// # Errors
/// `NoMemory` alone.
///
/// Cost: that of one search for each requirement without a hint, and of the check of a structure for each; whenever a check
/// fails, or one is left out all the same, that of further searches.
pub(crate) fn needed(
    alloc: Global,
    asked: Asked,
    refuted: Refuted,
    hints: &mut Hints,
) -> Result<Core, NoMemory>
    requires asked { IsAsked asked }
    requires refuted { IsRefuted asked refuted }
    ensures { IfOk result (IsCoreOf asked.entry) }
{
    let mut refuted = refuted;
    leave_out(alloc, asked, &mut refuted, hints)?;
    let mut parts = Vec::new(alloc);
    add_parts(alloc, asked, &mut refuted, hints, &mut parts)?;
    Ok(Core {
        taken: refuted.taken,
        parts,
        refutation: refuted.refutation,
    })
}

// leaves out each requirement without a hint in turn, where the others have no structure
fn leave_out(
    alloc: Global,
    asked: Asked,
    refuted: &mut Refuted,
    hints: &mut Hints,
) -> Result<(), NoMemory>
    requires asked { IsAsked asked }
    requires refuted { IsRefuted asked refuted.old }
    ensures { IsRefuted asked.entry refuted.new }
{
    for number in 0..asked.specification.items.len() {
        if is_to_try(asked, &refuted.taken, number, hints) {
            leave_one(alloc, asked, refuted, number, hints)?;
        }
    }
    Ok(())
}

// is it a requirement of these, and is there no hint that it is needed?
fn is_to_try(asked: Asked, taken: &[bool], number: usize, hints: &Hints) -> bool
    requires taken { length taken.now ≡ length asked.specification.now.items.items }
    requires number { number < length taken.now }
{
    taken[number] && asked.specification.items[number].kind.is_requirement() && !hints.has(number)
}

// leaves out a requirement, where the others have no structure; where they have one, it is kept as a hint
fn leave_one(
    alloc: Global,
    asked: Asked,
    refuted: &mut Refuted,
    number: usize,
    hints: &mut Hints,
) -> Result<(), NoMemory>
    requires asked { IsAsked asked }
    requires refuted { IsRefuted asked refuted.old }
    requires number { number < length asked.specification.now.items.items }
    ensures { IsRefuted asked.entry refuted.new }
{
    match look_without(alloc, asked, &refuted.taken, number) {
        Ok(Look::Drop(refutation)) => {
            drop_one(refuted, number, refutation);
            Ok(())
        }
        Ok(Look::Keep(Without::Met(model))) => hints.keep(number, model),
        Ok(Look::Keep(Without::Open)) => Ok(()),
        Err(NoMemory) => Err(NoMemory),
    }
}

// leaves out the requirement with this number, where this refutes the others
fn drop_one(refuted: &mut Refuted, number: usize, refutation: Refutation)
    requires { number < length refuted.old.taken.items }
    ensures taken { refuted.new.taken.items ≡ slice_set refuted.old.taken.items number false }
    ensures refutation { refuted.new.refutation ≡ refutation }
{
    refuted.taken[number] = false;
    refuted.refutation = refutation;
}

// What is found without a requirement.
#[derive(Drop)]
enum Look {
    // it is needed, as far as is known
    Keep(Without),
    // the others have no structure either
    Drop(Refutation),
}

// what is found of these requirements without one
fn look_without(
    alloc: Global,
    asked: Asked,
    taken: &[bool],
    number: usize,
) -> Result<Look, NoMemory>
    requires asked { IsAsked asked }
    requires taken { length taken.now ≡ length asked.specification.now.items.items }
    requires number { number < length taken.now }
    ensures { IfOk result (IsLook asked.entry (without (is_in taken.now) number)) }
{
    let rest = left_out(alloc, taken, number)?;
    match judge(alloc, asked, &rest)? {
        Judged::Met(model) => Ok(Look::Keep(Without::Met(model))),
        Judged::Open => Ok(Look::Keep(Without::Open)),
        Judged::Refuted(refutation) => Ok(Look::Drop(refutation)),
    }
}

// what is found of these requirements without one: by a hint, where it is right
fn look_again(
    alloc: Global,
    asked: Asked,
    taken: &[bool],
    number: usize,
    hints: &mut Hints,
) -> Result<Look, NoMemory>
    requires asked { IsAsked asked }
    requires taken { length taken.now ≡ length asked.specification.now.items.items }
    requires number { number < length taken.now }
    ensures { IfOk result (IsLook asked.entry (without (is_in taken.now) number)) }
{
    match hints.take(number) {
        Some(model) => look_by(alloc, asked, taken, number, model),
        None => look_without(alloc, asked, taken, number),
    }
}

// by a structure, where it meets the others
fn look_by(
    alloc: Global,
    asked: Asked,
    taken: &[bool],
    number: usize,
    model: Model,
) -> Result<Look, NoMemory>
    requires asked { IsAsked asked }
    requires taken { length taken.now ≡ length asked.specification.now.items.items }
    requires number { number < length taken.now }
    ensures { IfOk result (IsLook asked.entry (without (is_in taken.now) number)) }
{
    match meets_without(alloc, asked, taken, number, &model) {
        Ok(true) => Ok(Look::Keep(Without::Met(model))),
        Ok(false) => look_without(alloc, asked, taken, number),
        Err(NoMemory) => Err(NoMemory),
    }
}

// does the structure meet these requirements without one, as far as that can be checked?
fn meets_without(
    alloc: Global,
    asked: Asked,
    taken: &[bool],
    number: usize,
    model: &Model,
) -> Result<bool, NoMemory>
    requires asked { IsAsked asked }
    requires taken { length taken.now ≡ length asked.specification.now.items.items }
    requires number { number < length taken.now }
    ensures { IfOk result (λ met. IsTrue met → IsShown asked.entry.specification.now.logic asked.entry.specification.now.items.items
        (without (is_in taken.now) number) asked.entry.question model.now.structure model.now.start) }
{
    let rest = left_out(alloc, taken, number)?;
    match meets(
        alloc,
        asked.specification,
        &rest,
        asked.question,
        &model.structure,
        model.start,
    ) {
        Ok(Meets::Yes) => Ok(true),
        Ok(Meets::No | Meets::Unknown) => Ok(false),
        Err(NoMemory) => Err(NoMemory),
    }
}

// Adds a part for each requirement to none. Where one can be left out all the same, it is, and the parts are begun anew.
fn add_parts(
    alloc: Global,
    asked: Asked,
    refuted: &mut Refuted,
    hints: &mut Hints,
    parts: &mut Vec<Part>,
) -> Result<(), NoMemory>
    requires asked { IsAsked asked }
    requires refuted { IsRefuted asked refuted.old }
    ensures refuted { IsRefuted asked.entry refuted.new }
    ensures parts { OnOk result (ArePartsOf asked.entry (is_in refuted.new.taken.items) parts.new.items) }
{
    while let Some((number, refutation)) = add_round(alloc, asked, &refuted.taken, hints, parts)? {
        drop_one(refuted, number, refutation);
    }
    Ok(())
}

// Parts in place of those that were there; or a requirement that can be left out, with a refutation of the others.
fn add_round(
    alloc: Global,
    asked: Asked,
    taken: &[bool],
    hints: &mut Hints,
    parts: &mut Vec<Part>,
) -> Result<Option<(usize, Refutation)>, NoMemory>
    requires asked { IsAsked asked }
    requires taken { length taken.now ≡ length asked.specification.now.items.items }
    ensures { IfOk result (λ found. MatchOption found
        (ArePartsOf asked.entry (is_in taken.now) parts.new.items)
        (λ p. IsSmaller asked.entry (is_in taken.now) p.0 p.1)) }
{
    parts.clear();
    for number in 0..asked.specification.items.len() {
        if taken[number] && asked.specification.items[number].kind.is_requirement() {
            match look_again(alloc, asked, taken, number, hints)? {
                Look::Keep(without) => parts.push(Part {
                    requirement: number,
                    without,
                })?,
                Look::Drop(refutation) => return Ok(Some((number, refutation))),
            }
        }
    }
    Ok(None)
}
