// Searches with few requirements, then with more.
//
// A structure for those that are taken is checked for all; where it isn't one, a requirement is taken that it doesn't meet, the
// smallest. Nothing is claimed of which one is taken.
ghost use Rattle.std.specs.Prelude.{ℕ, ◌≡◌, ◌<◌, true, length, IfOk, IfSome};
ghost use Rattle.ml_spec.specs.Questions.{is_in};
ghost use Rattle.ml_ask.specs.private.Steps.{AreProblemsOf, IsAsked, IsShownBy, IsSought, IsStep};

use crate::asked::Asked;
use crate::deciding::{Judged, judge};
use crate::sets::for_all;
use crate::sought::{Refuted, Sought, is_shown};
use ml_base::NoMemory;
use ml_front::{Logic, Problem, occurrences};
use ml_kripke::Model;
use ml_model_check::{CheckRefusal, holds};
use ml_refutation::Refutation;
use ml_replies::problem_of_item;
use ml_spec::joined;
use std::alloc::Global;

// how many positions a search with few requirements may look at
const FEW_POSITIONS: u32 = 4_000;

/// What a step comes to.
#[derive(Drop)]
pub(crate) enum Step {
    /// A structure for all requirements of which the question is asked.
    Met(Model),
    /// Those that are taken have none.
    Unmet(Refutation),
    /// This requirement is to be taken too.
    Take(usize),
    /// They lead no further.
    GiveUp,
}

/// A structure for all requirements of which the question is asked, or some that have none, where searches with few of them
/// lead there.
///
/// # Errors
/// `NoMemory` alone.
///
/// Cost: that of one search and one check of a structure for each requirement at most.
pub(crate) fn seek_few(
    alloc: Global,
    asked: Asked,
    problems: &[Problem],
) -> Result<Option<Sought>, NoMemory>
    requires asked { IsAsked asked }
    requires problems { AreProblemsOf asked problems.now }
    ensures { IfOk result (λ found. IfSome found (IsSought asked.entry)) }
{
    let taken = for_all(alloc, asked.among.len(), false)?;
    narrow(alloc, asked, problems, taken)
}

// from those that are taken on
fn narrow(
    alloc: Global,
    asked: Asked,
    problems: &[Problem],
    taken: Vec<bool>,
) -> Result<Option<Sought>, NoMemory>
    requires asked { IsAsked asked }
    requires problems { AreProblemsOf asked problems.now }
    requires told { length taken.items ≡ length asked.specification.now.items.items }
    requires among { (k : ℕ) → is_in taken.items k ≡ true → is_in asked.among.now k ≡ true }
    ensures { IfOk result (λ found. IfSome found (IsSought asked.entry)) }
{
    let mut taken = taken;
    for _ in 0..=asked.among.len() {
        match next_step(alloc, asked, problems, &taken) {
            Ok(Step::Met(model)) => return Ok(Some(Sought::Met(model))),
            Ok(Step::Unmet(refutation)) => {
                return Ok(Some(Sought::Unmet(Refuted { taken, refutation })));
            }
            Ok(Step::Take(number)) => taken[number] = true,
            Ok(Step::GiveUp) => return Ok(None),
            Err(NoMemory) => return Err(NoMemory),
        }
    }
    Ok(None)
}

// a search with the requirements that are taken, and what follows from it
fn next_step(
    alloc: Global,
    asked: Asked,
    problems: &[Problem],
    taken: &[bool],
) -> Result<Step, NoMemory>
    requires asked { IsAsked asked }
    requires problems { AreProblemsOf asked problems.now }
    requires told { length taken.now ≡ length asked.specification.now.items.items }
    ensures { IfOk result (IsStep asked.entry (is_in taken.now)) }
{
    let few = Asked {
        limit: asked.limit.min(FEW_POSITIONS),
        ..asked
    };
    match judge(alloc, few, taken) {
        Ok(Judged::Met(model)) => step_from(alloc, asked, problems, taken, model),
        Ok(Judged::Refuted(refutation)) => Ok(Step::Unmet(refutation)),
        Ok(Judged::Open) => Ok(Step::GiveUp),
        Err(NoMemory) => Err(NoMemory),
    }
}

// what follows from a structure for the requirements that are taken
fn step_from(
    alloc: Global,
    asked: Asked,
    problems: &[Problem],
    taken: &[bool],
    model: Model,
) -> Result<Step, NoMemory>
    requires asked { IsAsked asked }
    requires problems { AreProblemsOf asked problems.now }
    requires told { length taken.now ≡ length asked.specification.now.items.items }
    ensures { IfOk result (IsStep asked.entry (is_in taken.now)) }
{
    match is_shown(alloc, asked, problems, &model) {
        Ok(true) => Ok(Step::Met(model)),
        Ok(false) => further(alloc, asked, taken, &model),
        Err(NoMemory) => Err(NoMemory),
    }
}

// the next requirement to take
fn further(alloc: Global, asked: Asked, taken: &[bool], model: &Model) -> Result<Step, NoMemory>
    requires asked { IsAsked asked }
    requires told { length taken.now ≡ length asked.specification.now.items.items }
    ensures { IfOk result (IsStep asked.entry (is_in taken.now)) }
{
    match smallest_unmet(alloc, asked, taken, model)? {
        Some(number) => Ok(Step::Take(number)),
        None => Ok(Step::GiveUp),
    }
}

// the smallest requirement of which the question is asked, that isn't taken and that the model fails
fn smallest_unmet(
    alloc: Global,
    asked: Asked,
    taken: &[bool],
    model: &Model,
) -> Result<Option<usize>, NoMemory>
    requires asked { IsAsked asked }
    requires told { length taken.now ≡ length asked.specification.now.items.items }
    ensures { IfOk result (λ found. IfSome found (λ n. is_in asked.entry.among.now n ≡ true)) }
{
    let mut smallest = None;
    let mut size = u32::MAX;
    for number in 0..asked.specification.items.len() {
        let item = &asked.specification.items[number];
        let own = occurrences(&item.formula);
        if item.kind.is_requirement() && asked.among[number] && !taken[number] && own < size {
            if fails(alloc, asked, taken, number, model)? {
                smallest = Some(number);
                size = own;
            }
        }
    }
    Ok(smallest)
}

// Does the model fail the requirement? In LTL of paths, where each formula may have a path of its own, the requirement is
// looked at beside those that are taken.
fn fails(
    alloc: Global,
    asked: Asked,
    taken: &[bool],
    number: usize,
    model: &Model,
) -> Result<bool, NoMemory>
    requires asked { IsAsked asked }
    requires told { length taken.now ≡ length asked.specification.now.items.items }
    requires number { number < length asked.specification.now.items.items }
{
    match asked.specification.logic {
        Logic::Ltl => fails_beside(alloc, asked, taken, number, model),
        Logic::Mu | Logic::Pdl | Logic::Ctl | Logic::Word => {
            let problem = problem_of_item(alloc, &asked.specification.items[number])?;
            problem_fails(alloc, &problem, model)
        }
    }
}

fn fails_beside(
    alloc: Global,
    asked: Asked,
    taken: &[bool],
    number: usize,
    model: &Model,
) -> Result<bool, NoMemory>
    requires asked { IsAsked asked }
    requires told { length taken.now ≡ length asked.specification.now.items.items }
    requires number { number < length asked.specification.now.items.items }
{
    let more = taken_too(alloc, taken, number)?;
    match joined(alloc, asked.specification, &more, asked.question)? {
        Some(problem) => problem_fails(alloc, &problem, model),
        None => Ok(false),
    }
}

fn problem_fails(alloc: Global, problem: &Problem, model: &Model) -> Result<bool, NoMemory> {
    match holds(alloc, problem, &model.structure, model.start) {
        Ok(holds) => Ok(!holds),
        Err(CheckRefusal::NoMemory) => Err(NoMemory),
        Err(
            CheckRefusal::NotTotal(_) | CheckRefusal::NotAWord(_) | CheckRefusal::ClosureTooLarge,
        ) => Ok(false),
    }
}

// these requirements and one more
fn taken_too(alloc: Global, taken: &[bool], number: usize) -> Result<Vec<bool>, NoMemory>
    requires { number < length taken.now }
    ensures { IfOk result (λ more. length more.items ≡ length taken.now) }
{
    let mut more = Vec::from_slice(alloc, taken)?;
    more[number] = true;
    Ok(more)
}
