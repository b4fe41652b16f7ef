// What is sought: a structure for requirements, or some that have none.
ghost use Rattle.std.specs.Prelude.{ℕ, ◌≡◌, true, length, IfOk, IfSome, IsTrue};
ghost use Rattle.ml_spec.specs.Questions.{is_in};
ghost use Rattle.ml_ask.specs.private.Steps.{AreProblemsOf, IsAsked, IsShownBy, IsSought};

use crate::asked::Asked;
use crate::deciding::{Judged, judge};
use ml_base::NoMemory;
use ml_front::Problem;
use ml_kripke::Model;
use ml_refutation::Refutation;
use ml_replies::{Meets, meets_by};
use std::alloc::Global;

/// Requirements that can't be met together where the question is asked, and a refutation of their joined formula.
#[derive(Drop)]
pub(crate) struct Refuted {
    pub taken: Vec<bool>,
    pub refutation: Refutation,
}

/// What was sought.
#[derive(Drop)]
pub(crate) enum Sought {
    /// A structure for all requirements of which the question is asked.
    Met(Model),
    /// These have none.
    Unmet(Refuted),
    /// It stays open.
    Open,
}

/// The structure, where it meets all requirements of which the question is asked.
///
/// # Errors
/// `NoMemory` alone.
///
/// Cost: that of its check.
pub(crate) fn shown(
    alloc: Global,
    asked: Asked,
    problems: &[Problem],
    model: Model,
) -> Result<Option<Sought>, NoMemory>
    requires asked { IsAsked asked }
    requires problems { AreProblemsOf asked problems.now }
    ensures { IfOk result (λ found. IfSome found (IsSought asked.entry)) }
{
    match is_shown(alloc, asked, problems, &model) {
        Ok(true) => Ok(Some(Sought::Met(model))),
        Ok(false) => Ok(None),
        Err(NoMemory) => Err(NoMemory),
    }
}

/// Does the structure meet all requirements of which the question is asked, as far as that can be checked?
///
/// # Errors
/// `NoMemory` alone.
///
/// Cost: that of `ml_replies::meets_by`.
pub(crate) fn is_shown(
    alloc: Global,
    asked: Asked,
    problems: &[Problem],
    model: &Model,
) -> Result<bool, NoMemory>
    requires asked { IsAsked asked }
    requires problems { AreProblemsOf asked problems.now }
    ensures { IfOk result (λ shown. IsTrue shown → IsShownBy asked.entry model.now.structure model.now.start) }
{
    match meets_by(
        alloc,
        asked.specification,
        asked.among,
        asked.question,
        problems,
        &model.structure,
        model.start,
    ) {
        Ok(Meets::Yes) => Ok(true),
        Ok(Meets::No | Meets::Unknown) => Ok(false),
        Err(NoMemory) => Err(NoMemory),
    }
}

/// These of the requirements of which the question is asked, where they are decided not to be met together.
///
/// # Errors
/// `NoMemory` alone.
///
/// Cost: linear in the items, and that of `judge`.
pub(crate) fn refuted_of(
    alloc: Global,
    asked: Asked,
    taken: &[bool],
) -> Result<Option<Sought>, NoMemory>
    requires asked { IsAsked asked }
    requires told { length taken.now ≡ length asked.specification.now.items.items }
    requires among { (k : ℕ) → is_in taken.now k ≡ true → is_in asked.among.now k ≡ true }
    ensures { IfOk result (λ found. IfSome found (IsSought asked.entry)) }
{
    let taken = Vec::from_slice(alloc, taken)?;
    refuted_by(alloc, asked, taken)
}

fn refuted_by(alloc: Global, asked: Asked, taken: Vec<bool>) -> Result<Option<Sought>, NoMemory>
    requires asked { IsAsked asked }
    requires told { length taken.items ≡ length asked.specification.now.items.items }
    requires among { (k : ℕ) → is_in taken.items k ≡ true → is_in asked.among.now k ≡ true }
    ensures { IfOk result (λ found. IfSome found (IsSought asked.entry)) }
{
    match judge(alloc, asked, &taken) {
        Ok(Judged::Refuted(refutation)) => {
            Ok(Some(Sought::Unmet(Refuted { taken, refutation })))
        }
        Ok(Judged::Met(_) | Judged::Open) => Ok(None),
        Err(NoMemory) => Err(NoMemory),
    }
}
