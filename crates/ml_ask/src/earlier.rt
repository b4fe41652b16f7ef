// What earlier answers say of a question.
ghost use Rattle.std.specs.Prelude.{IfOk, IfSome};
ghost use Rattle.ml_ask.specs.private.Steps.{AreProblemsOf, IsAsked, IsSought};

use crate::asked::Asked;
use crate::copying::copied;
use crate::sets::flagged_among;
use crate::sought::{Sought, is_shown, refuted_of, shown};
use ml_base::NoMemory;
use ml_front::Problem;
use ml_kripke::Model;
use ml_replies::{Answer, Answered};
use ml_spec::Question;
use std::alloc::Global;

/// The structure of an earlier answer, where it meets all requirements of which the question is asked; or the conflict of all
/// requirements, where it is one with the question too.
///
/// # Errors
/// `NoMemory` alone.
///
/// Cost: that of the structures' checks, and of one search with the requirements of the conflict.
pub(crate) fn seek_earlier(
    alloc: Global,
    asked: Asked,
    problems: &[Problem],
    earlier: &[Answered],
) -> Result<Option<Sought>, NoMemory>
    requires asked { IsAsked asked }
    requires problems { AreProblemsOf asked problems.now }
    ensures { IfOk result (λ found. IfSome found (IsSought asked.entry)) }
{
    for answered in earlier {
        if let Some(sought) = seek_by_one(alloc, asked, problems, answered)? {
            return Ok(Some(sought));
        }
    }
    Ok(None)
}

// by one of them
fn seek_by_one(
    alloc: Global,
    asked: Asked,
    problems: &[Problem],
    answered: &Answered,
) -> Result<Option<Sought>, NoMemory>
    requires asked { IsAsked asked }
    requires problems { AreProblemsOf asked problems.now }
    ensures { IfOk result (λ found. IfSome found (IsSought asked.entry)) }
{
    match (&answered.answer, answered.question) {
        (Answer::Yes(model), _) => met_again(alloc, asked, problems, model),
        (Answer::No(core), Question::Consistent) => refuted_again(alloc, asked, &core.taken),
        (Answer::No(_) | Answer::Open, _) => Ok(None),
    }
}

// by the structure of an earlier answer
fn met_again(
    alloc: Global,
    asked: Asked,
    problems: &[Problem],
    model: &Model,
) -> Result<Option<Sought>, NoMemory>
    requires asked { IsAsked asked }
    requires problems { AreProblemsOf asked problems.now }
    ensures { IfOk result (λ found. IfSome found (IsSought asked.entry)) }
{
    if !is_shown(alloc, asked, problems, model)? {
        return Ok(None);
    }
    match copied(alloc, model)? {
        Some(copy) => shown(alloc, asked, problems, copy),
        None => Ok(None),
    }
}

// by the requirements of an earlier conflict
fn refuted_again(alloc: Global, asked: Asked, conflict: &[bool]) -> Result<Option<Sought>, NoMemory>
    requires { IsAsked asked }
    ensures { IfOk result (λ found. IfSome found (IsSought asked.entry)) }
{
    if conflict.len() != asked.among.len() {
        return Ok(None);
    }
    let taken = flagged_among(alloc, asked.among, conflict)?;
    refuted_of(alloc, asked, &taken)
}
