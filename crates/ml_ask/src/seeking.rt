// A structure for all requirements of which a question is asked, or some that have none.
//
// Earlier answers are looked at first. Then one search is made with all formulas at once, and where that leads to nothing,
// searches with few requirements. What is left is decided with all of them together, where their joined formula isn't too long.
ghost use Rattle.std.specs.Prelude.{IfOk};
ghost use Rattle.ml_spec.specs.Questions.{is_in};
ghost use Rattle.ml_ask.specs.private.Steps.{AreProblemsOf, AreRefutedBy, IsAsked, IsSought};

use crate::asked::Asked;
use crate::deciding::{Judged, judge};
use crate::earlier::seek_earlier;
use crate::hints::Hints;
use crate::narrowing::seek_few;
use crate::searching::seek_at_once;
use crate::sought::{Refuted, Sought};
use ml_base::NoMemory;
use ml_front::Problem;
use ml_refutation::Refutation;
use ml_replies::{Answered, problems_of};
use std::alloc::Global;

/// A structure for all requirements of which the question is asked, or some that have none; or it stays open. Where some have
/// none, structures without one of them may be hints.
///
/// # Errors
/// `NoMemory` alone.
///
/// Cost: that of one search with all formulas, of some with those that clash or of one with few for each requirement, and of
/// the structures' checks.
pub(crate) fn seek(
    alloc: Global,
    asked: Asked,
    earlier: &[Answered],
    hints: &mut Hints,
) -> Result<Sought, NoMemory>
    requires { IsAsked asked }
    ensures { IfOk result (IsSought asked.entry) }
{
    let problems = problems_of(alloc, asked.specification, asked.among, asked.question)?;
    seek_by(alloc, asked, &problems, earlier, hints)
}

// by the problems of the formulas, which are made once
fn seek_by(
    alloc: Global,
    asked: Asked,
    problems: &[Problem],
    earlier: &[Answered],
    hints: &mut Hints,
) -> Result<Sought, NoMemory>
    requires asked { IsAsked asked }
    requires problems { AreProblemsOf asked problems.now }
    ensures { IfOk result (IsSought asked.entry) }
{
    if let Some(sought) = seek_earlier(alloc, asked, problems, earlier)? {
        return Ok(sought);
    }
    if let Some(sought) = seek_at_once(alloc, asked, problems, hints)? {
        return Ok(sought);
    }
    if let Some(sought) = seek_few(alloc, asked, problems)? {
        return Ok(sought);
    }
    seek_all(alloc, asked)
}

// by all requirements together
fn seek_all(alloc: Global, asked: Asked) -> Result<Sought, NoMemory>
    requires { IsAsked asked }
    ensures { IfOk result (IsSought asked.entry) }
{
    match judge(alloc, asked, asked.among)? {
        Judged::Met(model) => Ok(Sought::Met(model)),
        Judged::Refuted(refutation) => all_refuted(alloc, asked, refutation),
        Judged::Open => Ok(Sought::Open),
    }
}

fn all_refuted(alloc: Global, asked: Asked, refutation: Refutation) -> Result<Sought, NoMemory>
    requires asked { IsAsked asked }
    requires refuted { AreRefutedBy asked (is_in asked.among.now) refutation }
    ensures { IfOk result (IsSought asked.entry) }
{
    let taken = Vec::from_slice(alloc, asked.among)?;
    Ok(Sought::Unmet(Refuted { taken, refutation }))
}
