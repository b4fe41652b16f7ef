// What comes of all answers of a document.
ghost use Rattle.std.specs.Prelude.{ℕ, ◌≡◌, Bool, true, length, replicate, IfOk, OnOk};
ghost use Rattle.std.specs.List.{AllByRecursion};
ghost use Rattle.ml_replies.specs.Answers.{reply_of};
ghost use Rattle.ml_replies.specs.Laws.{OneCheck};
ghost use Rattle.ml_replies.specs.Meeting.{everything};
ghost use Rattle.ml_spec.specs.Specification.{IsSpecified};
ghost use Rattle.ml_answers.specs.Checked as checked;
ghost use Rattle.ml_answers.specs.Checked.{IsShownBy, IsVerdict, placed};
ghost use Rattle.ml_answers.specs.Due.{asked_of, rest_behind};
ghost use Rattle.ml_answers.specs.Stated.{lines_of, replies_of};
ghost use Rattle.ml_answers.specs.private.Judged.{ComesTo, IsJudgable};
ghost use Rattle.ml_answers.specs.private.Words.{Agrees};

use crate::document::leave_out;
use crate::finding::AnswersFinding;
use crate::judging::{Standing, judge};
use crate::line::is_of_conflict;
use crate::stated::Stated;
use ml_base::NoMemory;
use ml_spec::Specification;
use std::alloc::Global;

/// What comes of these answers, in the order of their lines, where all flags are set for the items.
///
/// Cost: that of `judge` of each up to the first one that is wrong.
pub(crate) fn verdict(
    alloc: Global,
    specification: &Specification,
    all: &[bool],
    stated: &[Stated],
) -> Result<AnswersFinding, NoMemory>
    requires specified { IsSpecified specification.now.logic specification.now.items.items }
    requires all { all.now ≡ replicate (length specification.now.items.items) true }
    requires judgable { AllByRecursion (IsJudgable specification.now.items.items) stated.now }
    requires one { OneCheck }
    ensures { IfOk result (IsVerdict specification.now.logic specification.now.items.items
        (placed everything (replies_of stated.now) (lines_of stated.now))) }
{
    let mut rest = Vec::from_slice(alloc, all)?;
    let mut unshown = None;
    for answer in stated {
        let standing = judge_next(alloc, specification, all, &mut rest, answer)?;
        match standing {
            Standing::Shown => {}
            Standing::Unsettled => unshown = unshown.or(Some(answer.line)),
            Standing::Wrong => return Ok(AnswersFinding::WrongAt(answer.line)),
        }
    }
    match unshown {
        Some(line) => Ok(AnswersFinding::OpenAt(line)),
        None => Ok(AnswersFinding::Right),
    }
}

// what comes of the next answer, where `rest` tells which requirements no conflict before it names; what it names is left out
fn judge_next(
    alloc: Global,
    specification: &Specification,
    all: &[bool],
    rest: &mut [bool],
    answer: &Stated,
) -> Result<Standing, NoMemory>
    requires specified { IsSpecified specification.now.logic specification.now.items.items }
    requires all { all.now ≡ replicate (length specification.now.items.items) true }
    requires rest { length rest.old ≡ length specification.now.items.items }
    requires judgable { IsJudgable specification.now.items.items answer.now }
    requires one { OneCheck }
    ensures rest { length rest.new ≡ length rest.old }
    ensures comes { IfOk result (λ standing. (R : ℕ → Bool) → Agrees specification.now.items.items R rest.old
        → ComesTo (IsShownBy specification.now.logic specification.now.items.items (asked_of R answer.now.question) answer.now.question
        (reply_of answer.now.statement))
        (checked.IsWrong specification.now.logic specification.now.items.items (asked_of R answer.now.question) answer.now.question
        (reply_of answer.now.statement)) standing) }
    ensures left { OnOk result ((R : ℕ → Bool) → Agrees specification.now.items.items R rest.old
        → Agrees specification.now.items.items (rest_behind R answer.now.question (reply_of answer.now.statement)) rest.new) }
{
    if is_of_conflict(answer.question) {
        let standing = judge(
            alloc,
            specification,
            rest,
            answer.question,
            &answer.statement,
        )?;
        let _ = leave_out(rest, &answer.statement);
        Ok(standing)
    } else {
        judge(
            alloc,
            specification,
            all,
            answer.question,
            &answer.statement,
        )
    }
}
