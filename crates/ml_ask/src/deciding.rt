// What is decided of requirements together.
ghost use Rattle.std.specs.Prelude.{◌≡◌, ◌≤◌, length, IfOk};
ghost use Rattle.ml_decide.specs.Decision.{IsDecided};
ghost use Rattle.ml_front.specs.Logics.{IsWellFormed};
ghost use Rattle.ml_spec.specs.Questions.{is_in};
ghost use Rattle.ml_ask.specs.private.Steps.{IsAsked, IsJudged, IsJudgedOf};

use crate::asked::Asked;
use ml_base::NoMemory;
use ml_decide::{Decision, Way, decide};
use ml_front::Problem;
use ml_kripke::Model;
use ml_refutation::Refutation;
use ml_spec::joined;
use std::alloc::Global;

/// What requirements are decided to be, where a question is asked.
#[derive(Drop)]
pub(crate) enum Judged {
    /// This structure meets them.
    Met(Model),
    /// They can't be met together, as this refutation of their joined formula shows.
    Refuted(Refutation),
    /// It stays open.
    Open,
}

/// What these requirements are decided to be, where the question is asked.
///
/// # Errors
/// `NoMemory` alone.
///
/// Cost: that of `ml_spec::joined`, and of one search where the joined formula isn't too long.
pub(crate) fn judge(alloc: Global, asked: Asked, taken: &[bool]) -> Result<Judged, NoMemory>
    requires asked { IsAsked asked }
    requires taken { length taken.now ≡ length asked.specification.now.items.items }
    ensures { IfOk result (IsJudged asked.entry (is_in taken.now)) }
{
    match joined(alloc, asked.specification, taken, asked.question)? {
        Some(problem) => judge_problem(alloc, &problem, asked.limit),
        None => Ok(Judged::Open),
    }
}

// what a problem is decided to be
fn judge_problem(alloc: Global, problem: &Problem, limit: u32) -> Result<Judged, NoMemory>
    requires well_formed { IsWellFormed problem.now.formula }
    requires some { 1 ≤ limit }
    ensures { IfOk result (IsJudgedOf limit problem.now) }
{
    match decide(alloc, problem, Way::Search, limit) {
        Ok(Decision::Satisfiable(model)) => Ok(Judged::Met(model)),
        Ok(Decision::Unsatisfiable(refutation)) => Ok(Judged::Refuted(refutation)),
        Ok(Decision::Undecided(_)) => Ok(Judged::Open),
        Err(NoMemory) => Err(NoMemory),
    }
}
