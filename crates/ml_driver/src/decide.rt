// Deciding the formula of a text, or its negation.
ghost use Rattle.std.specs.Prelude.{◌≡◌, ◌≤◌, true, IfOk};
ghost use Rattle.ml_driver.specs.Decision.{IsAnswered, IsProblem};
ghost use Rattle.ml_driver.specs.Said.{IsTold, is_answered};
ghost use Rattle.ml_driver.specs.private.Decisions.{status_in};

use crate::question::Question;
use crate::refusing::formula_refused;
use crate::{Output, Status};
use ml_base::NoMemory;
use ml_decide::Decision;
use ml_decision_text::write_decision;
use ml_front::{Problem, negated, read};
use std::alloc::Global;

// the answer to a question about a text
pub(crate) fn decide(alloc: Global, question: Question, text: &[u8]) -> Result<Output, NoMemory>
    requires { 1 ≤ question.limit }
    ensures answer { IfOk result (λ output. IsAnswered question text.now output.status output.bytes.items) }
    ensures told { IfOk result (λ output. IsTold is_answered output.status output.bytes.items output.said) }
{
    match read(alloc, question.logic, text) {
        Ok(plain) => {
            let problem = if question.negated {
                negated(plain)
            } else {
                plain
            };
            answer(alloc, question, text, &problem)
        }
        Err(refusal) => match formula_refused(refusal) {
            Some(said) => Output::refused(alloc, said),
            None => Err(NoMemory),
        },
    }
}

// the answer about the problem of the text
fn answer(
    alloc: Global,
    question: Question,
    _text: &[u8],
    problem: &Problem,
) -> Result<Output, NoMemory>
    requires problem { IsProblem question _text.now problem.now }
    requires some { 1 ≤ question.limit }
    ensures answer { IfOk result (λ output. IsAnswered question _text.now output.status output.bytes.items) }
    ensures told { IfOk result (λ output. IsTold is_answered output.status output.bytes.items output.said) }
{
    let decision = ml_decide::decide(alloc, problem, question.way, question.limit)?;
    Ok(Output {
        status: status_in(question.negated, &decision),
        bytes: write_decision(alloc, problem, &decision)?,
        said: None,
    })
}

// where the question is about the negation, a refutation says yes
fn status_in(negated: bool, decision: &Decision) -> Status
    ensures status { result ≡ status_in negated decision.now }
    ensures answered { is_answered result ≡ true }
{
    match decision {
        Decision::Satisfiable(_) if negated => Status::No,
        Decision::Satisfiable(_) => Status::Yes,
        Decision::Unsatisfiable(_) if negated => Status::Yes,
        Decision::Unsatisfiable(_) => Status::No,
        Decision::Undecided(_) => Status::Undecided,
    }
}
