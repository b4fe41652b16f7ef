// Answers to files of requirements, checked.
ghost use Rattle.std.specs.Prelude.{◌≡◌, IfOk};
ghost use Rattle.ml_driver.specs.CheckedAnswers.{said_of};
ghost use Rattle.ml_driver.specs.Run.{IsAnswer};
ghost use Rattle.ml_driver.specs.Said.{IsTold, never};

use crate::{Command, Output, Said};
use ml_answers::AnswersFinding;
use ml_base::NoMemory;
use std::alloc::Global;

// the answer to `check-answers` on a file of requirements with its answers behind it
pub(crate) fn check_answers(alloc: Global, text: &[u8]) -> Result<Output, NoMemory>
    ensures answer { IfOk result (λ output. IsAnswer Command.CheckAnswers text.now output.status output.bytes.items) }
    ensures told { IfOk result (λ output. IsTold never output.status output.bytes.items output.said) }
{
    let finding = ml_answers::check_answers(alloc, text)?;
    Output::line(alloc, said_of(finding))
}

// what is said of it
fn said_of(finding: AnswersFinding) -> Said
    ensures { result ≡ said_of finding }
{
    match finding {
        AnswersFinding::Right => Said::Right,
        AnswersFinding::WrongAt(line) => Said::WrongLine(line),
        AnswersFinding::OpenAt(line) => Said::OpenLine(line),
        AnswersFinding::TooLong => Said::TooLong,
        AnswersFinding::NoDocument { line, column } => Said::NoAnswers { line, column },
        AnswersFinding::Refused { line, column, rule } => {
            Said::RefusedRequirements { line, column, rule }
        }
        AnswersFinding::Unreadable(fault) => Said::RefusedDocument(fault),
    }
}
