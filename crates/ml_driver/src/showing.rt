// Documents as people read them.
ghost use Rattle.std.specs.Prelude.{◌≡◌, IfOk};
ghost use Rattle.ml_driver.specs.Run.{IsAnswer};
ghost use Rattle.ml_driver.specs.Said.{IsTold, is_answered, status_said};
ghost use Rattle.ml_driver.specs.ShownDocuments.{said_of_shown};

use crate::{Command, Output, Said, Status};
use ml_answers::AnswersFault;
use ml_base::NoMemory;
use ml_show_text::{ShowFault, ShowRefusal, show};
use std::alloc::Global;

// the answer to `show` on a document
pub(crate) fn show_document(alloc: Global, text: &[u8]) -> Result<Output, NoMemory>
    ensures answer { IfOk result (λ output. IsAnswer Command.Show text.now output.status output.bytes.items) }
    ensures told { IfOk result (λ output. IsTold is_answered output.status output.bytes.items output.said) }
{
    match show(alloc, text) {
        Ok(page) => Ok(Output {
            status: Status::Yes,
            bytes: page,
            said: None,
        }),
        Err(ShowRefusal::Fault(fault)) => Output::refused(alloc, said_of(fault)),
        Err(ShowRefusal::NoMemory) => Err(NoMemory),
    }
}

// what is said of it
fn said_of(fault: ShowFault) -> Said
    ensures said { result ≡ said_of_shown fault }
    ensures status { Status.Text ≡ status_said result }
{
    match fault {
        ShowFault::Document(fault) => Said::RefusedDocument(fault),
        ShowFault::Answers(AnswersFault::TooLong) => Said::TooLong,
        ShowFault::Answers(AnswersFault::NoDocument { line, column }) => {
            Said::NoAnswers { line, column }
        }
        ShowFault::Answers(AnswersFault::Refused { line, column, rule }) => {
            Said::RefusedRequirements { line, column, rule }
        }
        ShowFault::Answers(AnswersFault::Unreadable(fault)) => Said::RefusedDocument(fault),
    }
}
