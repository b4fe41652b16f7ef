// Questions about files of requirements.
ghost use Rattle.std.specs.Prelude.{◌≡◌, ◌≤◌, true, IfOk};
ghost use Rattle.ml_driver.specs.Asked as asked;
ghost use Rattle.ml_driver.specs.Run.{IsAnswer};
ghost use Rattle.ml_driver.specs.Said.{IsTold, is_answered};

use crate::{Command, Output, Said, Status};
use ml_ask_text::{Form, Told, Verdict, ask_text};
use ml_base::NoMemory;
use std::alloc::Global;

// the answer to `ask` on a file of requirements
pub(crate) fn ask(alloc: Global, form: Form, limit: u32, text: &[u8]) -> Result<Output, NoMemory>
    requires { 1 ≤ limit }
    ensures answer { IfOk result (λ output. IsAnswer (Command.Ask form limit) text.now output.status output.bytes.items) }
    ensures told { IfOk result (λ output. IsTold is_answered output.status output.bytes.items output.said) }
{
    let told = ask_text(alloc, text, limit, form)?;
    requirements_told(alloc, told)
}

fn requirements_told(alloc: Global, told: Told) -> Result<Output, NoMemory>
    ensures status { IfOk result (λ output. output.status ≡ (asked.requirements_told told).0) }
    ensures output { IfOk result (λ output. output.bytes.items ≡ (asked.requirements_told told).1) }
    ensures told { IfOk result (λ output. IsTold is_answered output.status output.bytes.items output.said) }
{
    match told {
        Told::Answered(verdict, written) => Ok(Output {
            status: status_of(verdict),
            bytes: written.into_bytes(),
            said: None,
        }),
        Told::Refused { line, column, rule } => {
            Output::line(alloc, Said::RefusedRequirements { line, column, rule })
        }
    }
}

fn status_of(verdict: Verdict) -> Status
    ensures status { result ≡ asked.status_of verdict }
    ensures answered { is_answered result ≡ true }
{
    match verdict {
        Verdict::AsMeant => Status::Yes,
        Verdict::Against => Status::No,
        Verdict::Open => Status::Undecided,
    }
}
