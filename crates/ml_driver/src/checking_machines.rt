// Machines and environments checked from their documents.
ghost use Rattle.std.specs.Prelude.{◌≡◌, ◌++◌, IfOk, Some};
ghost use Rattle.ml_driver.specs.CheckedMachines.{machine_told};
ghost use Rattle.ml_driver.specs.Confirmed.{IsConfirmed};
ghost use Rattle.ml_driver.specs.Run.{IsAnswer};
ghost use Rattle.ml_driver.specs.Said.{IsTold, never, said_text};

use crate::{Command, Output, Said, Size, Status};
use ml_base::NoMemory;
use ml_machine_check::MOST_NODES;
use ml_machine_text::{MachineFinding, check_document};
use std::alloc::Global;

// the graph of the word automaton has too many nodes
const TOO_LARGE: Said = Said::Undecided {
    size: Size::Closure,
    limit: MOST_NODES,
};

// the answer to `check-machine` on a document
pub(crate) fn check_machine(alloc: Global, text: &[u8]) -> Result<Output, NoMemory>
    ensures answer { IfOk result (λ output. IsAnswer Command.CheckMachine text.now output.status output.bytes.items) }
    ensures confirmed { IfOk result (λ output. IsConfirmed (Some Command.CheckMachine) output.status output.bytes.items) }
    ensures told { IfOk result (λ output. IsTold never output.status output.bytes.items output.said) }
{
    let finding = check_document(alloc, text)?;
    machine_told(alloc, finding)
}

fn machine_told(alloc: Global, finding: MachineFinding) -> Result<Output, NoMemory>
    ensures status { IfOk result (λ output. output.status ≡ (machine_told finding).0) }
    ensures output { IfOk result (λ output. output.bytes.items ≡ (machine_told finding).1) }
    ensures told { IfOk result (λ output. IsTold never output.status output.bytes.items output.said) }
{
    match finding {
        MachineFinding::Holds => Output::line(alloc, Said::Holds),
        MachineFinding::Fails(word) => Ok(Output {
            status: Status::No,
            bytes: failing(alloc, &word.into_bytes())?,
            said: Some(Said::Fails),
        }),
        MachineFinding::ClosureTooLarge => Output::line(alloc, TOO_LARGE),
        MachineFinding::Unreadable(fault) => Output::line(alloc, Said::RefusedDocument(fault)),
    }
}

// the line, and the document of a word behind it
fn failing(alloc: Global, document: &[u8]) -> Result<Vec<u8>, NoMemory>
    ensures { IfOk result (λ output. output.items ≡ said_text Said.Fails ++ document.now) }
{
    let mut output = Said::Fails.line(alloc)?;
    output.extend_from_slice(document)?;
    Ok(output)
}
