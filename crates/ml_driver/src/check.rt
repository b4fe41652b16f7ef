// Checking documents, and migrating them.
ghost use Rattle.std.specs.Prelude.{IfOk};
ghost use Rattle.ml_driver.specs.Run.{IsAnswer};
ghost use Rattle.ml_driver.specs.Said.{IsSaid, IsTold, is_answered, never};
ghost use Rattle.ml_driver.specs.Statuses as statuses;

use crate::{Command, Output, Said, Size, Status};
use ml_base::{DocRefusal, NoMemory};
use ml_front::MOST_NODES;
use ml_model_check::{Checked, check_document};
use ml_refute_check::{Verdict, check};
use std::alloc::Global;

// the closure has too many nodes
const TOO_LARGE: Said = Said::Undecided {
    size: Size::Closure,
    limit: MOST_NODES,
};

// the answer to `check-model` on a document
pub(crate) fn check_model(alloc: Global, text: &[u8]) -> Result<Output, NoMemory>
    ensures answer { IfOk result (λ output. IsAnswer Command.CheckModel text.now output.status output.bytes.items) }
    ensures told { IfOk result (λ output. IsTold never output.status output.bytes.items output.said) }
{
    let finding = check_document(alloc, text)?;
    model_said(alloc, finding)
}

// the line for what checking a document with a structure finds
fn model_said(alloc: Global, finding: Checked) -> Result<Output, NoMemory>
    ensures said { IfOk result (λ output. IsSaid (statuses.model_said finding) output.status output.bytes.items) }
    ensures told { IfOk result (λ output. IsTold never output.status output.bytes.items output.said) }
{
    match finding {
        Checked::Holds => Output::line(alloc, Said::Holds),
        Checked::Fails => Output::line(alloc, Said::Fails),
        Checked::Unreadable(fault) => Output::line(alloc, Said::RefusedDocument(fault)),
        Checked::NotTotal(state) => Output::line(alloc, Said::NotTotal(state)),
        Checked::NotAWord(state) => Output::line(alloc, Said::NotAWord(state)),
        Checked::ClosureTooLarge => Output::line(alloc, TOO_LARGE),
    }
}

// the answer to `check-refutation` on a document
pub(crate) fn check_refutation(alloc: Global, text: &[u8]) -> Result<Output, NoMemory>
    ensures answer { IfOk result (λ output. IsAnswer Command.CheckRefutation text.now output.status output.bytes.items) }
    ensures told { IfOk result (λ output. IsTold never output.status output.bytes.items output.said) }
{
    let finding = check(alloc, text)?;
    refutation_said(alloc, finding)
}

// the line for what checking a document with a refutation finds
fn refutation_said(alloc: Global, finding: Verdict) -> Result<Output, NoMemory>
    ensures said { IfOk result (λ output. IsSaid (statuses.refutation_said finding) output.status output.bytes.items) }
    ensures told { IfOk result (λ output. IsTold never output.status output.bytes.items output.said) }
{
    match finding {
        Verdict::Accepted => Output::line(alloc, Said::Accepted),
        Verdict::Rejected { line, rule } => Output::line(alloc, Said::RejectedLine { line, rule }),
        Verdict::Unreadable(fault) => Output::line(alloc, Said::RefusedDocument(fault)),
    }
}

// the answer to `migrate` on a document
pub(crate) fn migrate(alloc: Global, text: &[u8]) -> Result<Output, NoMemory>
    ensures answer { IfOk result (λ output. IsAnswer Command.Migrate text.now output.status output.bytes.items) }
    ensures told { IfOk result (λ output. IsTold is_answered output.status output.bytes.items output.said) }
{
    match ml_refute_check::migrate(alloc, text) {
        Ok(document) => Ok(Output {
            status: Status::Yes,
            bytes: document,
            said: None,
        }),
        Err(DocRefusal::Fault(fault)) => Output::refused(alloc, Said::RefusedDocument(fault)),
        Err(DocRefusal::NoMemory) => Err(NoMemory),
    }
}
