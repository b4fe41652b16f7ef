// Documents with a structure made smaller: the same problem, with the quotient of the structure.
ghost use Rattle.std.specs.Prelude.{◌≡◌, IfOk};
ghost use Rattle.ml_driver.specs.Quotients.{IsReduced};
ghost use Rattle.ml_driver.specs.Run.{IsAnswer};
ghost use Rattle.ml_driver.specs.Said.{IsTold, is_answered};
ghost use Rattle.ml_model_check.specs.Checked.{IsDocument};
ghost use Rattle.ml_model_check.specs.WrittenDocument.{satisfiable_document};

use crate::{Command, Output, Said, Status};
use ml_base::{DocRefusal, NoMemory};
use ml_bisim::quotient;
use ml_decision_text::append_satisfied;
use ml_front::Problem;
use ml_kripke::Model;
use ml_model_check::{ShownModel, read_document};
use std::alloc::Global;

// the answer to `quotient` on a document
pub(crate) fn quotient_document(alloc: Global, text: &[u8]) -> Result<Output, NoMemory>
    ensures answer { IfOk result (λ output. IsAnswer Command.Quotient text.now output.status output.bytes.items) }
    ensures told { IfOk result (λ output. IsTold is_answered output.status output.bytes.items output.said) }
{
    match read_document(alloc, text) {
        Ok(shown) => answer(alloc, text, &shown),
        Err(DocRefusal::Fault(fault)) => Output::refused(alloc, Said::RefusedDocument(fault)),
        Err(DocRefusal::NoMemory) => Err(NoMemory),
    }
}

// the answer on what the document shows
fn answer(alloc: Global, text: &[u8], shown: &ShownModel) -> Result<Output, NoMemory>
    requires { IsDocument text.now shown.now.problem shown.now.model.structure shown.now.model.start }
    ensures answer { IfOk result (λ output. IsAnswer Command.Quotient text.now output.status output.bytes.items) }
    ensures told { IfOk result (λ output. IsTold is_answered output.status output.bytes.items output.said) }
{
    Ok(Output {
        status: Status::Yes,
        bytes: reduced(alloc, text, shown)?,
        said: None,
    })
}

// the document with the quotient
fn reduced(alloc: Global, _text: &[u8], shown: &ShownModel) -> Result<Vec<u8>, NoMemory>
    requires { IsDocument _text.now shown.now.problem shown.now.model.structure shown.now.model.start }
    ensures { IfOk result (λ output. IsReduced _text.now output.items) }
{
    let quotient = quotient(alloc, &shown.model.structure)?;
    let start = quotient.class[shown.model.start as usize];
    let model = Model::new(quotient.structure, start);
    document(alloc, &shown.problem, &model)
}

fn document(alloc: Global, problem: &Problem, model: &Model) -> Result<Vec<u8>, NoMemory>
    ensures { IfOk result (λ output.
        output.items ≡ satisfiable_document problem.now model.now.structure model.now.start) }
{
    let mut output = Vec::new(alloc);
    append_satisfied(&mut output, problem, model)?;
    Ok(output)
}
