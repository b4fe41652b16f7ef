// Documents with a structure, read.
ghost use Rattle.std.specs.Prelude.{IfOk, IsErrOf};
ghost use Rattle.ml_base.specs.declared.doc_fault.DocFault.{DocFault};
ghost use Rattle.ml_kripke.specs.BodyRules.{IsFaultOf};
ghost use Rattle.ml_front.specs.Documents.{IsDocumentFault};
ghost use Rattle.ml_model_check.specs.Checked.{IsDocument};

use ml_base::DocRefusal;
use ml_front::{Answer, Problem, read_head};
use ml_kripke::{Model, read_model};
use std::alloc::Global;

const FIRST_BODY_LINE: u64 = 6;

/// What a document with a structure shows: a problem, and a structure with a state to start from. Whether the problem
/// holds there is another question.
#[derive(Drop)]
pub struct ShownModel {
    pub problem: Problem,
    pub model: Model,
}

/// The problem, the structure and the start that a document shows. It answers `satisfiable`: the five lines of its head, in
/// either version, and then the text of a model. It may have any length.
///
/// # Errors
/// `Fault` exactly where the bytes are no such document, with the first bad line, counted from 1, and the lowest rule that
/// this line breaks: of the head 1 where a line is missing or not of the kind that stands there, 2 where the formula is
/// refused by its parser, 3 where the answer is another one; of the body 11 to 17, as `read_model` says. `NoMemory`.
///
/// Cost: linear in the bytes.
pub fn read_document(alloc: Global, bytes: &[u8]) -> Result<ShownModel, DocRefusal>
    ensures shown { IfOk result (λ d. IsDocument bytes.now d.problem d.model.structure d.model.start) }
    ensures refused { (fault : DocFault) → IsErrOf result (DocRefusal.Fault fault)
        → IsDocumentFault Answer.Satisfiable (λ v. IsFaultOf) bytes.now fault }
{
    let head = read_head(alloc, bytes, Answer::Satisfiable)?;
    match read_model(alloc, head.rest, FIRST_BODY_LINE) {
        Ok(model) => Ok(ShownModel {
            problem: head.problem,
            model,
        }),
        Err(refusal) => Err(refusal),
    }
}
