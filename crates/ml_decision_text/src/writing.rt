// The documents of structures, refutations and causes.
ghost use Rattle.std.specs.Prelude.{◌≡◌, ◌++◌, IfOk, OnOk};
ghost use Rattle.ml_kripke.specs.ModelText.{IsWritten};
ghost use Rattle.ml_kripke.specs.Ordered.{IsOrdered};
ghost use Rattle.ml_lines.specs.Lines.{line_text};
ghost use Rattle.ml_model_check.specs.WrittenDocument.{satisfiable_document};
ghost use Rattle.ml_refutation.specs.Views.{of_parts};
ghost use Rattle.ml_refute_check.specs.WrittenDocument.{document_of};
ghost use Rattle.ml_decision_text.specs.Documents.{cause_line, decision_document, IsShown, undecided_document};

use ml_base::{NoMemory, Version};
use ml_decide::{Cause, Decision};
use ml_front::{Answer, MOST_NODES, Problem, append_head};
use ml_kripke::{Model, append_model};
use ml_lines::{end_line, write_next_number, write_next_word, write_word};
use ml_refutation::Refutation;
use ml_refutation_text::append_refutation;
use std::alloc::Global;

/// Adds the document that says that a problem holds at the start of a model: the head in version 2, and the text of the model.
/// Whether the problem holds there is another question.
///
/// # Errors
/// `NoMemory` alone.
///
/// Cost: linear in the text.
pub fn append_satisfied(
    output: &mut Vec<u8>,
    problem: &Problem,
    model: &Model,
) -> Result<(), NoMemory>
    ensures text { OnOk result (output.new.items
        ≡ output.old.items ++ satisfiable_document problem.now model.now.structure model.now.start) }
    ensures written { OnOk result (IsWritten model.now.structure model.now.start) }
    ensures ordered { OnOk result (IsOrdered model.now.structure) }
{
    // whoever asks a structure for its states learns what its type keeps
    let _states = model.structure.states();
    append_head(output, problem, Answer::Satisfiable)?;
    append_model(output, model)
}

/// Adds the document that says that a problem holds nowhere: the head in version 2, and the text of the refutation. Whether
/// this is accepted for the problem is another question.
///
/// # Errors
/// `NoMemory` alone.
///
/// Cost: that of `ml_refutation_text::append_refutation`, and linear in the head.
pub fn append_refuted(
    alloc: Global,
    output: &mut Vec<u8>,
    problem: &Problem,
    refutation: &Refutation,
) -> Result<(), NoMemory>
    ensures { OnOk result (output.new.items ≡ output.old.items ++ document_of problem.now
        (of_parts refutation.now.names refutation.now.sequents refutation.now.stacks refutation.now.entries)) }
{
    append_head(output, problem, Answer::Unsatisfiable)?;
    append_refutation(alloc, output, refutation, Version::Two)
}

/// Adds the document that says that a problem stays undecided for this cause: the head in version 2, the line of the cause, and
/// `end`.
///
/// # Errors
/// `NoMemory` alone.
///
/// Cost: linear in the text.
pub fn append_undecided(
    output: &mut Vec<u8>,
    problem: &Problem,
    cause: Cause,
) -> Result<(), NoMemory>
    ensures { OnOk result (output.new.items ≡ output.old.items ++ undecided_document problem.now cause) }
{
    append_head(output, problem, Answer::Undecided)?;
    append_cause(output, cause)?;
    write_word(output, b"end")?;
    end_line(output)
}

/// The document of a decision about a problem: that of its structure, its refutation or its cause.
///
/// # Errors
/// `NoMemory` alone.
///
/// Cost: that of the function which adds the document.
pub fn write_decision(
    alloc: Global,
    problem: &Problem,
    decision: &Decision,
) -> Result<Vec<u8>, NoMemory>
    ensures text { IfOk result (λ output. output.items ≡ decision_document problem.now decision.now) }
    ensures shown { OnOk result (IsShown decision.now) }
{
    let mut output = Vec::new(alloc);
    append_decision(alloc, &mut output, problem, decision)?;
    Ok(output)
}

fn append_decision(
    alloc: Global,
    output: &mut Vec<u8>,
    problem: &Problem,
    decision: &Decision,
) -> Result<(), NoMemory>
    ensures text { OnOk result (output.new.items ≡ output.old.items ++ decision_document problem.now decision.now) }
    ensures shown { OnOk result (IsShown decision.now) }
{
    match decision {
        Decision::Satisfiable(model) => append_satisfied(output, problem, model),
        Decision::Unsatisfiable(refutation) => append_refuted(alloc, output, problem, refutation),
        Decision::Undecided(cause) => append_undecided(output, problem, *cause),
    }
}

fn append_cause(output: &mut Vec<u8>, cause: Cause) -> Result<(), NoMemory>
    ensures { OnOk result (output.new.items ≡ output.old.items ++ line_text (cause_line cause)) }
{
    write_word(output, b"cause")?;
    match cause {
        Cause::Positions(limit) => {
            write_next_word(output, b"positions")?;
            write_next_number(output, u64::from(limit))?;
        }
        Cause::Closure => {
            write_next_word(output, b"closure")?;
            write_next_number(output, u64::from(MOST_NODES))?;
        }
    }
    end_line(output)
}
