// A word of a machine or an environment as a document.
ghost use Rattle.std.specs.Prelude.{◌≡◌, IfOk};
ghost use Rattle.ml_machine_check.specs.Checked.{Breaks, sense_of};
ghost use Rattle.ml_model_check.specs.Checked.{IsCheckedAs};
ghost use Rattle.ml_model_check.specs.declared.checked.Checked.TheVariants as checked;
ghost use Rattle.ml_realize_text.specs.ReadText.{IsRealizeText};
ghost use Rattle.ml_task.specs.Task.{task_of};
ghost use Rattle.ml_machine_text.specs.Found as found;
ghost use Rattle.ml_machine_text.specs.Found.{ShowsWord};

use crate::labels::structure_of;
use ml_base::NoMemory;
use ml_decision_text::{WrittenText, append_satisfied};
use ml_front::{AnyFormula, Problem};
use ml_kripke::Model;
use ml_machine_check::Run;
use ml_realize_text::Document;
use ml_synthesis::Outcome;
use std::alloc::Global;

// is a word looked for that doesn't satisfy the formula?
fn is_negated(outcome: &Outcome) -> bool
    ensures { result ≡ sense_of outcome.now }
{
    match outcome {
        Outcome::Made(_) => true,
        Outcome::Defeated(_) => false,
    }
}

// the problem of which the word is asked
fn problem_of(document: Document) -> Problem
    ensures { result ≡ found.problem_of
        (task_of document.task.inputs.items document.task.outputs.items document.task.formula) document.outcome }
{
    let negated = is_negated(&document.outcome);
    Problem {
        formula: AnyFormula::Word(document.task.formula),
        negated,
    }
}

/// The document of a word that breaks the machine or the environment of a document, as whoever checks documents confirms it.
///
/// # Errors
/// `NoMemory` alone.
///
/// Cost: `n log n` in the text.
pub(crate) fn shown_word(
    alloc: Global,
    _text: &[u8],
    document: Document,
    word: &Run,
) -> Result<WrittenText, NoMemory>
    requires is_text { IsRealizeText _text.now
        (task_of document.task.inputs.items document.task.outputs.items document.task.formula) document.outcome }
    requires breaks { Breaks
        (task_of document.task.inputs.items document.task.outputs.items document.task.formula) document.outcome word.now }
    ensures shows { IfOk result (ShowsWord
        (task_of document.task.inputs.items document.task.outputs.items document.task.formula) document.outcome) }
    ensures confirmed { IfOk result (λ text. IsCheckedAs text checked.Holds) }
{
    let structure = structure_of(alloc, &document.task, word)?;
    structure.keeps();
    let mut text = Vec::new(alloc);
    append_satisfied(&mut text, &problem_of(document), &Model::new(structure, 0))?;
    Ok(WrittenText::new(text))
}
