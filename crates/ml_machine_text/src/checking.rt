// Documents of machines and environments checked.
ghost use Rattle.std.specs.Prelude.{IfOk};
ghost use Rattle.ml_realize_text.specs.ReadText.{IsRealizeText};
ghost use Rattle.ml_task.specs.Task.{task_of};
ghost use Rattle.ml_machine_text.specs.Found.{IsConfirmed, IsFoundIn};

use crate::finding::MachineFinding;
use crate::showing::shown_word;
use ml_base::{DocRefusal, NoMemory};
use ml_machine_check::{MachineVerdict, check};
use ml_realize_text::{Document, read};
use std::alloc::Global;

// what is found of the machine or the environment of a document
fn check_read(alloc: Global, _text: &[u8], document: Document) -> Result<MachineFinding, NoMemory>
    requires { IsRealizeText _text.now
        (task_of document.task.inputs.items document.task.outputs.items document.task.formula) document.outcome }
    ensures found { IfOk result (IsFoundIn _text.now) }
    ensures confirmed { IfOk result IsConfirmed }
{
    match check(alloc, &document.task, &document.outcome)? {
        MachineVerdict::Holds => Ok(MachineFinding::Holds),
        MachineVerdict::Fails(word) => Ok(MachineFinding::Fails(shown_word(
            alloc, _text, document, &word,
        )?)),
        MachineVerdict::ClosureTooLarge => Ok(MachineFinding::ClosureTooLarge),
    }
}

/// Does the machine of a document realize its task, or the environment defeat it?
///
/// The document is one of a task with a machine or an environment, as `ml_realize_text::write` writes it, of any length.
///
/// - `Holds` exactly where the bytes are such a document, the word automaton isn't too large, and each word of the machine
///   satisfies the task's formula, or none of the environment does;
/// - `Fails` exactly where they are, it isn't, and that isn't so. A word of the machine that doesn't satisfy the formula, or
///   one of the environment that does, is shown by a document of LTL on words with the formula, in the negated sense for a
///   machine and in the plain one for an environment: its structure has a state for each place of the word, in order, with
///   the names of the task that are true there, and an edge to the next place, from the last one to the place to which it
///   leads back. `ml_model_check::check_document` answers it with `Holds`;
/// - `ClosureTooLarge` exactly where they are, and the word automaton of the formula has more than
///   `ml_machine_check::MOST_NODES` nodes: that of the negated formula for a machine, of the formula for an environment;
/// - `Unreadable` exactly where they are none, with the first bad line, counted from 1, and the lowest rule that this line
///   breaks, as `ml_realize_text::read` says.
///
/// # Errors
/// `NoMemory` alone.
///
/// Cost: linear in the bytes, on average, to read them; then that of `ml_machine_check::check`.
pub fn check_document(alloc: Global, text: &[u8]) -> Result<MachineFinding, NoMemory>
    ensures found { IfOk result (IsFoundIn text.now) }
    ensures confirmed { IfOk result IsConfirmed }
{
    match read(alloc, text) {
        Ok(document) => check_read(alloc, text, document),
        Err(DocRefusal::Fault(fault)) => Ok(MachineFinding::Unreadable(fault)),
        Err(DocRefusal::NoMemory) => Err(NoMemory),
    }
}
