// Checking a document.
ghost use Rattle.std.specs.Prelude.{IfOk};
ghost use Rattle.ml_model_check.specs.Checked.{IsCheckedAs, IsDocument};

use crate::check_refusal::CheckRefusal;
use crate::checked::Checked;
use crate::document::{ShownModel, read_document};
use crate::holding::holds;
use ml_base::{DocRefusal, NoMemory};
use std::alloc::Global;

/// Does the problem of a document hold at the start of the document's structure?
///
/// The document answers `satisfiable`: the five lines of its head, in either version, and then the text of a model. It
/// may have any length.
///
/// - `Holds` exactly where the bytes are such a document, and none of the last three answers comes, and its formula,
///   in its sense, holds at the start;
/// - `Fails` exactly where they are, none of these comes, and it doesn't;
/// - `Unreadable` exactly where they are none, with the first bad line, counted from 1, and the lowest rule that this
///   line breaks, as `read_document` says;
/// - `NotTotal` exactly where they are, the formula's logic wants an edge by `_` from each state, and the structure has
///   a state without one, with the least such state;
/// - `NotAWord` exactly where they are, the logic wants exactly one such edge from each state, and the structure has a state
///   with none or more, with the least such state;
/// - `ClosureTooLarge` exactly where they are, the logic speaks of the structure, and the formula, in its sense, has a
///   closure of more than 4,096 nodes.
///
/// # Errors
/// `NoMemory` alone.
///
/// Cost: linear in the bytes to read them, and then that of `holds`.
pub fn check_document(alloc: Global, bytes: &[u8]) -> Result<Checked, NoMemory>
    ensures { IfOk result (IsCheckedAs bytes.now) }
{
    match read_document(alloc, bytes) {
        Ok(shown) => check_shown(alloc, bytes, &shown),
        Err(DocRefusal::Fault(fault)) => Ok(Checked::Unreadable(fault)),
        Err(DocRefusal::NoMemory) => Err(NoMemory),
    }
}

// what is found of what the document shows
fn check_shown(alloc: Global, _bytes: &[u8], shown: &ShownModel) -> Result<Checked, NoMemory>
    requires { IsDocument _bytes.now shown.now.problem shown.now.model.structure shown.now.model.start }
    ensures { IfOk result (IsCheckedAs _bytes.now) }
{
    match holds(
        alloc,
        &shown.problem,
        &shown.model.structure,
        shown.model.start,
    ) {
        Ok(true) => Ok(Checked::Holds),
        Ok(false) => Ok(Checked::Fails),
        Err(CheckRefusal::NotTotal(state)) => Ok(Checked::NotTotal(state)),
        Err(CheckRefusal::NotAWord(state)) => Ok(Checked::NotAWord(state)),
        Err(CheckRefusal::ClosureTooLarge) => Ok(Checked::ClosureTooLarge),
        Err(CheckRefusal::NoMemory) => Err(NoMemory),
    }
}
