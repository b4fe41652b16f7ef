// Structures checked: whether a problem holds at a state.
//
// `holds` answers it of a problem of any logic and a structure in hand; `first_deadlock` tells alone whether CTL* and LTL
// speak of it. `read_document` reads a document that answers `satisfiable`, and `check_document` answers whether the problem
// of its head holds at the start of the structure of its body. It trusts nothing of who wrote the document: what it answers
// is said of the bytes, by the definitions of heads (`ml_front`), of bodies (`ml_kripke`) and of problems (`ml_front`). Both
// `holds` and `check_document` tell the first state for which the problem's logic doesn't speak of the structure, and check
// no problem whose closure is too large. `ml_decision_text` writes such documents.
//
// Below stand `ml_base`, `ml_lines` (lines and words), `ml_front` (problems and heads), `ml_kripke` (bodies), `ml_mu`
// (formulas and meanings), `ml_word_check` (LTL along single words), `ml_graph` (the checking game) and `ml_parity` (its
// solver); above stands the program.
#![tactic(auto)]

mod check;
mod check_refusal;
mod checked;
mod document;
mod holding;
pub mod laws;

pub use check::check_document;
pub use check_refusal::CheckRefusal;
pub use checked::Checked;
pub use document::{ShownModel, read_document};
pub use holding::{first_deadlock, holds};
