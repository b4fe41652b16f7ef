// Documents of decisions: what is decided of a problem, as a text that other programs read.
//
// `append_satisfied` writes the document of a problem with a structure, which `ml_model_check` checks; `append_refuted` the one
// with a refutation, which `ml_refute_check` accepts or rejects; `append_undecided` the one with the cause for which a problem
// stays undecided. `write_decision` gives the document of a decision, which is one of these. A `WrittenText` is a text that was
// written, for those who only hand it on.
//
// The document with a structure is `satisfiable_document` of `ml_model_check`, the one with a refutation `document_of` of
// `ml_refute_check`; the undecided one stands in `specs/Documents.antt`.
//
// Below stand decisions (`ml_decide`), heads (`ml_front`), and the texts of structures (`ml_kripke`) and refutations
// (`ml_refutation_text`). Above stand the program, and all that writes such documents: paths, machines that are checked, and
// the answers to questions about requirements.
#![tactic(auto)]

mod writing;
mod written;

pub use writing::{append_refuted, append_satisfied, append_undecided, write_decision};
pub use written::WrittenText;
