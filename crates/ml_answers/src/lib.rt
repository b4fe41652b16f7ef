// Documents of answers to the questions of a specification, and their check.
//
// A document has a line for each answer, and behind it what shows it: a structure, or a refutation of some requirements and a
// structure without each of them. `check_answers` reads a specification with a document behind it, and tells whether all
// answers are shown, or the first line that isn't. It trusts nothing of who wrote either. `read_answers` reads both alone.
//
// The lines are those of `specs/Lines.antt`, what is due after what stands in `specs/Due.antt`, which texts are documents in
// `specs/Documents.antt`, and where a text is none in `specs/Rules.antt`. `specs/Checked.antt` says what is found. `laws` says
// that one thing is found of each text, that answers which are found right are true, and that the answers of a specification
// are found right.
//
// Below stand answers as plain values and the check of a structure (`ml_replies`), specifications (`ml_spec`), the texts of
// structures (`ml_kripke`) and of refutations (`ml_refutation_text`), and the check of a refutation (`ml_refute_check`). Above
// stands what writes such documents, and the program.
#![tactic(auto)]

mod answered;
mod check;
mod checking;
mod cut;
mod document;
mod finding;
mod judging;
pub mod laws;
mod line;
mod names;
mod parts;
mod rest;
mod rule;
mod stated;
mod words;

pub use answered::{AnsweredSpecification, AnswersRefusal, has_answers, read_answers};
pub use check::check_answers;
pub use finding::{AnswersFault, AnswersFinding, LONGEST_ANSWERS, LONGEST_SPECIFICATION};
pub use rule::AnswersRule;
pub use stated::Stated;
