// Documents for people: what a document says, as a text that a person reads.
//
// `show_model` writes a structure, as a table of moments where it is a word; `show_machine` and `show_environment` write those
// of a task, with guards in place of sets; `show_refutation` writes a refutation as an argument, step by step;
// `show_undecided` and `show_undecided_task` tell which size passed its limit; `AnswersPage` grows by the answers to a file of
// requirements, each with what shows it. Of these texts nothing is claimed but that they end with LF (`specs/Pages.antt`): what
// is true is said by the documents themselves, which other commands check.
//
// Below stand the problems (`ml_front`), structures (`ml_kripke`), refutations (`ml_refutation`) and machines (`ml_synthesis`,
// `ml_task`) that are shown; above stands the program.
#![tactic(auto)]

mod answers;
mod blocks;
mod formulas;
mod guards;
mod machines;
mod models;
mod names;
mod page;
mod problems;
mod refutations;
mod rounds;
mod sayings;
mod steps;
mod structures;
mod telling;
mod undecided;
mod wordings;
mod words;

pub use answers::AnswersPage;
pub use machines::{show_environment, show_machine};
pub use models::show_model;
pub use refutations::show_refutation;
pub use undecided::{Cause, show_undecided, show_undecided_task};
