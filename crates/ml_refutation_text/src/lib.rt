// Texts of refutations: the body of an unsatisfiable document, in both versions.
//
// `write` gives the text of a refutation, and `read` the refutation of a text, with the lines at which the parts of its
// entries begin, or the first bad line. In version 1 sequents and stacks stand in full where they are used; in version 2
// each stands in a table, and is named by its place there. `specs/BodyRules.antt` is the format of both: it says which
// texts are those of a refutation, and where a text that is none is refused; `specs/PartLines.antt` says which lines are
// told.
//
// Below stand `ml_refutation`, whose refutations these are, and `ml_lines`.
#![tactic(auto)]

mod body_rule;
mod branches;
mod entries;
mod known;
pub mod laws;
mod lines;
mod lists;
mod reading;
mod rest;
mod rows;
mod table;
mod tables;
mod traces;
mod words;
mod writing;

pub use body_rule::BodyRule;
pub use lines::{EntryLines, Lines};
pub use reading::read;
pub use writing::{append_refutation, write};
