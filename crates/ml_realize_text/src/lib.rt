// The documents of realizability: what a machine or an environment looks like on paper.
//
// `write` gives the document of a task with a machine or an environment, `write_undecided` the one that tells why neither is
// told, and `read` gives the task and the machine or the environment of a document, or its first bad line.
// `specs/RealizeText.antt` has each line. What a document stands for where it is read says `specs/ReadText.antt`, and where
// it is refused `specs/RealizeRules.antt`; `laws` says that each text is of one task and one outcome, or has one first bad
// line, and that what is written is read back.
//
// Below stand `ml_task`, for the lines of the task, and `ml_synthesis`, for machines and environments; above stands the
// program.
#![tactic(auto)]

mod body_lines;
mod cause;
mod environments;
mod head;
pub mod laws;
mod line_rule;
mod lines;
mod machines;
mod read_environment;
mod read_lines;
mod read_machine;
mod reading;
mod realizability;
mod rest;
mod sets;
mod writing;

pub use cause::Cause;
pub use line_rule::LineRule;
pub use reading::{Document, read};
pub use realizability::Realizability;
pub use writing::{write, write_undecided};
