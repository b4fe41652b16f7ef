// Kripke structures that a program holds, and their text.
//
// A `Structure` keeps its lists in order and free of repeats, so that equal structures are one value and have one
// text. Begin with `Structure::build`, which takes labels and edges in any order; `Model` is a structure with a state
// to start from, and `write_model` gives its text, the body of a satisfiable document. `laws` says that what a
// structure has determines it, and that a text belongs to one model.
//
// Below stand `ml_base`, whose definition of a structure the meanings of all logics cite, and `ml_lines`; above stand
// the crates that check, extract and read structures.
#![tactic(auto)]

mod ascending;
mod body_rule;
pub mod laws;
mod model;
mod read;
mod read_line;
mod structure;
mod write;

pub use ascending::ascend;
pub use body_rule::BodyRule;
pub use model::Model;
pub use read::read_model;
pub use structure::{Structure, StructureRefusal};
pub use write::{append_model, write_model};
