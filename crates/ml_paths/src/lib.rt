// Paths of a structure that satisfy a formula of LTL: is there one from a state, and which?
//
// `find` gives a path from a state that satisfies a formula, or its negation, or tells that there is none
// (`specs/Paths.antt`). So it answers what a model checker is asked for: a path that shows what may happen, or one that breaks
// a requirement.
//
// The structure is a system whose letters are the labels of the states that are left, as far as the word automaton of the
// formula knows their propositions; states with the same ones have one letter. `ml_emptiness` finds a lasso of it that the
// automaton accepts. What is shown is the shortest lasso with the same endless sequence of states (`specs/Shortest.antt`).
//
// `run_along` and `run_of` make the structure of a word: a document that shows it is confirmed by whoever checks LTL on words
// (`specs/Runs.antt`).
//
// Below stand `ml_kripke`, for structures; `ml_ltl`, for formulas; `ml_word_automaton` and `ml_emptiness`.
#![tactic(auto)]

mod finding;
mod found;
mod labels;
pub mod laws;
mod letters;
mod runs;
mod shortening;
mod systems;

pub use finding::{MOST_NODES, find};
pub use found::{Found, Path};
pub use runs::{run_along, run_of};
