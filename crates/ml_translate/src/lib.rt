// Büchi automata from formulas of LTL, for tools that read automata.
//
// `automaton_of_formula` gives an automaton over the sets of the formula's propositions that accepts exactly the word lassos
// that satisfy it, as `specs/Translation.antt` says; `ml_labelled::write`, which is handed on here, gives its text in HOA.
// `laws` says that the places which a limit counts (`specs/Places.antt`) are those of the formula.
//
// Below stand `ml_word_automaton`, whose walks are made without a letter here, and `ml_labelled`, with automata whose edges
// have cubes.
#![tactic(auto)]

mod cube;
mod edges;
mod finding;
mod following;
mod jumping;
pub mod laws;
mod limits;
mod place;
mod propositions;
mod refusal;
mod translating;

pub use limits::MOST_NODES;
pub use ml_labelled::{CubeEdge, LabelledAutomaton, Literal, write};
pub use refusal::TranslateRefusal;
pub use translating::automaton_of_formula;
