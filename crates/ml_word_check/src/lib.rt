// LTL checked along single words: does a problem hold at a state from which one path goes?
//
// In a structure in which each state has exactly one edge by `_`, one path goes from each state: the states along these edges,
// and then round a loop for ever. `holds` gathers the edges, walks along them, and computes the truth of each subformula at
// each place, operands first. So it is linear in the structure, and in the places of the path times the occurrences of the
// formula.
//
// What a problem asks stands in `ml_word_graph/specs/Problem.antt`. Below stand that crate, `ml_ltl`, for formulas and their
// meaning, and `ml_kripke`, for structures.
#![tactic(auto)]

mod cycles;
mod holding;
mod refusal;
mod steps;
mod truths;
mod word;

pub use holding::holds;
pub use refusal::WordRefusal;
