// Histories: the determinisation of the trace automaton.
//
// A history maps some states of the trace automaton to stacks of names. A letter takes it to the next one: each
// transition offers the stack of its source to its target, each target takes the best offer, and a name that only
// stands inside stacks is green. The marks of the steps tell which words have an accepting run: that is what the two
// cycle laws say (`laws`).
//
// A reader needs one page: `specs/History` (what a history is) and `specs/HistoryStep` (the step and its mark). All else
// is proof. Two types compute the step, each in a module of its own, and each is proved equal to the definition:
// - `History` (`flat`) holds the stacks in flat arrays, and is the one to use: begin with `History::start`, and then
//   `step`, `stacks`, `live` and `copy`. Histories compare and hash by their arrays.
// - `tree::TreeHistory` holds them as a tree with a vertex for each name, as the literature draws them.
//
// Below: ml_lists (general mathematics), ml_base (want of memory), ml_trace (letters, runs, marks). Above: the decision
// game, whose positions hold a history.
#![tactic(auto)]

pub mod flat;
pub mod laws;
mod names;
pub mod tree;

pub use flat::History;
pub use ml_trace::Mark;
