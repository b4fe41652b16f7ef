// Deciding a problem of any logic: is there a structure with a state at which it holds?
//
// The calls to know:
// - `decide` answers with a structure and a state of it at which the problem holds, with a refutation that is accepted for
//   the problem, which then holds nowhere, or with the cause for which the problem stays undecided. Problems are read from
//   texts by `ml_front::read`.
// - `measure` tells how large the problem's graph and its decision game are, and what the answer is, and makes no answer.
// - `laws` says that decisions are exact and agree, that there always is one, and what the limits mean.
//
// `specs/Decision.antt` says what a decision means, `specs/Limits.antt` which problems stay undecided, and
// `specs/Measures.antt` what is measured.
//
// Inside, `graphs` makes the graph of the problem, once, and `ml_search` does the rest: by the whole decision game, or by a
// search first. `proofs/` has the theory of the decision games of problems: that the graphs of a problem have games with
// the same positions, and that each game has an arena or passes the limit.
//
// Below stand problems and their graphs (`ml_front`), and the search and the whole game (`ml_search`), with the crates that
// make models and refutations and say when they are right; above stands the program (`ml_driver`).
#![tactic(auto)]

mod cause;
mod deciding;
mod finding;
mod graphs;
pub mod laws;
mod measuring;
mod way;

pub use cause::Cause;
pub use deciding::{Decision, decide};
pub use finding::Finding;
pub use measuring::measure;
pub use way::Way;
