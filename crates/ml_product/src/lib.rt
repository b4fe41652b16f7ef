// The decision game: the tableau of a graph with the histories of its traces, as a parity game, made on demand.
//
// The calls to know:
// - `explore` makes the game of a graph, if it has at most so many positions; `fits` tests what it asks of the graph.
// - An `Arena` is what was made: `size` tells how many positions there are, `position`, `owner` and `moves` tell of one,
//   and `game` makes the parity game. Equal sequents are held once, and so are equal histories. Contracts see the lists
//   (`specs/Arena.antt`), and nothing of the sharing.
//
// `specs/` has the definitions: positions, moves and what is reached (`DecisionGame`), the game as a list (`Arena`), and
// the law that bounds its size (`Bound`, proved in `laws`). `proofs/` has lemmas on positions that are reached and
// on the game of an arena, for the crates above.
//
// Inside, a `Pool` holds the positions so far, `take_turn` does what is to be done at one of them, and `explore` goes
// on until there are no new ones.
//
// Below stand `ml_sequent`, the local phase, `ml_history`, the histories of traces, and `ml_parity`.
#![tactic(auto)]

mod arena;
mod deciding;
mod exploring;
mod following;
mod gaming;
pub mod laws;
mod numbers;
mod pool;
mod recorded;
mod recording;
mod refusals;
mod store;
mod stored;
mod trees;
mod turns;
mod view;

pub use arena::Arena;
pub use exploring::{explore, fits};
pub use refusals::ExploreRefusal;
pub use view::View;
