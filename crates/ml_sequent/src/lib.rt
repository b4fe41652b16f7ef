// The local phase of the decision: what holds together at one state, and what is left for the next.
//
// A `Sequent` is a set of nodes of a graph that are to hold at a state. Under a `Choice` of sides at or-nodes it comes to a
// `Spread` (`specs/LocalWalk.antt`, `specs/Spread.antt`): all nodes that it leads to locally.
//
// The calls to know:
// - `spread` makes the spread of a sequent under a choice.
// - `clash` says why a spread can't hold, `open_or` where a side is still to be chosen, `diamonds` what leads on.
// - `step` goes on along a diamond, to the next sequent, and tells the local traces.
// - `LocalPhase` has the same calls for many spreads of one graph, and lends them its memory.
// - `Branch` keeps the spread of a sequent while sides are chosen one after the other and taken back, and answers what
//   the others do of it; of a step also its targets alone (`targets`), and its traces from some of the nodes
//   (`traces_from`).
//
// Below stand `ml_graph`, for graphs, and `ml_trace`, whose letters are made of local traces. Above stand the decision
// game, which asks these calls of each position, and the checker of refutations.
#![tactic(auto)]

mod branch;
mod checking;
mod children;
mod choice;
mod clashes;
mod cycles;
mod descent;
mod extending;
mod growing;
pub mod laws;
mod levels;
mod literals;
mod making;
mod notes;
mod parts;
mod phase;
mod questions;
mod reach;
mod sequent;
mod sets;
mod spreads;
mod stepping;
mod taken;
mod tournament;
mod trail;

pub use branch::Branch;
pub use choice::{Choice, Side};
pub use clashes::{ClashCause, clash};
pub use making::{spread, step};
pub use phase::LocalPhase;
pub use questions::{diamonds, open_or};
pub use sequent::Sequent;
pub use spreads::Spread;
