// Refutations from the solution of a decision game.
//
// Where Odd wins the decision game of a graph, the moves of a solution are a refutation of the graph. It is defined as a
// relation (`specs/Extracted.antt`); `refutation_of` gives it, and `laws` has what is true of it.
//
// Below stand `ml_product`, which has the decision game, and `ml_refutation`, which has the rules of acceptance.
#![tactic(auto)]

mod deciding;
mod go_heights;
pub mod laws;
mod lost_game;
mod making;
mod tables;

pub use making::refutation_of;
