// Parity games solved by tangles and a counted recursion, checked.
//
// Of the engines nothing is claimed but that they end: what they find is checked by `ml_game_check`, and where they give up, or
// the check fails, the proved solver of `ml_parity` decides.
//
// - `solve` answers who wins each vertex, and by which moves.
//
// Below stand `ml_game_check`, for the check, and `ml_parity`, for games and solutions.
#![tactic(auto)]

mod arena;
mod learning;
mod passes;
mod recursion;
mod solving;
mod tangles;

pub use solving::solve;
