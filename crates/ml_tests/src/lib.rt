// Generators of games, graphs and letters, and the tests of parity games, heights, traces and histories.
//
// Tests and measurements take what they try from here. Begin with `Numbers`, numbers that look random and are the same
// in each run; `random_game`, `ladder` and `game_of_rows` give games, `chain`, `random_blocks` and `slow_row` one-sided
// graphs, `random_letter` and `deep_letter` letters of the trace automaton.
//
// Above stands `ml_measure`. Tests of the local phase stand in `ml_game_tests`.
#![tactic(auto)]

pub mod games;
pub mod graphs;
#[cfg(test)]
mod heights_tests;
#[cfg(test)]
mod history_tests;
pub mod letters;
pub mod not_made;
pub mod numbers;
#[cfg(test)]
mod parity_tests;
#[cfg(test)]
mod trace_tests;

pub use games::{game_of_rows, ladder, random_game};
pub use graphs::{chain, random_blocks, slow_row};
pub use letters::{deep_letter, random_letter};
pub use not_made::NotMade;
pub use numbers::Numbers;
