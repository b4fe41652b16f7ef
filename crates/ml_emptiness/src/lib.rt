// Whether a word automaton accepts a word of a finite system, and which one.
//
// A system has states and moves with letters (`specs/Systems.antt`); a Büchi automaton reads the letters. `accepted_lasso`
// gives a lasso of the system with a word that the automaton accepts, or tells that there is none (`specs/Emptiness.antt`).
// Machines, environments and structures are such systems, so whoever checks these with a formula of LTL stands on this call.
//
// The pairs of a state of the system and one of the automaton that are reached together make a one-sided graph, in which an
// accepting transition has the priority 0 and each other one the priority 1. A word is accepted exactly where this graph has
// a cycle of lowest priority 0, and `ml_parity::heights` finds one, or heights that exclude it.
//
// Below stand `ml_trace`, for automata and the words that they accept, and `ml_parity`, for one-sided graphs.
#![tactic(auto)]

mod lassos;
pub mod laws;
mod leaving;
mod pairs;
mod searching;
mod systems;

pub use lassos::SystemLasso;
pub use searching::accepted_lasso;
pub use systems::Move;
