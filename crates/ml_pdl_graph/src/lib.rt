// The modal graph of a formula of PDL, and why the checking game on it agrees with the formula's meaning.
//
// Begin with `graph_of`, which makes the graph that `specs/PdlGraph.antt` says; the module `laws` has the agreement.
//
// Below stand `ml_pdl`, for formulas and programs, and `ml_graph`, for graphs and the checking game.
#![tactic(auto)]

mod graph;
pub mod laws;
mod names;
mod sizes;

pub use graph::graph_of;
