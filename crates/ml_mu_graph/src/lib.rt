// The modal graph of a formula of the mu-calculus, and why the checking game on it agrees with the formula's meaning.
//
// Begin with `graph_of`, which makes the graph that `specs/MuGraph.antt` says; the module `laws` has the agreement, and the
// part of it that knows no formulas: why the vertices of a binder are won at a least set of states.
//
// Below stand `ml_mu`, for formulas, and `ml_graph`, for graphs and the checking game.
#![tactic(auto)]

mod binders;
mod graph;
pub mod laws;
mod names;

pub use graph::graph_of;
