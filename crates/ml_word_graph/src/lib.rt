// The modal graph of a formula of LTL that is read on single words, and why the checking game on it agrees with the formula.
//
// In a structure in which each state has exactly one edge by `_`, one path goes from each state. So the next state is unique,
// and each subformula can have nodes of its own: the graph is linear in the formula, where that of `ml_blocks`, for paths
// among many, has sets of formulas as nodes.
//
// Begin with `graph_of`. `specs/Problem.antt` says where a problem holds, `specs/WordGraph.antt` what the graph of a formula
// is, and the module `laws` that they agree.
//
// Below stand `ml_ltl`, for formulas and their meaning, and `ml_graph`, for graphs and the checking game.
#![tactic(auto)]

mod graph;
pub mod laws;
mod layout;
mod reached;

pub use graph::graph_of;
