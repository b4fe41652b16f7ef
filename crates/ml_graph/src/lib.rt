// Modal graphs, and the game that says where a graph holds.
//
// Formulas of all logics become one kind of graph: nodes with priorities, which may lead back to themselves. A
// graph holds at a state of a structure if Even wins a parity game of states and nodes, the checking game
// (`specs/Graph.antt`, `specs/CheckingGame.antt`).
//
// The calls to know:
// - `ModalGraph::build` makes a graph of its lists, and refuses lists that are none.
// - `checking_game` makes the checking game of a graph and a structure, and `holds_at` settles it by `ml_parity::solve`.
// - `ModalGraph::odd_priorities` gives the odd priorities, of which the trace automaton is made.
//
// Below stand `ml_base` and `ml_kripke`, for structures, and `ml_parity`, for games. Above stand the translations of
// the logics, the local phase of the decision, and the checkers.
#![tactic(auto)]

mod at_state;
mod checking;
mod holding;
pub mod laws;
mod modal_graph;
mod node;
mod refusals;

pub use checking::checking_game;
pub use holding::holds_at;
pub use modal_graph::ModalGraph;
pub use node::Node;
pub use refusals::{ClosureRefusal, GraphRefusal};
