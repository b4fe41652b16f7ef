// The modal graphs of formulas of CTL* and LTL.
//
// What a graph is says `specs/BlockGraph.antt`, over items of paths (`specs/Items.antt`) and nodes as values
// (`specs/Places.antt`); `laws` has that the checking game on it agrees with the problem's meaning. It stands on `ml_ctl`, for
// formulas and their meaning, on `ml_graph`, for modal graphs and their game, and on `ml_nodes`, which numbers the nodes.
#![tactic(auto)]

mod graph;
mod items;
/// what is proved of rows and meanings
pub mod laws;
mod numbering;
mod rows;
mod spots;
mod table;

pub use graph::{graph_of, ltl_block_graph_of, ltl_graph_of};
