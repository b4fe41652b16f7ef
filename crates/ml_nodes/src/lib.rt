// How the modal graph of a formula is put together: what the graphs of the mu-calculus, of PDL and of CTL* have alike.
//
// Begin with `Names`, the names of a graph with their places, with `Draft`, the nodes and priorities that are made one
// occurrence after the other, and with `Lists`, of which a graph is made. `specs/Nodes.antt` says which two nodes an
// occurrence has. A graph whose nodes stand for values is made by a `Numbering`, value after value.
//
// Below stand `ml_graph`, for graphs, and `ml_ctl`, whose formulas have their graphs in two crates. Above stand `ml_mu_graph`,
// `ml_pdl_graph`, `ml_word_graph` and `ml_blocks`.
#![tactic(auto)]

mod draft;
mod lists;
mod names;
mod nodes;
mod numbering;
mod path_names;

pub use draft::Draft;
pub use lists::{Lists, root_of};
pub use names::{Names, add_action, add_proposition};
pub use nodes::{and, constant, lead_to, negative, or, positive};
pub use numbering::{Form, Numbering};
