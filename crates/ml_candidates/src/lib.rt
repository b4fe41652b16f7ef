// What a search makes, before it is checked: of it nothing is claimed.
//
// A `Candidate` may be a model of a graph, or the entries of a refutation. `ModelParts` are labels and edges as they are found,
// of which a structure is made. `Tables` are entries with the lists that they name; `heights_of` gives their heights by the
// goes between them, and `join` makes splits of decisions. It is proved that all of this is safe and that it ends;
// `ml_search` checks each candidate before it lets it out.
//
// Below stand graphs (`ml_graph`), structures (`ml_kripke`), refutations (`ml_refutation`), and heights (`ml_parity`). Above
// stand the searches.
#![tactic(auto)]

mod candidates;
mod models;
mod refutations;

pub use candidates::Candidate;
pub use models::ModelParts;
pub use refutations::{Go, Tables, heights_of, join, priority_of};
