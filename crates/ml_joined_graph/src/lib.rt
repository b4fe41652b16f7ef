// One search with many formulas at once.
//
// `search` looks for a structure with a state at which all of some formulas hold, or tells which of them may have none: it puts
// the graphs of the formulas together, with names in common and Ands above, and asks the searches that learn. Nothing is
// claimed of what it finds: who uses it checks a structure formula by formula, and refutes again the formulas that are told.
// So what stands here is the shape of an answer alone (`specs/Findings.antt`): it is proved that all is safe and that it ends.
//
// - `joining` puts graphs together, `totals` finds the part of a graph that asks each state for an edge, which stands once.
// - `searching` asks the searches one after the other.
// - `needs` follows a refutation back from its clashes to the formulas that they need.
//
// Below stand the graphs of all logics (`ml_front`, `ml_mu_graph`, `ml_pdl_graph`, `ml_blocks`, `ml_word_graph`), the searches
// that learn (`ml_search_frames`, `ml_search_focus`, `ml_search_copies`) and candidates (`ml_candidates`). Above stand
// requirements (`ml_ask`).
#![tactic(auto)]

mod conjunct;
mod finding;
mod joining;
mod needs;
mod searching;
mod spread;
mod totals;

pub use conjunct::Conjunct;
pub use finding::JoinedFinding;
pub use searching::search;
