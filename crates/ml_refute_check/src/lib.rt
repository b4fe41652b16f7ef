// The checker of refutations, and why an accepted one can be trusted.
//
// The calls to know:
// - `check` reads a document that answers `unsatisfiable`, and answers whether it is true by the rules of acceptance.
//   What it accepts is true: no structure of which the logic speaks has a state at which the document's problem holds.
// - `check_refutation` checks a refutation against a graph.
// - `migrate` writes a document of either version anew, in version 2.
//
// `laws::accepted_holds_nowhere` is the theorem: a graph for which a refutation is accepted holds at no state of any
// structure. `specs/Documents.antt` says which documents are accepted, rejected and unreadable.
//
// Below stand `ml_refutation`, which has the rules of acceptance, `ml_refutation_text` with their texts, `ml_sequent`
// with the local phase, `ml_front` with problems and heads, and `ml_graph` with the checking game, in whose words it is
// said where a graph holds. No history, no game of the decision and no solver is among them.
#![tactic(auto)]

mod branches;
mod by_node;
mod check_graph;
mod checker;
mod document;
mod finding;
pub mod laws;
mod names;
mod parts;
mod stepping;
mod verdict;

pub use check_graph::check_refutation;
pub use document::{check, migrate};
pub use finding::{Fault, Finding};
pub use verdict::Verdict;
