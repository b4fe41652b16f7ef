// A search for models and refutations of graphs whose structures are words, of which nothing is claimed.
//
// `candidate` makes what may be an answer about a graph with one diamond that stands in each sequent, as those of LTL on
// single words are; `ml_search` checks it before it lets it out. So no clause says what this crate makes: it is proved that
// it is safe and that it ends.
//
// A path of sequents grows (`paths`). At its last place the eventuality that waits longest is sought to be ended (`reaching`):
// a query asks for a leaf that ends it within so many steps, and what can't is learned (`ml_search_cores`). A lasso that
// closes is a model (`models`); a core of the root makes a refutation.
//
// Below stand what is learned (`ml_search_cores`) and the solver (`ml_sequent_solver`), graphs (`ml_graph`), and candidates
// (`ml_candidates`).
#![tactic(auto)]

mod engines;
mod models;
mod paths;
mod reaching;

use crate::engines::Engine;
use ml_base::NoMemory;
use ml_candidates::Candidate;
use ml_graph::ModalGraph;
use std::alloc::Global;

/// A candidate for an answer; `None` where the graph isn't one of those, or the search gives up.
///
/// # Errors
/// `NoMemory` alone.
///
/// Cost: a fixed multiple of the limit in steps of the solver.
pub fn candidate(
    alloc: Global,
    graph: &ModalGraph,
    limit: u32,
) -> Result<Option<Candidate>, NoMemory> {
    let mut engine = Engine::empty(alloc, graph, limit);
    engine.run()
}
