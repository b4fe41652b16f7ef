// A search for models and refutations by rounds, of which nothing is claimed. It takes any graph.
//
// `candidate` makes what may be an answer about a graph, a structure or the entries of a refutation; `ml_search` checks it
// before it lets it out. So no clause says what this crate makes: it is proved that it is safe and that it ends.
//
// A sequent has a tree of choices (`trees`), which grows on demand: its leaves clash, wait, or lead on along diamonds. A
// position is a sequent with a history (`positions`); it is linked to leaves of its sequent's tree. On what was made two
// parity games are played (`games`): if Even wins where what waits is lost, a structure is read off (`models`); if Odd wins
// where what waits is won for Even, a refutation (`refutations`).
//
// Below stand graphs (`ml_graph`), sequents (`ml_sequent`), histories (`ml_history`), parity games (`ml_parity`), and
// candidates (`ml_candidates`) with what those for refutations are made of (`ml_refutation`).
#![tactic(auto)]

mod branches;
mod exits;
mod games;
mod models;
mod positions;
mod refutations;
mod rounds;
mod terms;
mod trees;

use crate::rounds::Engine;
use ml_base::NoMemory;
use ml_candidates::Candidate;
use ml_graph::ModalGraph;
use std::alloc::Global;

/// A candidate for an answer; `None` where the engine gives up.
///
/// Cost: a fixed multiple of the limit in nodes of trees and steps of histories.
pub fn candidate(
    alloc: Global,
    graph: &ModalGraph,
    limit: u32,
) -> Result<Option<Candidate>, NoMemory> {
    let mut engine = Engine::new(alloc, graph, limit)?;
    engine.run()
}
