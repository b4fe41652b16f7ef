// A search for models and refutations of graphs whose threads aren't weak, of which nothing is claimed.
//
// `candidate` makes what may be an answer; `ml_search` checks it before it lets it out. So no clause says what this crate
// makes: it is proved that it is safe and that it ends.
//
// Where a bad trace can't be told by where it stays (`regions`), the graph is copied: a copy of each node for each number of
// passages of an odd priority that are still allowed (`copying`). The graph of copies is weak, and `ml_search_focus` decides
// it. Its models are models of the graph. Its refutation is projected (`projecting`): entries with the same sequent and the
// same thread in focus are one class, with a tree for each of their decisions (`classes`); where no passage was left, any
// class may do. On these classes a game with names (`naming`, `letters`) is played in parts (`positions`, `games`,
// `playing`): Odd chooses trees and classes. What Odd does where Odd wins is a refutation (`refutations`). Else more passages
// are allowed (`rounds`). Graphs with bad walks without modal steps are left to the search by rounds.
//
// Below stand the search for weak threads (`ml_search_focus`) with the solver of sequents (`ml_sequent_solver`), graphs
// (`ml_graph`), parity games (`ml_parity`), and candidates (`ml_candidates`).
#![tactic(auto)]

mod classes;
mod copying;
mod games;
mod letters;
mod naming;
mod playing;
mod positions;
mod projecting;
mod refutations;
mod regions;
mod rounds;

use crate::rounds::Rounds;
use ml_base::NoMemory;
use ml_candidates::Candidate;
use ml_graph::ModalGraph;
use ml_search_cores::steps_of;
use std::alloc::Global;

/// Of the steps that go with a limit this part is made here; the rest of the time is left to what comes behind.
const SHARE: u64 = 2;

/// A candidate for an answer about a graph whose threads aren't weak, or where the thread of a node splits: it goes to two
/// nodes along one diamond. `None` where the search gives up.
///
/// # Errors
/// `NoMemory` alone.
///
/// Cost: a fixed multiple of the limit in steps of the solver, of projections and of games.
pub fn candidate(
    alloc: Global,
    graph: &ModalGraph,
    splits: Option<u32>,
    limit: u32,
) -> Result<Option<Candidate>, NoMemory> {
    let mut rounds = Rounds::new(alloc, graph, steps_of(limit) / SHARE);
    rounds.run(splits)
}
