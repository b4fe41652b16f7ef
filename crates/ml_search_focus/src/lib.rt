// A search for models and refutations of graphs whose threads are weak, with any number of diamonds, of which nothing is
// claimed.
//
// `seek` makes what may be an answer about a graph in which each bad trace stays at last in a part of the graph that no
// good one can stay in, as in those of most of CTL, PDL, the modal mu-calculus and CTL*; `ml_search` checks it before it lets
// it out. So no clause says what this crate makes: it is proved that it is safe and that it ends.
//
// Sequents are numbered (`sequents`). Of each one that is required each thread has to be ended: by a leaf along whose diamonds
// it is ended within fewer steps (`blocking`). What can't be is learned (`ml_search_cores`). Once each thread of each sequent
// to which such leaves lead is ended, they make a model (`models`); a core of the root makes a refutation.
//
// Source: Bradley, SAT-based model checking without unrolling (2011); Goré and Widmann, An optimal on-the-fly tableau-based
// decision procedure for PDL-satisfiability (2009).
//
// Below stand what is learned (`ml_search_cores`) and the solver (`ml_sequent_solver`), graphs (`ml_graph`), and candidates
// (`ml_candidates`).
#![tactic(auto)]

mod blocking;
mod engines;
mod leaves;
mod models;
mod pairs;
mod sequents;
mod trials;

use crate::engines::Engine;
use ml_base::NoMemory;
use ml_graph::ModalGraph;
use std::alloc::Global;
pub use trials::{Sought, Trial};

/// Seeks an answer within so many steps of the solver. `ml_search_cores::steps_of` says how many go with a limit.
///
/// # Errors
/// `NoMemory` alone.
///
/// Cost: at most so many steps to search, and as many to make what may be an answer.
pub fn seek(alloc: Global, graph: &ModalGraph, steps: u64) -> Result<Trial, NoMemory> {
    let mut engine = Engine::empty(alloc, graph, steps);
    engine.run()
}
