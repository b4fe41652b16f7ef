// Deciding a problem: by the decision game of its graph, or by a search in the graph.
ghost use Rattle.std.specs.Prelude.{◌≡◌, ◌≤◌, IfOk, OnOk, IsErrOf};
ghost use Rattle.ml_front.specs.Logics.{IsWellFormed};
ghost use Rattle.ml_product.specs.DecisionGame.{HasMoreThan};
ghost use Rattle.ml_search.specs.Found.{IsFound};
ghost use Rattle.ml_search.specs.declared.refusals.SearchRefusal.TheVariants as refusal;
ghost use Rattle.ml_decide.specs.Decision.{IsDecided};
ghost use Rattle.ml_decide.specs.private.Translated.{HasFewBy, IsSmall, IsTranslated};

use crate::cause::Cause;
use crate::graphs::graph_of;
use crate::way::Way;
use ml_base::NoMemory;
use ml_front::{Answer, Problem};
use ml_graph::ModalGraph;
use ml_kripke::Model;
use ml_refutation::Refutation;
use ml_search::{Found, SearchRefusal, by_whole_game, search};
use std::alloc::Global;

/// What a problem is decided to be.
#[derive(Drop)]
pub enum Decision {
    /// It holds at the model's start.
    Satisfiable(Model),
    /// It holds nowhere, as the refutation shows.
    Unsatisfiable(Refutation),
    /// It stays undecided.
    Undecided(Cause),
}

impl Decision {
    ghost use Rattle.std.specs.Prelude.{◌≡◌};
    ghost use Rattle.ml_decide.specs.Decision.{answer_by};

    /// The answer about the problem.
    pub fn answer(&self) -> Answer
        ensures { result ≡ answer_by self.now }
    {
        match self {
            Decision::Satisfiable(_) => Answer::Satisfiable,
            Decision::Unsatisfiable(_) => Answer::Unsatisfiable,
            Decision::Undecided(_) => Answer::Undecided,
        }
    }
}

/// Decides a problem: is there a structure of which its logic speaks, with a state at which the problem holds?
///
/// The problem's formula is one that the program holds, as `ml_front::read` makes it, and the limit, which says how many
/// positions the decision game may have, is 1 or more. What comes back is a structure with a state of it at which the problem
/// holds, and from which each state is reached; or a refutation that is accepted for a graph of the problem, which holds at
/// no state of any structure of which its logic speaks; or the cause for which the problem stays undecided. By the whole
/// game it is undecided exactly where its closure has more than `ml_front::MOST_NODES` nodes or its decision game has more
/// positions than the limit; by a search only there, and always where the closure is too large.
///
/// # Errors
/// `NoMemory` alone.
///
/// Cost: that of `ml_front::graph`, and of `ml_search::by_whole_game` or `ml_search::search`.
pub fn decide(alloc: Global, problem: &Problem, way: Way, limit: u32) -> Result<Decision, NoMemory>
    requires well_formed { IsWellFormed problem.now.formula }
    requires some { 1 ≤ limit }
    ensures { IfOk result (IsDecided way limit problem.now) }
{
    match graph_of(alloc, problem)? {
        Some(graph) => decided(alloc, problem, &graph, way, limit),
        None => Ok(Decision::Undecided(Cause::Closure)),
    }
}

// by what is found in a graph of the problem
fn decided(
    alloc: Global,
    _problem: &Problem,
    graph: &ModalGraph,
    way: Way,
    limit: u32,
) -> Result<Decision, NoMemory>
    requires well_formed { IsWellFormed _problem.now.formula }
    requires translated { IsTranslated _problem.now graph.now }
    requires some { 1 ≤ limit }
    ensures { IfOk result (IsDecided way limit _problem.now) }
{
    match found(alloc, graph, way, limit) {
        Ok(Found::Model(model)) => Ok(Decision::Satisfiable(model)),
        Ok(Found::Refutation(refutation)) => Ok(Decision::Unsatisfiable(refutation)),
        Err(SearchRefusal::Passed) => Ok(Decision::Undecided(Cause::Positions(limit))),
        Err(SearchRefusal::NoMemory) => Err(NoMemory),
    }
}

// what is found in a small graph in this way
fn found(alloc: Global, graph: &ModalGraph, way: Way, limit: u32) -> Result<Found, SearchRefusal>
    requires small { IsSmall graph.now }
    requires some { 1 ≤ limit }
    ensures found { IfOk result (IsFound graph.now) }
    ensures few { OnOk result (HasFewBy way graph.now limit) }
    ensures passed { IsErrOf result refusal.Passed → HasMoreThan graph.now limit }
{
    match way {
        Way::WholeGame => by_whole_game(alloc, graph, limit),
        Way::Search => search(alloc, graph, limit),
    }
}
