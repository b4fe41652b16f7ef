// How large the graph of a problem and its decision game are, and who wins it.
ghost use Rattle.std.specs.Prelude.{◌≡◌, ◌≤◌, ◌<◌, length, IfOk};
ghost use Rattle.ml_front.specs.Logics.{IsWellFormed};
ghost use Rattle.ml_decide.specs.Measures.{IsFinding};
ghost use Rattle.ml_decide.specs.private.Findings.{finding_in};
ghost use Rattle.ml_decide.specs.private.Translated.{IsTranslated};

use crate::finding::Finding;
use crate::graphs::graph_of;
use ml_base::NoMemory;
use ml_front::Problem;
use ml_graph::ModalGraph;
use ml_parity::Player;
use ml_search::{SearchRefusal, SolvedGame, solved_game};
use std::alloc::Global;

/// How large the graph of a problem and its decision game are, and whether the problem is satisfiable, by the whole game,
/// which may have as many positions as the limit. No structure is made and no refutation.
///
/// The problem's formula is one that the program holds, as `ml_front::read` makes it, and the limit is 1 or more. What
/// comes back tells all of these, or what came before the limit that was passed.
///
/// # Errors
/// `NoMemory` alone.
///
/// Cost: that of `ml_front::graph` and of `ml_search::solved_game`.
pub fn measure(alloc: Global, problem: &Problem, limit: u32) -> Result<Finding, NoMemory>
    requires well_formed { IsWellFormed problem.now.formula }
    requires some { 1 ≤ limit }
    ensures { IfOk result (IsFinding limit problem.now) }
{
    match graph_of(alloc, problem)? {
        Some(graph) => measured(alloc, problem, &graph, limit),
        None => Ok(Finding::ClosurePassed),
    }
}

// by a graph of the problem
fn measured(
    alloc: Global,
    _problem: &Problem,
    graph: &ModalGraph,
    limit: u32,
) -> Result<Finding, NoMemory>
    requires well_formed { IsWellFormed _problem.now.formula }
    requires translated { IsTranslated _problem.now graph.now }
    requires some { 1 ≤ limit }
    ensures { IfOk result (IsFinding limit _problem.now) }
{
    match solved_game(alloc, graph, limit) {
        Ok(game) => Ok(finding_in(graph, &game)),
        Err(SearchRefusal::Passed) => Ok(Finding::GamePassed {
            nodes: graph.size(),
        }),
        Err(SearchRefusal::NoMemory) => Err(NoMemory),
    }
}

// what is found in a solved game
fn finding_in(graph: &ModalGraph, game: &SolvedGame) -> Finding
    requires { 0 < length game.now.solution.winner }
    ensures { result ≡ finding_in graph.now game.now }
{
    Finding::Decided {
        nodes: graph.size(),
        positions: game.arena.size(),
        satisfiable: matches!(game.winner(), Player::Even),
    }
}
