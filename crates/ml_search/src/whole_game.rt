// The whole decision game of a graph, and what it decides.
ghost use Rattle.std.specs.Prelude.{◌≡◌, ◌≤◌, ◌<◌, length, IfOk, OnOk, IsErrOf};
ghost use Rattle.ml_graph.specs.Graph.{size};
ghost use Rattle.ml_parity.specs.Solution.{IsSolution};
ghost use Rattle.ml_product.specs.Arena.{game_of};
ghost use Rattle.ml_product.specs.DecisionGame.{HasMoreThan};
ghost use Rattle.ml_product.specs.Position.{automaton_states};
ghost use Rattle.ml_refutation.specs.declared.refutation.TheConstants.{NESTING_LIMIT};
ghost use Rattle.ml_trace.specs.declared.letters.TheConstants.{STATE_LIMIT};
ghost use Rattle.ml_search.specs.Found.{IsFound};
ghost use Rattle.ml_search.specs.WholeGame.{IsSolvedGame};
ghost use Rattle.ml_search.specs.declared.refusals.SearchRefusal.TheVariants as refusal;

use crate::found::Found;
use crate::refusals::SearchRefusal;
use ml_base::NoMemory;
use ml_extract::model_of;
use ml_graph::ModalGraph;
use ml_parity::{Player, Solution, solve};
use ml_product::{Arena, ExploreRefusal, explore};
use ml_refute::refutation_of;
use std::alloc::Global;

/// The whole decision game of a graph, with a solution of it.
#[derive(Drop)]
pub struct SolvedGame {
    pub arena: Arena,
    pub solution: Solution,
}

impl SolvedGame {
    ghost use Rattle.std.specs.Prelude.{◌≡◌, ◌<◌, length};
    ghost use Rattle.ml_parity.specs.Solution.{winner_at};

    /// Who wins the first position, as the solution says.
    ///
    /// The solution says something of the first position, as that of a decision game does.
    ///
    /// Cost: constant.
    pub fn winner(&self) -> Player
        requires { 0 < length self.now.solution.winner }
        ensures { result ≡ winner_at self.now.solution.winner 0 }
    {
        self.solution.winner[0]
    }
}

/// The decision game of a graph, solved, if it has at most so many positions.
///
/// The trace automaton of the graph has at most 2^30 states, and the limit is 1 or more.
///
/// # Errors
/// `Passed` exactly where the decision game of the graph has more than `limit` positions. `NoMemory`.
///
/// Cost: that of `ml_product::explore` up to the limit, and of `ml_parity::solve`.
pub fn solved_game(
    alloc: Global,
    graph: &ModalGraph,
    limit: u32,
) -> Result<SolvedGame, SearchRefusal>
    requires fits { automaton_states graph.now ≤ STATE_LIMIT }
    requires some { 1 ≤ limit }
    ensures solved { IfOk result (IsSolvedGame graph.now) }
    ensures within { IfOk result (λ game. length game.arena.positions ≤ limit) }
    ensures not_passed { OnOk result (¬ (HasMoreThan graph.now limit)) }
    ensures passed { IsErrOf result refusal.Passed → HasMoreThan graph.now limit }
{
    match explore(alloc, graph, limit) {
        Ok(arena) => {
            let solution = solution_of(alloc, &arena)?;
            Ok(SolvedGame { arena, solution })
        }
        Err(ExploreRefusal::Passed) => Err(SearchRefusal::Passed),
        Err(ExploreRefusal::NoMemory) => Err(SearchRefusal::NoMemory),
    }
}

/// A solution of the arena's game.
fn solution_of(alloc: Global, arena: &Arena) -> Result<Solution, NoMemory>
    ensures { IfOk result (IsSolution (game_of arena.now)) }
{
    let game = arena.game()?;
    solve(alloc, &game)
}

/// What a solved game shows: a model of the graph, or a refutation of it.
///
/// The graph has at most 4,096 nodes, and the game is its decision game.
///
/// # Errors
/// `NoMemory` alone.
///
/// Cost: that of `ml_extract::model_of` or of `ml_refute::refutation_of`.
pub fn shown(alloc: Global, graph: &ModalGraph, game: &SolvedGame) -> Result<Found, NoMemory>
    requires nodes { size graph.now ≤ NESTING_LIMIT }
    requires solved { IsSolvedGame graph.now game.now }
    ensures { IfOk result (IsFound graph.now) }
{
    graph.keeps();
    match game.winner() {
        Player::Even => {
            let model = model_of(alloc, graph, &game.arena, &game.solution)?;
            Ok(Found::Model(model))
        }
        Player::Odd => {
            let refutation = refutation_of(alloc, graph, &game.arena, &game.solution)?;
            Ok(Found::Refutation(refutation))
        }
    }
}

/// A model of a graph or a refutation of it, by its whole decision game, if this has at most so many positions.
///
/// The graph has at most 4,096 nodes, its trace automaton at most 2^30 states, and the limit is 1 or more.
///
/// # Errors
/// `Passed` exactly where the decision game of the graph has more than `limit` positions. `NoMemory`.
///
/// Cost: that of `solved_game` and of `shown`.
pub fn by_whole_game(alloc: Global, graph: &ModalGraph, limit: u32) -> Result<Found, SearchRefusal>
    requires nodes { size graph.now ≤ NESTING_LIMIT }
    requires fits { automaton_states graph.now ≤ STATE_LIMIT }
    requires some { 1 ≤ limit }
    ensures found { IfOk result (IsFound graph.now) }
    ensures not_passed { OnOk result (¬ (HasMoreThan graph.now limit)) }
    ensures passed { IsErrOf result refusal.Passed → HasMoreThan graph.now limit }
{
    let game = solved_game(alloc, graph, limit)?;
    Ok(shown(alloc, graph, &game)?)
}
