// The exploration of a decision game.
ghost use Rattle.std.specs.Prelude.{◌≡◌, ◌≤◌, ◌<◌, ◌^◌, ◌↔◌, [], IsTrue, IfOk, OnOk, IsErrOf, length, map};
ghost use Rattle.ml_graph.specs.Graph.{IsGraph};
ghost use Rattle.ml_product.specs.Arena as arenas;
ghost use Rattle.ml_product.specs.Position.{automaton_states};
ghost use Rattle.ml_product.specs.DecisionGame.{HasMoreThan};
ghost use Rattle.ml_product.specs.declared.refusals.ExploreRefusal.TheVariants as refusal;
ghost use Rattle.ml_product.specs.private.Pools.{positions_of};
ghost use Rattle.ml_product.specs.private.Exploring.{AreTerms, IsStarted, IsUnderway, AreWaiting, AreTurned};

use crate::arena::Arena;
use crate::deciding::explore_from;
use crate::following::Terms;
use crate::pool::{Fresh, Pool};
use crate::recorded::Recorded;
use crate::recording::Turns;
use crate::refusals::ExploreRefusal;
use crate::trees::Trees;
use ml_base::NoMemory;
use ml_graph::ModalGraph;
use ml_history::History;
use ml_sequent::{Branch, Sequent};
use ml_trace::{AutomatonState, STATE_LIMIT, number};
use std::alloc::Global;

/// Whether the trace automaton of a graph has few enough states for its decision game to be explored: 2^30 at most.
///
/// # Errors
/// `NoMemory` alone.
///
/// Cost: `n log n` in the nodes.
pub fn fits(graph: &ModalGraph) -> Result<bool, NoMemory>
    ensures { IfOk result (λ fits. IsTrue fits ↔ (automaton_states graph.now ≤ 1073741824)) }
{
    let odds = graph.odd_priorities()?;
    let states = (graph.size() as usize).checked_mul(odds.len() + 1);
    Ok(states.is_some_and(|n| n <= STATE_LIMIT as usize))
}

// what is asked of the graph at each position
fn terms_of(graph: &ModalGraph) -> Result<Terms, NoMemory>
    requires { automaton_states graph.now ≤ 2 ^ 30 }
    ensures { IfOk result (AreTerms graph.now) }
{
    let odds = graph.odd_priorities()?;
    let states = graph.size() as usize * (odds.len() + 1);
    Ok(Terms {
        odds,
        neutral: 2 * (states as u32 + 1),
    })
}

// the start alone
fn started(alloc: Global, graph: &ModalGraph, terms: &Terms) -> Result<Pool, NoMemory>
    requires small { automaton_states graph.now ≤ 2 ^ 30 }
    requires terms { AreTerms graph.now terms.now }
    ensures { IfOk result (IsStarted graph.now) }
{
    let node = graph.root();
    let state = number(&AutomatonState { node, odd: None }, &terms.odds);
    let fresh = Fresh {
        sequent: Sequent::of(alloc, &[node])?,
        history: History::start(alloc, state)?,
        priority: terms.neutral,
    };
    let mut pool = Pool::new(alloc);
    pool.intern(fresh)?;
    Ok(pool)
}

// what is done at each position, until there are no new ones
fn turns(
    alloc: Global,
    branch: &mut Branch,
    terms: &Terms,
    pool: &mut Pool,
    limit: u32,
) -> Result<Vec<Recorded>, ExploreRefusal>
    requires is_graph { IsGraph branch.old.graph }
    requires small { automaton_states branch.old.graph ≤ 2 ^ 30 }
    requires terms { AreTerms branch.old.graph terms.now }
    requires underway { IsUnderway branch.old.graph limit pool.old [] }
    requires waiting { AreWaiting branch.old.graph pool.old [] [] }
    ensures turned { IfOk result (λ turns. AreTurned branch.old.graph limit pool.new turns.items) }
    ensures whole { IfOk result (λ turns. length turns.items ≡ length (positions_of pool.new)) }
    ensures passed { IsErrOf result refusal.Passed → HasMoreThan branch.old.graph limit }
{
    let mut turns = Turns::new(alloc);
    let mut trees = Trees::new(alloc);
    let mut v = 0;
    while v < pool.len() {
        explore_from(
            alloc, branch, terms, pool, &mut turns, &mut trees, limit, v as u32,
        )?;
        v += 1;
    }
    Ok(turns.into_vec())
}

// the same, with a branch of the graph
fn turns_in(
    alloc: Global,
    graph: &ModalGraph,
    terms: &Terms,
    pool: &mut Pool,
    limit: u32,
) -> Result<Vec<Recorded>, ExploreRefusal>
    requires is_graph { IsGraph graph.now }
    requires small { automaton_states graph.now ≤ 2 ^ 30 }
    requires terms { AreTerms graph.now terms.now }
    requires underway { IsUnderway graph.now limit pool.old [] }
    requires waiting { AreWaiting graph.now pool.old [] [] }
    ensures turned { IfOk result (λ turns. AreTurned graph.now limit pool.new turns.items) }
    ensures whole { IfOk result (λ turns. length turns.items ≡ length (positions_of pool.new)) }
    ensures passed { IsErrOf result refusal.Passed → HasMoreThan graph.now limit }
{
    let mut branch = Branch::new(alloc, graph)?;
    turns(alloc, &mut branch, terms, pool, limit)
}

/// The decision game of a graph, if it has at most so many positions.
///
/// `limit` is 1 or more, and the trace automaton of the graph has at most 2^30 states, which `fits` tests.
///
/// # Errors
/// `Passed` exactly where the game has more than `limit` positions; `NoMemory`.
///
/// Cost: for each position without a choice its spread, and for each other one the side that is chosen and taken back; for
/// each its clash and its steps (`ml_sequent::Branch`), and for each diamond a step of the history, with a hash of the
/// sequent, of the history and of the position that it leads to.
pub fn explore(alloc: Global, graph: &ModalGraph, limit: u32) -> Result<Arena, ExploreRefusal>
    requires some { 1 ≤ limit }
    requires few_states { automaton_states graph.now ≤ 1073741824 }
    ensures arena { IfOk result (arenas.IsArenaOf graph.now) }
    ensures within { IfOk result (λ arena. length arena.positions ≤ limit) }
    ensures not_passed { OnOk result (¬ (HasMoreThan graph.now limit)) }
    ensures passed { IsErrOf result refusal.Passed → HasMoreThan graph.now limit }
{
    graph.keeps();
    let terms = terms_of(graph)?;
    let mut pool = started(alloc, graph, &terms)?;
    let turns = turns_in(alloc, graph, &terms, &mut pool, limit)?;
    Ok(Arena::of(pool, turns))
}
