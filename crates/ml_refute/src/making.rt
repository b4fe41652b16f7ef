// Refutations, made of entries that were found.
ghost use Rattle.std.specs.Prelude.{◌≡◌, ◌≤◌, ◌<◌, ◌^◌, ◌-◌, length, map, All, IfOk};
ghost use Rattle.ml_graph.specs.Graph.{size, odd_priorities};
ghost use Rattle.ml_history.specs.HistoryStep.{live};
ghost use Rattle.ml_parity.specs.declared.players.Player.TheVariants.{Odd};
ghost use Rattle.ml_parity.specs.Solution.{IsSolution, winner_at};
ghost use Rattle.ml_parity.specs.OneSided.{AtMost};
ghost use Rattle.ml_parity.specs.Refusal.{lists_of};
ghost use Rattle.ml_product.specs.Arena.{IsArenaOf, game_of};
ghost use Rattle.ml_refutation.specs.Acceptance.{IsAccepted};
ghost use Rattle.ml_refutation.specs.Refutation.{Fits};
ghost use Rattle.ml_refutation.specs.Views.{decision_of, of_parts};
ghost use Rattle.ml_refutation.specs.declared.refutation.TheConstants.{NESTING_LIMIT};
ghost use Rattle.ml_refute.specs.Extracted.{IsRefutationOf};
ghost use Rattle.ml_refute.specs.private.Found.{AreNumbered, position_at};
ghost use Rattle.ml_refute.specs.private.PutTogether.{IsNamesOf, ArePut};
ghost use Rattle.ml_refute.specs.private.Tables.{entries_in};

use crate::deciding::{Decided, vertex_at};
use crate::go_heights::heights_of;
use crate::lost_game::LostGame;
use crate::tables::Tables;
use indexmap::IndexSet;
use ml_base::NoMemory;
use ml_graph::ModalGraph;
use ml_parity::Solution;
use ml_product::Arena;
use ml_refutation::Refutation;
use std::alloc::Global;

/// The refutation that a solution of a graph's decision game makes, where Odd wins it.
///
/// The graph has at most 4,096 nodes, the arena is that of the graph, the solution is one of the arena's game, and Odd wins
/// its vertex 0. The entries are the positions without a choice to which Odd's moves lead, breadth first; each of them
/// decides all sides of or-nodes, up to a clash or to Odd's choice (`specs/Extracted.antt`).
///
/// # Errors
/// `NoMemory` alone.
///
/// Cost: for each branch of a decision that of the local phase there, and then linear in the refutation, but for its
/// heights, which cost what `ml_parity::heights` does.
pub fn refutation_of(
    alloc: Global,
    graph: &ModalGraph,
    arena: &Arena,
    solution: &Solution,
) -> Result<Refutation, NoMemory>
    requires small { size graph.now ≤ NESTING_LIMIT }
    requires arena { IsArenaOf graph.now arena.now }
    requires solution { IsSolution (game_of arena.now) solution.now }
    requires wins { winner_at solution.now.winner 0 ≡ Odd }
    ensures is { IfOk result (λ r. IsRefutationOf
        graph.now
        arena.now
        solution.now
        (of_parts r.names r.sequents r.stacks r.entries)) }
    ensures accepted { IfOk result (λ r. IsAccepted graph.now (of_parts r.names r.sequents r.stacks r.entries)) }
{
    let game = LostGame {
        graph,
        arena,
        solution,
    };
    graph.keeps();
    fit(graph.priorities());
    let _positions = arena.size();
    let found = Decided::of(alloc, &game)?;
    let names = names_of(&game, &found.vertices);
    let heights = heights_of(alloc, names, &found.decisions)?;
    let odds = graph.odd_priorities()?;
    let tables = entries_of(alloc, &game, &odds, found, &heights.rows)?;
    Ok(Refutation::new(names, tables.sequents, tables.stacks, tables.entries))
}

/// What is known of numbers: they fit. Does nothing when called.
fn fit(numbers: &[u32])
    ensures { All Fits numbers.now }
{
    let _first = numbers.first();
}

/// The greatest number of names in use at these vertices.
fn names_of(game: &LostGame, vertices: &IndexSet<u32>) -> u32
    requires { AreNumbered game.now.graph.now game.now.arena.now game.now.solution.now vertices.now.keys }
    ensures { IsNamesOf game.now.graph.now game.now.arena.now vertices.now.keys result }
{
    let mut most = live_at(game, vertex_at(vertices, 0));
    for v in vertices.as_slice() {
        most = most.max(live_at(game, *v));
    }
    most
}

/// The number of names in use at a vertex.
fn live_at(game: &LostGame, v: u32) -> u32
    requires { v < length game.now.arena.now.positions }
    ensures { result ≡ live (position_at game.now.graph.now game.now.arena.now v).history }
{
    game.arena.position(v).history.live()
}

/// The entries of these vertices, with their heights and their decisions, and the lists that they name.
fn entries_of(
    alloc: Global,
    game: &LostGame,
    odds: &[u32],
    found: Decided,
    rows: &[Vec<u64>],
) -> Result<Tables, NoMemory>
    requires odds { odds.now ≡ odd_priorities game.now.graph.now }
    requires numbered { AreNumbered game.now.graph.now game.now.arena.now game.now.solution.now found.vertices.keys }
    requires all { length found.decisions.items ≡ length found.vertices.keys }
    requires a_row_each { length rows.now ≡ length found.vertices.keys }
    requires low { AtMost (2 ^ 32 - 1) (lists_of rows.now) }
    ensures { IfOk result (λ tables. ArePut
        game.now.graph.now
        game.now.arena.now
        found.vertices.keys
        (lists_of rows.now)
        (map decision_of found.decisions.items)
        (entries_in tables)) }
{
    let mut tables = Tables::new(alloc, rows.len())?;
    for decision in found.decisions {
        let e = tables.entries.len();
        let view = game.arena.position(vertex_at(&found.vertices, e));
        tables.push(alloc, odds, view, &rows[e], decision)?;
    }
    Ok(tables)
}
