// The least progress measures of both players, and the solution that they tell.

ghost use Rattle.std.specs.Prelude.{◌≡◌, ◌<◌, IfOk, length};
ghost use Rattle.ml_parity.specs.declared.players.Player.TheVariants.{Even, Odd};
ghost use Rattle.ml_parity.specs.Game.{IsGame, size};
ghost use Rattle.ml_parity.specs.Solution.{IsSolution, FirstElsewhere};
ghost use Rattle.ml_progress.specs.Measure.{IsLeastMeasure, measure_at};
ghost use Rattle.ml_progress.specs.Measured.{FirstProgressing, IsTold, list_in, measure_in};
ghost use Rattle.ml_progress.specs.private.Choices.{AreReadOff, IsReadOff};
ghost use Rattle.ml_progress.specs.private.Lifting.{NamesWinners};
ghost use Rattle.ml_progress.specs.private.Sides.{HasChains, HasSide};

use crate::answer::Measured;
use crate::choices::{choices, winners};
use crate::lifting::{Side, side_of};
use crate::predecessors::{Predecessors, predecessors_of};
use crate::table::Table;
use ml_base::NoMemory;
use ml_parity::{Game, Player, Solution, solve};
use std::alloc::Global;

/// The least progress measures of both players.
#[derive(Drop)]
struct Sides {
    even: Side,
    odd: Side,
}

/// The least progress measures of both players, of the vertices that each one wins.
fn sides_of(
    alloc: Global,
    game: &Game,
    predecessors: &Predecessors,
    winner: &[Player],
) -> Result<Sides, NoMemory>
    requires game { IsGame game.now }
    requires chains { HasChains game.now predecessors.now }
    requires winner { NamesWinners game.now winner.now }
    ensures even { IfOk result (λ s. HasSide game.now Even s.even) }
    ensures odd { IfOk result (λ s. HasSide game.now Odd s.odd) }
{
    let even = side_of(alloc, game, predecessors, winner, Player::Even)?;
    let odd = side_of(alloc, game, predecessors, winner, Player::Odd)?;
    Ok(Sides { even, odd })
}

/// The least progress measures of both players.
fn both_sides(alloc: Global, game: &Game) -> Result<Sides, NoMemory>
    requires { IsGame game.now }
    ensures even { IfOk result (λ s. HasSide game.now Even s.even) }
    ensures odd { IfOk result (λ s. HasSide game.now Odd s.odd) }
{
    let predecessors = predecessors_of(alloc, game)?;
    let solved = solve(alloc, game)?;
    sides_of(alloc, game, &predecessors, &solved.winner)
}

/// What a vertex has, as a list of its own.
fn entry(alloc: Global, table: &Table, vertex: usize) -> Result<Option<Vec<u64>>, NoMemory>
    requires { vertex < length table.now.rows }
    ensures { IfOk result (λ e. list_in e ≡ measure_at table.now.rows vertex) }
{
    if table.is_top(vertex) {
        return Ok(None);
    }
    Ok(Some(Vec::from_slice(alloc, table.row(vertex))?))
}

/// What each vertex has, as lists of their own.
fn entries(alloc: Global, size: usize, table: &Table) -> Result<Vec<Option<Vec<u64>>>, NoMemory>
    requires { length table.now.rows ≡ size }
    ensures { IfOk result (λ e. measure_in e.items ≡ table.now.rows) }
{
    let mut entries = Vec::with_capacity(alloc, size)?;
    for vertex in 0..size {
        entries.push(entry(alloc, table, vertex)?)?;
    }
    Ok(entries)
}

/// The solution that the measures tell.
fn solution(alloc: Global, game: &Game, even: &Side, odd: &Side) -> Result<Solution, NoMemory>
    requires game { IsGame game.now }
    requires even { HasSide game.now Even even.now }
    requires odd { HasSide game.now Odd odd.now }
    ensures { IfOk result (λ s. IsReadOff game.now even.now.table.rows odd.now.table.rows s) }
{
    let winner = winners(alloc, game, &even.table)?;
    let choice = choices(alloc, game, even, odd)?;
    Ok(Solution { winner, choice })
}

/// Both measures as lists of their own, and the solution that they tell.
fn read_off(
    alloc: Global,
    game: &Game,
    vertices: usize,
    even: &Side,
    odd: &Side,
) -> Result<Measured, NoMemory>
    requires vertices { vertices ≡ size game.now }
    requires game { IsGame game.now }
    requires even { HasSide game.now Even even.now }
    requires odd { HasSide game.now Odd odd.now }
    ensures { IfOk result (AreReadOff game.now even.now.table.rows odd.now.table.rows) }
{
    let solution = solution(alloc, game, even, odd)?;
    let even = entries(alloc, vertices, &even.table)?;
    let odd = entries(alloc, vertices, &odd.table)?;
    Ok(Measured {
        even,
        odd,
        solution,
    })
}

/// The least progress measures of both players, and the solution that they tell.
///
/// A measure gives a vertex a list with one number for each priority that is bad for the player, the lowest one first, or
/// `None` for the top. The winner of a vertex is the player whose measure isn't the top there. At a vertex whose owner
/// wins it, the choice is the first successor to which the move progresses in the owner's measure; at each other vertex
/// it is the first successor.
///
/// # Errors
/// `NoMemory` alone.
///
/// Cost: that of `solve`, which tells at which vertices a measure begins with the top; memory for a number for each vertex
/// and bad priority. Time is exponential in the number of priorities on some games: a vertex may rise as often as there are
/// lists within the bounds, and its successors are looked at each time that one of them rose. Source: Jurdziński, Small
/// progress measures for solving parity games (2000).
pub fn measures(alloc: Global, game: &Game) -> Result<Measured, NoMemory>
    ensures even { IfOk result (λ m. IsLeastMeasure game.now Even m.even) }
    ensures odd { IfOk result (λ m. IsLeastMeasure game.now Odd m.odd) }
    ensures ok { IfOk result (λ m. IsSolution game.now m.solution) }
    ensures told { IfOk result (IsTold game.now) }
    ensures choices { IfOk result (FirstProgressing game.now) }
    ensures elsewhere { IfOk result (λ m. FirstElsewhere game.now m.solution) }
{
    let size = game.size();
    let sides = both_sides(alloc, game)?;
    read_off(alloc, game, size, &sides.even, &sides.odd)
}
