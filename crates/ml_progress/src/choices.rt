// Winners and choices, read off the least measures.

ghost use Rattle.std.specs.Prelude.{◌≡◌, ◌<◌, ◌↔◌, IfOk, IsTrue, length};
ghost use Rattle.ml_parity.specs.declared.players.Player.TheVariants.{Even, Odd};
ghost use Rattle.ml_parity.specs.Game.{IsGame, owner_of, size};
ghost use Rattle.ml_progress.specs.Measure.{Progresses};
ghost use Rattle.ml_progress.specs.Measured.{IsFirstProgress};
ghost use Rattle.ml_progress.specs.private.Choices.{AreChoices, AreWinners, IsChoiceFor};
ghost use Rattle.ml_progress.specs.private.Sides.{HasSide, IsSideOf};

use crate::lifting::Side;
use crate::order::comes_before;
use crate::reading::{is_bad, moves_at, owner_at, priority_at};
use crate::table::Table;
use ml_base::NoMemory;
use ml_parity::{Game, Player};
use std::alloc::Global;

/// Whether a move progresses.
fn progresses(game: &Game, side: &Side, from: usize, to: usize) -> bool
    requires game { IsGame game.now }
    requires side { IsSideOf game.now side.now }
    requires from { from < size game.now }
    requires to { to < size game.now }
    ensures { IsTrue result ↔ Progresses game.now side.now.scale.player side.now.table.rows from to }
{
    if side.table.is_top(from) {
        return true;
    }
    if side.table.is_top(to) {
        return false;
    }
    let cut = side.scale.cuts[from];
    let from_cut = &side.table.row(from)[..cut];
    let to_cut = &side.table.row(to)[..cut];
    if is_bad(side.scale.player, priority_at(game, from)) {
        comes_before(to_cut, from_cut)
    } else {
        !comes_before(from_cut, to_cut)
    }
}

/// The first successor to which the move progresses, where the owner has a list.
fn first_progress(game: &Game, side: &Side, vertex: usize) -> u64
    requires game { IsGame game.now }
    requires side { IsSideOf game.now side.now }
    requires vertex { vertex < size game.now }
    requires own { owner_of game.now vertex ≡ side.now.scale.player }
    ensures { IsFirstProgress game.now side.now.scale.player side.now.table.rows vertex result }
{
    for to in moves_at(game, vertex) {
        if progresses(game, side, vertex, *to as usize) {
            return *to;
        }
    }
    unreachable!()
}

/// The choice at a vertex of the player of this side.
fn choice_of(game: &Game, side: &Side, vertex: usize) -> u64
    requires game { IsGame game.now }
    requires side { IsSideOf game.now side.now }
    requires vertex { vertex < size game.now }
    requires own { owner_of game.now vertex ≡ side.now.scale.player }
    ensures { IsChoiceFor game.now side.now.scale.player side.now.table.rows vertex result }
{
    if side.table.is_top(vertex) {
        return moves_at(game, vertex)[0];
    }
    first_progress(game, side, vertex)
}

/// The winner of each vertex: Even, unless Even has the top.
pub(crate) fn winners(alloc: Global, game: &Game, even: &Table) -> Result<Vec<Player>, NoMemory>
    requires { length even.now.rows ≡ size game.now }
    ensures { IfOk result (λ w. AreWinners game.now even.now.rows w.items) }
{
    let size = game.size();
    let mut winners = Vec::with_capacity(alloc, size)?;
    for vertex in 0..size {
        winners.push(if even.is_top(vertex) {
            Player::Odd
        } else {
            Player::Even
        })?;
    }
    Ok(winners)
}

/// The choice at each vertex: where the owner has a list the first successor to which the move progresses, and the first
/// one elsewhere.
pub(crate) fn choices(
    alloc: Global,
    game: &Game,
    even: &Side,
    odd: &Side,
) -> Result<Vec<u64>, NoMemory>
    requires game { IsGame game.now }
    requires even { HasSide game.now Even even.now }
    requires odd { HasSide game.now Odd odd.now }
    ensures { IfOk result (λ c. AreChoices game.now even.now.table.rows odd.now.table.rows c.items) }
{
    let size = game.size();
    let mut choices = Vec::with_capacity(alloc, size)?;
    for vertex in 0..size {
        choices.push(match owner_at(game, vertex) {
            Player::Even => choice_of(game, even, vertex),
            Player::Odd => choice_of(game, odd, vertex),
        })?;
    }
    Ok(choices)
}
