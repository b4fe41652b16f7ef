// The fourth rule: what an engine finds out about it is checked, and where that fails a game is solved.

ghost use Rattle.std.specs.Prelude.{IfOk, MatchOption};
ghost use Rattle.ml_game_check.specs.private.Early.{KeepsEarly};
ghost use Rattle.ml_game_check.specs.private.Fourth.{TellsFour};

use crate::circles::{Circle, bad_on_circle};
use crate::claims::Claim;
use crate::cycles::solved_break;
use crate::looking::{Finding, look};
use crate::sorted::{Row, is_sorted};
use ml_base::NoMemory;
use ml_parity::Game;
use std::alloc::Global;

/// That no claim breaks the fourth rule, if the row is sorted.
fn told_by_row(
    alloc: Global,
    game: &Game,
    claims: &[Option<Claim>],
    row: &Row,
) -> Result<Option<Option<u64>>, NoMemory>
    requires { KeepsEarly game.now claims.now }
    ensures { IfOk result (λ told. MatchOption told (Unit {0}) (TellsFour game.now claims.now)) }
{
    if is_sorted(alloc, game, claims, row)? {
        Ok(Some(None))
    } else {
        Ok(None)
    }
}

/// A vertex whose claim breaks the fourth rule, if the circle has one.
fn told_by_circle(game: &Game, claims: &[Option<Claim>], circle: &Circle) -> Option<Option<u64>>
    requires { KeepsEarly game.now claims.now }
    ensures { MatchOption result (Unit {0}) (TellsFour game.now claims.now) }
{
    match bad_on_circle(game, claims, circle) {
        Some(vertex) => Some(Some(vertex)),
        None => None,
    }
}

/// What the finding tells of the fourth rule, if it passes its check.
fn told_by(
    alloc: Global,
    game: &Game,
    claims: &[Option<Claim>],
    finding: &Finding,
) -> Result<Option<Option<u64>>, NoMemory>
    requires { KeepsEarly game.now claims.now }
    ensures { IfOk result (λ told. MatchOption told (Unit {0}) (TellsFour game.now claims.now)) }
{
    match finding {
        Finding::Sorted(row) => told_by_row(alloc, game, claims, row),
        Finding::Closed(circle) => Ok(told_by_circle(game, claims, circle)),
    }
}

/// What an engine finds out about the fourth rule, if it passes its check.
fn found_break(
    alloc: Global,
    game: &Game,
    claims: &[Option<Claim>],
) -> Result<Option<Option<u64>>, NoMemory>
    requires { KeepsEarly game.now claims.now }
    ensures { IfOk result (λ told. MatchOption told (Unit {0}) (TellsFour game.now claims.now)) }
{
    let finding = look(alloc, game, claims)?;
    told_by(alloc, game, claims, &finding)
}

/// A vertex whose claim breaks the fourth rule, where none breaks one of the first three, if there is one.
pub(crate) fn cycle_break(
    alloc: Global,
    game: &Game,
    claims: &[Option<Claim>],
) -> Result<Option<u64>, NoMemory>
    requires { KeepsEarly game.now claims.now }
    ensures { IfOk result (TellsFour game.now claims.now) }
{
    match found_break(alloc, game, claims)? {
        Some(told) => Ok(told),
        None => solved_break(alloc, game, claims),
    }
}
