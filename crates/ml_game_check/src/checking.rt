// The check of claims.

ghost use Rattle.std.specs.Prelude.{◌≡◌, IfOk, length};
ghost use Rattle.ml_parity.specs.Game.{size};
ghost use Rattle.ml_game_check.specs.Verdicts.{IsVerdict};

use crate::claims::Claim;
use crate::early::first_early_break;
use crate::fourth::cycle_break;
use crate::verdict::{Rule, Verdict};
use ml_base::NoMemory;
use ml_parity::Game;
use std::alloc::Global;

/// Checks claims about the vertices of a game: are they right, and if not, which vertex's claim breaks which rule?
///
/// There is a place for a claim at each vertex, which may be empty. `Right` comes exactly where no claim breaks a rule. Where
/// one breaks one of the first three rules, the least such vertex is named, with the lowest rule that its claim breaks; else a
/// vertex whose claim breaks the fourth rule, and no matter which.
///
/// # Errors
/// `NoMemory` alone.
///
/// Cost: one pass over the game, and then, for m ways between n vertices of d priorities, about (n + m) log d turns of an
/// engine that halves the priorities, and one pass more, which checks what it found: vertices in a row by which no cycle is
/// bad, or a bad cycle. Only where that fails, which no game is known for, comes a call of `solve` on the game of ways, in
/// which each vertex has one owner and the moves that its claim leaves.
pub fn check(alloc: Global, game: &Game, claims: &[Option<Claim>]) -> Result<Verdict, NoMemory>
    requires { length claims.now ≡ size game.now }
    ensures { IfOk result (IsVerdict game.now claims.now) }
{
    if let Some((vertex, rule)) = first_early_break(game, claims) {
        return Ok(Verdict::Broken { vertex, rule });
    }
    Ok(match cycle_break(alloc, game, claims)? {
        Some(vertex) => Verdict::Broken {
            vertex,
            rule: Rule::NoBadCycle,
        },
        None => Verdict::Right,
    })
}
