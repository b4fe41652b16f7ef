// What the lists of one player's measures look like in a game.

ghost use Rattle.std.specs.Prelude.{◌≡◌, ℕ, IfOk, count_by, length, map, nat_le};
ghost use Rattle.ml_parity.specs.Game.{IsGame, size};
ghost use Rattle.ml_progress.specs.Measure.{bad_priorities, how_many};
ghost use Rattle.ml_progress.specs.private.Scales.{IsScale};

use crate::reading::is_bad;
use ml_base::NoMemory;
use ml_parity::{Game, Player};
use std::alloc::Global;

/// What the lists of one player's measures look like in a game.
#[derive(Drop)]
pub(crate) struct Scale {
    /// Whose measures they are.
    pub(crate) player: Player,
    /// For each bad priority, ascending, how many vertices have it: so large each number may be.
    pub(crate) bounds: Vec<u64>,
    /// For each vertex how many bad priorities are at most its own: so many numbers a move from it looks at.
    pub(crate) cuts: Vec<usize>,
}

/// The bad priorities of a player, ascending.
fn bad_priorities(alloc: Global, game: &Game, player: Player) -> Result<Vec<u32>, NoMemory>
    ensures { IfOk result (λ ks. ks.items ≡ bad_priorities game.now player) }
{
    let mut bad: Vec<u32> = game
        .priority
        .iter()
        .copied()
        .filter(|k| is_bad(player, *k))
        .collect(alloc)?;
    bad.sort_unstable();
    bad.dedup();
    Ok(bad)
}

/// How many vertices have this priority.
fn how_many(game: &Game, priority: u32) -> u64
    ensures { result ≡ how_many game.now priority }
{
    game.priority.iter().filter(|k| **k == priority).count() as u64
}

/// How many of these are at most the priority.
fn count_up_to(priorities: &[u32], priority: u32) -> usize
    ensures { result ≡ count_by (λ k. nat_le k priority) priorities.now }
{
    priorities.iter().filter(|k| **k <= priority).count()
}

/// For each of these priorities how many vertices have it.
fn bounds(alloc: Global, game: &Game, priorities: &[u32]) -> Result<Vec<u64>, NoMemory>
    ensures { IfOk result (λ b. b.items ≡ map (how_many game.now) priorities.now) }
{
    let mut bounds = Vec::with_capacity(alloc, priorities.len())?;
    for priority in priorities {
        bounds.push(how_many(game, *priority))?;
    }
    Ok(bounds)
}

/// For each vertex how many of these are at most its priority.
fn cuts(alloc: Global, vertices: &[u32], priorities: &[u32]) -> Result<Vec<usize>, NoMemory>
    ensures { IfOk result (λ c. c.items ≡ map (λ n. count_by (λ k. nat_le k n) priorities.now) vertices.now) }
{
    let mut cuts = Vec::with_capacity(alloc, vertices.len())?;
    for priority in vertices {
        cuts.push(count_up_to(priorities, *priority))?;
    }
    Ok(cuts)
}

/// What the lists of a player's measures look like.
///
/// Cost: the number of vertices times that of the player's bad priorities.
pub(crate) fn scale_of(alloc: Global, game: &Game, player: Player) -> Result<Scale, NoMemory>
    requires { IsGame game.now }
    ensures player { IfOk result (λ s. s.player ≡ player) }
    ensures scale { IfOk result (λ s. IsScale game.now player s.bounds.items s.cuts.items) }
{
    let bad = bad_priorities(alloc, game, player)?;
    Ok(Scale {
        player,
        bounds: bounds(alloc, game, &bad)?,
        cuts: cuts(alloc, &game.priority, &bad)?,
    })
}
