// What is read in the fields of a game.

ghost use Rattle.std.specs.Prelude.{◌≡◌, ◌<◌, ◌↔◌, All, IsTrue, length};
ghost use Rattle.ml_parity.specs.Game.{moves_of, owner_of, priority_of, size};
ghost use Rattle.ml_parity.specs.Solution.{winner_at};
ghost use Rattle.ml_progress.specs.Measure.{is_bad};

use ml_parity::{Game, Player};

/// Who owns a vertex.
pub(crate) fn owner_at(game: &Game, vertex: usize) -> Player
    requires { vertex < size game.now }
    ensures { result ≡ owner_of game.now vertex }
{
    game.owner[vertex]
}

/// Whether a player owns a vertex.
pub(crate) fn is_owned_by(game: &Game, vertex: usize, player: Player) -> bool
    requires { vertex < size game.now }
    ensures { IsTrue result ↔ (owner_of game.now vertex ≡ player) }
{
    owner_at(game, vertex) == player
}

/// Whether a list of winners names a player at a vertex.
pub(crate) fn is_won_by(winner: &[Player], vertex: usize, player: Player) -> bool
    requires { vertex < length winner.now }
    ensures { IsTrue result ↔ (winner_at winner.now vertex ≡ player) }
{
    winner[vertex] == player
}

/// The priority of a vertex.
pub(crate) fn priority_at(game: &Game, vertex: usize) -> u32
    requires { vertex < size game.now }
    ensures { result ≡ priority_of game.now vertex }
{
    game.priority[vertex]
}

/// The successors of a vertex: there is one, and all are vertices.
pub(crate) fn moves_at(game: &Game, vertex: usize) -> &[u64]
    requires { vertex < size game.now }
    ensures moves { result.now ≡ moves_of game.now vertex }
    ensures goes_on { 0 < length result.now }
    ensures in_range { All (λ w. w < size game.now) result.now }
{
    &game.successors[vertex]
}

/// Whether a lowest priority is bad for a player.
pub(crate) fn is_bad(player: Player, priority: u32) -> bool
    ensures { result ≡ is_bad player priority }
{
    match player {
        Player::Even => priority % 2 == 1,
        Player::Odd => priority % 2 == 0,
    }
}
