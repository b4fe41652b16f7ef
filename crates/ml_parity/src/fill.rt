// The last step of the solvers: a move at each vertex, also where the owner does not win.

ghost use Rattle.std.specs.Prelude.{◌≡◌, length};
ghost use Rattle.ml_parity.specs.Game.{size};
ghost use Rattle.ml_parity.specs.private.SinkGame.{FilledBelow};

use crate::games::Game;
use crate::players::Player;

/// The choices, with the first successor at each vertex whose owner does not win it.
pub(crate) fn with_first_moves(game: &Game, winner: &[Player], choice: Vec<u64>) -> Vec<u64>
    requires winners { length winner.now ≡ size game.now }
    requires choices { length choice.items ≡ size game.now }
    ensures { FilledBelow game.now winner.now choice.items result.items (size game.now) }
{
    let mut filled = choice;
    for vertex in 0..winner.len() {
        if game.owner_at(vertex) != winner[vertex] {
            filled[vertex] = game.moves_at(vertex)[0];
        }
    }
    filled
}
