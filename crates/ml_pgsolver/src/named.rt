// Games whose vertices have ids.
ghost use Rattle.std.specs.Prelude.{◌≡◌};
ghost use Rattle.ml_lists.specs.Ascending.{IsAscending};
ghost use Rattle.ml_parity.specs.Game.{IsGame};
ghost use Rattle.ml_pgsolver.specs.GameText.{HasIds};

use ml_base::IdSet;
use ml_parity::{Game, Player};
use std::marker::Model;

/// A parity game with the id of each vertex: the vertices stand in ascending order of their ids, and there is one.
/// Contracts see the list of the ids, and the game.
#[derive(Drop)]
pub struct Named {
    ids: IdSet,
    game: Game,
}

impl Model for Named {
    ghost use Rattle.ml_pgsolver.specs.GameText.{NamedGame, HasIds};

    ghost Value = { NamedGame };

    ghost view = { λ n. record { ids = n.ids; game = n.game } };

    ghost invariant = { λ n. HasIds n.ids n.game };
}

impl Named {
    /// The game with these ids, of which there is one for each vertex. Takes no memory.
    pub fn new(ids: IdSet, game: Game) -> Named
        requires { HasIds ids game }
        ensures { result ≡ record { ids = ids; game = game } }
    {
        Named { ids, game }
    }

    /// The ids of the vertices, in ascending order; there is one.
    pub fn ids(&self) -> &[u32]
        ensures value { result.now ≡ self.now.ids }
        ensures ascend { IsAscending result.now }
        ensures one_each { HasIds self.now.ids self.now.game }
    {
        self.ids.values()
    }

    // the owners of the vertices; says too that the game is one
    pub(crate) fn owners(&self) -> &[Player]
        ensures value { result.now ≡ self.now.game.owner }
        ensures game { IsGame self.now.game }
    {
        &self.game.owner
    }

    /// The game.
    pub fn game(&self) -> &Game
        ensures { result.now ≡ self.now.game }
    {
        &self.game
    }
}
