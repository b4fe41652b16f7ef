// The decision game as a program holds it, over shared parts.
ghost use Rattle.std.specs.Prelude.{◌≡◌, ◌<◌, [], length, get_or, map, slice_get, Some, IfOk};
ghost use Rattle.ml_parity.specs.declared.players.Player.TheVariants.{Even};
ghost use Rattle.ml_product.specs.Arena.{game_of};
ghost use Rattle.ml_product.specs.View.{viewed};
ghost use Rattle.ml_product.specs.private.Shared.{IsHeld};
ghost use Rattle.ml_product.specs.private.Pools.{positions_of};
ghost use Rattle.ml_product.specs.private.Recorded.{owner_of, moves_of};
ghost use Rattle.ml_product.specs.private.Exploring.{arena_of};

use crate::gaming::{owners_of, priorities_of, successors_of};
use crate::pool::Pool;
use crate::recorded::Recorded;
use crate::view::View;
use ml_base::NoMemory;
use ml_parity::{Game, Player};
use std::marker::Model;

/// The positions of a decision game, each with its owner and its moves. A move is a vertex of the game that `game` makes.
///
/// Contracts see the three lists (`specs/Arena.antt`). Equal sequents are held once, and so are equal histories.
#[derive(Drop)]
pub struct Arena {
    pool: Pool,
    turns: Vec<Recorded>,
    // the vertices of Lost and of Won
    ends: [u64; 2],
}

impl Model for Arena {
    ghost use Rattle.std.specs.Prelude.{◌≡◌, ◌+◌, [], ◌∷◌, length, map};
    ghost use Rattle.ml_product.specs.Arena as arenas;
    ghost use Rattle.ml_product.specs.private.Shared.{IsHeld};
    ghost use Rattle.ml_product.specs.private.Pools.{positions_of};
    ghost use Rattle.ml_product.specs.private.Recorded.{owner_of, moves_of};

    ghost Value = { arenas.Arena };

    ghost view = { λ a. record {
      positions = positions_of a.pool;
      owners = map owner_of a.turns.items;
      moves = map (moves_of (length (positions_of a.pool))) a.turns.items;
    } };

    ghost invariant = { λ a. record {
      held : IsHeld a.pool.sequents.keys a.pool.histories.keys a.pool.positions (map owner_of a.turns.items)
          (map (moves_of (length (positions_of a.pool))) a.turns.items);
      ends : a.ends ≡ length (positions_of a.pool) ∷ (length (positions_of a.pool) + 1) ∷ [];
    } };
}

impl Arena {
    // the arena of these positions, with what was found at each
    pub(crate) fn of(pool: Pool, turns: Vec<Recorded>) -> Arena
        requires { IsHeld pool.sequents.keys pool.histories.keys pool.positions (map owner_of turns.items)
            (map (moves_of (length (positions_of pool))) turns.items) }
        ensures { result ≡ arena_of pool turns.items }
    {
        let size = pool.len() as u64;
        Arena {
            pool,
            turns,
            ends: [size, size + 1],
        }
    }

    /// How many positions there are. They are the vertices below this number.
    ///
    /// Cost: constant.
    pub fn size(&self) -> u32
        ensures { result ≡ length self.now.positions }
    {
        self.pool.len() as u32
    }

    /// A position.
    ///
    /// Cost: constant; its choice is read when it is asked for.
    pub fn position(&self, v: u32) -> View<'_>
        requires { v < length self.now.positions }
        ensures { slice_get self.now.positions v ≡ Some (viewed result) }
    {
        self.pool.view(v)
    }

    /// The moves of a position: vertices of the game.
    ///
    /// Cost: constant.
    pub fn moves(&self, v: u32) -> &[u64]
        requires { v < length self.now.positions }
        ensures { result.now ≡ get_or self.now.moves v [] }
    {
        self.turns[v as usize].moves(&self.ends)
    }

    /// Who moves at a position.
    ///
    /// Cost: constant.
    pub fn owner(&self, v: u32) -> Player
        requires { v < length self.now.positions }
        ensures { result ≡ get_or self.now.owners v Even }
    {
        self.turns[v as usize].owner()
    }

    /// The parity game: the positions by their places, then Lost and Won.
    ///
    /// # Errors
    /// `NoMemory` alone.
    ///
    /// Cost: linear in the positions and their moves, with a vector for each position.
    pub fn game(&self) -> Result<Game, NoMemory>
        ensures { IfOk result (λ game. game ≡ game_of self.now) }
    {
        let alloc = *self.turns.allocator();
        let size = self.pool.len() as u64;
        let owner = owners_of(alloc, &self.turns)?;
        let priority = priorities_of(alloc, self.pool.positions())?;
        let successors = successors_of(alloc, &self.turns, &self.ends, size)?;
        Ok(Game {
            owner,
            priority,
            successors,
        })
    }
}
