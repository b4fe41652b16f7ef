// Parity games, and the call that builds them.

ghost use Rattle.std.specs.Prelude.{◌≡◌, ℕ, [], ◌<◌, ◌↔◌, length, MatchOption, IfOk, IsOk, IsErrOf, IsTrue, All, vec_len};
ghost use Rattle.ml_lists.specs.Search.{IsFirst};
ghost use Rattle.ml_parity.specs.Refusal.{IsDeadEnd, HasEntryFrom, LeavesRange, game_of, lists_of};
ghost use Rattle.ml_parity.specs.Game.{IsGame, size, owner_of, priority_of, moves_of};

use crate::players::Player;
use std::marker::Model;
use thiserror::Error;

/// A parity game: for each vertex its owner, its priority and its successors.
///
/// Contracts see the three lists. Vertices are numbered from 0; each has a successor, and all successors are vertices.
#[derive(Debug, Drop)]
pub struct Game {
    /// Who owns each vertex, and so moves there.
    pub owner: Vec<Player>,
    /// The priority of each vertex.
    pub priority: Vec<u32>,
    /// The successors of each vertex.
    pub successors: Vec<Vec<u64>>,
}

impl Model for Game {
    ghost use Rattle.ml_parity.specs.Game.{ParityGame, IsGame};
    ghost use Rattle.ml_parity.specs.Refusal.{game_of};

    ghost Value = { ParityGame };

    ghost view = { λ a. game_of a.owner a.priority a.successors };

    ghost invariant = { λ a. IsGame (game_of a.owner a.priority a.successors) };
}

/// Why lists are no parity game.
#[derive(Clone, Copy, Debug, PartialEq, Eq, Error)]
pub enum GameRefusal {
    /// The least vertex without a successor.
    #[error("vertex {0} has no successor")]
    DeadEnd(u64),
    /// The least vertex with a successor that is no vertex.
    #[error("vertex {0} has a successor that is no vertex")]
    OutOfRange(u64),
    /// There was no memory. `Game::build` takes none, and never says so.
    #[error("out of memory")]
    NoMemory,
}

impl Game {
    /// Builds the game of three lists: for each vertex its owner, its priority and its successors.
    ///
    /// Refuses lists that are no game: `DeadEnd` is the least vertex without a successor; where there is none,
    /// `OutOfRange` is the least vertex with a successor that is no vertex. Takes no memory, so `NoMemory` never comes.
    /// Costs one pass over the vertices, and one over all successors.
    pub fn build(
        owner: Vec<Player>,
        priority: Vec<u32>,
        successors: Vec<Vec<u64>>,
    ) -> Result<Game, GameRefusal>
        requires priorities { vec_len priority ≡ vec_len owner }
        requires lists { vec_len successors ≡ vec_len owner }
        ensures ok { IfOk result (λ g. g ≡ game_of owner priority successors) }
        ensures accepted { IsOk result ↔ IsGame (game_of owner priority successors) }
        ensures dead_end { (v : ℕ) → IsErrOf result (GameRefusal.DeadEnd v)
            ↔ IsFirst (IsDeadEnd (lists_of successors.items)) (vec_len owner) v }
        ensures out_of_range { (v : ℕ) → IsErrOf result (GameRefusal.OutOfRange v)
            ↔ (((w : ℕ) → w < vec_len owner → ¬ (IsDeadEnd (lists_of successors.items) w))
            × IsFirst (LeavesRange (lists_of successors.items) (vec_len owner)) (vec_len owner) v) }
        ensures takes_no_memory { ¬ (IsErrOf result GameRefusal.NoMemory) }
    {
        if let Some(vertex) = first_dead_end(&successors) {
            return Err(GameRefusal::DeadEnd(vertex));
        }
        if let Some(vertex) = first_out_of_range(&successors, owner.len() as u64) {
            return Err(GameRefusal::OutOfRange(vertex));
        }
        Ok(Game {
            owner,
            priority,
            successors,
        })
    }

    /// How many vertices the game has. Says too that it is a game, which its fields keep.
    pub fn size(&self) -> usize
        ensures vertices { result ≡ size self.now }
        ensures game { IsGame self.now }
    {
        self.owner.len()
    }

    /// Who owns a vertex.
    pub(crate) fn owner_at(&self, vertex: usize) -> Player
        requires { vertex < size self.now }
        ensures { result ≡ owner_of self.now vertex }
    {
        self.owner[vertex]
    }

    /// The priority of a vertex.
    pub(crate) fn priority_at(&self, vertex: usize) -> u32
        requires { vertex < size self.now }
        ensures { result ≡ priority_of self.now vertex }
    {
        self.priority[vertex]
    }

    /// The successors of a vertex: there is one, and all are vertices.
    pub(crate) fn moves_at(&self, vertex: usize) -> &[u64]
        requires { vertex < size self.now }
        ensures moves { result.now ≡ moves_of self.now vertex }
        ensures goes_on { 0 < length result.now }
        ensures in_range { All (λ w. w < size self.now) result.now }
    {
        &self.successors[vertex]
    }
}

/// The first vertex without a successor.
fn first_dead_end(successors: &[Vec<u64>]) -> Option<u64>
    ensures { MatchOption
        result
        ((v : ℕ) → v < length successors.now → ¬ (IsDeadEnd (lists_of successors.now) v))
        (IsFirst (IsDeadEnd (lists_of successors.now)) (length successors.now)) }
{
    for (v, moves) in successors.iter().enumerate() {
        if is_dead_end(moves) {
            return Some(v as u64);
        }
    }
    None
}

/// Whether a vertex with these successors is a dead end.
fn is_dead_end(moves: &[u64]) -> bool
    ensures { IsTrue result ↔ (moves.now ≡ []) }
{
    moves.is_empty()
}

/// The first vertex with a successor of `size` or more.
fn first_out_of_range(successors: &[Vec<u64>], size: u64) -> Option<u64>
    ensures { MatchOption
        result
        ((v : ℕ) → v < length successors.now → ¬ (LeavesRange (lists_of successors.now) size v))
        (IsFirst (LeavesRange (lists_of successors.now) size) (length successors.now)) }
{
    for (vertex, moves) in successors.iter().enumerate() {
        if has_entry_from(moves, size) {
            return Some(vertex as u64);
        }
    }
    None
}

/// Whether some entry is `bound` or more.
fn has_entry_from(entries: &[u64], bound: u64) -> bool
    ensures { IsTrue result ↔ HasEntryFrom bound entries.now }
{
    entries.iter().any(|w| *w >= bound)
}
