// The moves of a game from behind, in one list: each with the one before it that leads to the same vertex, so that there
// is a chain of moves for each vertex.

ghost use Rattle.std.specs.Prelude.{◌≡◌, ◌<◌, IfOk, OnOk, All, length};
ghost use Rattle.ml_progress.specs.private.Sides.{HasChains};
ghost use Rattle.ml_progress.specs.private.Waits.{AddsMoves, AreChained};

use crate::reading::moves_at;
use ml_base::NoMemory;
use ml_parity::Game;
use std::alloc::Global;

/// A move in a chain.
#[derive(Clone, Copy)]
pub(crate) struct Arrow {
    /// From which vertex it leads.
    pub(crate) source: usize,
    /// The number of the move before it that leads to the same vertex, or 0 if there is none. Moves are counted from 1.
    pub(crate) before: usize,
}

/// For each vertex the chain of the moves to it.
#[derive(Drop)]
pub(crate) struct Predecessors {
    /// For each vertex the number of the last move to it, or 0 if there is none.
    pub(crate) last: Vec<usize>,
    /// All moves.
    pub(crate) arrows: Vec<Arrow>,
}

/// Puts the moves of a vertex into the chains of those to which they lead.
fn add_moves(
    vertex: usize,
    moves: &[u64],
    last: &mut [usize],
    arrows: &mut Vec<Arrow>,
) -> Result<(), NoMemory>
    requires vertex { vertex < length last.old }
    requires moves { All (λ w. w < length last.old) moves.now }
    requires chained { AreChained (length last.old) last.old arrows.old.items }
    ensures { OnOk result (AddsMoves (length last.old) vertex (length moves.now) moves.now
        last.old arrows.old.items last.new arrows.new.items) }
{
    for to in moves {
        let to = *to as usize;
        arrows.push(Arrow {
            source: vertex,
            before: last[to],
        })?;
        last[to] = arrows.len();
    }
    Ok(())
}

/// The chains of all moves.
pub(crate) fn predecessors_of(alloc: Global, game: &Game) -> Result<Predecessors, NoMemory>
    ensures { IfOk result (HasChains game.now) }
{
    let mut last = vec![in alloc; 0; game.size()]?;
    let mut arrows = Vec::new(alloc);
    for vertex in 0..game.size() {
        add_moves(vertex, moves_at(game, vertex), &mut last, &mut arrows)?;
    }
    Ok(Predecessors { last, arrows })
}
