// The solver: Zielonka's recursion, with its frames on a list.
//
// A part of the game is an initial segment of one row of all vertices (`vertex_order`); an attractor is moved to its end
// (`attractor`, by the moves from behind of `predecessors`), and what is left is a subgame, to be solved first
// (`recursion`). What a player wins of a part, and the opponent can't leave, is that player's dominion.

ghost use Rattle.std.specs.Prelude.{◌≡◌, ℕ, IfOk, length};
ghost use Rattle.ml_parity.specs.Game.{IsGame, size};
ghost use Rattle.ml_parity.specs.Solution.{IsSolution, FirstElsewhere};
ghost use Rattle.ml_parity.specs.private.SolverFrames.{SolvesWhole};

mod attractor;
mod predecessors;
mod recursion;
mod vertex_order;

use crate::fill::with_first_moves;
use crate::games::Game;
use crate::players::Player;
use crate::solutions::Solution;
use attractor::Work;
use ml_base::NoMemory;
use predecessors::{move_counts, predecessors_of};
use recursion::run;
use std::alloc::Global;
use vertex_order::row_of;

/// The winner of each vertex, and choices with which each winner wins.
fn winners_and_choices(alloc: Global, game: &Game) -> Result<(Vec<Player>, Vec<u64>), NoMemory>
    ensures game { IfOk result (λ _. IsGame game.now) }
    ensures winners { IfOk result (λ r. length r.0.items ≡ size game.now) }
    ensures choices { IfOk result (λ r. length r.1.items ≡ size game.now) }
    ensures solves { IfOk result (λ r. SolvesWhole game.now r.0.items r.1.items) }
{
    let size = game.size();
    let predecessors = predecessors_of(alloc, game)?;
    let mut winner = vec![in alloc; Player::Even; size]?;
    let mut work = Work {
        row: row_of(alloc, size)?,
        left: move_counts(alloc, game)?,
        choice: vec![in alloc; 0; size]?,
    };
    run(alloc, game, &predecessors, &mut work, &mut winner)?;
    Ok((winner, work.choice))
}

/// Solves a parity game: who wins each vertex, and by which moves.
///
/// At a vertex whose owner wins it, the choice is the move of a positional strategy with which that player wins from
/// every vertex of that player; at each other vertex it is the first successor.
///
/// # Errors
/// `NoMemory` alone.
///
/// Cost: the turns of Zielonka's recursion, at most 3^(n+1) of them for n vertices, and few in most games. A turn looks at
/// each vertex of its part twice, at the moves from its vertices of lowest priority, and twice at each move to a vertex that
/// it removes. The frames stand on a list, three words each and at most one for each vertex, so memory is linear in the game
/// and the stack doesn't grow. Source: Zielonka, Infinite games on finitely coloured graphs (1998).
pub fn solve(alloc: Global, game: &Game) -> Result<Solution, NoMemory>
    ensures ok { IfOk result (IsSolution game.now) }
    ensures elsewhere { IfOk result (FirstElsewhere game.now) }
{
    let (winner, choice) = winners_and_choices(alloc, game)?;
    let choice = with_first_moves(game, &winner, choice);
    Ok(Solution { winner, choice })
}
