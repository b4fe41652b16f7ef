// Solving parity games from their texts.
ghost use Rattle.std.specs.Prelude.{IfOk};
ghost use Rattle.ml_parity.specs.Solution.{IsSolution};
ghost use Rattle.ml_driver.specs.Games.{IsMadeBy};
ghost use Rattle.ml_driver.specs.Run.{IsAnswer};
ghost use Rattle.ml_driver.specs.Said.{IsTold, is_answered};

use crate::refusing::game_refused;
use crate::{Command, Engine, Output, Status};
use ml_base::NoMemory;
use ml_parity::{Game, Solution, solve};
use ml_pgsolver::{read, write};
use ml_progress::measures;
use std::alloc::Global;

// the answer to `solve-game` on the text of a game
pub(crate) fn solve_game(alloc: Global, engine: Engine, text: &[u8]) -> Result<Output, NoMemory>
    ensures answer { IfOk result (λ output. IsAnswer (Command.SolveGame engine) text.now output.status output.bytes.items) }
    ensures told { IfOk result (λ output. IsTold is_answered output.status output.bytes.items output.said) }
{
    match read(alloc, text) {
        Ok(named) => {
            let solution = solution_by(alloc, engine, named.game())?;
            Ok(Output {
                status: Status::Yes,
                bytes: write(alloc, &named, &solution)?,
                said: None,
            })
        }
        Err(refusal) => match game_refused(refusal) {
            Some(said) => Output::refused(alloc, said),
            None => Err(NoMemory),
        },
    }
}

fn solution_by(alloc: Global, engine: Engine, game: &Game) -> Result<Solution, NoMemory>
    ensures solution { IfOk result (IsSolution game.now) }
    ensures made { IfOk result (IsMadeBy engine game.now) }
{
    match engine {
        Engine::Recursive => solve(alloc, game),
        Engine::Measures => Ok(measures(alloc, game)?.solution),
        Engine::Tangles => ml_tangles::solve(alloc, game),
    }
}
