// Checking solutions of parity games.
ghost use Rattle.std.specs.Prelude.{IfOk};
ghost use Rattle.ml_driver.specs.CheckedGames as games;
ghost use Rattle.ml_driver.specs.Run.{IsAnswer};
ghost use Rattle.ml_driver.specs.Said.{IsSaid, IsTold, never};

use crate::refusing::game_refused;
use crate::{Command, Output, Said};
use ml_base::NoMemory;
use ml_pgsolver::{SolutionFinding, check_solution};
use std::alloc::Global;

// the answer to `check-game` on the text of a game with a solution behind it
pub(crate) fn check_game(alloc: Global, text: &[u8]) -> Result<Output, NoMemory>
    ensures answer { IfOk result (λ output. IsAnswer Command.CheckGame text.now output.status output.bytes.items) }
    ensures told { IfOk result (λ output. IsTold never output.status output.bytes.items output.said) }
{
    match check_solution(alloc, text) {
        Ok(finding) => finding_said(alloc, finding),
        Err(refusal) => match game_refused(refusal) {
            Some(said) => Output::refused(alloc, said),
            None => Err(NoMemory),
        },
    }
}

// the line for what the check of a solution finds
fn finding_said(alloc: Global, finding: SolutionFinding) -> Result<Output, NoMemory>
    ensures said { IfOk result (λ output. IsSaid (games.finding_said finding) output.status output.bytes.items) }
    ensures told { IfOk result (λ output. IsTold never output.status output.bytes.items output.said) }
{
    match finding {
        SolutionFinding::Accepted => Output::line(alloc, Said::Accepted),
        SolutionFinding::Rejected { id, rule } => {
            Output::line(alloc, Said::RejectedVertex { id, rule })
        }
    }
}
