// Paths of documents.
ghost use Rattle.std.specs.Prelude.{◌≡◌, IfOk, Some};
ghost use Rattle.ml_driver.specs.Confirmed.{IsConfirmed};
ghost use Rattle.ml_driver.specs.Paths.{path_told};
ghost use Rattle.ml_driver.specs.Run.{IsAnswer};
ghost use Rattle.ml_driver.specs.Said.{IsTold, is_yes};

use crate::{Command, Output, Said, Size, Status};
use ml_base::NoMemory;
use ml_path_text::{PathFinding, path_of};
use ml_paths::MOST_NODES;
use std::alloc::Global;

// the graph of the word automaton has too many nodes
const TOO_LARGE: Said = Said::Undecided {
    size: Size::Closure,
    limit: MOST_NODES,
};

// the answer to `path` on a document
pub(crate) fn find_path(alloc: Global, text: &[u8]) -> Result<Output, NoMemory>
    ensures answer { IfOk result (λ output. IsAnswer Command.Path text.now output.status output.bytes.items) }
    ensures confirmed { IfOk result (λ output. IsConfirmed (Some Command.Path) output.status output.bytes.items) }
    ensures told { IfOk result (λ output. IsTold is_yes output.status output.bytes.items output.said) }
{
    let finding = path_of(alloc, text)?;
    path_told(alloc, finding)
}

fn path_told(alloc: Global, finding: PathFinding) -> Result<Output, NoMemory>
    ensures status { IfOk result (λ output. output.status ≡ (path_told finding).0) }
    ensures output { IfOk result (λ output. output.bytes.items ≡ (path_told finding).1) }
    ensures told { IfOk result (λ output. IsTold is_yes output.status output.bytes.items output.said) }
{
    match finding {
        PathFinding::Path(written) => Ok(Output {
            status: Status::Yes,
            bytes: written.into_bytes(),
            said: None,
        }),
        PathFinding::NoPath => Output::line(alloc, Said::NoPath),
        PathFinding::ClosureTooLarge => Output::line(alloc, TOO_LARGE),
        PathFinding::NotTotal(state) => Output::line(alloc, Said::NotTotal(state)),
        PathFinding::NotAWord(state) => Output::line(alloc, Said::NotAWord(state)),
        PathFinding::Unreadable(fault) => Output::line(alloc, Said::RefusedDocument(fault)),
    }
}
