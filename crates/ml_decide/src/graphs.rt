// The graph of a problem that is decided.
ghost use Rattle.std.specs.Prelude.{IfOk, MatchOption};
ghost use Rattle.ml_front.specs.Graphs.{HasLargeClosure};
ghost use Rattle.ml_front.specs.Logics.{IsWellFormed};
ghost use Rattle.ml_front.specs.declared.problem.TheConstants.{MOST_NODES};
ghost use Rattle.ml_decide.specs.private.Translated.{IsTranslated};

use ml_base::NoMemory;
use ml_front::{MOST_NODES, Problem, graph};
use ml_graph::{ClosureRefusal, ModalGraph};
use std::alloc::Global;

/// The graph of a problem, or `None` where its closure has more nodes than are decided.
pub(crate) fn graph_of(alloc: Global, problem: &Problem) -> Result<Option<ModalGraph>, NoMemory>
    requires well_formed { IsWellFormed problem.now.formula }
    ensures { IfOk result (λ found. MatchOption found (HasLargeClosure problem.now MOST_NODES) (IsTranslated problem.now)) }
{
    match graph(alloc, problem, MOST_NODES) {
        Ok(graph) => Ok(Some(graph)),
        Err(ClosureRefusal::ClosureTooLarge) => Ok(None),
        Err(ClosureRefusal::NoMemory) => Err(NoMemory),
    }
}
