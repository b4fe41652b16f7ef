// Whether entries are a refutation that is accepted.
ghost use Rattle.std.specs.Prelude.{IfOk, IfSome};
ghost use Rattle.ml_refutation.specs.Acceptance.{IsAccepted};
ghost use Rattle.ml_refutation.specs.Views.{of_parts};

use crate::well_formed::is_refutation;
use ml_base::NoMemory;
use ml_graph::ModalGraph;
use ml_refutation::{Entry, Lists, Refutation};
use ml_refute_check::{Finding, check_refutation};
use std::alloc::Global;

/// The refutation of these entries, if they are one that is accepted.
pub(crate) fn accepted(
    alloc: Global,
    graph: &ModalGraph,
    names: u32,
    sequents: Lists,
    stacks: Lists,
    entries: Vec<Entry>,
) -> Result<Option<Refutation>, NoMemory>
    ensures { IfOk result (λ found. IfSome found (λ r. IsAccepted
        graph.now
        (of_parts r.names r.sequents r.stacks r.entries))) }
{
    if !is_refutation(names, &sequents, &stacks, &entries) {
        return Ok(None);
    }
    let refutation = Refutation::new(names, sequents, stacks, entries);
    match check_refutation(alloc, graph, &refutation)? {
        Finding::Accepted => Ok(Some(refutation)),
        Finding::Rejected(_) => Ok(None),
    }
}
