// Checking a refutation against a graph.
ghost use Rattle.std.specs.Prelude.{IfOk};
ghost use Rattle.ml_refutation.specs.Views.{of_parts};
ghost use Rattle.ml_refute_check.specs.Findings.{IsFinding};

use crate::checker::Checker;
use crate::finding::Finding;
use crate::stepping::KeptBranch;
use ml_base::NoMemory;
use ml_graph::ModalGraph;
use ml_refutation::Refutation;
use std::alloc::Global;

/// Does a refutation break no rule of acceptance in a graph? If it does, its first part that breaks one, with the
/// lowest rule that this part breaks.
///
/// # Errors
/// `NoMemory` alone.
///
/// Cost: one walk over each decision. Where an entry has the sequent of the one before it, its spread isn't made anew, and
/// where both name the same place that is told in constant time. At a split its side's nodes are added to the spread, and
/// taken back; a clash costs what its check costs (`Branch::is_cause`). A `go` costs what is reached from each node at which
/// an item of its entry stands (`Branch::traces_from`), and where it names a node to which no such trace leads, its targets
/// (`Branch::targets`), which are linear in the spread of its branch; neither where the `go` before made them. Its names cost
/// what `keeps_names` does. Calls are nested as deep as splits are.
pub fn check_refutation(
    alloc: Global,
    graph: &ModalGraph,
    refutation: &Refutation,
) -> Result<Finding, NoMemory>
    ensures { IfOk result (IsFinding graph.now
        (of_parts refutation.now.names refutation.now.sequents refutation.now.stacks refutation.now.entries)) }
{
    let checker = Checker::new(alloc, graph, refutation)?;
    let mut branch = KeptBranch::new(alloc, graph, &refutation.sequents)?;
    checker.check_entries(&mut branch)
}
