// Heights of entries: the longest counts along their go's.
ghost use Rattle.std.specs.Prelude.{◌≡◌, ◌+◌, ◌*◌, ◌^◌, ◌<◌, ◌++◌, length, map, All, IfOk, OnOk};
ghost use Rattle.ml_parity.specs.OneSided.{AreLongest, AtMost, EvenCycleIn, IsOneSided};
ghost use Rattle.ml_refutation.specs.Refutation.{IsMarkOf};
ghost use Rattle.ml_refutation.specs.Views.{decision_of};
ghost use Rattle.ml_trace.specs.Marks.{priority};
ghost use Rattle.ml_refute.specs.Extracted.{arcs_of};
ghost use Rattle.ml_refute.specs.private.PutTogether.{HasMarksOf, arcs_at, go_graph_of};

use ml_base::NoMemory;
use ml_parity::{Arc, Heights, OneSided, heights};
use ml_refutation::Decision;
use ml_trace::Mark;
use std::alloc::Global;

/// Heights of entries with these decisions.
///
/// # Errors
/// `NoMemory` alone.
///
/// Cost: that of `ml_parity::heights` on a graph with an arc for each go.
pub(crate) fn heights_of(
    alloc: Global,
    names: u32,
    decisions: &[Decision],
) -> Result<Heights, NoMemory>
    requires few { 2 * names + 2 < 2 ^ 32 }
    requires marks { All (HasMarksOf names) (map decision_of decisions.now) }
    requires one_sided { IsOneSided (go_graph_of names (map decision_of decisions.now)) }
    requires no_cycle { ¬ (EvenCycleIn (go_graph_of names (map decision_of decisions.now))) }
    ensures longest { IfOk result (AreLongest (go_graph_of names (map decision_of decisions.now))) }
    ensures low { IfOk result (AtMost (length decisions.now)) }
{
    let arcs = arcs_of(alloc, names, decisions)?;
    let graph = OneSided::build(decisions.len() as u64, 2 * names, arcs);
    match heights(alloc, &graph)? {
        Ok(rows) => Ok(rows),
        Err(_) => unreachable!(),
    }
}

/// An arc for each go of the decisions, by the entries and from left to right.
fn arcs_of(alloc: Global, names: u32, decisions: &[Decision]) -> Result<Vec<Arc>, NoMemory>
    requires few { 2 * names + 2 < 2 ^ 32 }
    requires marks { All (HasMarksOf names) (map decision_of decisions.now) }
    ensures { IfOk result (λ arcs. arcs.items ≡ arcs_at (2 * names) 0 (map decision_of decisions.now)) }
{
    let mut arcs = Vec::new(alloc);
    for (entry, decision) in decisions.iter().enumerate() {
        push_arcs(&mut arcs, names, entry as u64, decision)?;
    }
    Ok(arcs)
}

/// Appends an arc for each go of a decision.
fn push_arcs(
    arcs: &mut Vec<Arc>,
    names: u32,
    entry: u64,
    decision: &Decision,
) -> Result<(), NoMemory>
    requires few { 2 * names + 2 < 2 ^ 32 }
    requires marks { HasMarksOf names (decision_of decision.now) }
    ensures { OnOk result (arcs.new.items ≡ arcs.old.items ++ arcs_of (2 * names) entry (decision_of decision.now)) }
{
    match decision {
        Decision::Split { left, right, .. } => {
            push_arcs(arcs, names, entry, left)?;
            push_arcs(arcs, names, entry, right)
        }
        Decision::Clash(_) => Ok(()),
        Decision::Go {
            entry: next,
            mark,
            ..
        } => {
            arcs.push(Arc {
                from: entry,
                priority: priority_of(names, *mark),
                to: u64::from(*next),
            })?;
            Ok(())
        }
    }
}

/// The priority of a mark: neutral has twice the number of names.
fn priority_of(names: u32, mark: Mark) -> u32
    requires few { 2 * names + 2 < 2 ^ 32 }
    requires mark { IsMarkOf names mark }
    ensures { result ≡ priority (2 * names) mark }
{
    match mark {
        Mark::Red(name) => 2 * name,
        Mark::Green(name) => 2 * name + 1,
        Mark::Neutral => 2 * names,
    }
}
