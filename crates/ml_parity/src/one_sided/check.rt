// The test whether numbers are heights.

ghost use Rattle.std.specs.Prelude.{◌↔◌, ◌/◌, ◌<◌, IsTrue, length, get_or, [], All};
ghost use Rattle.ml_parity.specs.Heights.{FallsAlong};
ghost use Rattle.ml_parity.specs.OneSided.{AreHeights, HasShape};
ghost use Rattle.ml_parity.specs.HeightLists.{RowsFall};
ghost use Rattle.ml_parity.specs.Refusal.{lists_of};

use crate::one_sided::answer::Heights;
use crate::one_sided::graph::{Arc, OneSided};

/// Whether numbers are heights of a graph: each vertex has one for each even priority from 0 to the top, and along each
/// arc the heights for the priorities of at most its own don't rise, and that for its own falls.
///
/// Total, and takes no memory. Costs for each arc one step for each even priority of at most its own.
pub fn heights_ok(graph: &OneSided, heights: &Heights) -> bool
    ensures { IsTrue result ↔ AreHeights graph.now heights.now }
{
    has_shape(graph, &heights.rows) && falls_everywhere(graph, &heights.rows)
}

/// Whether each vertex has one number for each even priority from 0 to the top.
fn has_shape(graph: &OneSided, rows: &[Vec<u64>]) -> bool
    ensures { IsTrue result ↔ HasShape graph.now (lists_of rows.now) }
{
    if rows.len() as u64 != graph.size {
        return false;
    }
    let count = graph.top as usize / 2 + 1;
    for row in rows {
        if row.len() != count {
            return false;
        }
    }
    true
}

/// Whether the numbers fall along each arc.
fn falls_everywhere(graph: &OneSided, rows: &[Vec<u64>]) -> bool
    requires { HasShape graph.now (lists_of rows.now) }
    ensures { IsTrue result ↔ All (FallsAlong (lists_of rows.now)) graph.now.arcs }
{
    for arc in &graph.arcs {
        if !row_falls(
            arc.priority,
            &rows[arc.from as usize],
            &rows[arc.to as usize],
        ) {
            return false;
        }
    }
    true
}

/// Whether the numbers fall from one row to another along an arc of this priority.
fn row_falls(priority: u32, from: &[u64], to: &[u64]) -> bool
    requires begins { priority / 2 < length from.now }
    requires ends { priority / 2 < length to.now }
    ensures { IsTrue result ↔ RowsFall priority from.now to.now }
{
    let last = priority as usize / 2;
    for k in 0..last + 1 {
        if from[k] < to[k] {
            return false;
        }
    }
    priority % 2 == 1 || to[last] < from[last]
}
