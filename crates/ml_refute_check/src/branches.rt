// What the branches of a decision are asked: of the step along a diamond, and of heights.
ghost use Rattle.std.specs.Prelude.{◌≡◌, ◌↔◌, ◌<◌, ◌/◌, ◌*◌, Bool, Some, length, All, IsTrue};
ghost use Rattle.ml_lists.specs.Ascending.{IsAscending};
ghost use Rattle.ml_lists.specs.Member.{IsMember};
ghost use Rattle.ml_parity.specs.HeightLists.{RowsFall};
ghost use Rattle.ml_trace.specs.Automaton.{Leads};
ghost use Rattle.ml_trace.specs.Marks.{priority};

use crate::parts::has_number;
use ml_trace::Mark;

/// Are all these nodes among the targets, which ascend?
pub(crate) fn leads_within(targets: &[u32], next: &[u32]) -> bool
    requires { IsAscending targets.now }
    ensures { IsTrue result ↔ All (λ m. IsMember m targets.now) next.now }
{
    for node in next {
        if !has_number(targets, *node) {
            return false;
        }
    }
    true
}

/// Whether a local trace of this lowest priority leads from one guess of these odd priorities to another, and if so,
/// whether it accepts.
pub(crate) fn leads(
    odds: &[u32],
    lowest: u32,
    before: Option<u32>,
    behind: Option<u32>,
) -> Option<bool>
    requires { IsAscending odds.now }
    ensures { (accepting : Bool) → Leads odds.now lowest before behind accepting ↔ (result ≡ Some accepting) }
{
    match (before, behind) {
        (None, None) => Some(false),
        (None, Some(odd)) if has_number(odds, odd) => Some(false),
        (Some(odd), Some(other)) if other == odd && odd <= lowest && has_number(odds, odd) => {
            Some(odd == lowest)
        }
        _ => None,
    }
}

/// The priority of a mark, where neutral is above all names.
pub(crate) fn mark_priority(names: u32, mark: Mark) -> u64
    ensures { result ≡ priority (2 * names) mark }
{
    match mark {
        Mark::Red(name) => 2 * u64::from(name),
        Mark::Green(name) => 2 * u64::from(name) + 1,
        Mark::Neutral => 2 * u64::from(names),
    }
}

/// Do heights fall from one entry to another along a step of this priority?
pub(crate) fn heights_fall(priority: u64, from: &[u32], to: &[u32]) -> bool
    requires begins { priority / 2 < length from.now }
    requires ends { priority / 2 < length to.now }
    ensures { IsTrue result ↔ RowsFall priority from.now to.now }
{
    let last = (priority / 2) as usize;
    for k in 0..last + 1 {
        if from[k] < to[k] {
            return false;
        }
    }
    priority % 2 == 1 || to[last] < from[last]
}
