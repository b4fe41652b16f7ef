// Lassos, made as short as they can be.
ghost use Rattle.std.specs.Prelude.{◌≡◌, ◌↔◌, ◌<◌, ◌≤◌, length, true};
ghost use Rattle.ml_paths.specs.private.Shortening.{IsLeastPeriod, IsLoopCut, IsRolledBack, IsShortened, Repeats};

use crate::found::Path;

// is each state the one that stands so many places before it?
fn repeats(states: &[u32], period: usize) -> bool
    requires { period ≤ length states.now }
    ensures { (result ≡ true) ↔ Repeats states.now period }
{
    states[period..] == states[..states.len() - period]
}

// The least number of states of which these are made, over and over.
fn least_period(states: &[u32]) -> usize
    requires { 0 < length states.now }
    ensures { IsLeastPeriod states.now result }
{
    let len = states.len();
    for period in 1..len {
        if len % period == 0 && repeats(states, period) {
            return period;
        }
    }
    len
}

// A loop that goes several times round a shorter one goes once round it.
fn cut_loop(states: &mut Vec<u32>, loop_start: usize)
    requires { loop_start < length states.old.items }
    ensures { IsLoopCut (record { entries = states.new.items; start = loop_start })
        (record { entries = states.old.items; start = loop_start }) }
{
    let period = least_period(&states[loop_start..]);
    states.truncate(loop_start + period);
}

// While the state before the loop is the last one of the loop, the loop begins one place earlier. Back comes its start.
fn roll_back(states: &mut Vec<u32>, loop_start: usize) -> usize
    requires { loop_start < length states.old.items }
    ensures { IsRolledBack (record { entries = states.new.items; start = result })
        (record { entries = states.old.items; start = loop_start }) }
{
    let mut start = loop_start;
    while start > 0 && states[start - 1] == states[states.len() - 1] {
        states.pop();
        start -= 1;
    }
    start
}

/// The shortest path with the endless sequence of states of this lasso.
///
/// Cost: linear in the states, times the number of divisors of the length of the loop.
pub(crate) fn shortest_path(mut states: Vec<u32>, loop_start: usize) -> Path
    requires { loop_start < length states.items }
    ensures { IsShortened result (record { entries = states.items; start = loop_start }) }
{
    cut_loop(&mut states, loop_start);
    let loop_start = roll_back(&mut states, loop_start);
    Path::new(states, loop_start)
}
