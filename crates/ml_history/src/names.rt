// What the steps compute of names: the greatest one, those that stand, their new numbers, and the mark.
ghost use Rattle.std.specs.Prelude.{◌≡◌, ℕ, ◌<◌, ◌≤◌, ◌*◌, ◌^◌, ◌&&◌, not, nat_lt, length, slice_index_or, IfOk};
ghost use Rattle.ml_lists.specs.Counting.{count};
ghost use Rattle.ml_lists.specs.Least.{least};
ghost use Rattle.ml_lists.specs.Member.{IsMember};
ghost use Rattle.ml_trace.specs.Stack.{has};
ghost use Rattle.ml_history.specs.HistoryStep.{last_name, mark_of};
ghost use Rattle.ml_history.specs.private.TreeStep.{flagged};

use ml_base::NoMemory;
use ml_trace::Mark;
use std::alloc::Global;

// The last name of the stack, or 0.
pub(crate) fn last_name(stack: &[u32]) -> u32
    ensures { result ≡ last_name stack.now }
{
    match stack {
        [.., last] => *last,
        [] => 0,
    }
}

// A flag for each number below `bound`: whether it is one of the names.
pub(crate) fn flags_of(alloc: Global, names: &[u32], bound: u32) -> Result<Vec<bool>, NoMemory>
    requires { (y : ℕ) → IsMember y names.now → y < bound }
    ensures count { IfOk result (λ flags. length flags.items ≡ bound) }
    ensures flags { IfOk result (λ flags. flagged flags.items ≡ (λ y. has y names.now)) }
{
    let mut flags = vec![in alloc; false; bound as usize]?;
    for name in names {
        flags[*name as usize] = true;
    }
    Ok(flags)
}

// How many flags are set before each.
pub(crate) fn numbers(alloc: Global, flags: &[bool]) -> Result<Vec<u32>, NoMemory>
    requires { length flags.now ≤ 2 ^ 31 }
    ensures count { IfOk result (λ numbers. length numbers.items ≡ length flags.now) }
    ensures numbers { IfOk result (λ numbers. (y : ℕ) → y < length flags.now → slice_index_or numbers.items y 0 ≡ count (flagged flags.now) y) }
{
    let mut numbers = Vec::with_capacity(alloc, flags.len())?;
    let mut below = 0;
    for flag in flags {
        numbers.push(below)?;
        if *flag {
            below += 1;
        }
    }
    Ok(numbers)
}

// How many flags are set.
pub(crate) fn how_many(flags: &[bool]) -> u32
    requires { length flags.now ≤ 2 ^ 31 }
    ensures { result ≡ count (flagged flags.now) (length flags.now) }
{
    let mut many = 0;
    for flag in flags {
        if *flag {
            many += 1;
        }
    }
    many
}

// The least of the `used` names that does not stand.
fn least_red(used: u32, standing: &[bool]) -> Option<u32>
    requires standing { length standing.now ≡ 2 * used }
    requires few { used ≤ 2 ^ 30 }
    ensures { result ≡ least (λ y. nat_lt y used && not (flagged standing.now y)) (2 * used) }
{
    for y in 0..2 * used {
        if y < used && !standing[y as usize] {
            return Some(y);
        }
    }
    None
}

// The least name that is full and stands.
fn least_green(used: u32, full: &[bool], standing: &[bool]) -> Option<u32>
    requires full { length full.now ≡ 2 * used }
    requires standing { length standing.now ≡ 2 * used }
    requires few { used ≤ 2 ^ 30 }
    ensures { result ≡ least (λ y. flagged full.now y && flagged standing.now y) (2 * used) }
{
    for y in 0..2 * used {
        if full[y as usize] && standing[y as usize] {
            return Some(y);
        }
    }
    None
}

// The mark, by the names that are full and those that stand.
pub(crate) fn mark(used: u32, full: &[bool], standing: &[bool]) -> Mark
    requires full { length full.now ≡ 2 * used }
    requires standing { length standing.now ≡ 2 * used }
    requires few { used ≤ 2 ^ 30 }
    ensures { result ≡ mark_of (least (λ y. nat_lt y used && not (flagged standing.now y)) (2 * used)) (least (λ y. flagged full.now y && flagged standing.now y) (2 * used)) }
{
    mark_of(least_red(used, standing), least_green(used, full, standing))
}

// The mark, from the least red name and the least green name.
fn mark_of(red: Option<u32>, green: Option<u32>) -> Mark
    ensures { result ≡ mark_of red green }
{
    match (red, green) {
        (None, None) => Mark::Neutral,
        (None, Some(y)) => Mark::Green(y),
        (Some(x), None) => Mark::Red(x),
        (Some(x), Some(y)) => { if x < y { Mark::Red(x) } else { Mark::Green(y) } }
    }
}
