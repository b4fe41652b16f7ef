// Sets of requirements, by the numbers of their items.
ghost use Rattle.std.specs.Prelude.{ℕ, ◌≡◌, ◌<◌, true, length, replicate, IfOk};
ghost use Rattle.ml_spec.specs.Questions.{is_in};
ghost use Rattle.ml_replies.specs.Meeting as meeting;
ghost use Rattle.ml_replies.specs.Meeting.{beside};

use ml_base::NoMemory;
use std::alloc::Global;

/// All of so many, or none.
pub(crate) fn for_all(alloc: Global, count: usize, taken: bool) -> Result<Vec<bool>, NoMemory>
    ensures { IfOk result (λ all. all.items ≡ replicate count taken) }
{
    let mut all = Vec::with_capacity(alloc, count)?;
    for _ in 0..count {
        all.push(taken)?;
    }
    Ok(all)
}

/// The same without one.
pub(crate) fn left_out(alloc: Global, taken: &[bool], number: usize) -> Result<Vec<bool>, NoMemory>
    requires { number < length taken.now }
    ensures told { IfOk result (λ rest. length rest.items ≡ length taken.now) }
    ensures without { IfOk result (λ rest. is_in rest.items ≡ meeting.without (is_in taken.now) number) }
{
    let mut rest = Vec::from_slice(alloc, taken)?;
    rest[number] = false;
    Ok(rest)
}

/// The same without those of another set.
pub(crate) fn left_beside(
    alloc: Global,
    left: &[bool],
    taken: &[bool],
) -> Result<Vec<bool>, NoMemory>
    requires { length taken.now ≡ length left.now }
    ensures told { IfOk result (λ rest. length rest.items ≡ length left.now) }
    ensures rest { IfOk result (λ rest. is_in rest.items ≡ beside (is_in left.now) (is_in taken.now)) }
{
    let mut rest = Vec::from_slice(alloc, left)?;
    for number in 0..taken.len() {
        if taken[number] {
            rest[number] = false;
        }
    }
    Ok(rest)
}

/// The members of a set that are flagged.
pub(crate) fn flagged_among(
    alloc: Global,
    among: &[bool],
    flags: &[bool],
) -> Result<Vec<bool>, NoMemory>
    requires { length flags.now ≡ length among.now }
    ensures told { IfOk result (λ flagged. length flagged.items ≡ length among.now) }
    ensures among { IfOk result (λ flagged. (k : ℕ) → is_in flagged.items k ≡ true → is_in among.now k ≡ true) }
{
    let mut flagged = Vec::from_slice(alloc, among)?;
    for number in 0..flags.len() {
        if !flags[number] {
            flagged[number] = false;
        }
    }
    Ok(flagged)
}
