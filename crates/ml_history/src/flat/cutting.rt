// Full names, and the stacks that are cut behind them.
ghost use Rattle.std.specs.Prelude.{◌≡◌, ℕ, ◌*◌, ◌<◌, ◌≤◌, ◌==◌, ◌||◌, ◌&&◌, true, false, not, ◌++◌, length, map, IfOk, OnOk};
ghost use Rattle.std.specs.List.{list_any};
ghost use Rattle.ml_lists.specs.Ascending.{IsAscending};
ghost use Rattle.ml_lists.specs.Member.{IsMember};
ghost use Rattle.ml_trace.specs.Stack.{has, ends_in};
ghost use Rattle.ml_history.specs.declared.flat.offers.Offer.{Offer};
ghost use Rattle.ml_history.specs.History.{IsSmallHistory};
ghost use Rattle.ml_history.specs.HistoryOrder.{names_of};
ghost use Rattle.ml_history.specs.HistoryStep.{live, last_name, stands, is_full, through, cut};
ghost use Rattle.ml_history.specs.private.TreeStep.{flagged};
ghost use Rattle.ml_history.specs.private.Keys.{stack_at, offered_by};
ghost use Rattle.ml_history.specs.private.Ways.{AreWays, PassesDown};

use crate::flat::History;
use crate::flat::offers::Offer;
use crate::flat::stacks::Stacks;
use crate::names::{flags_of, last_name};
use ml_base::NoMemory;
use std::alloc::Global;

// Sets the flag of the name.
fn set_flag(name: u32, flags: &mut Vec<bool>)
    requires { name < length flags.old.items }
    ensures count { length flags.new.items ≡ length flags.old.items }
    ensures flags { (y : ℕ) → flagged flags.new.items y ≡ ((name == y) || flagged flags.old.items y) }
{
    flags[name as usize] = true;
}

// Sets the flags of the names of the stack, from its end on. Where one is set already, so are those of all older names.
fn set_flags(stack: &[u32], flags: &mut Vec<bool>)
    requires low { (y : ℕ) → IsMember y stack.now → y < length flags.old.items }
    requires ascend { IsAscending stack.now }
    requires down { PassesDown (flagged flags.old.items) stack.now }
    ensures count { length flags.new.items ≡ length flags.old.items }
    ensures flags { (y : ℕ) → flagged flags.new.items y ≡ (has y stack.now || flagged flags.old.items y) }
{
    let mut rest = stack.len();
    while rest > 0 {
        rest -= 1;
        let name = stack[rest] as usize;
        if flags[name] {
            return;
        }
        flags[name] = true;
    }
}

// The name in which the offered stack ends.
fn end_of(history: &History, offer: &Offer) -> u32
    requires history { IsSmallHistory history.now }
    requires source { offer.now.source < length history.now }
    ensures { result ≡ last_name (offered_by history.now offer.now).stack }
{
    let last = last_name(history.stack(offer.source));
    if offer.accepting {
        history.live() + last
    } else {
        last
    }
}

// Sets the flags of the names of the offered stack, and that of its end.
fn mark_offer(history: &History, offer: &Offer, standing: &mut Vec<bool>, ends: &mut Vec<bool>)
    requires history { IsSmallHistory history.now }
    requires source { offer.now.source < length history.now }
    requires standing { length standing.old.items ≡ 2 * live history.now }
    requires ends { length ends.old.items ≡ 2 * live history.now }
    requires down { PassesDown (flagged standing.old.items) (stack_at history.now offer.now.source) }
    ensures standing_count { length standing.new.items ≡ 2 * live history.now }
    ensures ends_count { length ends.new.items ≡ 2 * live history.now }
    ensures standing { (y : ℕ) → flagged standing.new.items y ≡ (has y (offered_by history.now offer.now).stack || flagged standing.old.items y) }
    ensures ends { (y : ℕ) → flagged ends.new.items y ≡ (ends_in y (offered_by history.now offer.now).stack || flagged ends.old.items y) }
{
    let end = end_of(history, offer);
    set_flags(history.stack(offer.source), standing);
    set_flag(end, standing);
    set_flag(end, ends);
}

// Whether a name is full that stands in offered stacks or doesn't, and ends some or none.
fn is_full(is_standing: bool, is_end: bool) -> bool
    ensures { result ≡ (is_standing && not is_end) }
{
    is_standing && !is_end
}

// A flag for each name of the step: whether it is full.
fn full_of(alloc: Global, standing: &[bool], ends: &[bool]) -> Result<Vec<bool>, NoMemory>
    requires { length ends.now ≡ length standing.now }
    ensures count { IfOk result (λ full. length full.items ≡ length standing.now) }
    ensures flags { IfOk result (λ full. (y : ℕ) → flagged full.items y ≡ (flagged standing.now y && not (flagged ends.now y))) }
{
    let mut full = Vec::with_capacity(alloc, standing.len())?;
    for (y, is_standing) in standing.iter().enumerate() {
        full.push(is_full(*is_standing, ends[y]))?;
    }
    Ok(full)
}

// A flag for each name of the step: whether it is full, as it stands in an offered stack and ends none.
pub(crate) fn full_names(
    alloc: Global,
    history: &History,
    best: &[Offer],
) -> Result<Vec<bool>, NoMemory>
    requires history { IsSmallHistory history.now }
    requires sources { (o : Offer) → IsMember o best.now → o.source < length history.now }
    requires ways { AreWays (map (offered_by history.now) best.now) }
    ensures count { IfOk result (λ full. length full.items ≡ 2 * live history.now) }
    ensures flags { IfOk result (λ full. (y : ℕ) → flagged full.items y ≡ is_full (map (offered_by history.now) best.now) y) }
{
    let bound = 2 * history.live();
    let mut standing = flags_of(alloc, &[], bound)?;
    let mut ends = flags_of(alloc, &[], bound)?;
    for offer in best {
        mark_offer(history, offer, &mut standing, &mut ends);
    }
    full_of(alloc, standing.as_slice(), ends.as_slice())
}

// Appends the stack up to its first full name and with it, or all of it; whether there is such a name.
fn push_through(stack: &[u32], full: &[bool], names: &mut Vec<u32>) -> Result<bool, NoMemory>
    requires { (y : ℕ) → IsMember y stack.now → y < length full.now }
    ensures names { OnOk result (names.new.items ≡ names.old.items ++ through (flagged full.now) stack.now) }
    ensures is_cut { IfOk result (λ is_cut. is_cut ≡ list_any (flagged full.now) stack.now) }
{
    for name in stack {
        names.push(*name)?;
        if full[*name as usize] {
            return Ok(true);
        }
    }
    Ok(false)
}

// The first full name, or the number of flags.
fn first_full(full: &[bool]) -> usize
    ensures below { (y : ℕ) → y < result → flagged full.now y ≡ false }
    ensures here { result < length full.now → flagged full.now result ≡ true }
    ensures fits { result ≤ length full.now }
{
    for (y, is_full) in full.iter().enumerate() {
        if *is_full {
            return y;
        }
    }
    full.len()
}

// The same as `push_through`, where no name below the first one is full: then most stacks stand whole.
fn push_whole_or_through(
    stack: &[u32],
    first: usize,
    full: &[bool],
    names: &mut Vec<u32>,
) -> Result<bool, NoMemory>
    requires low { (y : ℕ) → IsMember y stack.now → y < length full.now }
    requires ascend { IsAscending stack.now }
    requires first { (y : ℕ) → y < first → flagged full.now y ≡ false }
    ensures names { OnOk result (names.new.items ≡ names.old.items ++ through (flagged full.now) stack.now) }
    ensures is_cut { IfOk result (λ is_cut. is_cut ≡ list_any (flagged full.now) stack.now) }
{
    if (last_name(stack) as usize) < first {
        names.extend_from_slice(stack)?;
        return Ok(false);
    }
    push_through(stack, full, names)
}

// Appends what the offered stack is cut to.
fn push_cut(
    history: &History,
    offer: &Offer,
    first: usize,
    full: &[bool],
    names: &mut Vec<u32>,
) -> Result<(), NoMemory>
    requires history { IsSmallHistory history.now }
    requires source { offer.now.source < length history.now }
    requires first { (y : ℕ) → y < first → flagged full.now y ≡ false }
    requires full { length full.now ≡ 2 * live history.now }
    ensures { OnOk result (names.new.items ≡ names.old.items ++ through (flagged full.now) (offered_by history.now offer.now).stack) }
{
    let stack = history.stack(offer.source);
    if push_whole_or_through(stack, first, full, names)? {
        return Ok(());
    }
    if offer.accepting {
        names.push(history.live() + last_name(stack))?;
    }
    Ok(())
}

// The offered stacks, each cut behind its first full name.
pub(crate) fn cut(
    alloc: Global,
    history: &History,
    best: &[Offer],
    full: &[bool],
) -> Result<Stacks, NoMemory>
    requires history { IsSmallHistory history.now }
    requires sources { (o : Offer) → IsMember o best.now → o.source < length history.now }
    requires count { length full.now ≡ 2 * live history.now }
    requires flags { (y : ℕ) → flagged full.now y ≡ is_full (map (offered_by history.now) best.now) y }
    ensures { IfOk result (λ all. all ≡ cut (map (offered_by history.now) best.now)) }
{
    let first = first_full(full);
    let mut states = Vec::with_capacity(alloc, best.len())?;
    let mut starts = Vec::with_capacity(alloc, best.len())?;
    let mut names = Vec::with_capacity(alloc, history.names().len() + best.len())?;
    for offer in best {
        states.push(offer.target)?;
        starts.push(names.len())?;
        push_cut(history, offer, first, full, &mut names)?;
    }
    Ok(Stacks::of(states, starts, names))
}

// A flag for each number below `bound`: whether it is a name of the stacks.
pub(crate) fn standing(alloc: Global, stacks: &Stacks, bound: u32) -> Result<Vec<bool>, NoMemory>
    requires low { (y : ℕ) → IsMember y (names_of stacks.now) → y < bound }
    requires ways { AreWays stacks.now }
    ensures count { IfOk result (λ flags. length flags.items ≡ bound) }
    ensures flags { IfOk result (λ flags. (y : ℕ) → flagged flags.items y ≡ stands stacks.now y) }
{
    let mut flags = flags_of(alloc, &[], bound)?;
    for i in 0..stacks.len() {
        set_flags(stacks.stack(i), &mut flags);
    }
    Ok(flags)
}
