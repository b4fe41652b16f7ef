// What can be asked of a refutation without a graph, tested.
ghost use Rattle.std.specs.Prelude.{◌≡◌, ◌<◌, ◌≤◌, ◌+◌, ◌^◌, ℕ, length, map, All, IsTrue};
ghost use Rattle.ml_lists.specs.Ascending.{IsAscending};
ghost use Rattle.ml_refutation.specs.Refutation.{IsRefutation, IsEntry, IsTraced, IsItem, IsStack, IsDecided, IsMarkOf, comes_before, guess_before, nesting, Fits, FitsCause};
ghost use Rattle.ml_refutation.specs.Guesses.{FitsGuess};
ghost use Rattle.ml_refutation.specs.Views.{decision_of, entry_of, item_of};
ghost use Rattle.ml_search.specs.private.Checked.{Rise, state_in};

use ml_refutation::{Decision, Entry, Item, Lists, NESTING_LIMIT};
use ml_sequent::ClashCause;
use ml_trace::Mark;

/// What is known of a number: it fits. Does nothing when called.
fn fits(_number: u32)
    ensures { Fits _number }
{}

/// What is known of numbers: they fit. Does nothing when called.
fn fit(numbers: &[u32])
    ensures { All Fits numbers.now }
{
    let _first = numbers.first();
}

/// What is known of a guess: it fits. Does nothing when called.
fn guess_fits(guess: Option<u32>)
    ensures { FitsGuess guess }
{
    match guess {
        Some(odd) => fits(odd),
        None => {}
    }
}

/// What is known of a cause: its numbers fit. Does nothing when called.
fn cause_fits(cause: ClashCause)
    ensures { FitsCause cause }
{
    match cause {
        ClashCause::False(node) | ClashCause::Cycle(node) => fits(node),
        ClashCause::Pair(positive, negative) => {
            fits(positive);
            fits(negative)
        }
    }
}

/// Is each number below the next one?
fn ascends(numbers: &[u32]) -> bool
    ensures { IsTrue result → IsAscending numbers.now }
{
    for i in 1..numbers.len() {
        if numbers[i - 1] >= numbers[i] {
            return false;
        }
    }
    true
}

/// Is there a name, do they ascend, and are all below the number of names in use?
fn is_stack(live: u32, names: &[u32]) -> bool
    ensures { IsTrue result → IsStack live names.now }
{
    !names.is_empty() && ascends(names) && names.iter().all(|name| *name < live)
}

/// Does an odd priority come behind another one, or behind none?
fn guess_before(guess: Option<u32>, other: Option<u32>) -> bool
    ensures { result ≡ guess_before guess other }
{
    match (guess, other) {
        (None, None) => false,
        (None, Some(_)) => true,
        (Some(_), None) => false,
        (Some(odd), Some(next)) => odd < next,
    }
}

/// Does the first item come before the other one?
fn comes_before(item: &Item, other: &Item) -> bool
    ensures { result ≡ comes_before (state_in item.now) (state_in other.now) }
{
    item.node < other.node || (item.node == other.node && guess_before(item.odd, other.odd))
}

/// Does each item come before the next one?
fn rise(items: &[Item]) -> bool
    ensures { IsTrue result → Rise items.now }
{
    for i in 1..items.len() {
        if !comes_before(&items[i - 1], &items[i]) {
            return false;
        }
    }
    true
}

/// Is the item's stack one of names in use?
fn is_item(live: u32, stacks: &Lists, item: &Item) -> bool
    ensures { IsTrue result → IsItem live (item_of stacks.now item.now) }
{
    fits(item.node);
    guess_fits(item.odd);
    is_stack(live, stacks.at(item.stack))
}

/// Is each item's stack one of names in use?
fn are_items(live: u32, stacks: &Lists, items: &[Item]) -> bool
    ensures { IsTrue result → All (λ a. IsItem live (item_of stacks.now a)) items.now }
{
    for item in items {
        if !is_item(live, stacks, item) {
            return false;
        }
    }
    true
}

/// Are the items what an entry traces?
fn is_traced(names: u32, live: u32, stacks: &Lists, items: &[Item]) -> bool
    ensures { IsTrue result → IsTraced names (record { live = live; items = map (item_of stacks.now) items.now }) }
{
    if live > names {
        return false;
    }
    if rise(items) {
        return are_items(live, stacks, items);
    }
    false
}

/// Is the name of the mark one of so many?
fn is_mark(names: u32, mark: Mark) -> bool
    ensures { IsTrue result → IsMarkOf names mark }
{
    match mark {
        Mark::Red(name) | Mark::Green(name) => name < names,
        Mark::Neutral => true,
    }
}

/// Does each go lead to one of the entries, with one of the names, and are splits nested no deeper than this?
fn is_decided(decision: &Decision, names: u32, entries: usize, depth: u32) -> bool
    ensures decided { IsTrue result → IsDecided names entries (decision_of decision.now) }
    ensures nested { IsTrue result → nesting (decision_of decision.now) ≤ depth }
{
    match decision {
        Decision::Split { node, left, right } => {
            fits(*node);
            if depth == 0 {
                return false;
            }
            if !is_decided(left, names, entries, depth - 1) {
                return false;
            }
            is_decided(right, names, entries, depth - 1)
        }
        Decision::Clash(cause) => {
            cause_fits(*cause);
            true
        }
        Decision::Go {
            diamond,
            entry,
            mark,
        } => {
            fits(*diamond);
            if *entry as usize >= entries {
                return false;
            }
            is_mark(names, *mark)
        }
    }
}

/// Is this an entry of a refutation with so many names and entries?
fn is_entry(names: u32, entries: usize, sequents: &Lists, stacks: &Lists, entry: &Entry) -> bool
    ensures { IsTrue result → IsEntry names entries (entry_of sequents.now stacks.now entry.now) }
{
    let sequent = sequents.at(entry.sequent);
    fit(sequent);
    fit(&entry.heights);
    ascends(sequent)
        && is_traced(names, entry.live, stacks, &entry.items)
        && entry.heights.len() == names as usize + 1
        && is_decided(&entry.decision, names, entries, NESTING_LIMIT)
}

/// Are these entries of a refutation with so many names and entries?
fn are_entries(
    names: u32,
    count: usize,
    sequents: &Lists,
    stacks: &Lists,
    entries: &[Entry],
) -> bool
    ensures { IsTrue result → All (λ e. IsEntry names count (entry_of sequents.now stacks.now e)) entries.now }
{
    for entry in entries {
        if !is_entry(names, count, sequents, stacks, entry) {
            return false;
        }
    }
    true
}

/// Are these entries, with so many names and the lists that they name, a refutation?
///
/// Cost: linear in the entries, with the lists that they name, each as often as it is named.
pub(crate) fn is_refutation(names: u32, sequents: &Lists, stacks: &Lists, entries: &[Entry]) -> bool
    ensures { IsTrue result → IsRefutation (record {
      names = names;
      entries = map (entry_of sequents.now stacks.now) entries.now;
    }) }
{
    let count = entries.len();
    if count == 0 {
        return false;
    }
    if count > u32::MAX as usize {
        return false;
    }
    are_entries(names, count, sequents, stacks, entries)
}
