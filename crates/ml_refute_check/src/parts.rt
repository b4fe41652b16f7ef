// What the parts of an entry before its decision are asked: its sequent, its names in use and its items. So are lists of
// nodes and of odd priorities, which ascend, whether they have those of an item.
ghost use Rattle.std.specs.Prelude.{◌≡◌, ◌↔◌, ◌<◌, ◌≤◌, ◌||◌, false, true, ℕ, [], ◌∷◌, length, map, slice_index_or, All, IfOk, IsTrue};
ghost use Rattle.ml_graph.specs.Graph.{size};
ghost use Rattle.ml_lists.specs.Ascending.{IsAscending};
ghost use Rattle.ml_lists.specs.Member.{IsMember};
ghost use Rattle.ml_refutation.specs.Views.{item_of};
ghost use Rattle.ml_refute_check.specs.private.Sources.{StandAmong};
ghost use Rattle.ml_trace.specs.Automaton.{IsGuess};
ghost use Rattle.ml_trace.specs.NamesCondition.{EachNameStands};
ghost use Rattle.ml_trace.specs.Stack.{has};

use ml_base::NoMemory;
use ml_graph::ModalGraph;
use ml_refutation::{Item, Lists};
use std::alloc::Global;

/// Are these nodes of the graph, and those of the first entry the root alone?
pub(crate) fn starts_well(graph: &ModalGraph, sequent: &[u32], entry: usize) -> bool
    requires { IsAscending sequent.now }
    ensures { IsTrue result
        ↔ (All (λ n. n < size graph.now) sequent.now × (entry ≡ 0 → sequent.now ≡ graph.now.root ∷ [])) }
{
    all_below(sequent, graph.size()) && (entry != 0 || is_one(sequent, graph.root()))
}

/// Are these numbers, which ascend, below a bound? The last one tells.
fn all_below(numbers: &[u32], bound: u32) -> bool
    requires { IsAscending numbers.now }
    ensures { IsTrue result ↔ All (λ n. n < bound) numbers.now }
{
    match numbers {
        [.., last] => *last < bound,
        [] => true,
    }
}

/// Is this the list of one number?
fn is_one(numbers: &[u32], number: u32) -> bool
    ensures { IsTrue result ↔ numbers.now ≡ number ∷ [] }
{
    match numbers {
        [one] => *one == number,
        _ => false,
    }
}

/// Does each name in use stand in some item? Items are looked at up to one with which all do.
pub(crate) fn names_stand(
    alloc: Global,
    stacks: &Lists,
    live: u32,
    items: &[Item],
) -> Result<bool, NoMemory>
    requires { All (λ a. All (λ y. y < live) (slice_index_or stacks.now a.stack [])) items.now }
    ensures { IfOk result (λ b. IsTrue b
        ↔ EachNameStands (record { live = live; items = map (item_of stacks.now) items.now })) }
{
    let mut stand = vec![in alloc; false; live as usize]?;
    let mut set = 0;
    for item in items {
        note(stacks.at(item.stack), &mut stand);
        set = set_front(&stand, set);
        if set == stand.len() {
            return Ok(true);
        }
    }
    Ok(all_set(&stand))
}

/// Flags these names.
fn note(names: &[u32], flags: &mut [bool])
    requires { All (λ y. y < length flags.old) names.now }
    ensures size { length flags.new ≡ length flags.old }
    ensures flags { (y : ℕ) → slice_index_or flags.new y false ≡ (slice_index_or flags.old y false || has y names.now) }
{
    for name in names {
        flags[*name as usize] = true;
    }
}

/// How many flags from the first one on are set without a gap, where so many are known to be.
fn set_front(flags: &[bool], known: usize) -> usize
    requires within { known ≤ length flags.now }
    requires known { (y : ℕ) → y < known → slice_index_or flags.now y false ≡ true }
    ensures within { result ≤ length flags.now }
    ensures set { (y : ℕ) → y < result → slice_index_or flags.now y false ≡ true }
{
    let mut set = known;
    for k in known..flags.len() {
        if !flags[k] {
            return set;
        }
        set = k + 1;
    }
    set
}

/// Are all flags set?
fn all_set(flags: &[bool]) -> bool
    ensures { IsTrue result ↔ All (λ flag. flag ≡ true) flags.now }
{
    flags.iter().all(|flag| *flag)
}

/// Is the item's node one of the sequent, and its odd priority, if it has one, one of these?
pub(crate) fn item_stands(sequent: &[u32], odds: &[u32], item: &Item) -> bool
    requires sequent { IsAscending sequent.now }
    requires odds { IsAscending odds.now }
    ensures { IsTrue result ↔ (IsMember item.now.node sequent.now × IsGuess odds.now item.now.odd) }
{
    has_number(sequent, item.node) && is_guess(odds, item.odd)
}

/// Does each of the items stand at one of these nodes, which ascend?
///
/// Cost: the logarithm of the nodes for each item.
pub(crate) fn stand_among(nodes: &[u32], items: &[Item]) -> bool
    requires { IsAscending nodes.now }
    ensures { IsTrue result ↔ StandAmong nodes.now items.now }
{
    for item in items {
        if !has_number(nodes, item.node) {
            return false;
        }
    }
    true
}

/// Is the guess one of these odd priorities, or none?
fn is_guess(odds: &[u32], guess: Option<u32>) -> bool
    requires { IsAscending odds.now }
    ensures { IsTrue result ↔ IsGuess odds.now guess }
{
    match guess {
        Some(odd) => has_number(odds, odd),
        None => true,
    }
}

/// Is the number one of these, which ascend?
pub(crate) fn has_number(numbers: &[u32], number: u32) -> bool
    requires { IsAscending numbers.now }
    ensures { IsTrue result ↔ IsMember number numbers.now }
{
    numbers.binary_search(&number).is_ok()
}
