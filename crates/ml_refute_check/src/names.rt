// The condition on names along a `go`, over the local traces of its step.
//
// A name below the bound of the mark, or its green one, has to come from somewhere: each item behind the step that has it
// needs a trace from an item that has it too, and for the green name from one that makes progress. `keeps_names` asks it
// of all items and names, with the traces sorted by the nodes to which they lead.
ghost use Rattle.std.specs.Prelude.{◌≡◌, ◌↔◌, ◌<◌, ℕ, List, false, true, All, IsTrue};
ghost use Rattle.ml_lists.specs.Ascending.{IsAscending};
ghost use Rattle.ml_refute_check.specs.private.Sources.{IsSource, SourceAmong, HasSource, Serves, IsNameTraced, IsItemTraced, AreInUse, led, StandAmong, RiseByNode, RiseByTarget, green_of, traces_of};
ghost use Rattle.ml_graph.specs.Graph.{Graph, odd_priorities};
ghost use Rattle.ml_lists.specs.Member.{IsMember};
ghost use Rattle.ml_refutation.specs.GoStep.{GoStep, HasTransition};
ghost use Rattle.ml_sequent.specs.Step.{IsTrace};
ghost use Rattle.ml_trace.specs.declared.letters.Triple.{Triple};
ghost use Rattle.ml_trace.specs.NamesCondition.{NamesCondition, bound};
ghost use Rattle.ml_trace.specs.Stack.{has, ends_in};

use crate::branches::leads;
use crate::by_node::{items_at, traces_to};
use crate::parts::has_number;
use ml_refutation::{Entry, Item, Lists};
use ml_trace::{Mark, Triple};

/// Does the name stand in the stack?
fn has(name: u32, stack: &[u32]) -> bool
    ensures { result ≡ has name stack.now }
{
    for other in stack {
        if *other == name {
            return true;
        }
    }
    false
}

/// Is this the last name of the stack?
fn ends_in(name: u32, stack: &[u32]) -> bool
    ensures { result ≡ ends_in name stack.now }
{
    match stack {
        [.., last] => *last == name,
        [] => false,
    }
}

/// Does the item have the name, and, where progress is asked for, is it advanced in it, or the transition accepting?
fn serves(name: u32, progress: bool, stack: &[u32], accepting: bool) -> bool
    ensures { IsTrue result ↔ Serves name progress stack.now accepting }
{
    has(name, stack) && (!progress || accepting || !ends_in(name, stack))
}

/// Does the trace lead from one item to another, so that the first one serves?
fn is_source(
    stacks: &Lists,
    odds: &[u32],
    trace: &Triple,
    name: u32,
    progress: bool,
    item: &Item,
    behind: &Item,
) -> bool
    requires { IsAscending odds.now }
    ensures { IsTrue result ↔ IsSource stacks.now odds.now trace.now name progress item.now behind.now }
{
    if item.node != trace.from || behind.node != trace.to {
        return false;
    }
    match leads(odds, trace.lowest, item.odd, behind.odd) {
        Some(accepting) => serves(name, progress, stacks.at(item.stack), accepting),
        None => false,
    }
}

/// Does the trace lead to the item from one of these that serves?
fn comes_along(
    stacks: &Lists,
    odds: &[u32],
    trace: &Triple,
    name: u32,
    progress: bool,
    items: &[Item],
    behind: &Item,
) -> bool
    requires { IsAscending odds.now }
    ensures { IsTrue result ↔ SourceAmong stacks.now odds.now trace.now name progress items.now behind.now }
{
    for item in items {
        if is_source(stacks, odds, trace, name, progress, item, behind) {
            return true;
        }
    }
    false
}

/// Does some trace lead to the item from one of these that serves?
fn has_source(
    stacks: &Lists,
    odds: &[u32],
    traces: &[Triple],
    name: u32,
    progress: bool,
    items: &[Item],
    behind: &Item,
) -> bool
    requires odds { IsAscending odds.now }
    requires items { RiseByNode items.now }
    ensures { IsTrue result ↔ HasSource stacks.now odds.now traces.now name progress items.now behind.now }
{
    for trace in traces {
        if comes_along(
            stacks,
            odds,
            trace,
            name,
            progress,
            items_at(items, trace.from),
            behind,
        ) {
            return true;
        }
    }
    false
}

/// Is the name of the item traced back, where it is below the bound or green?
fn name_traced(
    stacks: &Lists,
    odds: &[u32],
    traces: &[Triple],
    bound: u32,
    green: Option<u32>,
    items: &[Item],
    name: u32,
    behind: &Item,
) -> bool
    requires odds { IsAscending odds.now }
    requires items { RiseByNode items.now }
    ensures { IsTrue result ↔ IsNameTraced stacks.now odds.now traces.now bound green items.now name behind.now }
{
    let is_last = ends_in(name, stacks.at(behind.stack));
    if name < bound && !has_source(stacks, odds, traces, name, !is_last, items, behind) {
        return false;
    }
    match green {
        Some(other) if other == name => is_last
            && has_source(stacks, odds, traces, name, true, items, behind),
        _ => true,
    }
}

/// Is each name of the item traced back, where it is below the bound or green?
fn item_traced(
    stacks: &Lists,
    odds: &[u32],
    traces: &[Triple],
    bound: u32,
    green: Option<u32>,
    items: &[Item],
    behind: &Item,
) -> bool
    requires odds { IsAscending odds.now }
    requires items { RiseByNode items.now }
    ensures { IsTrue result ↔ IsItemTraced stacks.now odds.now traces.now bound green items.now behind.now }
{
    for name in stacks.at(behind.stack) {
        if !name_traced(stacks, odds, traces, bound, green, items, *name, behind) {
            return false;
        }
    }
    true
}

/// The traces to a node, where it is one of these nodes.
fn traces_into<'a>(traces: &'a [Triple], next: &[u32], node: u32) -> &'a [Triple]
    requires traces { RiseByTarget traces.now }
    requires next { IsAscending next.now }
    ensures { (t : Triple) → IsMember t result.now ↔ (IsMember t (led next.now traces.now) × (t.to ≡ node)) }
{
    if has_number(next, node) {
        traces_to(traces, node)
    } else {
        &[]
    }
}

/// Is each name of each item behind the step traced back along traces into these nodes, where it is below the bound or
/// green?
fn items_traced(
    stacks: &Lists,
    odds: &[u32],
    traces: &[Triple],
    next: &[u32],
    bound: u32,
    green: Option<u32>,
    items: &[Item],
    behind: &[Item],
) -> bool
    requires odds { IsAscending odds.now }
    requires traces { RiseByTarget traces.now }
    requires next { IsAscending next.now }
    requires items { RiseByNode items.now }
    ensures { IsTrue result ↔ All (IsItemTraced stacks.now odds.now (led next.now traces.now) bound green items.now) behind.now }
{
    for item in behind {
        let arriving = traces_into(traces, next, item.node);
        if !item_traced(stacks, odds, arriving, bound, green, items, item) {
            return false;
        }
    }
    true
}

/// Below which names are traced.
fn bound_of(live: u32, mark: Mark) -> u32
    ensures { result ≡ bound live mark }
{
    match mark {
        Mark::Red(name) | Mark::Green(name) => name,
        Mark::Neutral => live,
    }
}

/// The green name of the mark, if it has one.
fn green_of(mark: Mark) -> Option<u32>
    ensures { result ≡ green_of mark }
{
    match mark {
        Mark::Green(name) => Some(name),
        _ => None,
    }
}

/// Are bound and green name in use before and behind the step?
fn are_in_use(bound: u32, green: Option<u32>, live: u32, live_behind: u32) -> bool
    ensures { IsTrue result ↔ AreInUse bound green live live_behind }
{
    if bound > live || bound > live_behind {
        return false;
    }
    match green {
        Some(name) => name < live && name < live_behind,
        None => true,
    }
}

/// Does a step meet the condition on names, along which these traces were made, into a sequent with these nodes? They are
/// its traces from some nodes, at which the items before it stand: no others tell where a name comes from.
///
/// Cost: for each item behind the step, the logarithm of the traces; and for each of its names the traces to its node up to
/// one from an item that serves, each with a look-up of its node among the items before the step.
pub(crate) fn keeps_names(
    stacks: &Lists,
    odds: &[u32],
    made: &[Triple],
    next: &[u32],
    mark: Mark,
    before: &Entry,
    behind: &Entry,
) -> bool
    requires odds { IsAscending odds.now }
    requires made { RiseByTarget made.now }
    requires next { IsAscending next.now }
    requires items { RiseByNode before.now.items.items }
    ensures { (g : Graph) (step : GoStep) (sources : List ℕ)
        → odds.now ≡ odd_priorities g
        → next.now ≡ step.next
        → StandAmong sources before.now.items.items
        → ((t : Triple) → IsMember t made.now
        ↔ (IsMember t.from sources × IsTrace g step.sequent step.spread step.diamond t))
        → IsTrue result
        ↔ NamesCondition (HasTransition g) step mark (traces_of stacks.now before.now) (traces_of stacks.now behind.now) }
{
    let bound = bound_of(before.live, mark);
    let green = green_of(mark);
    if !are_in_use(bound, green, before.live, behind.live) {
        return false;
    }
    items_traced(
        stacks,
        odds,
        made,
        next,
        bound,
        green,
        &before.items,
        &behind.items,
    )
}
