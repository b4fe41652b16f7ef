// The places of names in the order of offers.
//
// A stack beats another where it is longer, or smaller at the first difference; so of the names that end stacks,
// children come before their parent, and older siblings before younger ones. The line is this order backwards: the names
// are linked by age, each right behind its parent, and a walk along the links counts their places.
ghost use Rattle.std.specs.Prelude.{◌≡◌, ◌<◌, ◌≤◌, ◌^◌, length, slice_index_or, slice_set, IfOk};
ghost use Rattle.ml_history.specs.History.{IsSmallHistory};
ghost use Rattle.ml_history.specs.private.Keys.{TellOffers};
ghost use Rattle.ml_history.specs.private.Line.{before_last, AreParents, IsTree, AreLinks, ArePlaces};

use crate::flat::History;
use crate::names::last_name;
use ml_base::NoMemory;
use std::alloc::Global;

// The name before the last one of the stack, or `none`.
fn before_last(none: u32, stack: &[u32]) -> u32
    ensures { result ≡ before_last none stack.now }
{
    match stack {
        [.., parent, _] => *parent,
        _ => none,
    }
}

// The parents of the names in use; their number stands for the parent of a name that begins stacks.
fn parents(alloc: Global, history: &History) -> Result<Vec<u32>, NoMemory>
    requires { IsSmallHistory history.now }
    ensures { IfOk result (λ parents. AreParents parents.items history.now) }
{
    let live = history.live();
    let mut parents = vec![in alloc; live; live as usize]?;
    for i in 0..history.len() {
        let stack = history.stack(i);
        parents[last_name(stack) as usize] = before_last(live, stack);
    }
    Ok(parents)
}

// Puts the name into the line, right behind its parent.
fn link(next: &mut Vec<u32>, name: usize, parent: usize)
    requires name { name < length next.old.items }
    requires parent { parent < length next.old.items }
    requires few { name < 2 ^ 32 }
    ensures { next.new.items ≡ slice_set (slice_set next.old.items name (slice_index_or next.old.items parent 0)) parent name }
{
    let behind = next[parent];
    next[name] = behind;
    next[parent] = name as u32;
}

// The links of the line: from the number of names in use to the first name, and from each name to the next.
fn links(alloc: Global, parents: &[u32]) -> Result<Vec<u32>, NoMemory>
    requires few { length parents.now ≤ 2 ^ 30 }
    requires tree { IsTree parents.now }
    ensures { IfOk result (λ next. AreLinks next.items parents.now) }
{
    let mut next = vec![in alloc; 0; parents.len() + 1]?;
    for (name, parent) in parents.iter().enumerate() {
        link(&mut next, name, *parent as usize);
    }
    Ok(next)
}

// The places of the names, by a walk along the links.
fn places_along(alloc: Global, parents: &[u32], next: &[u32]) -> Result<Vec<u32>, NoMemory>
    requires few { length parents.now ≤ 2 ^ 30 }
    requires tree { IsTree parents.now }
    requires links { AreLinks next.now parents.now }
    ensures { IfOk result (λ places. ArePlaces places.items parents.now) }
{
    let live = parents.len();
    let mut places = vec![in alloc; 0; live]?;
    let mut name = live;
    for k in 0..live {
        name = next[name] as usize;
        places[name] = (live - 1 - k) as u32;
    }
    Ok(places)
}

// The places of the names in use.
pub(crate) fn places(alloc: Global, history: &History) -> Result<Vec<u32>, NoMemory>
    requires { IsSmallHistory history.now }
    ensures { IfOk result (λ places. TellOffers places.items history.now) }
{
    let parents = parents(alloc, history)?;
    let next = links(alloc, parents.as_slice())?;
    places_along(alloc, parents.as_slice(), next.as_slice())
}
