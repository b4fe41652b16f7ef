// The walk over a tree that finds the first offer to each state.
ghost use Rattle.std.specs.Prelude.{◌≡◌, ℕ, ◌+◌, ◌<◌, ◌^◌, [], ◌∷◌, ◌++◌, IfOk, OnOk};
ghost use Rattle.std.specs.List.{flat_map};
ghost use Rattle.ml_lists.specs.Member.{IsMember};
ghost use Rattle.ml_history.specs.private.Forest.{Empty, names};
ghost use Rattle.ml_history.specs.private.TreeStep.{targets, moved, news, with_one, with_all, seen_by, Laid};
ghost use Rattle.ml_history.specs.private.Vertices.{joined};

use crate::tree::drafts::{Draft, lay};
use crate::tree::moves::Moves;
use crate::tree::vertices::Vertex;
use ml_base::NoMemory;
use std::alloc::Global;
use std::collections::HashSet;

// Puts the state behind the others, where it was not seen before, and says that it is seen now.
fn push_new(state: u32, seen: &mut HashSet<u32>, states: &mut Vec<u32>) -> Result<(), NoMemory>
    ensures states { OnOk result (states.new.items ≡ states.old.items ++ news (seen_by seen.old) (state ∷ [])) }
    ensures seen { OnOk result (seen_by seen.new ≡ with_one state (seen_by seen.old)) }
{
    if seen.insert(state)? {
        states.push(state)?;
    }
    Ok(())
}

// The states that were not seen before, each once; they are seen then.
fn first_of(alloc: Global, states: &[u32], seen: &mut HashSet<u32>) -> Result<Vec<u32>, NoMemory>
    ensures states { IfOk result (λ found. found.items ≡ news (seen_by seen.old) states.now) }
    ensures seen { OnOk result (seen_by seen.new ≡ with_all states.now (seen_by seen.old)) }
{
    let mut found = Vec::new(alloc);
    for state in states {
        push_new(*state, seen, &mut found)?;
    }
    Ok(found)
}

// The targets of the states, along accepting transitions or along others.
fn targets_of(
    alloc: Global,
    moves: &Moves,
    own: &[u32],
    accepting: bool,
) -> Result<Vec<u32>, NoMemory>
    ensures { IfOk result (λ found. found.items ≡ flat_map (targets moves.now accepting) own.now) }
{
    let mut found = Vec::new(alloc);
    for from in own {
        moves.targets(*from, accepting, &mut found)?;
    }
    Ok(found)
}

// The targets of the states that were not seen before, along accepting transitions or along others; they are seen then.
fn new_targets(
    alloc: Global,
    moves: &Moves,
    own: &[u32],
    accepting: bool,
    seen: &mut HashSet<u32>,
) -> Result<Vec<u32>, NoMemory>
    ensures states { IfOk result (λ found. found.items ≡ news (seen_by seen.old) (flat_map (targets moves.now accepting) own.now)) }
    ensures seen { OnOk result (seen_by seen.new ≡ with_all (flat_map (targets moves.now accepting) own.now) (seen_by seen.old)) }
{
    let all = targets_of(alloc, moves, own, accepting)?;
    first_of(alloc, all.as_slice(), seen)
}

// Walks over the siblings and what lies below them, children first, and lets each state that was not seen before take
// the first offer to it. `used` names are in use.
pub(crate) fn walk(
    alloc: Global,
    used: u32,
    moves: &Moves,
    siblings: &[Vertex],
    seen: &mut HashSet<u32>,
    full: &mut Vec<u32>,
) -> Result<Vec<Draft>, NoMemory>
    requires { (x : ℕ) → IsMember x (names (joined siblings.now)) → used + x < 2 ^ 32 }
    ensures { IfOk result (λ row. Laid (seen_by seen.old) full.old.items (moved used (targets moves.now) Empty (joined siblings.now)) (joined row.items) (seen_by seen.new) full.new.items) }
{
    let mut row = Vec::new(alloc);
    for vertex in siblings {
        let own = vertex.own.values();
        let mut children = walk(alloc, used, moves, vertex.children.as_slice(), seen, full)?;
        let accepted = new_targets(alloc, moves, own, true, seen)?;
        lay(
            alloc,
            used + vertex.age,
            accepted,
            Vec::new(alloc),
            &mut children,
            full,
        )?;
        let kept = new_targets(alloc, moves, own, false, seen)?;
        lay(alloc, vertex.age, kept, children, &mut row, full)?;
    }
    Ok(row)
}
