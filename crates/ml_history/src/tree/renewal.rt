// The names of a step: which of them stand, which are full, the mark, and their new numbers.
ghost use Rattle.std.specs.Prelude.{◌≡◌, ℕ, ◌<◌, ◌≤◌, ◌*◌, ◌^◌, ◌++◌, ◌&&◌, not, nat_lt, length, slice_index_or, IfOk, OnOk};
ghost use Rattle.ml_lists.specs.Ascending.{ascending};
ghost use Rattle.ml_lists.specs.Counting.{count};
ghost use Rattle.ml_lists.specs.Least.{least};
ghost use Rattle.ml_lists.specs.Member.{IsMember};
ghost use Rattle.ml_trace.specs.Stack.{has};
ghost use Rattle.ml_history.specs.private.Forest.{names};
ghost use Rattle.ml_history.specs.HistoryStep.{mark_of};
ghost use Rattle.ml_history.specs.private.TreeStep.{renewed};
ghost use Rattle.ml_history.specs.private.Vertices.{joined};

use crate::names::{flags_of, mark, numbers};
use crate::tree::drafts::Draft;
use crate::tree::vertices::Vertex;
use ml_base::{IdSet, NoMemory};
use ml_trace::Mark;
use std::alloc::Global;

// Appends the names of the siblings and of the vertices below them, those of children first.
fn push_names(siblings: &[Draft], all: &mut Vec<u32>) -> Result<(), NoMemory>
    ensures { OnOk result (all.new.items ≡ all.old.items ++ names (joined siblings.now)) }
{
    for draft in siblings {
        push_names(draft.children.as_slice(), all)?;
        all.push(draft.age)?;
    }
    Ok(())
}

// The names of the siblings and of the vertices below them, those of children first.
pub(crate) fn names_of(alloc: Global, siblings: &[Draft]) -> Result<Vec<u32>, NoMemory>
    ensures { IfOk result (λ all. all.items ≡ names (joined siblings.now)) }
{
    let mut all = Vec::new(alloc);
    push_names(siblings, &mut all)?;
    Ok(all)
}

// The states as a set.
fn set_of(alloc: Global, states: &[u32]) -> Result<IdSet, NoMemory>
    ensures { IfOk result (λ set. set ≡ ascending states.now) }
{
    let mut sorted = Vec::from_slice(alloc, states)?;
    sorted.sort()?;
    let mut set = IdSet::new(alloc);
    for state in sorted.as_slice() {
        set.insert(*state)?;
    }
    Ok(set)
}

// The vertices of the drafts, with the new numbers of their names.
pub(crate) fn renewed(
    alloc: Global,
    drafts: &[Draft],
    numbers: &[u32],
) -> Result<Vec<Vertex>, NoMemory>
    requires { (y : ℕ) → IsMember y (names (joined drafts.now)) → y < length numbers.now }
    ensures { IfOk result (λ row. joined row.items ≡ renewed (λ y. slice_index_or numbers.now y 0) (joined drafts.now)) }
{
    let mut row = Vec::new(alloc);
    for draft in drafts {
        row.push(Vertex {
            age: numbers[draft.age as usize],
            own: set_of(alloc, draft.own.as_slice())?,
            children: renewed(alloc, draft.children.as_slice(), numbers)?,
        })?;
    }
    Ok(row)
}

// The vertices of the drafts with the new numbers of their names, and the mark of the step: `used` names were in use
// before it, and `full` has the names of full vertices.
pub(crate) fn renew(
    alloc: Global,
    used: u32,
    drafts: &[Draft],
    full: &[u32],
) -> Result<(Vec<Vertex>, Mark), NoMemory>
    requires few { used ≤ 2 ^ 30 }
    requires names { (y : ℕ) → IsMember y (names (joined drafts.now)) → y < 2 * used }
    requires full { (y : ℕ) → IsMember y full.now → y < 2 * used }
    ensures row { IfOk result (λ r. joined r.0.items ≡ renewed (λ y. count (λ z. has z (names (joined drafts.now))) y) (joined drafts.now)) }
    ensures mark { IfOk result (λ r. r.1 ≡ mark_of (least (λ y. nat_lt y used && not (has y (names (joined drafts.now)))) (2 * used))
        (least (λ y. has y full.now && has y (names (joined drafts.now))) (2 * used))) }
{
    let names = names_of(alloc, drafts)?;
    let standing = flags_of(alloc, names.as_slice(), 2 * used)?;
    let full = flags_of(alloc, full, 2 * used)?;
    let mark = mark(used, full.as_slice(), standing.as_slice());
    let numbers = numbers(alloc, standing.as_slice())?;
    let row = renewed(alloc, drafts, numbers.as_slice())?;
    Ok((row, mark))
}
