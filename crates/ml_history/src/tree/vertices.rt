// Vertices, and what is computed by walks over them.
ghost use Rattle.std.specs.Prelude.{◌≡◌, ◌++◌, OnOk, map};
ghost use Rattle.ml_history.specs.private.Forest.{names, places, lies_at};
ghost use Rattle.ml_history.specs.HistoryStep.{above};
ghost use Rattle.ml_history.specs.Stacks.{stacked};
ghost use Rattle.ml_history.specs.private.TreeWalks.{behind};
ghost use Rattle.ml_history.specs.private.Vertices.{joined};

use ml_base::{IdSet, NoMemory};
use std::alloc::Global;
use std::marker::Model;

/// A vertex of a history as a tree: its age, the states whose stack ends at it, and its children, the older ones first.
#[derive(Debug, Drop)]
pub(crate) struct Vertex {
    pub(crate) age: u32,
    pub(crate) own: IdSet,
    pub(crate) children: Vec<Vertex>,
}

impl Model for Vertex {
    ghost use Rattle.std.proofs.Common.{arith};
    ghost use Rattle.ml_history.specs.private.Vertices.{Rooted, joined, vertices, most-vertices, rooted_code};

    ghost Value = { Rooted };

    ghost coded = { rooted_code };

    ghost view = { λ v. record { age = v.age; own = v.own; children = joined v.children.items } };

    ghost size = { λ v. vertices v.children };

    ghost size_decreases = { λ v h. omega (arith, most-vertices v.children.items) };
}

// One more than the greatest age, or 0.
pub(crate) fn above(siblings: &[Vertex]) -> u64
    ensures { result ≡ above (names (joined siblings.now)) }
{
    let mut most: u64 = 0;
    for vertex in siblings {
        let children = above(vertex.children.as_slice());
        most = most.max(children).max(u64::from(vertex.age) + 1);
    }
    most
}

// Appends the states of the set with this stack.
fn push_own(
    alloc: Global,
    own: &IdSet,
    stack: &[u32],
    stacks: &mut Vec<(u32, Vec<u32>)>,
) -> Result<(), NoMemory>
    ensures { OnOk result (map stacked stacks.new.items ≡ map stacked stacks.old.items ++ map (lies_at stack.now) own.now) }
{
    for state in own.values() {
        stacks.push((*state, Vec::from_slice(alloc, stack)?))?;
    }
    Ok(())
}

// Appends the states that lie at the siblings or below them, with their stacks; the path leads down to the siblings.
pub(crate) fn push_places(
    alloc: Global,
    siblings: &[Vertex],
    path: &[u32],
    stacks: &mut Vec<(u32, Vec<u32>)>,
) -> Result<(), NoMemory>
    ensures { OnOk result (map stacked stacks.new.items ≡ map stacked stacks.old.items ++ map (behind path.now) (places (joined siblings.now))) }
{
    for vertex in siblings {
        let mut stack = Vec::from_slice(alloc, path)?;
        stack.push(vertex.age)?;
        push_places(alloc, vertex.children.as_slice(), stack.as_slice(), stacks)?;
        push_own(alloc, &vertex.own, stack.as_slice(), stacks)?;
    }
    Ok(())
}
