// Drafts of vertices: what a step makes of a tree, before its names are numbered anew.
ghost use Rattle.std.specs.Prelude.{◌≡◌, ◌++◌, OnOk};
ghost use Rattle.ml_history.specs.private.Forest.{Empty, states};
ghost use Rattle.ml_history.specs.private.TreeStep.{lay, full_here, beside};
ghost use Rattle.ml_history.specs.private.Vertices.{joined};

use ml_base::NoMemory;
use std::alloc::Global;
use std::marker::Model;

/// A vertex whose states stand in no order yet, and whose age is a name of the step.
#[derive(Drop)]
pub(crate) struct Draft {
    pub(crate) age: u32,
    pub(crate) own: Vec<u32>,
    pub(crate) children: Vec<Draft>,
}

impl Model for Draft {
    ghost use Rattle.std.proofs.Common.{arith};
    ghost use Rattle.ml_history.specs.private.Vertices.{Rooted, joined, vertices, most-vertices, rooted_code};

    ghost Value = { Rooted };

    ghost coded = { rooted_code };

    ghost view = { λ v. record { age = v.age; own = v.own.items; children = joined v.children.items } };

    ghost size = { λ v. vertices v.children };

    ghost size_decreases = { λ v h. omega (arith, most-vertices v.children.items) };
}

// Appends the states that lie at the siblings or below them, those of children first.
fn push_states(siblings: &[Draft], all: &mut Vec<u32>) -> Result<(), NoMemory>
    ensures { OnOk result (all.new.items ≡ all.old.items ++ states (joined siblings.now)) }
{
    for draft in siblings {
        push_states(draft.children.as_slice(), all)?;
        all.extend_from_slice(draft.own.as_slice())?;
    }
    Ok(())
}

// Lays the vertex beside the siblings. Where no state lies at it, it takes all states of its children in their place,
// and its name goes to the full ones; without any state it is left out.
pub(crate) fn lay(
    alloc: Global,
    age: u32,
    own: Vec<u32>,
    children: Vec<Draft>,
    siblings: &mut Vec<Draft>,
    full: &mut Vec<u32>,
) -> Result<(), NoMemory>
    ensures row { OnOk result (joined siblings.new.items ≡ beside (joined siblings.old.items) (lay age own.items (joined children.items) Empty)) }
    ensures full { OnOk result (full.new.items ≡ full.old.items ++ full_here age own.items (states (joined children.items))) }
{
    if !own.is_empty() {
        siblings.push(Draft { age, own, children })?;
        return Ok(());
    }
    let mut all = Vec::new(alloc);
    push_states(children.as_slice(), &mut all)?;
    if all.is_empty() {
        return Ok(());
    }
    full.push(age)?;
    siblings.push(Draft {
        age,
        own: all,
        children: Vec::new(alloc),
    })?;
    Ok(())
}
