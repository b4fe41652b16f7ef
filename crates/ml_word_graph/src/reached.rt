// The nodes that are reached from the first one of a list, numbered breadth first.
ghost use Rattle.std.specs.Prelude.{ℕ, ◌≡◌, ◌<◌, ◌≤◌, ◌^◌, Some, length, slice_get, IfOk, OnOk, IsErrOf};
ghost use Rattle.ml_nodes.specs.NumberedValues.{HasNoRoom, IsStep};
ghost use Rattle.ml_word_graph.specs.private.Reached as listed;
ghost use Rattle.ml_word_graph.specs.private.Reached.{AreInside, IsTrimmed, form_in, rank_in};

use ml_base::NoMemory;
use ml_graph::{ClosureRefusal, Node};
use ml_nodes::{Draft, Form, Numbering};
use std::alloc::Global;

// what a node is, by the places to which it leads
fn form_of(node: Node) -> Form<u32>
    ensures { result ≡ listed.form_of node }
{
    match node {
        Node::True => Form::Constant(true),
        Node::False => Form::Constant(false),
        Node::Lit { prop, positive } => Form::Literal(prop, positive),
        Node::And { left, right } => Form::Two(true, left, right),
        Node::Or { left, right } => Form::Two(false, left, right),
        Node::Diamond { action: _, to } => Form::Edge(true, to),
        Node::Square { action: _, to } => Form::Edge(false, to),
    }
}

// one node more
fn step(all: &Draft, max: u32, numbering: &mut Numbering<u32>) -> Result<(), ClosureRefusal>
    requires next { length numbering.old.draft.nodes.items < length numbering.old.values.keys }
    requires few { length numbering.old.values.keys ≤ max }
    requires inside { (n k : ℕ) → slice_get numbering.old.values.keys n ≡ Some k → k < length all.now.nodes.items }
    requires ranks { length all.now.priorities.items ≡ length all.now.nodes.items }
    ensures stepped { OnOk result (IsStep (form_in all.now.nodes.items) (rank_in all.now.priorities.items)
        numbering.old.values.keys numbering.new.values.keys
        numbering.old.draft.nodes.items numbering.new.draft.nodes.items
        numbering.old.draft.priorities.items numbering.new.draft.priorities.items) }
    ensures few { OnOk result (length numbering.new.values.keys ≤ max) }
    ensures full { IsErrOf result ClosureRefusal.ClosureTooLarge → HasNoRoom (form_in all.now.nodes.items) max
        numbering.old.values.keys (length numbering.old.draft.nodes.items) }
{
    let old = *numbering.next() as usize;
    numbering.put(form_of(all.nodes[old]), all.priorities[old], max)
}

// the nodes that are reached, in their order: there is room for them among all
fn numbered(alloc: Global, all: &Draft) -> Result<Draft, ClosureRefusal>
    requires inside { AreInside all.now.nodes.items }
    requires few { length all.now.nodes.items < 2 ^ 31 }
    requires ranks { length all.now.priorities.items ≡ length all.now.nodes.items }
    ensures trimmed { IfOk result (λ d. IsTrimmed all.now.nodes.items all.now.priorities.items d.nodes.items d.priorities.items) }
    ensures fits { IsErrOf result ClosureRefusal.ClosureTooLarge → ⊥ }
{
    let max = all.nodes.len() as u32;
    let mut numbering = Numbering::of(alloc, 0, max)?;
    while numbering.draft.nodes.len() < numbering.values.len() {
        step(all, max, &mut numbering)?;
    }
    Ok(numbering.draft)
}

// the same, where memory alone can be missing
pub(crate) fn trimmed(alloc: Global, all: &Draft) -> Result<Draft, NoMemory>
    requires inside { AreInside all.now.nodes.items }
    requires few { length all.now.nodes.items < 2 ^ 31 }
    requires ranks { length all.now.priorities.items ≡ length all.now.nodes.items }
    ensures trimmed { IfOk result (λ d. IsTrimmed all.now.nodes.items all.now.priorities.items d.nodes.items d.priorities.items) }
{
    match numbered(alloc, all) {
        Ok(draft) => Ok(draft),
        Err(ClosureRefusal::NoMemory) => Err(NoMemory),
        Err(ClosureRefusal::ClosureTooLarge) => unreachable!(),
    }
}
