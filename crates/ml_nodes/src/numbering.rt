// Values that are reached from a root, numbered as they are met, and the nodes that are made of them.
ghost use Rattle.std.specs.Prelude.{◌≡◌, ◌<◌, ◌≤◌, ◌⊎◌, ◌++◌, ◌∷◌, [], Some, length, slice_get, IfOk, OnOk, IsErrOf};
ghost use Rattle.ml_lists.specs.Added.{IsAdded};
ghost use Rattle.ml_nodes.specs.NumberedValues as numbered;
ghost use Rattle.ml_nodes.specs.NumberedValues.{IsFull, IsPut, Numbers, Overflows, Tells};

use crate::draft::Draft;
use indexmap::IndexSet;
use ml_base::NoMemory;
use ml_graph::{ClosureRefusal, Node};
use std::alloc::Global;
use std::hash::Hash;

/// What a node is, by the values to which it leads: a constant, a proposition by its place or its negation, an and, or else
/// an or, of two values or of one twice, a diamond, or else a square, by the action 0.
#[derive(Drop)]
pub enum Form<P> {
    Constant(bool),
    Literal(u32, bool),
    Two(bool, P, P),
    Twice(bool, P),
    Edge(bool, P),
}

/// Values by their numbers, each once, and the nodes of the first of them.
#[derive(Drop)]
pub struct Numbering<P: Eq + Hash + Drop> {
    pub values: IndexSet<P>,
    pub draft: Draft,
}

// the place of a value among others, behind which it is put if it isn't there
fn add<P: Eq + Hash + Drop>(values: &mut IndexSet<P>, value: P) -> Result<usize, NoMemory>
    requires { Tells P.eq }
    ensures { IfOk result (IsAdded values.old.keys value values.new.keys) }
{
    let (place, _) = values.insert_full(value)?;
    Ok(place)
}

// the number of a value
fn number<P: Eq + Hash + Drop>(
    values: &mut IndexSet<P>,
    value: P,
    max: u32,
) -> Result<u32, ClosureRefusal>
    requires told { Tells P.eq }
    requires few { length values.old.keys ≤ max }
    ensures added { IfOk result (IsAdded values.old.keys value values.new.keys) }
    ensures few { OnOk result (length values.new.keys ≤ max) }
    ensures full { IsErrOf result ClosureRefusal.ClosureTooLarge → IsFull max values.old.keys value }
{
    let place = add(values, value)?;
    if values.len() > max as usize {
        return Err(ClosureRefusal::ClosureTooLarge);
    }
    Ok(place as u32)
}

fn pair(all: bool, left: u32, right: u32) -> Node
    ensures { result ≡ numbered.pair_of all left right }
{
    if all {
        Node::And { left, right }
    } else {
        Node::Or { left, right }
    }
}

fn edge(some: bool, to: u32) -> Node
    ensures { result ≡ numbered.edge_of some to }
{
    if some {
        Node::Diamond { action: 0, to }
    } else {
        Node::Square { action: 0, to }
    }
}

// the node of an and, or else an or
fn number_two<P: Eq + Hash + Drop>(
    values: &mut IndexSet<P>,
    all: bool,
    left: P,
    right: P,
    max: u32,
) -> Result<Node, ClosureRefusal>
    requires told { Tells P.eq }
    requires few { length values.old.keys ≤ max }
    ensures numbers { IfOk result (numbered.NumbersTwo all left right values.old.keys values.new.keys) }
    ensures few { OnOk result (length values.new.keys ≤ max) }
    ensures full { IsErrOf result ClosureRefusal.ClosureTooLarge
        → IsFull max values.old.keys left ⊎ numbered.FillsFirst max values.old.keys left right }
{
    let left = number(values, left, max)?;
    let right = number(values, right, max)?;
    Ok(pair(all, left, right))
}

// the node of a form
fn node_of<P: Eq + Hash + Drop>(
    values: &mut IndexSet<P>,
    form: Form<P>,
    max: u32,
) -> Result<Node, ClosureRefusal>
    requires told { Tells P.eq }
    requires few { length values.old.keys ≤ max }
    ensures numbers { IfOk result (Numbers form values.old.keys values.new.keys) }
    ensures few { OnOk result (length values.new.keys ≤ max) }
    ensures full { IsErrOf result ClosureRefusal.ClosureTooLarge → Overflows max values.old.keys form }
{
    match form {
        Form::Constant(value) => Ok(if value { Node::True } else { Node::False }),
        Form::Literal(prop, positive) => Ok(Node::Lit { prop, positive }),
        Form::Two(all, left, right) => number_two(values, all, left, right, max),
        Form::Twice(all, value) => {
            let to = number(values, value, max)?;
            Ok(pair(all, to, to))
        }
        Form::Edge(some, value) => {
            let to = number(values, value, max)?;
            Ok(edge(some, to))
        }
    }
}

// a node behind the others, with its priority
fn keep(draft: &mut Draft, node: Node, priority: u32) -> Result<(), NoMemory>
    ensures nodes { OnOk result (draft.new.nodes.items ≡ draft.old.nodes.items ++ node ∷ []) }
    ensures priorities { OnOk result (draft.new.priorities.items ≡ draft.old.priorities.items ++ priority ∷ []) }
{
    draft.nodes.push(node)?;
    draft.priorities.push(priority)?;
    Ok(())
}

impl<P: Eq + Hash + Drop> Numbering<P> {
    /// The root alone, of which no node is made yet.
    ///
    /// # Errors
    /// `ClosureTooLarge` exactly where `max` is 0. `NoMemory`.
    ///
    /// Cost: constant on average.
    pub fn of(alloc: Global, root: P, max: u32) -> Result<Numbering<P>, ClosureRefusal>
        requires { Tells P.eq }
        ensures values { IfOk result (λ n. n.values.keys ≡ root ∷ []) }
        ensures nodes { IfOk result (λ n. n.draft.nodes.items ≡ []) }
        ensures priorities { IfOk result (λ n. n.draft.priorities.items ≡ []) }
        ensures few { OnOk result (1 ≤ max) }
        ensures full { IsErrOf result ClosureRefusal.ClosureTooLarge → max ≡ 0 }
    {
        let mut values = IndexSet::new(alloc);
        number(&mut values, root, max)?;
        Ok(Numbering {
            values,
            draft: Draft::new(alloc),
        })
    }

    /// The first value of which no node is made yet; there has to be one.
    ///
    /// Cost: constant.
    pub fn next(&self) -> &P
        requires { length self.now.draft.nodes.items < length self.now.values.keys }
        ensures { slice_get self.now.values.keys (length self.now.draft.nodes.items) ≡ Some result.now }
    {
        &self.values.as_slice()[self.draft.nodes.len()]
    }

    /// Puts the node of a form behind those so far, with its priority, and gives numbers to the values to which it leads.
    ///
    /// # Errors
    /// `ClosureTooLarge` exactly where these are more than `max`. `NoMemory`.
    ///
    /// Cost: constant on average.
    pub fn put(&mut self, form: Form<P>, priority: u32, max: u32) -> Result<(), ClosureRefusal>
        requires told { Tells P.eq }
        requires few { length self.old.values.keys ≤ max }
        ensures put { OnOk result (IsPut form priority self.old.values.keys self.new.values.keys
            self.old.draft.nodes.items self.new.draft.nodes.items
            self.old.draft.priorities.items self.new.draft.priorities.items) }
        ensures few { OnOk result (length self.new.values.keys ≤ max) }
        ensures full { IsErrOf result ClosureRefusal.ClosureTooLarge → Overflows max self.old.values.keys form }
    {
        let node = node_of(&mut self.values, form, max)?;
        keep(&mut self.draft, node, priority)?;
        Ok(())
    }
}
