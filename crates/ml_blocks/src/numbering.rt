// The nodes of a closure, each made once, in the order of their numbers.
ghost use Rattle.std.specs.Prelude.{◌≡◌, ◌<◌, ◌≤◌, length, IfOk, OnOk, IsErrOf};
ghost use Rattle.ml_blocks.specs.private.Forms as forms;
ghost use Rattle.ml_blocks.specs.private.Forms.{form_in, priority_in};
ghost use Rattle.ml_blocks.specs.private.Occurrences as listed;
ghost use Rattle.ml_nodes.specs.NumberedValues.{HasNoRoom, IsClosed, IsStep, IsTooLarge};

use crate::spots::{Beginning, Spot, begin_of, form_of};
use crate::table::Table;
use ml_graph::ClosureRefusal;
use ml_nodes::{Draft, Numbering};
use std::alloc::Global;

// one node more, of a problem that starts with a block of this sign, or else with a state
fn step(
    alloc: Global,
    table: &Table,
    first: Option<bool>,
    positive: bool,
    max: u32,
    numbering: &mut Numbering<Spot>,
) -> Result<(), ClosureRefusal>
    requires next { length numbering.old.draft.nodes.items < length numbering.old.values.keys }
    requires few { length numbering.old.values.keys ≤ max }
    ensures stepped { OnOk result (IsStep
        (form_in table.now.occurrences.items (listed.lists_of table.now.eventualities.items) (forms.start_in first positive))
        (priority_in table.now.occurrences.items (listed.lists_of table.now.eventualities.items))
        numbering.old.values.keys numbering.new.values.keys
        numbering.old.draft.nodes.items numbering.new.draft.nodes.items
        numbering.old.draft.priorities.items numbering.new.draft.priorities.items) }
    ensures few { OnOk result (length numbering.new.values.keys ≤ max) }
    ensures full { IsErrOf result ClosureRefusal.ClosureTooLarge → HasNoRoom
        (form_in table.now.occurrences.items (listed.lists_of table.now.eventualities.items) (forms.start_in first positive))
        max numbering.old.values.keys (length numbering.old.draft.nodes.items) }
{
    let (form, priority) = form_of(alloc, table, first, positive, numbering.next())?;
    numbering.put(form, priority, max)
}

// all nodes of the closure
pub(crate) fn numbered(
    alloc: Global,
    table: &Table,
    first: Option<bool>,
    positive: bool,
    beginning: Beginning,
    max: u32,
) -> Result<Draft, ClosureRefusal>
    ensures draft { IfOk result (λ d. IsClosed
        (form_in table.now.occurrences.items (listed.lists_of table.now.eventualities.items) (forms.start_in first positive))
        (priority_in table.now.occurrences.items (listed.lists_of table.now.eventualities.items))
        (forms.begin_in beginning first positive) max d.nodes.items d.priorities.items) }
    ensures too_large { IsErrOf result ClosureRefusal.ClosureTooLarge → IsTooLarge
        (form_in table.now.occurrences.items (listed.lists_of table.now.eventualities.items) (forms.start_in first positive))
        (forms.begin_in beginning first positive) max }
{
    let root = begin_of(alloc, beginning, first, positive)?;
    let mut numbering = Numbering::of(alloc, root, max)?;
    while numbering.draft.nodes.len() < numbering.values.len() {
        step(alloc, table, first, positive, max, &mut numbering)?;
    }
    Ok(numbering.draft)
}
