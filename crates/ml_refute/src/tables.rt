// Entries as they are put together, with the lists that they name.
ghost use Rattle.std.specs.Prelude.{◌≡◌, ◌<◌, ◌^◌, [], map, All, IfOk, OnOk};
ghost use Rattle.ml_product.specs.View.{viewed};
ghost use Rattle.ml_refutation.specs.Views.{decision_of};
ghost use Rattle.ml_refute.specs.private.Tables.{AreNamedIn, entries_in, IsPlaced, AreCarried, IsMade, IsPutBehind};

use ml_base::NoMemory;
use ml_history::History;
use ml_product::View;
use ml_refutation::{Decision, Entry, Item, Lists};
use ml_trace::state_of;
use std::alloc::Global;

/// Entries, with the sequents and stacks that they name.
#[derive(Drop)]
pub(crate) struct Tables {
    pub sequents: Lists,
    pub stacks: Lists,
    pub entries: Vec<Entry>,
}

impl Tables {
    /// No entries, with room for so many.
    pub(crate) fn new(alloc: Global, entries: usize) -> Result<Tables, NoMemory>
        ensures { IfOk result (λ tables. tables.entries.items ≡ []) }
    {
        Ok(Tables {
            sequents: Lists::new(alloc),
            stacks: Lists::new(alloc),
            entries: Vec::with_capacity(alloc, entries)?,
        })
    }

    /// Adds the entry at a position.
    pub(crate) fn push(
        &mut self,
        alloc: Global,
        odds: &[u32],
        view: View,
        row: &[u64],
        decision: Decision,
    ) -> Result<(), NoMemory>
        requires low { All (λ n. n < 2 ^ 32) row.now }
        requires named { AreNamedIn self.old }
        ensures named { OnOk result (AreNamedIn self.new) }
        ensures put { OnOk result (IsPutBehind
            odds.now
            (viewed view.entry)
            row.now
            (decision_of decision)
            (entries_in self.old)
            (entries_in self.new)) }
    {
        let sequents = &mut self.sequents;
        let stacks = &mut self.stacks;
        let entry = entry_at(alloc, odds, view, row, decision, sequents, stacks)?;
        self.entries.push(entry)?;
        Ok(())
    }
}

/// The entry at a position.
fn entry_at(
    alloc: Global,
    odds: &[u32],
    view: View,
    row: &[u64],
    decision: Decision,
    sequents: &mut Lists,
    stacks: &mut Lists,
) -> Result<Entry, NoMemory>
    requires { All (λ n. n < 2 ^ 32) row.now }
    ensures { IfOk result (IsMade
        odds.now
        (viewed view.entry)
        row.now
        (decision_of decision)
        sequents.old
        sequents.new
        stacks.old
        stacks.new) }
{
    Ok(Entry {
        sequent: place_of(sequents, view.sequent.values())?,
        live: view.history.live(),
        items: items_of(alloc, odds, view.history, stacks)?,
        heights: row_of(alloc, row)?,
        decision,
    })
}

/// The place of a sequent among these: that of the last one, if it is the same, else it is added.
fn place_of(sequents: &mut Lists, sequent: &[u32]) -> Result<usize, NoMemory>
    ensures { IfOk result (IsPlaced sequent.now sequents.old sequents.new) }
{
    if let Some(last) = sequents.len().checked_sub(1) {
        if sequents.at(last) == sequent {
            return Ok(last);
        }
    }
    sequents.push(sequent)
}

/// The items of a history, at states of the automaton. Their stacks are added.
fn items_of(
    alloc: Global,
    odds: &[u32],
    history: &History,
    stacks: &mut Lists,
) -> Result<Vec<Item>, NoMemory>
    ensures { IfOk result (λ items. AreCarried odds.now history.now stacks.old stacks.new items.items) }
{
    let mut items = Vec::new(alloc);
    for (number, stack) in history.stacks()? {
        let state = state_of(number, odds);
        let stack = stacks.push(&stack)?;
        items.push(Item {
            node: state.node,
            odd: state.odd,
            stack,
        })?;
    }
    Ok(items)
}

/// The numbers of a row, which fit.
fn row_of(alloc: Global, row: &[u64]) -> Result<Vec<u32>, NoMemory>
    requires { All (λ n. n < 2 ^ 32) row.now }
    ensures { IfOk result (λ heights. heights.items ≡ row.now) }
{
    Ok(row.iter().map(|n| *n as u32).collect(alloc)?)
}
