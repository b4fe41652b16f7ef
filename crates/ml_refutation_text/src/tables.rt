// The tables of version 2: each sequent and each stack of a refutation once, in the order of first use.
ghost use Rattle.std.specs.Prelude.{◌≡◌, map, fold, IfOk, OnOk};
ghost use Rattle.ml_refutation.specs.Views.{item_of};
ghost use Rattle.ml_refutation_text.specs.Canonical.{with_new};
ghost use Rattle.ml_refutation_text.specs.Canonical as plain;
ghost use Rattle.ml_refutation_text.specs.private.Filings.{entries_of};

use crate::table::Table;
use ml_base::NoMemory;
use ml_refutation::{Item, Refutation};
use std::alloc::Global;

/// The sequents and the stacks of a refutation, each once.
#[derive(Drop)]
pub(crate) struct Tables<'a> {
    pub(crate) sequents: Table<'a>,
    pub(crate) stacks: Table<'a>,
}

/// How the sequents and stacks of a refutation are written: in full, or by their places in tables.
#[derive(Drop)]
pub(crate) enum Filing<'f, 'a> {
    InFull(&'f Refutation),
    ByTables(&'f Tables<'a>),
}

// the tables of a refutation
pub(crate) fn tables_of<'a>(
    alloc: Global,
    refutation: &'a Refutation,
) -> Result<Tables<'a>, NoMemory>
    ensures sequents { IfOk result (λ tables. tables.sequents
        ≡ record { all = refutation.now.sequents; met = plain.sequents_of (entries_of refutation.now) }) }
    ensures stacks { IfOk result (λ tables. tables.stacks
        ≡ record { all = refutation.now.stacks; met = plain.stacks_of (entries_of refutation.now) }) }
{
    let sequents = sequents_of(alloc, refutation)?;
    let stacks = stacks_of(alloc, refutation)?;
    Ok(Tables { sequents, stacks })
}

// the sequents of the entries, each once
fn sequents_of<'a>(alloc: Global, refutation: &'a Refutation) -> Result<Table<'a>, NoMemory>
    ensures { IfOk result (λ table. table
        ≡ record { all = refutation.now.sequents; met = plain.sequents_of (entries_of refutation.now) }) }
{
    let mut table = Table::new(alloc, &refutation.sequents)?;
    for entry in refutation.entries.as_slice() {
        table.meet(entry.sequent)?;
    }
    Ok(table)
}

// the stacks of the items of the entries, each once
fn stacks_of<'a>(alloc: Global, refutation: &'a Refutation) -> Result<Table<'a>, NoMemory>
    ensures { IfOk result (λ table. table
        ≡ record { all = refutation.now.stacks; met = plain.stacks_of (entries_of refutation.now) }) }
{
    let mut table = Table::new(alloc, &refutation.stacks)?;
    for entry in refutation.entries.as_slice() {
        meet_stacks(&mut table, entry.items.as_slice())?;
    }
    Ok(table)
}

fn meet_stacks(table: &mut Table, items: &[Item]) -> Result<(), NoMemory>
    ensures all { table.new.all ≡ table.old.all }
    ensures met { OnOk result (table.new.met
        ≡ fold with_new table.old.met (map (λ a. a.stack) (map (item_of table.old.all) items.now))) }
{
    for item in items {
        table.meet(item.stack)?;
    }
    Ok(())
}
