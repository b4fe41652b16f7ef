// Keys that are numbered in the order in which they come: equal keys have one number.
ghost use Rattle.std.specs.Prelude.{◌≡◌, [], IfOk};
ghost use Rattle.ml_bisim.specs.private.Numbers.{AreNumbers};

use indexmap::IndexSet;
use ml_base::NoMemory;
use std::alloc::Global;
use std::hash::Hash;

/// The number of each key, and how many numbers there are.
#[derive(Drop)]
pub(crate) struct Numbering {
    pub numbers: Vec<usize>,
    pub count: usize,
}

/// The numbers of the keys.
///
/// # Errors
/// `NoMemory` alone.
///
/// Cost: linear in the keys, on average.
pub(crate) fn numbered<K: Eq + Hash + Drop>(
    alloc: Global,
    keys: Vec<K>,
) -> Result<Numbering, NoMemory>
    ensures { IfOk result (λ numbering. AreNumbers K.eq keys.items numbering.numbers.items numbering.count) }
{
    let mut table = IndexSet::new(alloc);
    numbered_by(alloc, &mut table, keys)
}

// the places of the keys in a table, into which they are put; it is empty at first
fn numbered_by<K: Eq + Hash + Drop>(
    alloc: Global,
    table: &mut IndexSet<K>,
    keys: Vec<K>,
) -> Result<Numbering, NoMemory>
    requires { table.old.keys ≡ [] }
    ensures { IfOk result (λ numbering. AreNumbers K.eq keys.items numbering.numbers.items numbering.count) }
{
    let mut numbers = Vec::with_capacity(alloc, keys.len())?;
    for key in keys {
        let (number, _) = table.insert_full(key)?;
        numbers.push(number)?;
    }
    Ok(Numbering {
        numbers,
        count: table.len(),
    })
}
