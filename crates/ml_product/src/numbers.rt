// Tables of keys, and of keys with a number for each, that of a position.
ghost use Rattle.std.specs.Prelude.{◌≡◌, IsTrue, IfOk, length};
ghost use Rattle.ml_lists.specs.Added.{IsAdded};
ghost use Rattle.ml_product.specs.private.Numbers.{IsNamed};

use indexmap::IndexSet;
use ml_base::NoMemory;
use std::hash::Hash;

// the place of a key; the next one, if it is new
pub(crate) fn add<K: Eq + Hash + Drop>(table: &mut IndexSet<K>, key: K) -> Result<usize, NoMemory>
    requires { (a b : K) → IsTrue (K.eq a b) → a ≡ b }
    ensures { IfOk result (IsAdded table.old.keys key table.new.keys) }
{
    let (place, _) = table.insert_full(key)?;
    Ok(place)
}

// the number of a key; the next one, if it is new
pub(crate) fn number_of<K: Eq + Hash + Drop>(
    table: &mut IndexSet<K>,
    numbers: &mut Vec<u32>,
    key: K,
    next: u32,
) -> Result<u32, NoMemory>
    requires same { (a b : K) → IsTrue (K.eq a b) → a ≡ b }
    requires even { length table.old.keys ≡ length numbers.old.items }
    ensures { IfOk result (IsNamed table.old.keys numbers.old.items key next table.new.keys numbers.new.items) }
{
    let place = add(table, key)?;
    if place < numbers.len() {
        return Ok(numbers[place]);
    }
    numbers.push(next)?;
    Ok(next)
}
