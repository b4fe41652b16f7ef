// What was found at the positions so far, by their numbers.
ghost use Rattle.std.specs.Prelude.{◌≡◌, ◌<◌, ◌≤◌, ◌↔◌, ℕ, [], IsTrue, IfOk, OnOk, length, get_or};
ghost use Rattle.ml_product.specs.declared.recorded.Recorded.TheVariants.{Waiting};
ghost use Rattle.ml_product.specs.private.Recorded.{IsLike};
ghost use Rattle.ml_product.specs.private.Exploring.{IsWaiting, Records};

use crate::recorded::Recorded;
use ml_base::NoMemory;
use std::alloc::Global;
use std::marker::Model;

/// What was found at the positions so far; of those behind the end, nothing yet. Contracts see the list.
#[derive(Drop)]
pub(crate) struct Turns {
    all: Vec<Recorded>,
}

impl Model for Turns {
    ghost use Rattle.std.specs.Prelude.{List};
    ghost use Rattle.ml_product.specs.declared.recorded.Recorded.{Recorded};

    ghost Value = { List Recorded };

    ghost view = { λ a. a.all.items };
}

impl Turns {
    // nothing was found yet
    pub(crate) fn new(alloc: Global) -> Turns
        ensures { result ≡ [] }
    {
        Turns {
            all: Vec::new(alloc),
        }
    }

    // was nothing found yet at the position with this number?
    pub(crate) fn is_waiting(&self, v: u32) -> bool
        ensures { IsTrue result ↔ IsWaiting self.now v }
    {
        match self.all.get(v as usize) {
            Some(found) => matches!(found, Recorded::Waiting),
            None => true,
        }
    }

    // records what was found
    pub(crate) fn record(&mut self, v: u32, found: Recorded) -> Result<(), NoMemory>
        ensures { OnOk result (Records self.old v found self.new) }
    {
        make_room(&mut self.all, v as usize)?;
        self.all[v as usize] = found;
        Ok(())
    }

    // what was found at the position with this number, once more
    pub(crate) fn found(&self, v: u32) -> Result<Recorded, NoMemory>
        ensures { IfOk result (λ found. IsLike found (get_or self.now v Waiting)) }
    {
        match self.all.get(v as usize) {
            Some(found) => found.copy(*self.all.allocator()),
            None => Ok(Recorded::Waiting),
        }
    }

    // what was found, in the order of numbers
    pub(crate) fn into_vec(self) -> Vec<Recorded>
        ensures { result.items ≡ self }
    {
        self.all
    }
}

// makes room for a number
fn make_room(all: &mut Vec<Recorded>, v: usize) -> Result<(), NoMemory>
    ensures room { OnOk result (v < length all.new.items) }
    ensures same { OnOk result
        ((w : ℕ) → get_or all.new.items w Waiting ≡ get_or all.old.items w Waiting) }
    ensures few { OnOk result
        ((n : ℕ) → length all.old.items ≤ n → v < n → length all.new.items ≤ n) }
{
    while all.len() <= v {
        all.push(Recorded::Waiting)?;
    }
    Ok(())
}
