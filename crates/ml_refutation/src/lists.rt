// Lists of numbers in one array.
ghost use Rattle.std.specs.Prelude.{◌≡◌, ◌<◌, ◌≤◌, [], ◌∷◌, ◌++◌, length, slice_index_or, IfOk, OnOk, OnErr};
ghost use Rattle.ml_refutation.specs.private.Rows.{part};

use ml_base::NoMemory;
use std::alloc::Global;
use std::marker::Model;

/// Lists of numbers, one behind the other in one array, each named by its place: so many entries and items can have one
/// sequent or stack. Contracts see the list of the lists.
#[derive(Debug, Drop)]
pub struct Lists {
    numbers: Vec<u32>,
    /// Where each list ends; the next one begins there.
    ends: Vec<usize>,
}

impl Model for Lists {
    ghost use Rattle.std.specs.Prelude.{ℕ, List};

    ghost Value = { List (List ℕ) };

    ghost use Rattle.ml_refutation.specs.private.Rows.{rows, AreEnds};
    ghost use Rattle.std.specs.Prelude.{length};

    ghost view = { λ l. rows 0 l.ends.items l.numbers.items };

    ghost invariant = { λ l. AreEnds 0 l.ends.items (length l.numbers.items) };
}

impl Lists {
    /// No lists.
    ///
    /// Cost: constant.
    pub fn new(alloc: Global) -> Lists
        ensures { result ≡ [] }
    {
        Lists {
            numbers: Vec::new(alloc),
            ends: Vec::new(alloc),
        }
    }

    /// How many lists there are.
    ///
    /// Cost: constant.
    pub fn len(&self) -> usize
        ensures { result ≡ length self.now }
    {
        self.ends.len()
    }

    /// The list at a place; past the last one, the empty list.
    ///
    /// Cost: constant.
    pub fn at(&self, place: usize) -> &[u32]
        ensures { result.now ≡ slice_index_or self.now place [] }
    {
        let ends = self.ends.as_slice();
        if place < ends.len() {
            part(self.numbers.as_slice(), start_of(ends, place), ends[place])
        } else {
            &[]
        }
    }

    /// Adds a list, and tells its place.
    ///
    /// # Errors
    /// `NoMemory` alone, and then the lists are as before.
    ///
    /// Cost: linear in the list, amortised.
    pub fn push(&mut self, list: &[u32]) -> Result<usize, NoMemory>
        ensures place { IfOk result (λ place. place ≡ length self.old) }
        ensures lists { OnOk result (self.new ≡ self.old ++ list.now ∷ []) }
        ensures kept { OnErr result (self.new ≡ self.old) }
    {
        let place = self.ends.len();
        self.ends.reserve(1)?;
        self.numbers.extend_from_slice(list)?;
        self.ends.push_reserved(self.numbers.len());
        Ok(place)
    }
}

/// Where the list at a place starts: where the one before it ends.
fn start_of(ends: &[usize], place: usize) -> usize
    requires { place < length ends.now }
    ensures { result ≡ slice_index_or (0 ∷ ends.now) place 0 }
{
    match place.checked_sub(1) {
        Some(before) => ends[before],
        None => 0,
    }
}

/// The numbers from one place on, up to another one.
fn part(numbers: &[u32], start: usize, end: usize) -> &[u32]
    requires rises { start ≤ end }
    requires fits { end ≤ length numbers.now }
    ensures { result.now ≡ part numbers.now start end }
{
    &numbers[start..end]
}
