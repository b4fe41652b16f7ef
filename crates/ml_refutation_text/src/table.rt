// A table of version 2: lists of a refutation, each once, in the order in which they are met first.
ghost use Rattle.std.specs.Prelude.{◌≡◌, [], None, slice_index_or, IfOk, OnOk, OnErr};
ghost use Rattle.ml_refutation_text.specs.WrittenText.{place_in};
ghost use Rattle.ml_refutation_text.specs.Canonical.{with_new};
ghost use Rattle.ml_refutation_text.specs.private.Collecting.{shown, IsPlace};

use indexmap::IndexSet;
use ml_base::NoMemory;
use ml_refutation::Lists;
use std::alloc::Global;
use std::marker::Model;

/// The lists of a refutation that were met, each once. Contracts see them, and all lists of the refutation.
#[derive(Drop)]
pub(crate) struct Table<'a> {
    all: &'a Lists,
    met: IndexSet<&'a [u32]>,
    /// For each place in `all` that was met the place of its list in `met`: so no list is hashed again.
    places: Vec<Option<usize>>,
}

impl<'a> Model for Table<'a> {
    ghost use Rattle.ml_refutation_text.specs.private.Collecting.{Collected, shown, ArePlaces};

    ghost Value = { Collected };

    ghost view = { λ t. record { all = t.all.now; met = shown t.met.keys } };

    ghost invariant = { λ t. ArePlaces t.all.now (shown t.met.keys) t.places.items };
}

impl<'a> Table<'a> {
    /// The table of which no list was met.
    ///
    /// Cost: linear in the number of lists.
    pub(crate) fn new(alloc: Global, all: &'a Lists) -> Result<Table<'a>, NoMemory>
        ensures all { IfOk result (λ table. table.all ≡ all.now) }
        ensures met { IfOk result (λ table. table.met ≡ []) }
    {
        let places = vec![in alloc; None; all.len()]?;
        Ok(Table {
            all,
            met: IndexSet::new(alloc),
            places,
        })
    }

    /// The lists that were met.
    pub(crate) fn met(&self) -> &[&'a [u32]]
        ensures { shown result.now ≡ self.now.met }
    {
        self.met.as_slice()
    }

    /// Meets the list at a place of the refutation, which goes into the table where it isn't there.
    ///
    /// Cost: constant, and at the first time linear in the list.
    pub(crate) fn meet(&mut self, place: usize) -> Result<(), NoMemory>
        ensures all { self.new.all ≡ self.old.all }
        ensures met { OnOk result (self.new.met ≡ with_new self.old.met (slice_index_or self.old.all place [])) }
    {
        match found(self.places.as_slice(), place) {
            Some(_) => Ok(()),
            None => self.meet_first(place),
        }
    }

    // the same, where nothing is known of the place: its list may stand at another one too
    fn meet_first(&mut self, place: usize) -> Result<(), NoMemory>
        ensures all { self.new.all ≡ self.old.all }
        ensures met { OnOk result (self.new.met ≡ with_new self.old.met (slice_index_or self.old.all place [])) }
    {
        let there = put(&mut self.met, self.all.at(place))?;
        if place < self.places.len() {
            self.places[place] = Some(there);
        }
        Ok(())
    }

    /// Where the list at a place of the refutation, which was met, stands in the table.
    ///
    /// Cost: constant.
    pub(crate) fn place_of(&self, place: usize) -> usize
        ensures { result ≡ place_in self.now.met (slice_index_or self.now.all place []) }
    {
        match found(self.places.as_slice(), place) {
            Some(there) => there,
            None => place_among(&self.met, self.all.at(place)),
        }
    }
}

// what is known of a place; nothing is of those past the end
fn found(places: &[Option<usize>], place: usize) -> Option<usize>
    ensures { result ≡ slice_index_or places.now place None }
{
    match places.get(place) {
        Some(there) => *there,
        None => None,
    }
}

// puts a list behind others, where it isn't one of them, and tells its place
fn put<'a>(lists: &mut IndexSet<&'a [u32]>, list: &'a [u32]) -> Result<usize, NoMemory>
    ensures place { IfOk result (λ place. IsPlace (shown lists.new.keys) list.now place) }
    ensures lists { OnOk result (shown lists.new.keys ≡ with_new (shown lists.old.keys) list.now) }
    ensures kept { OnErr result (lists.new.keys ≡ lists.old.keys) }
{
    let (place, _) = lists.insert_full(list)?;
    Ok(place)
}

// the place of a list among others; their number, where it isn't one of them
fn place_among(lists: &IndexSet<&[u32]>, list: &[u32]) -> usize
    ensures { result ≡ place_in (shown lists.now.keys) list.now }
{
    match lists.get_index_of(list) {
        Some(place) => place,
        None => lists.len(),
    }
}
