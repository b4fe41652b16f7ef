// The places of a word automaton, found one after the other.
ghost use Rattle.std.specs.Prelude.{◌≡◌, ◌<◌, ◌≤◌, ℕ, List, [], ◌∷◌, IfOk, OnOk, IsErrOf, length};
ghost use Rattle.ml_graph.specs.Graph.{IsGraph, size};
ghost use Rattle.ml_lists.specs.Added.{IsAdded};
ghost use Rattle.ml_lists.specs.Ascending.{IsAscending};
ghost use Rattle.ml_translate.specs.Places.{HasMorePlaces};
ghost use Rattle.ml_translate.specs.declared.refusal.TranslateRefusal.TheVariants as refusal;
ghost use Rattle.ml_translate.specs.private.Finding.{AreNumbers, ArePlaces, IsBegun, IsFollowed, IsFull, IsGrown, IsPassed, Overflows, place_at, places_in, props_of};

use crate::cube::Cube;
use crate::following::{Behind, Reading, walk_on};
use crate::place::Place;
use crate::propositions::Propositions;
use crate::refusal::TranslateRefusal;
use indexmap::IndexSet;
use ml_base::NoMemory;
use ml_word_automaton::WordAutomaton;
use std::alloc::Global;

// a place behind the others, unless it is there
fn add_place(places: &mut IndexSet<Place>, place: Place) -> Result<usize, NoMemory>
    ensures { IfOk result (IsAdded places.old.keys place places.new.keys) }
{
    let (at, _) = places.insert_full(place)?;
    Ok(at)
}

// a place behind the others, unless it is there, if that many are allowed
fn add(places: &mut IndexSet<Place>, place: Place, limit: u32) -> Result<(), TranslateRefusal>
    requires few { length places.old.keys ≤ limit }
    ensures grown { OnOk result (IsGrown (place ∷ []) places.old.keys places.new.keys) }
    ensures few { OnOk result (length places.new.keys ≤ limit) }
    ensures passed { IsErrOf result refusal.Passed → IsFull limit places.old.keys place }
    ensures fits { ¬ (IsErrOf result refusal.ClosureTooLarge) }
{
    let _number = add_place(places, place)?;
    if places.len() > limit as usize {
        return Err(TranslateRefusal::Passed);
    }
    Ok(())
}

// the places to which a walk goes on
fn add_all(places: &mut IndexSet<Place>, behind: Behind, limit: u32) -> Result<(), TranslateRefusal>
    requires few { length places.old.keys ≤ limit }
    ensures grown { OnOk result (IsGrown (places_in behind) places.old.keys places.new.keys) }
    ensures few { OnOk result (length places.new.keys ≤ limit) }
    ensures passed { IsErrOf result refusal.Passed → Overflows limit (places_in behind) places.old.keys }
    ensures fits { ¬ (IsErrOf result refusal.ClosureTooLarge) }
{
    match behind {
        Behind::Nothing => Ok(()),
        Behind::One(place) => add(places, place, limit),
        Behind::Two(left, right) => {
            add(places, left, limit)?;
            add(places, right, limit)
        }
    }
}

// where walks from the states begin
fn begin_all(
    alloc: Global,
    automaton: &WordAutomaton,
    limit: u32,
    places: &mut IndexSet<Place>,
) -> Result<(), TranslateRefusal>
    requires none { places.old.keys ≡ [] }
    ensures begun { OnOk result ((props : List (List ℕ))
        → IsBegun automaton.now props (length automaton.now.states) limit places.new.keys) }
    ensures passed { IsErrOf result refusal.Passed → (props : List (List ℕ)) → HasMorePlaces automaton.now props limit }
    ensures fits { ¬ (IsErrOf result refusal.ClosureTooLarge) }
{
    for (state, node) in automaton.states().iter().enumerate() {
        let place = Place {
            state: state as u32,
            node: *node,
            cube: Cube::of(Vec::new(alloc)),
        };
        add(places, place, limit)?;
    }
    Ok(())
}

// the places behind the place with this number
fn follow(
    alloc: Global,
    reading: &Reading,
    places: &mut IndexSet<Place>,
    at: usize,
    limit: u32,
) -> Result<(), TranslateRefusal>
    requires graph { IsGraph reading.now.graph.now }
    requires numbers { AreNumbers reading.now.graph.now reading.now.propositions.now.names.items reading.now.propositions.now.numbers.items }
    requires at { at < length places.old.keys }
    requires node { (place_at places.old.keys at).node < size reading.now.graph.now }
    requires ascends { IsAscending (props_of (place_at places.old.keys at).cube) }
    requires few { length places.old.keys ≤ limit }
    ensures followed { OnOk result (IsFollowed reading.now.graph.now reading.now.propositions.now.names.items
        places.old.keys at places.new.keys) }
    ensures few { OnOk result (length places.new.keys ≤ limit) }
    ensures passed { IsErrOf result refusal.Passed → IsPassed reading.now.graph.now
        reading.now.propositions.now.names.items places.old.keys at limit }
    ensures fits { ¬ (IsErrOf result refusal.ClosureTooLarge) }
{
    let behind = walk_on(alloc, reading, &places.as_slice()[at])?;
    add_all(places, behind, limit)
}

// all places of the automaton
pub(crate) fn places_of(
    alloc: Global,
    automaton: &WordAutomaton,
    propositions: &Propositions,
    limit: u32,
) -> Result<IndexSet<Place>, TranslateRefusal>
    requires numbers { AreNumbers automaton.now.graph propositions.now.names.items propositions.now.numbers.items }
    ensures places { IfOk result (λ places. ArePlaces automaton.now propositions.now.names.items places.keys) }
    ensures few { IfOk result (λ places. length places.keys ≤ limit) }
    ensures passed { IsErrOf result refusal.Passed → HasMorePlaces automaton.now propositions.now.names.items limit }
    ensures fits { ¬ (IsErrOf result refusal.ClosureTooLarge) }
{
    let _states = automaton.states();
    let reading = Reading {
        graph: automaton.graph(),
        propositions,
    };
    let _size = reading.graph.size();
    let mut places = IndexSet::new(alloc);
    begin_all(alloc, automaton, limit, &mut places)?;
    let mut done = 0;
    while done < places.len() {
        follow(alloc, &reading, &mut places, done, limit)?;
        done += 1;
    }
    Ok(places)
}
