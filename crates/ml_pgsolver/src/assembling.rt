// The game of the rows that were read.
ghost use Rattle.std.specs.Prelude.{◌≡◌, ◌≤◌, ◌<◌, ◌-◌, map, get_or, length, All, IfOk, IsTrue, MatchOption, IsPermutation, ◌↔◌};
ghost use Rattle.std.specs.List.Sorted.{IsNonDecreasingBy};
ghost use Rattle.ml_lists.specs.Ascending.{IsAscending};
ghost use Rattle.ml_lists.specs.Member.{IsMember};
ghost use Rattle.ml_parity.specs.Refusal.{lists_of};
ghost use Rattle.ml_pgsolver.specs.GameText.{IsGameOf, IsLeastEvenFrom, id_at};
ghost use Rattle.ml_pgsolver.specs.Refusals.{greatest_number};
ghost use Rattle.ml_pgsolver.specs.private.Assembled.{ArePlaces, AreGiven, HasUnknown, HasUnknownIn, IsReadable, highest_of};
ghost use Rattle.ml_pgsolver.specs.private.Rows.{rows_view, row_view};

use crate::named::Named;
use crate::reader::Row;
use ml_base::{IdSet, NoMemory};
use ml_parity::{Game, Player};
use std::alloc::Global;

fn sort_by_id(rows: &mut Vec<Row>)
    ensures permutation { IsPermutation rows.old.items rows.new.items }
    ensures rise { IsNonDecreasingBy (λ r. r.id) rows.new.items }
{
    rows.sort_unstable_by_key(|row| row.id);
}

fn ids_of(alloc: Global, rows: &[Row]) -> Result<Vec<u32>, NoMemory>
    ensures { IfOk result (λ ids. ids.items ≡ map (λ r. r.id) rows.now) }
{
    Ok(rows.iter().map(|row| row.id).collect(alloc)?)
}

fn owners_of(alloc: Global, rows: &[Row]) -> Result<Vec<Player>, NoMemory>
    ensures { IfOk result (λ owners. owners.items ≡ map (λ r. r.owner) rows.now) }
{
    Ok(rows.iter().map(|row| row.owner).collect(alloc)?)
}

// the priorities, turned round
fn priorities_of(alloc: Global, rows: &[Row], top: u32) -> Result<Vec<u32>, NoMemory>
    ensures { IfOk result (λ priorities. priorities.items ≡ map (λ r. top - r.priority) rows.now) }
{
    Ok(
        rows.iter()
            .map(|row| top.saturating_sub(row.priority))
            .collect(alloc)?,
    )
}

fn highest_priority(rows: &[Row]) -> u32
    ensures { result ≡ highest_of 0 (rows_view rows.now) }
{
    let mut highest = 0;
    for row in rows {
        highest = row.priority.max(highest);
    }
    highest
}

// the least even number that is no smaller than any priority
fn least_even_from(rows: &[Row]) -> u32
    requires { All (λ r. r.priority ≤ greatest_number) rows.now }
    ensures { IsLeastEvenFrom (map (λ r. r.priority) rows.now) result }
{
    let highest = highest_priority(rows);
    highest + highest % 2
}

fn is_at_own_place(ids: &[u32], id: u64) -> bool
    ensures { IsTrue result ↔ ((id < length ids.now) × (get_or ids.now id 0 ≡ id)) }
{
    match ids.get(id as usize) {
        Some(found) => u64::from(*found) == id,
        None => false,
    }
}

// the place of an id
pub(crate) fn place_of(ids: &[u32], id: u64) -> Option<u64>
    requires { IsAscending ids.now }
    ensures { MatchOption result (IsMember id ids.now → ⊥) (λ i. (i < length ids.now) × (get_or ids.now i 0 ≡ id)) }
{
    // where the ids are all numbers from 0 on, each stands at its own place
    if is_at_own_place(ids, id) {
        return Some(id);
    }
    if id > u64::from(u32::MAX) {
        return None;
    }
    match ids.binary_search(&(id as u32)) {
        Ok(place) => Some(place as u64),
        Err(_) => None,
    }
}

// the places of successors, in place of their ids
fn places_of(mut successors: Vec<u64>, ids: &[u32]) -> Option<Vec<u64>>
    requires { IsAscending ids.now }
    ensures { MatchOption result
        (HasUnknown ids.now successors.items)
        (λ places. ArePlaces ids.now places.items successors.items) }
{
    for i in 0..successors.len() {
        match place_of(ids, successors[i]) {
            Some(place) => successors[i] = place,
            None => return None,
        }
    }
    Some(successors)
}

// the successors of the rows, as places
fn successors_of(
    alloc: Global,
    rows: Vec<Row>,
    ids: &[u32],
) -> Result<Option<Vec<Vec<u64>>>, NoMemory>
    requires { IsAscending ids.now }
    ensures { IfOk result (λ o. MatchOption o
        (HasUnknownIn ids.now (rows_view rows.items))
        (λ given. AreGiven ids.now (lists_of given.items) (rows_view rows.items))) }
{
    let mut given = Vec::with_capacity(alloc, rows.len())?;
    for row in rows {
        let Some(places) = places_of(row.successors, ids) else {
            return Ok(None);
        };
        given.push(places)?;
    }
    Ok(Some(given))
}

// the game of the rows with their ids, or `None` where some successor is no id
pub(crate) fn assemble(alloc: Global, mut rows: Vec<Row>) -> Result<Option<Named>, NoMemory>
    requires { IsReadable (rows_view rows.items) }
    ensures { IfOk result (λ o. MatchOption o
        (HasUnknownIn (map (λ r. r.id) rows.items) (rows_view rows.items))
        (IsGameOf (rows_view rows.items))) }
{
    sort_by_id(&mut rows);
    let ids = ids_of(alloc, &rows)?;
    let top = least_even_from(&rows);
    let owner = owners_of(alloc, &rows)?;
    let priority = priorities_of(alloc, &rows, top)?;
    let Some(successors) = successors_of(alloc, rows, &ids)? else {
        return Ok(None);
    };
    let game = Game {
        owner,
        priority,
        successors,
    };
    Ok(Some(Named::new(IdSet::from_ascending(ids), game)))
}
