// The claims of the entries that were read.
ghost use Rattle.std.specs.Prelude.{◌≡◌, ℕ, ◌≤◌, ◌<◌, ◌&&◌, not, map, length, IfOk, MatchOption};
ghost use Rattle.ml_lists.specs.Ascending.{IsAscending};
ghost use Rattle.ml_lists.specs.Times.{IsApart};
ghost use Rattle.ml_pgsolver.specs.private.Assembled.{is_unknown};
ghost use Rattle.ml_pgsolver.specs.private.Claiming.{AreEntered, AreNoClaims, AreRowClaims, IsPlaceOf, IsRowClaim, RowHasStranger, RowsHaveStranger, is_reference, stranger_from, move_ids};
ghost use Rattle.ml_pgsolver.specs.private.Machine.{is_among};
ghost use Rattle.ml_pgsolver.specs.private.Signs.{signs_from};
ghost use Rattle.ml_lists.specs.Member.{IsMember};

use crate::assembling::place_of;
use crate::entries::EntryRow;
use crate::reading::sign_place;
use crate::scan::{Numeral, Sign, next_sign};
use ml_base::NoMemory;
use ml_game_check::Claim;
use std::alloc::Global;

// the place of a move's vertex, if there is a move; or `None` where it is no id
fn move_place(ids: &[u32], move_to: Option<u32>) -> Option<Option<u64>>
    requires { IsAscending ids.now }
    ensures { MatchOption result
        ((n : ℕ) × IsMember n (move_ids move_to) × (IsMember n ids.now → ⊥))
        (IsPlaceOf ids.now move_to) }
{
    match move_to {
        None => Some(None),
        Some(to) => match place_of(ids, u64::from(to)) {
            Some(place) => Some(Some(place)),
            None => None,
        },
    }
}

// the vertex and the claim of an entry, or `None` where one of its ids is none
fn claim_of(ids: &[u32], row: EntryRow) -> Option<(u64, Claim)>
    requires { IsAscending ids.now }
    ensures { MatchOption result (RowHasStranger ids.now row) (λ r. IsRowClaim ids.now row r.0 r.1) }
{
    match place_of(ids, u64::from(row.vertex)) {
        None => None,
        Some(vertex) => match move_place(ids, row.move_to) {
            None => None,
            Some(move_to) => Some((
                vertex,
                Claim {
                    winner: row.winner,
                    move_to,
                },
            )),
        },
    }
}

// places for claims, all empty
fn no_claims(alloc: Global, many: usize) -> Result<Vec<Option<Claim>>, NoMemory>
    ensures { IfOk result (λ claims. AreNoClaims claims.items many) }
{
    let mut claims = Vec::with_capacity(alloc, many)?;
    for _ in 0..many {
        claims.push(None)?;
    }
    Ok(claims)
}

// the claims of the entries, in their places: are all their ids ids?
fn enter_claims(claims: &mut [Option<Claim>], ids: &[u32], rows: &[EntryRow]) -> bool
    requires ascend { IsAscending ids.now }
    requires apart { IsApart (map (λ r. r.vertex) rows.now) }
    requires empty { AreNoClaims claims.old (length ids.now) }
    ensures { AreEntered result ids.now rows.now claims.new }
{
    for row in rows {
        match claim_of(ids, *row) {
            Some((vertex, claim)) => claims[vertex as usize] = Some(claim),
            None => return false,
        }
    }
    true
}

// for each of these vertices the claim of its entry, or `None` where some id of an entry is none
pub(crate) fn claims_of(
    alloc: Global,
    ids: &[u32],
    rows: &[EntryRow],
) -> Result<Option<Vec<Option<Claim>>>, NoMemory>
    requires ascend { IsAscending ids.now }
    requires apart { IsApart (map (λ r. r.vertex) rows.now) }
    ensures { IfOk result (λ o. MatchOption o
        (RowsHaveStranger ids.now rows.now)
        (λ claims. AreRowClaims ids.now rows.now claims.items)) }
{
    let mut claims = no_claims(alloc, ids.len())?;
    let all = enter_claims(&mut claims, ids, rows);
    Ok(if all { Some(claims) } else { None })
}

// is this number none of the ids?
fn is_unknown_id(ids: &[u32], id: u32) -> bool
    requires { IsAscending ids.now }
    ensures { result ≡ not (is_among ids.now id) }
{
    match place_of(ids, u64::from(id)) {
        Some(_) => false,
        None => true,
    }
}

// is this a number, and none of the ids?
fn is_unknown(ids: &[u32], sign: Sign) -> bool
    requires { IsAscending ids.now }
    ensures { result ≡ is_unknown ids.now sign }
{
    match sign {
        Sign::Number(
            Numeral {
                value: Some(id),
                ..
            },
        ) => is_unknown_id(ids, id),
        _ => false,
    }
}

// is a number behind so many tokens the vertex or the move of an entry?
fn is_reference(place: usize) -> bool
    ensures { result ≡ is_reference place }
{
    place == 0 || place == 2
}

// is this sign the vertex or the move of an entry, and none of the ids?
fn is_stranger(ids: &[u32], place: usize, sign: Sign) -> bool
    requires { IsAscending ids.now }
    ensures { result ≡ (is_reference place && is_unknown ids.now sign) }
{
    is_reference(place) && is_unknown(ids, sign)
}

// the byte of the first id of an entry that is none of these ids, in the solution that begins behind the byte `from`
pub(crate) fn first_stranger(text: &[u8], from: usize, ids: &[u32]) -> u64
    requires ascend { IsAscending ids.now }
    requires from { from ≤ length text.now }
    requires some { 0 < from }
    ensures { result ≡ stranger_from ids.now (length text.now) 1 (signs_from text.now from) }
{
    // the word stands before the first token
    let mut place = 1;
    let mut at = from;
    while let Some(placed) = next_sign(text, at) {
        if is_stranger(ids, place, placed.sign) {
            return placed.start as u64;
        }
        place = sign_place(place, placed.sign);
        at = placed.end;
    }
    text.len() as u64
}
