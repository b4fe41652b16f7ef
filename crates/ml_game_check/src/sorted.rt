// The check of vertices in a row: where they are sorted, no cycle is bad.

ghost use Rattle.std.specs.Prelude.{◌≡◌, ℕ, ◌<◌, ◌≤◌, ◌↔◌, Contains, IfOk, IsTrue, MatchOption, length, get_or, Some};
ghost use Rattle.ml_parity.specs.Game.{owner_of, priority_of, size};
ghost use Rattle.ml_parity.specs.Player.{side};
ghost use Rattle.ml_parity.specs.declared.players.Player.{Player};
ghost use Rattle.ml_game_check.specs.RightClaims.{IsClaimed, claim_at};
ghost use Rattle.ml_game_check.specs.private.Seams.{AreRuns, ComesBy, IsBound, IsOpen, IsSorted, IsSortedAt, at};

use crate::claims::Claim;
use ml_base::NoMemory;
use ml_parity::{Game, Player};
use std::alloc::Global;

/// Vertices in a row, with a number at each seam between neighbouring places.
#[derive(Drop)]
pub(crate) struct Row {
    /// The place of each vertex.
    pub places: Vec<u32>,
    pub seams: Vec<u32>,
}

/// A place behind a seam, up to which no seam is lower, where such places behind other seams are known.
fn run_end(seams: &[u32], ends: &[usize], start: usize) -> usize
    requires start { start < length seams.now }
    requires runs { AreRuns seams.now ends.now }
    ensures { (x : ℕ) → start ≤ x → x < result → at seams.now start ≤ at seams.now x }
{
    let mut stop = start + 1;
    for _ in start..seams.len() {
        if stop >= seams.len() {
            return stop;
        }
        if seams[stop] < seams[start] {
            return stop;
        }
        stop = ends[stop];
    }
    stop
}

/// For each seam a place up to which no seam is lower.
fn runs(alloc: Global, seams: &[u32]) -> Result<Vec<usize>, NoMemory>
    ensures { IfOk result (λ ends. AreRuns seams.now ends.items) }
{
    let mut ends = Vec::with_capacity(alloc, seams.len())?;
    for start in 0..seams.len() {
        ends.push(start + 1)?;
    }
    for start in (0..seams.len()).rev() {
        ends[start] = run_end(seams, &ends, start);
    }
    Ok(ends)
}

/// A place up to which no seam is as low as the priority.
fn open_end(seams: &[u32], ends: &[usize], start: usize, priority: u32) -> usize
    requires { AreRuns seams.now ends.now }
    ensures { IsOpen (at seams.now) priority start result }
{
    let mut stop = start;
    for _ in start..seams.len() {
        if stop >= seams.len() {
            return stop;
        }
        if seams[stop] <= priority {
            return stop;
        }
        stop = ends[stop];
    }
    stop
}

/// How far ways may lead from the place of a vertex, if that is known.
fn bound(
    seams: &[u32],
    ends: &[usize],
    place: usize,
    priority: u32,
    player: Player,
) -> Option<usize>
    requires { AreRuns seams.now ends.now }
    ensures { MatchOption result (Unit {0}) (IsBound (at seams.now) priority player place) }
{
    if Player::of_priority(priority) == player {
        return Some(open_end(seams, ends, place, priority));
    }
    if place == 0 || seams.len() < place {
        return None;
    }
    if seams[place - 1] <= priority {
        Some(place - 1)
    } else {
        None
    }
}

/// The place of a vertex.
fn place_of(places: &[u32], vertex: u64) -> usize
    ensures { result ≡ at places.now vertex }
{
    match places.get(vertex as usize) {
        Some(place) => *place as usize,
        None => 0,
    }
}

/// Are the places of all these vertices within the bound?
fn all_by(places: &[u32], vertices: &[u64], bound: usize) -> bool
    ensures { IsTrue result → (w : ℕ) → Contains vertices.now w → at places.now w ≤ bound }
{
    for vertex in vertices {
        if bound < place_of(places, *vertex) {
            return false;
        }
    }
    true
}

/// Do all ways from a vertex lead to places within the bound?
fn comes_by(
    game: &Game,
    claims: &[Option<Claim>],
    places: &[u32],
    vertex: usize,
    claim: Claim,
    bound: usize,
) -> bool
    requires vertex { vertex < size game.now }
    requires claimed { claim_at claims.now vertex ≡ Some claim }
    ensures { IsTrue result → ComesBy game.now claims.now (at places.now) claim.winner vertex bound }
{
    if game.owner[vertex] == claim.winner {
        match claim.move_to {
            Some(to) => place_of(places, to) <= bound,
            None => true,
        }
    } else {
        all_by(places, &game.successors[vertex], bound)
    }
}

/// Is this vertex sorted for the player whom its claim names?
fn is_sorted_as(
    game: &Game,
    claims: &[Option<Claim>],
    row: &Row,
    ends: &[usize],
    vertex: usize,
    claim: Claim,
) -> bool
    requires vertex { vertex < size game.now }
    requires claimed { claim_at claims.now vertex ≡ Some claim }
    requires runs { AreRuns row.now.seams.items ends.now }
    ensures { IsTrue result
        → IsSortedAt game.now claims.now (at row.now.places.items) (at row.now.seams.items) claim.winner vertex }
{
    let place = place_of(&row.places, vertex as u64);
    match bound(&row.seams, ends, place, game.priority[vertex], claim.winner) {
        Some(bound) => comes_by(game, claims, &row.places, vertex, claim, bound),
        None => false,
    }
}

/// Is this vertex sorted, if it is claimed for a player?
fn is_sorted_at(
    game: &Game,
    claims: &[Option<Claim>],
    row: &Row,
    ends: &[usize],
    vertex: usize,
) -> bool
    requires vertex { vertex < size game.now }
    requires places { length claims.now ≡ size game.now }
    requires runs { AreRuns row.now.seams.items ends.now }
    ensures { IsTrue result
        → (p : Player) → IsClaimed claims.now p vertex
        → IsSortedAt game.now claims.now (at row.now.places.items) (at row.now.seams.items) p vertex }
{
    match claims[vertex] {
        Some(claim) => is_sorted_as(game, claims, row, ends, vertex, claim),
        None => true,
    }
}

/// Are all vertices with claims sorted?
pub(crate) fn is_sorted(
    alloc: Global,
    game: &Game,
    claims: &[Option<Claim>],
    row: &Row,
) -> Result<bool, NoMemory>
    requires { length claims.now ≡ size game.now }
    ensures { IfOk result (λ b. IsTrue b
        → IsSorted game.now claims.now (at row.now.places.items) (at row.now.seams.items)) }
{
    let ends = runs(alloc, &row.seams)?;
    Ok(all_sorted(game, claims, row, &ends))
}

/// The same, where runs are known.
fn all_sorted(game: &Game, claims: &[Option<Claim>], row: &Row, ends: &[usize]) -> bool
    requires places { length claims.now ≡ size game.now }
    requires runs { AreRuns row.now.seams.items ends.now }
    ensures { IsTrue result
        → IsSorted game.now claims.now (at row.now.places.items) (at row.now.seams.items) }
{
    for vertex in 0..claims.len() {
        if !is_sorted_at(game, claims, row, ends, vertex) {
            return false;
        }
    }
    true
}
