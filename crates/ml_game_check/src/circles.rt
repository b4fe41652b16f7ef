// The check of choices that lead round where the lowest priority is bad.

ghost use Rattle.std.specs.Prelude.{◌≡◌, ℕ, ◌<◌, ◌↔◌, All, IsTrue, MatchOption, length, get_or, Some};
ghost use Rattle.ml_parity.specs.declared.players.Player.{Player};
ghost use Rattle.ml_parity.specs.Game.{HasMove, owner_of, priority_of, size};
ghost use Rattle.ml_parity.specs.Player.{opponent, side};
ghost use Rattle.ml_parity.specs.Solution.{choice_at};
ghost use Rattle.ml_game_check.specs.RightClaims.{BreaksFour, IsClaimed, IsWay, claim_at};
ghost use Rattle.ml_game_check.specs.private.Cycles.{IsLowestFrom};
ghost use Rattle.ml_game_check.specs.private.Early.{KeepsEarly};
ghost use Rattle.ml_game_check.specs.private.Fourth.{AreChosen};

use crate::claims::Claim;
use crate::cycles::{lowest_on_cycle, priorities_of};
use crate::early::moves_at;
use ml_parity::{Game, Player};

/// Choices that lead round from a vertex.
#[derive(Drop)]
pub(crate) struct Circle {
    pub start: usize,
    /// The choice at each vertex.
    pub choices: Vec<u64>,
}

/// Is this a way from a vertex of the claimed winner's?
fn is_own_way(claim: Claim, to: u64) -> bool
    ensures { IsTrue result → claim.move_to ≡ Some to }
{
    match claim.move_to {
        Some(choice) => choice == to,
        None => false,
    }
}

/// Is this a way from a vertex of the other player's?
fn is_other_way(game: &Game, vertex: usize, to: u64) -> bool
    requires { vertex < size game.now }
    ensures { IsTrue result → HasMove game.now vertex to }
{
    moves_at(game, vertex).contains(&to)
}

/// Is this a way?
fn is_way(game: &Game, claims: &[Option<Claim>], vertex: usize, claim: Claim, to: u64) -> bool
    requires vertex { vertex < size game.now }
    requires claimed { claim_at claims.now vertex ≡ Some claim }
    ensures { IsTrue result → IsWay game.now claims.now claim.winner vertex to }
{
    if game.owner[vertex] == claim.winner {
        is_own_way(claim, to)
    } else {
        is_other_way(game, vertex, to)
    }
}

/// Is the choice at this vertex a way, if the vertex is claimed for a player?
fn is_chosen(game: &Game, claims: &[Option<Claim>], vertex: usize, to: u64) -> bool
    requires vertex { vertex < size game.now }
    requires places { length claims.now ≡ size game.now }
    ensures { IsTrue result → (p : Player) → IsClaimed claims.now p vertex → IsWay game.now claims.now p vertex to }
{
    match claims[vertex] {
        Some(claim) => is_way(game, claims, vertex, claim, to),
        None => true,
    }
}

/// Are these choices vertices, and ways where vertices are claimed?
fn are_chosen(game: &Game, claims: &[Option<Claim>], choices: &[u64]) -> bool
    requires places { length claims.now ≡ size game.now }
    requires choices { length choices.now ≡ size game.now }
    ensures { IsTrue result → AreChosen game.now claims.now choices.now }
{
    for vertex in 0..choices.len() {
        if choices.len() as u64 <= choices[vertex] {
            return false;
        }
        if !is_chosen(game, claims, vertex, choices[vertex]) {
            return false;
        }
    }
    true
}

/// The lowest vertex of the cycle to which the choices lead from the vertex, if its priority is bad for the player.
fn bad_lowest(priorities: &[u32], choices: &[u64], start: usize, player: Player) -> Option<u64>
    requires start { start < length choices.now }
    requires within { All (λ w. w < length choices.now) choices.now }
    requires priorities { length priorities.now ≡ length choices.now }
    ensures { MatchOption result
        (Unit {0})
        (λ x. IsLowestFrom (choice_at choices.now) (λ v. get_or priorities.now v 0) (length choices.now) start x
        × (side (get_or priorities.now x 0) ≡ opponent player)) }
{
    let lowest = lowest_on_cycle(priorities, choices, start);
    if Player::of_priority(priorities[lowest]) == player {
        None
    } else {
        Some(lowest as u64)
    }
}

/// A vertex on the cycle to which the choices lead from a vertex with a claim, whose claim breaks the fourth rule, if the
/// choices pass the check.
fn bad_along(
    game: &Game,
    claims: &[Option<Claim>],
    choices: &[u64],
    start: usize,
    claim: Claim,
) -> Option<u64>
    requires early { KeepsEarly game.now claims.now }
    requires choices { length choices.now ≡ length claims.now }
    requires start { start < length choices.now }
    requires claimed { claim_at claims.now start ≡ Some claim }
    ensures { MatchOption result (Unit {0}) (λ v. (p : Player) × BreaksFour game.now claims.now p v) }
{
    if are_chosen(game, claims, choices) {
        bad_lowest(priorities_of(game), choices, start, claim.winner)
    } else {
        None
    }
}

/// A vertex on the circle whose claim breaks the fourth rule, if the circle passes the check.
pub(crate) fn bad_on_circle(game: &Game, claims: &[Option<Claim>], circle: &Circle) -> Option<u64>
    requires { KeepsEarly game.now claims.now }
    ensures { MatchOption result (Unit {0}) (λ v. (p : Player) × BreaksFour game.now claims.now p v) }
{
    if circle.choices.len() != claims.len() || claims.len() <= circle.start {
        return None;
    }
    match claims[circle.start] {
        Some(claim) => bad_along(game, claims, &circle.choices, circle.start, claim),
        None => None,
    }
}
