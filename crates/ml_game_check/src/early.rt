// The first three rules, which are looked up at each vertex by itself.

ghost use Rattle.std.specs.Prelude.{◌≡◌, ℕ, ◌<◌, ◌↔◌, Contains, IsTrue, MatchOption, length, Some};
ghost use Rattle.ml_parity.specs.Game.{IsGame, moves_of, owner_of, size};
ghost use Rattle.ml_game_check.specs.RightClaims.{IsClaimed, claim_at};
ghost use Rattle.ml_game_check.specs.Verdicts.{BreaksEarly, IsBroken};
ghost use Rattle.ml_game_check.specs.private.Early.{IsFirstRule, KeepsEarly};

use crate::claims::Claim;
use crate::verdict::{Rule, Verdict};
use ml_parity::{Game, Player};

/// Is this claim for this player?
fn is_for(claim: Claim, player: Player) -> bool
    ensures { IsTrue result ↔ (claim.winner ≡ player) }
{
    claim.winner == player
}

/// Is this vertex claimed for this player?
fn is_claimed(claims: &[Option<Claim>], player: Player, vertex: u64) -> bool
    ensures { IsTrue result ↔ IsClaimed claims.now player vertex }
{
    match claims.get(vertex as usize) {
        Some(Some(claim)) => is_for(*claim, player),
        _ => false,
    }
}

/// One of these vertices that is not claimed for this player, if there is one.
fn unclaimed(claims: &[Option<Claim>], player: Player, vertices: &[u64]) -> Option<u64>
    ensures { MatchOption result
        ((w : ℕ) → Contains vertices.now w → IsClaimed claims.now player w)
        (λ w. Contains vertices.now w × (IsClaimed claims.now player w → ⊥)) }
{
    for vertex in vertices {
        if !is_claimed(claims, player, *vertex) {
            return Some(*vertex);
        }
    }
    None
}

/// The first rule that the claim of this player breaks, by which the player wins a vertex of the player's own.
fn own_break(game: &Game, claims: &[Option<Claim>], vertex: usize, claim: Claim) -> Option<Rule>
    requires vertex { vertex < size game.now }
    requires claimed { claim_at claims.now vertex ≡ Some claim }
    requires own { owner_of game.now vertex ≡ claim.winner }
    ensures { MatchOption result (BreaksEarly game.now claims.now vertex → ⊥) (IsFirstRule game.now claims.now vertex) }
{
    let Some(to) = claim.move_to else {
        return Some(Rule::HasMove);
    };
    if !moves_at(game, vertex).contains(&to) {
        return Some(Rule::MovesAlong);
    }
    if is_claimed(claims, claim.winner, to) {
        None
    } else {
        Some(Rule::StaysClaimed)
    }
}

/// The first rule that a claim breaks, by which a vertex's owner doesn't win it.
fn other_break(game: &Game, claims: &[Option<Claim>], vertex: usize, claim: Claim) -> Option<Rule>
    requires vertex { vertex < size game.now }
    requires claimed { claim_at claims.now vertex ≡ Some claim }
    requires other { owner_of game.now vertex ≡ claim.winner → ⊥ }
    ensures { MatchOption result (BreaksEarly game.now claims.now vertex → ⊥) (IsFirstRule game.now claims.now vertex) }
{
    match unclaimed(claims, claim.winner, moves_at(game, vertex)) {
        Some(_) => Some(Rule::StaysClaimed),
        None => None,
    }
}

/// The successors of a vertex.
pub(crate) fn moves_at(game: &Game, vertex: usize) -> &[u64]
    requires { vertex < size game.now }
    ensures { result.now ≡ moves_of game.now vertex }
{
    &game.successors[vertex]
}

/// The first of the first three rules that the claim of a vertex breaks, if it breaks one.
fn early_break(game: &Game, claims: &[Option<Claim>], vertex: usize) -> Option<Rule>
    requires vertex { vertex < size game.now }
    requires places { length claims.now ≡ size game.now }
    ensures { MatchOption result (BreaksEarly game.now claims.now vertex → ⊥) (IsFirstRule game.now claims.now vertex) }
{
    match claims[vertex] {
        None => None,
        Some(claim) => {
            if game.owner[vertex] == claim.winner {
                own_break(game, claims, vertex, claim)
            } else {
                other_break(game, claims, vertex, claim)
            }
        }
    }
}

/// The least vertex whose claim breaks one of the first three rules, with the lowest of them, if there is one.
pub(crate) fn first_early_break(game: &Game, claims: &[Option<Claim>]) -> Option<(u64, Rule)>
    requires places { length claims.now ≡ size game.now }
    ensures { MatchOption result
        (KeepsEarly game.now claims.now)
        (λ r. IsBroken game.now claims.now r.0 r.1) }
{
    for vertex in 0..claims.len() {
        if let Some(rule) = early_break(game, claims, vertex) {
            return Some((vertex as u64, rule));
        }
    }
    None
}
