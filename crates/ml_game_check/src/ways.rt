// The game of ways, in which the opponent of the claimed winner owns each vertex.

ghost use Rattle.std.specs.Prelude.{◌≡◌, ◌<◌, IfOk, length};
ghost use Rattle.ml_parity.specs.Game.{IsGame, moves_of, owner_of, size};
ghost use Rattle.ml_parity.specs.Refusal.{lists_of};
ghost use Rattle.ml_game_check.specs.RightClaims.{claim_at};
ghost use Rattle.ml_game_check.specs.private.Early.{KeepsEarly};
ghost use Rattle.ml_game_check.specs.private.WayGame.{IsWayGame, AreOwners, AreWays, move_claimed, way_owner, ways_of};

use crate::claims::Claim;
use ml_base::NoMemory;
use ml_parity::{Game, Player};
use std::alloc::Global;

/// Who owns a vertex with this claim or none.
fn way_owner(owner: Player, claim: Option<Claim>) -> Player
    ensures { result ≡ way_owner owner claim }
{
    match claim {
        Some(claim) => claim.winner.opponent(),
        None => owner,
    }
}

/// The one move of a vertex whose owner is claimed to win it.
fn move_of(owner: Player, claim: Option<Claim>) -> Option<u64>
    ensures { result ≡ move_claimed owner claim }
{
    match claim {
        Some(claim) if claim.winner == owner => claim.move_to,
        _ => None,
    }
}

/// The ways from a vertex of this owner with this claim or none, and these successors.
fn ways_at(
    alloc: Global,
    owner: Player,
    claim: Option<Claim>,
    moves: &[u64],
) -> Result<Vec<u64>, NoMemory>
    ensures { IfOk result (λ ways. ways.items ≡ ways_of owner claim moves.now) }
{
    match move_of(owner, claim) {
        Some(to) => Ok(Vec::from_slice(alloc, &[to])?),
        None => Ok(Vec::from_slice(alloc, moves)?),
    }
}

/// Who owns each vertex.
fn way_owners(
    alloc: Global,
    owners: &[Player],
    claims: &[Option<Claim>],
) -> Result<Vec<Player>, NoMemory>
    requires { length claims.now ≡ length owners.now }
    ensures { IfOk result (λ made. AreOwners owners.now claims.now made.items (length owners.now)) }
{
    let mut made = Vec::with_capacity(alloc, owners.len())?;
    for vertex in 0..owners.len() {
        made.push(way_owner(owners[vertex], claims[vertex]))?;
    }
    Ok(made)
}

/// The ways from each vertex.
fn ways(
    alloc: Global,
    owners: &[Player],
    successors: &[Vec<u64>],
    claims: &[Option<Claim>],
) -> Result<Vec<Vec<u64>>, NoMemory>
    requires claims { length claims.now ≡ length owners.now }
    requires successors { length successors.now ≡ length owners.now }
    ensures { IfOk result (λ made. AreWays owners.now (lists_of successors.now) claims.now (lists_of made.items) (length owners.now)) }
{
    let mut made = Vec::with_capacity(alloc, owners.len())?;
    for vertex in 0..owners.len() {
        made.push(ways_at(alloc, owners[vertex], claims[vertex], &successors[vertex])?)?;
    }
    Ok(made)
}

/// The game of ways.
pub(crate) fn way_game(
    alloc: Global,
    game: &Game,
    claims: &[Option<Claim>],
) -> Result<Game, NoMemory>
    requires { KeepsEarly game.now claims.now }
    ensures made { IfOk result (IsWayGame game.now claims.now) }
    ensures game { IfOk result (λ _. IsGame game.now) }
{
    let owner = way_owners(alloc, &game.owner, claims)?;
    let successors = ways(alloc, &game.owner, &game.successors, claims)?;
    let priority = Vec::from_slice(alloc, &game.priority)?;
    Ok(Game {
        owner,
        priority,
        successors,
    })
}
