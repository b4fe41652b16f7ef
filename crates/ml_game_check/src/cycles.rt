// The fourth rule, by the solution of the game of ways.

ghost use Rattle.std.specs.Prelude.{◌≡◌, ℕ, ◌<◌, ◌↔◌, All, IfOk, IsTrue, MatchOption, length, get_or};
ghost use Rattle.ml_parity.specs.declared.players.Player.{Player};
ghost use Rattle.ml_parity.specs.Game.{IsGame, priority_of, size};
ghost use Rattle.ml_parity.specs.Solution.{IsSolution, choice_at, winner_at};
ghost use Rattle.ml_parity.specs.Player.{opponent};
ghost use Rattle.ml_lists.specs.Walk.{walk};
ghost use Rattle.ml_game_check.specs.RightClaims.{BreaksFour, claim_at};
ghost use Rattle.ml_game_check.specs.private.Cycles.{IsLower, IsLowestFrom};
ghost use Rattle.ml_game_check.specs.private.Early.{KeepsEarly};
ghost use Rattle.ml_game_check.specs.private.Fourth.{TellsFour};
ghost use Rattle.ml_game_check.specs.private.WayGame.{IsLost, IsWayGame, LeadsRound};

use crate::claims::Claim;
use crate::ways::way_game;
use ml_base::NoMemory;
use ml_parity::{Game, Player, Solution, solve};
use std::alloc::Global;

/// Is this vertex claimed for the opponent of its winner?
fn is_lost(claim: Option<Claim>, winner: Player) -> bool
    ensures { IsTrue result ↔ ((c : Claim) × (claim ≡ Some c) × (winner ≡ opponent c.winner)) }
{
    match claim {
        Some(claim) => winner == claim.winner.opponent(),
        None => false,
    }
}

/// The first vertex that is claimed for the opponent of its winner, if there is one.
fn first_lost(claims: &[Option<Claim>], winners: &[Player]) -> Option<usize>
    requires { length winners.now ≡ length claims.now }
    ensures { MatchOption result
        ((v : ℕ) → IsLost claims.now winners.now v → ⊥)
        (λ v. (v < length claims.now) × IsLost claims.now winners.now v) }
{
    for vertex in 0..claims.len() {
        if is_lost(claims[vertex], winners[vertex]) {
            return Some(vertex);
        }
    }
    None
}

/// Where so many choices lead from a vertex.
fn led(choices: &[u64], start: usize, steps: usize) -> usize
    requires start { start < length choices.now }
    requires within { All (λ w. w < length choices.now) choices.now }
    ensures there { result ≡ walk (choice_at choices.now) start steps }
    ensures low { result < length choices.now }
{
    let mut at = start;
    for _ in 0..steps {
        at = choices[at] as usize;
    }
    at
}

/// The one of two vertices with the lower priority, the first where they have the same.
fn lower_of(priorities: &[u32], vertex: usize, other: usize) -> usize
    requires vertex { vertex < length priorities.now }
    requires other { other < length priorities.now }
    ensures { IsLower (λ v. get_or priorities.now v 0) vertex other result }
{
    if priorities[other] < priorities[vertex] {
        other
    } else {
        vertex
    }
}

/// The lowest vertex of the cycle to which the choices lead from a vertex.
pub(crate) fn lowest_on_cycle(priorities: &[u32], choices: &[u64], start: usize) -> usize
    requires start { start < length choices.now }
    requires within { All (λ w. w < length choices.now) choices.now }
    requires priorities { length priorities.now ≡ length choices.now }
    ensures lowest { IsLowestFrom (choice_at choices.now) (λ v. get_or priorities.now v 0) (length choices.now) start result }
    ensures low { result < length choices.now }
{
    let mut at = led(choices, start, choices.len());
    let mut lowest = at;
    for _ in 0..choices.len() {
        at = choices[at] as usize;
        lowest = lower_of(priorities, lowest, at);
    }
    lowest
}

/// The lowest vertex of the cycle to which the choices lead from the first vertex that is claimed for the opponent of its
/// winner, if there is one.
fn lost_cycle(
    priorities: &[u32],
    claims: &[Option<Claim>],
    winners: &[Player],
    choices: &[u64],
) -> Option<u64>
    requires priorities { length priorities.now ≡ length claims.now }
    requires winners { length winners.now ≡ length claims.now }
    requires choices { length choices.now ≡ length claims.now }
    requires within { All (λ w. w < length choices.now) choices.now }
    ensures { MatchOption result
        ((v : ℕ) → IsLost claims.now winners.now v → ⊥)
        (LeadsRound claims.now winners.now (choice_at choices.now) (λ v. get_or priorities.now v 0) (length claims.now)) }
{
    match first_lost(claims, winners) {
        Some(start) => Some(lowest_on_cycle(priorities, choices, start) as u64),
        None => None,
    }
}

fn winners_of(solution: &Solution) -> &[Player]
    ensures { result.now ≡ solution.now.winner }
{
    &solution.winner
}

fn choices_of(solution: &Solution) -> &[u64]
    ensures { result.now ≡ solution.now.choice }
{
    &solution.choice
}

/// The priorities.
pub(crate) fn priorities_of(game: &Game) -> &[u32]
    ensures value { result.now ≡ game.now.priority }
    ensures game { IsGame game.now }
{
    &game.priority
}

/// The same in the game of ways, with its solution.
fn lost_way(ways: &Game, claims: &[Option<Claim>], solution: &Solution) -> Option<u64>
    requires solution { IsSolution ways.now solution.now }
    requires claims { length claims.now ≡ size ways.now }
    ensures { MatchOption result
        ((v : ℕ) → IsLost claims.now solution.now.winner v → ⊥)
        (LeadsRound claims.now solution.now.winner (choice_at solution.now.choice) (priority_of ways.now) (length claims.now)) }
{
    lost_cycle(
        priorities_of(ways),
        claims,
        winners_of(solution),
        choices_of(solution),
    )
}

/// A vertex whose claim breaks the fourth rule, where none breaks one of the first three, if there is one: by solving.
pub(crate) fn solved_break(
    alloc: Global,
    game: &Game,
    claims: &[Option<Claim>],
) -> Result<Option<u64>, NoMemory>
    requires { KeepsEarly game.now claims.now }
    ensures { IfOk result (TellsFour game.now claims.now) }
{
    let ways = way_game(alloc, game, claims)?;
    let solution = solve(alloc, &ways)?;
    Ok(lost_way(&ways, claims, &solution))
}
