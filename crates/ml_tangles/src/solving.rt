// What the engines find, checked.

ghost use Rattle.std.specs.Prelude.{◌≡◌, ℕ, ◌<◌, IfOk, IsTrue, MatchOption, length, get_or};
ghost use Rattle.ml_parity.specs.Game.{IsGame, moves_of, size};
ghost use Rattle.ml_parity.specs.Solution.{FirstElsewhere, IsSolution};
ghost use Rattle.ml_game_check.specs.RightClaims.{AreRight};
ghost use Rattle.ml_tangles.specs.private.Claimed.{AreClaimsOf, IsFilledAt, Solves};

use crate::arena::{Arena, Guess, arena_of, player_of};
use crate::learning::learn;
use crate::recursion::recur;
use ml_base::NoMemory;
use ml_game_check::numbers::{number, small};
use ml_game_check::{Claim, Verdict, check};
use ml_parity::{Game, Player, Solution};
use std::alloc::Global;

/// How many turns each engine has at first, for each vertex and each move.
const FIRST_TURNS: u64 = 64;

/// How often the turns double.
const ROUNDS: u32 = 12;

/// The engines in turn, with turns that double.
fn guess(alloc: Global, arena: &Arena) -> Result<Option<Guess>, NoMemory> {
    let moves = arena.successors.all.len() as u64;
    let mut fuel = FIRST_TURNS.saturating_mul(moves.saturating_add(arena.size as u64));
    for _ in 0..ROUNDS {
        if let Some(guess) = recur(alloc, arena, fuel)? {
            return Ok(Some(guess));
        }
        if let Some(guess) = learn(alloc, arena, fuel)? {
            return Ok(Some(guess));
        }
        fuel = fuel.saturating_mul(2);
    }
    Ok(None)
}

/// The guess as a solution, with the first successor where the owner doesn't win.
fn solution_of(alloc: Global, game: &Game, guess: &Guess) -> Result<Solution, NoMemory> {
    let mut winner = Vec::with_capacity(alloc, guess.winner.len())?;
    let mut choice = Vec::with_capacity(alloc, guess.winner.len())?;
    for i in 0..guess.winner.len() {
        let player = player_of(guess.winner[i]);
        winner.push(player)?;
        choice.push(match (game.owner.get(i), game.successors.get(i)) {
            (Some(owner), Some(moves)) if *owner != player => match moves.first() {
                Some(to) => *to,
                None => 0,
            },
            _ => number(&guess.choice, small(i)) as u64,
        })?;
    }
    Ok(Solution { winner, choice })
}

/// What the engines find.
fn found(alloc: Global, game: &Game) -> Result<Option<Solution>, NoMemory> {
    let arena = arena_of(alloc, game)?;
    match guess(alloc, &arena)? {
        Some(guess) => Ok(Some(solution_of(alloc, game, &guess)?)),
        None => Ok(None),
    }
}

/// The claims of a solution.
fn claims_of(
    alloc: Global,
    winner: &[Player],
    choice: &[u64],
) -> Result<Vec<Option<Claim>>, NoMemory>
    requires { length choice.now ≡ length winner.now }
    ensures { IfOk result (λ claims. AreClaimsOf winner.now choice.now claims.items) }
{
    let mut claims = Vec::with_capacity(alloc, winner.len())?;
    for vertex in 0..winner.len() {
        claims.push(Some(Claim {
            winner: winner[vertex],
            move_to: Some(choice[vertex]),
        }))?;
    }
    Ok(claims)
}

/// The successors of a vertex.
fn moves_at(game: &Game, vertex: usize) -> &[u64]
    requires { vertex < size game.now }
    ensures { result.now ≡ moves_of game.now vertex }
{
    &game.successors[vertex]
}

/// Is this the first of these vertices?
fn is_first(moves: &[u64], to: u64) -> bool
    requires { 0 < length moves.now }
    ensures { IsTrue result → to ≡ get_or moves.now 0 0 }
{
    moves[0] == to
}

/// Is the choice a move, and the first one where the owner doesn't win?
fn is_filled_at(game: &Game, winner: &[Player], choice: &[u64], vertex: usize) -> bool
    requires vertex { vertex < size game.now }
    requires winner { length winner.now ≡ size game.now }
    requires choice { length choice.now ≡ size game.now }
    ensures { IsTrue result → IsFilledAt game.now winner.now choice.now vertex }
{
    if !moves_at(game, vertex).contains(&choice[vertex]) {
        return false;
    }
    if game.owner[vertex] == winner[vertex] {
        true
    } else {
        is_first(moves_at(game, vertex), choice[vertex])
    }
}

/// Is it so at each vertex?
fn is_filled(game: &Game, winner: &[Player], choice: &[u64]) -> bool
    requires winner { length winner.now ≡ size game.now }
    requires choice { length choice.now ≡ size game.now }
    ensures { IsTrue result → (v : ℕ) → v < size game.now → IsFilledAt game.now winner.now choice.now v }
{
    for vertex in 0..winner.len() {
        if !is_filled_at(game, winner, choice, vertex) {
            return false;
        }
    }
    true
}

/// Are these claims right?
fn are_right(alloc: Global, game: &Game, claims: &[Option<Claim>]) -> Result<bool, NoMemory>
    requires { length claims.now ≡ size game.now }
    ensures { IfOk result (λ b. IsTrue b → AreRight game.now claims.now) }
{
    match check(alloc, game, claims)? {
        Verdict::Right => Ok(true),
        Verdict::Broken { .. } => Ok(false),
    }
}

/// Do these winners and choices solve the game, of which these are the claims?
fn is_solved_as(
    alloc: Global,
    game: &Game,
    winner: &[Player],
    choice: &[u64],
    claims: &[Option<Claim>],
) -> Result<bool, NoMemory>
    requires game { IsGame game.now }
    requires winner { length winner.now ≡ size game.now }
    requires choice { length choice.now ≡ size game.now }
    requires filled { (v : ℕ) → v < size game.now → IsFilledAt game.now winner.now choice.now v }
    requires claims { AreClaimsOf winner.now choice.now claims.now }
    ensures { IfOk result (λ b. IsTrue b → Solves game.now winner.now choice.now) }
{
    if are_right(alloc, game, claims)? {
        Ok(true)
    } else {
        Ok(false)
    }
}

/// Do these winners and choices solve the game?
fn is_solved(
    alloc: Global,
    game: &Game,
    winner: &[Player],
    choice: &[u64],
) -> Result<bool, NoMemory>
    requires game { IsGame game.now }
    requires winner { length winner.now ≡ size game.now }
    requires choice { length choice.now ≡ size game.now }
    ensures { IfOk result (λ b. IsTrue b → Solves game.now winner.now choice.now) }
{
    if !is_filled(game, winner, choice) {
        return Ok(false);
    }
    let claims = claims_of(alloc, winner, choice)?;
    is_solved_as(alloc, game, winner, choice, &claims)
}

/// Does this solve the game?
fn is_solution(alloc: Global, game: &Game, solution: &Solution) -> Result<bool, NoMemory>
    ensures { IfOk result (λ b. IsTrue b → Solves game.now solution.now.winner solution.now.choice) }
{
    if solution.winner.len() != game.owner.len() || solution.choice.len() != game.owner.len() {
        return Ok(false);
    }
    is_solved(alloc, game, &solution.winner, &solution.choice)
}

/// What the engines find, if it solves the game.
fn found_solution(alloc: Global, game: &Game) -> Result<Option<Solution>, NoMemory>
    ensures { IfOk result (λ o. MatchOption o (Unit {0})
        (λ s. IsSolution game.now s × FirstElsewhere game.now s)) }
{
    let Some(solution) = found(alloc, game)? else {
        return Ok(None);
    };
    if is_solution(alloc, game, &solution)? {
        Ok(Some(solution))
    } else {
        Ok(None)
    }
}

/// Solves a parity game: who wins each vertex, and by which moves.
///
/// At a vertex whose owner wins it, the choice is the move of a positional strategy with which that player wins from every
/// vertex of that player; at each other vertex it is the first successor.
///
/// # Errors
/// `NoMemory` alone.
///
/// Cost: a counted recursion and tangle learning in turn, each with 64 turns for each vertex and each move at first, which
/// double twelve times; then the check of what was found. Where neither ends in time, that of `ml_parity::solve`. Source: van
/// Dijk, Attracting tangles to solve parity games (2018).
pub fn solve(alloc: Global, game: &Game) -> Result<Solution, NoMemory>
    ensures ok { IfOk result (IsSolution game.now) }
    ensures elsewhere { IfOk result (FirstElsewhere game.now) }
{
    match found_solution(alloc, game)? {
        Some(solution) => Ok(solution),
        None => ml_parity::solve(alloc, game),
    }
}
