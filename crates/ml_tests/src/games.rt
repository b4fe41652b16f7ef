// Parity games.
ghost use Rattle.std.specs.Prelude.{◌≡◌, ◌<◌, IfOk, length, vec_len};
ghost use Rattle.ml_parity.specs.Game.{size};
ghost use Rattle.ml_parity.specs.Player.{side};

use crate::not_made::NotMade;
use crate::numbers::Numbers;
use ml_parity::{Game, Player};
use std::alloc::{AllocError, Global};

/// A vertex of a game: its owner, its priority and its successors.
#[derive(Drop)]
struct Vertex {
    owner: Player,
    priority: u32,
    successors: Vec<u64>,
}

/// The game of these vertices.
fn game_of(alloc: Global, vertices: Vec<Vertex>) -> Result<Game, NotMade>
    ensures { IfOk result (λ g. size g ≡ vec_len vertices) }
{
    let mut owner = Vec::new(alloc);
    let mut priority = Vec::new(alloc);
    let mut successors = Vec::new(alloc);
    for vertex in vertices {
        owner.push(vertex.owner)?;
        priority.push(vertex.priority)?;
        successors.push(vertex.successors)?;
    }
    Ok(Game::build(owner, priority, successors)?)
}

/// The game of these rows: the owner of each vertex, its priority and its successors.
///
/// # Errors
/// `NoMemory`, and `Game` where `Game::build` refuses the rows.
///
/// Linear in the game.
pub fn game_of_rows(alloc: Global, rows: &[(Player, u32, &'static [u64])]) -> Result<Game, NotMade>
    ensures { IfOk result (λ g. size g ≡ length rows.now) }
{
    let mut all = Vec::new(alloc);
    for (owner, priority, successors) in rows {
        all.push(Vertex {
            owner: *owner,
            priority: *priority,
            successors: Vec::from_slice(alloc, successors)?,
        })?;
    }
    game_of(alloc, all)
}

/// Even for an even number, Odd for an odd one.
fn player(number: u64) -> Player
    ensures { result ≡ side number }
{
    if number % 2 == 0 {
        Player::Even
    } else {
        Player::Odd
    }
}

/// As many random vertices as successors, out of so many.
fn random_successors(
    alloc: Global,
    numbers: &mut Numbers,
    count: u64,
    vertices: u64,
) -> Result<Vec<u64>, AllocError>
    requires { 0 < vertices }
    ensures { IfOk result (λ ws. vec_len ws ≡ count) }
{
    let mut successors = Vec::new(alloc);
    for _ in 0..count {
        successors.push(numbers.below(vertices))?;
    }
    Ok(successors)
}

/// A game whose owners, priorities and successors are random: so many vertices, with so many successors each, some of
/// which may be the same, and with priorities below a bound.
///
/// # Errors
/// `NoMemory`, and `Game` where vertices shall have no successor.
///
/// Linear in the game.
pub fn random_game(
    alloc: Global,
    numbers: &mut Numbers,
    vertices: u64,
    successors: u64,
    priorities: u32,
) -> Result<Game, NotMade>
    requires { 0 < priorities }
    ensures { IfOk result (λ g. size g ≡ vertices) }
{
    let mut all = Vec::new(alloc);
    for _ in 0..vertices {
        all.push(Vertex {
            owner: player(numbers.below(2)),
            priority: numbers.below(priorities as u64) as u32,
            successors: random_successors(alloc, numbers, successors, vertices)?,
        })?;
    }
    game_of(alloc, all)
}

/// A game in which a solver that takes away the vertices of the least priority, one round after another, goes as deep
/// as there are vertices: vertex v has the priority v and the successors v and v + 1, the last one itself alone, and
/// each belongs to the player for whom its priority is bad.
///
/// So each vertex is won by the winner of the last one.
///
/// # Errors
/// `NoMemory` alone.
///
/// Linear in the game.
pub fn ladder(alloc: Global, vertices: u32) -> Result<Game, NotMade>
    ensures { IfOk result (λ g. size g ≡ vertices) }
{
    let mut all = Vec::new(alloc);
    for v in 0..vertices {
        let mut successors = Vec::new(alloc);
        successors.push(v as u64)?;
        if v + 1 < vertices {
            successors.push(v as u64 + 1)?;
        }
        all.push(Vertex {
            owner: player(v as u64).opponent(),
            priority: v,
            successors,
        })?;
    }
    game_of(alloc, all)
}
