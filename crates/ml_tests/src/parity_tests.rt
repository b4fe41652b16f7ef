// Small games worked out by hand: who wins.
use crate::game_of_rows;
use ml_base::NoMemory;
use ml_parity::{Game, Player, Solution, solve};
use std::alloc::Global;
use std::test::Fail;

// A vertex: its owner, its priority and its successors.
type Row = (Player, u32, &'static [u64]);

const E: Player = Player::Even;

const O: Player = Player::Odd;

// A game, its winners, and the choices of the solver.
type Worked = (&'static [Row], &'static [Player], &'static [u64]);

const WORKED: [Worked; 13] = [
    // no vertex
    (&[], &[], &[]),
    // a loop of one vertex: the owner does not matter
    (&[(E, 0, &[0])], &[E], &[0]),
    (&[(O, 0, &[0])], &[E], &[0]),
    (&[(E, 1, &[0])], &[O], &[0]),
    // a loop of two vertices: the lowest priority decides, not the highest
    (&[(E, 2, &[1]), (E, 1, &[0])], &[O, O], &[1, 0]),
    (&[(E, 0, &[1]), (O, 1, &[0])], &[E, E], &[1, 0]),
    // the first successor is not the move that wins
    (&[(E, 1, &[0, 1]), (O, 0, &[1])], &[E, E], &[1, 1]),
    // a choice between two loops
    (
        &[(E, 5, &[1, 2]), (E, 1, &[1]), (E, 2, &[2])],
        &[E, O, E],
        &[2, 1, 2],
    ),
    (
        &[(O, 5, &[1, 2]), (E, 2, &[1]), (E, 1, &[2])],
        &[O, E, O],
        &[2, 1, 2],
    ),
    // staying is better than moving on
    (&[(O, 1, &[0, 1]), (O, 0, &[0])], &[O, O], &[0, 0]),
    // a choice between two ways round
    (
        &[(E, 3, &[1, 2]), (O, 2, &[0]), (O, 1, &[0])],
        &[E, E, E],
        &[1, 0, 0],
    ),
    (
        &[(O, 4, &[1, 2]), (E, 3, &[0]), (E, 2, &[0])],
        &[O, O, O],
        &[1, 0, 0],
    ),
    // a player who keeps out of the vertex that the opponent wants
    (
        &[(E, 1, &[1]), (O, 1, &[2, 0]), (E, 0, &[2])],
        &[O, O, E],
        &[1, 0, 2],
    ),
];

// Is this a solution with these winners and choices?
fn is(solution: &Solution, winner: &[Player], choice: &[u64]) -> bool {
    solution.winner.as_slice() == winner && solution.choice.as_slice() == choice
}

// Does the solver find these winners and choices?
fn is_solved(
    alloc: Global,
    game: &Game,
    winner: &[Player],
    choice: &[u64],
) -> Result<bool, NoMemory> {
    Ok(is(&solve(alloc, game)?, winner, choice))
}

// The place of the first game that is solved otherwise.
fn first_wrong(alloc: Global, rows: &[Worked]) -> Result<Option<usize>, Fail> {
    for (place, (rows, winner, choice)) in rows.iter().enumerate() {
        let game = game_of_rows(alloc, rows)?;
        if !is_solved(alloc, &game, winner, choice)? {
            return Ok(Some(place));
        }
    }
    Ok(None)
}

#[test]
fn small_games(rt: HostRuntime) -> Result<(), Fail> {
    assert_eq!(rt; first_wrong(rt.alloc(), &WORKED)?, None);
    Ok(())
}
