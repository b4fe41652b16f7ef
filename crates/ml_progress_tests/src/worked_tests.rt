// Measures that were worked out by hand.
use ml_parity::Player;
use ml_progress::{Measured, measures};
use ml_tests::game_of_rows;
use std::alloc::Global;
use std::test::Fail;

// A vertex: its owner, its priority and its successors.
type Row = (Player, u32, &'static [u64]);

// What a vertex has: a list, or the top.
type Entry = Option<&'static [u64]>;

// A game, its measures for Even and for Odd, the winners and the choices.
type Worked = (
    &'static [Row],
    &'static [Entry],
    &'static [Entry],
    &'static [Player],
    &'static [u64],
);

const E: Player = Player::Even;

const O: Player = Player::Odd;

const WORKED: [Worked; 5] = [
    // no vertex
    (&[], &[], &[], &[], &[]),
    // the first successor is not the move that wins
    (
        &[(E, 1, &[0, 1]), (O, 0, &[1])],
        &[Some(&[1]), Some(&[0])],
        &[None, None],
        &[E, E],
        &[1, 1],
    ),
    // staying progresses, although the other successor has the deciding priority
    (
        &[(E, 2, &[0, 1]), (E, 0, &[1])],
        &[Some(&[]), Some(&[])],
        &[None, None],
        &[E, E],
        &[0, 1],
    ),
    // moving on is as good as staying, and stands first
    (
        &[(O, 2, &[1]), (O, 1, &[0, 1])],
        &[None, None],
        &[Some(&[1]), Some(&[0])],
        &[O, O],
        &[1, 0],
    ),
    // both numbers count, and each player wins a vertex
    (
        &[
            (O, 3, &[1, 4]),
            (E, 3, &[2]),
            (O, 1, &[3]),
            (E, 0, &[3]),
            (O, 1, &[4]),
        ],
        &[None, Some(&[1, 1]), Some(&[1, 0]), Some(&[0, 0]), None],
        &[Some(&[0]), None, None, None, Some(&[0])],
        &[O, E, E, E, O],
        &[4, 2, 3, 3, 4],
    ),
];

// Is this what the vertex has?
fn is_entry(entry: &Option<Vec<u64>>, wanted: Entry) -> bool {
    match (entry, wanted) {
        (None, None) => true,
        (Some(list), Some(numbers)) => list.as_slice() == numbers,
        _ => false,
    }
}

// Is this the measure?
fn is_measure(entries: &[Option<Vec<u64>>], wanted: &[Entry]) -> bool {
    if entries.len() != wanted.len() {
        return false;
    }
    for vertex in 0..entries.len() {
        if !is_entry(&entries[vertex], wanted[vertex]) {
            return false;
        }
    }
    true
}

// Are these the measures, the winners and the choices?
fn is(
    measured: &Measured,
    even: &[Entry],
    odd: &[Entry],
    winner: &[Player],
    choice: &[u64],
) -> bool {
    is_measure(&measured.even, even)
        && is_measure(&measured.odd, odd)
        && measured.solution.winner.as_slice() == winner
        && measured.solution.choice.as_slice() == choice
}

// The place of the first game that is measured otherwise.
fn first_wrong(alloc: Global, rows: &[Worked]) -> Result<Option<usize>, Fail> {
    for (place, (rows, even, odd, winner, choice)) in rows.iter().enumerate() {
        let game = game_of_rows(alloc, rows)?;
        if !is(&measures(alloc, &game)?, even, odd, winner, choice) {
            return Ok(Some(place));
        }
    }
    Ok(None)
}

#[test]
fn measures_worked_by_hand(rt: HostRuntime) -> Result<(), Fail> {
    assert_eq!(rt; first_wrong(rt.alloc(), &WORKED)?, None);
    Ok(())
}
