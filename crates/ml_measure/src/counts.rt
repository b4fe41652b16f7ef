// What is counted in inputs and answers.

use ml_parity::{Game, Heights, OneSided, Player, Solution};
use ml_trace::Letter;

/// Reads a game once: a number that depends on all of it.
pub(crate) fn read_game(game: &Game) -> u64 {
    let mut sum: u64 = 0;
    for priority in &game.priority {
        sum = sum.wrapping_add(*priority as u64);
    }
    for owner in &game.owner {
        if *owner == Player::Odd {
            sum = sum.wrapping_add(1);
        }
    }
    for successors in &game.successors {
        for w in successors {
            sum = sum.wrapping_add(*w);
        }
    }
    sum
}

/// Reads a graph once: a number that depends on all of it.
pub(crate) fn read_graph(graph: &OneSided) -> u64 {
    let mut sum: u64 = graph.size;
    for arc in &graph.arcs {
        sum = sum
            .wrapping_add(arc.from)
            .wrapping_add(arc.priority as u64)
            .wrapping_add(arc.to);
    }
    sum
}

/// Reads a letter once: a number that depends on all of it.
pub(crate) fn read_letter(letter: &Letter) -> u64 {
    let mut sum: u64 = 0;
    for transition in letter.transitions() {
        sum = sum
            .wrapping_add(transition.from as u64)
            .wrapping_add(transition.to as u64)
            .wrapping_add(transition.accepting as u64);
    }
    sum
}

/// How many vertices Even wins.
pub(crate) fn won_by_even(solution: &Solution) -> usize {
    solution
        .winner
        .iter()
        .filter(|player| **player == Player::Even)
        .count()
}

/// The greatest height.
pub(crate) fn highest(heights: &Heights) -> u64 {
    let mut most = 0;
    for row in &heights.rows {
        for height in row {
            most = most.max(*height);
        }
    }
    most
}
