// Solutions of parity games.

use crate::players::Player;
use std::marker::Model;

/// Who wins each vertex of a game, and by which moves.
///
/// Contracts see the two lists. `Debug` prints them; there is nothing to keep true of them, since only the contract of
/// the call that made a solution says of which game it is one.
#[derive(Debug, Drop)]
pub struct Solution {
    /// The winner of each vertex.
    pub winner: Vec<Player>,
    /// The move at each vertex: that of its winner, if the winner owns it.
    pub choice: Vec<u64>,
}

impl Model for Solution {
    ghost use Rattle.ml_parity.specs.Solution.{GameSolution};

    ghost Value = { GameSolution };

    ghost view = { λ a. record { winner = a.winner.items; choice = a.choice.items } };
}
