// What the measures of both players and a solution say together, as an answer.

use ml_parity::Solution;
use std::marker::Model;

/// The least progress measures of both players, and the solution that they tell.
///
/// Contracts see two lists and the solution. Only the contract of the call that made it says of which game.
#[derive(Debug, Drop)]
pub struct Measured {
    /// For each vertex what the least progress measure of Even gives it: its list, or `None` for the top.
    pub even: Vec<Option<Vec<u64>>>,
    /// The same for Odd.
    pub odd: Vec<Option<Vec<u64>>>,
    /// Who wins each vertex, and by which moves.
    pub solution: Solution,
}

impl Model for Measured {
    ghost use Rattle.ml_progress.specs.Measured.{MeasuredGame, measure_in};

    ghost Value = { MeasuredGame };

    ghost view = { λ a. record { even = measure_in a.even.items; odd = measure_in a.odd.items; solution = a.solution } };
}
