// What a command asks of a text.
use ml_decide::Way;
use ml_front::Logic;

/// What a command asks of a text: is the formula, or its negation, satisfiable? The decision game may have as many
/// positions as the limit.
#[derive(Clone, Copy, PartialEq, Eq)]
pub struct Question {
    pub logic: Logic,
    pub negated: bool,
    pub limit: u32,
    pub way: Way,
}
