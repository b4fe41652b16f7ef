// A task stays undecided for one of two causes.

/// Why a task is undecided.
#[derive(Clone, Copy, Debug, PartialEq, Eq)]
pub enum Cause {
    /// The game has more than so many positions.
    Positions(u32),
    /// The word automaton has more than so many nodes.
    Closure(u32),
}
