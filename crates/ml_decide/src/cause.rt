// Why a problem stays undecided.

/// Why a problem stays undecided.
#[derive(Clone, Copy, Debug, PartialEq, Eq)]
pub enum Cause {
    /// The decision game has more positions than this limit.
    Positions(u32),
    /// The closure of the problem has more than `ml_front::MOST_NODES` nodes.
    Closure,
}
