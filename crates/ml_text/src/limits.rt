// The limits that the texts of all logics keep.

/// How many occurrences a formula has at most.
pub const MOST_OCCURRENCES: u32 = 1000;

/// How many parentheses are open at a time at most.
pub const MOST_OPEN: u32 = 1000;

/// Which parenthesis a sign is.
#[derive(Clone, Copy, PartialEq, Eq)]
pub enum Bracket {
    Opening,
    Closing,
    Neither,
}
