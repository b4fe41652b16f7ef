// How an answer is sought.

/// How an answer is sought.
#[derive(Clone, Copy, PartialEq, Eq)]
pub enum Way {
    /// By the whole decision game: the limit alone tells whether there is an answer.
    WholeGame,
    /// By a search, and by the whole game where that finds nothing.
    Search,
}
