// The lines at which the parts of entries begin, as the reader of a refutation tells them.

/// The first line of each part of an entry, by the numbers that lines have in refusals.
#[derive(Clone, Copy, PartialEq, Eq)]
pub struct EntryLines {
    /// The `sequent` line in version 1, and the `entry` line, which names the sequent, in version 2.
    pub sequent: u64,
    pub live: u64,
    /// The first `item` line; where there is none, the line behind `live`.
    pub items: u64,
    pub heights: u64,
    /// The first line of the decision.
    pub decision: u64,
}

/// The lines of all entries, in the order of the entries.
#[derive(Drop)]
pub struct Lines {
    pub entries: Vec<EntryLines>,
}
