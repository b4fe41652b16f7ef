// What checking a refutation against a graph finds.

/// Where a refutation is refused: the first part that breaks a rule of acceptance, by the place of its entry and its
/// own place among the parts of this entry, both counted from 0, and the lowest rule that it breaks.
///
/// The parts of an entry are its sequent, its names in use, each of its items, and each branch of its decision in
/// preorder.
#[derive(Clone, Copy, Debug, PartialEq, Eq)]
pub struct Fault {
    pub entry: usize,
    pub part: usize,
    pub rule: u32,
}

/// What checking a refutation against a graph finds.
#[derive(Clone, Copy, PartialEq, Eq)]
pub enum Finding {
    /// No part of it breaks a rule.
    Accepted,
    /// This part is the first one that breaks a rule.
    Rejected(Fault),
}

/// A bad part among parts in a row, by its place there, with the lowest rule that it breaks.
#[derive(Clone, Copy, PartialEq, Eq)]
pub(crate) struct BadPart {
    pub part: usize,
    pub rule: u32,
}
