// What a branch keeps of a choice, to take it back.

/// A choice that was made: where its side stands in the choice, and how many nodes were reached before it.
#[derive(Clone, Copy, PartialEq, Eq)]
pub(crate) struct Taken {
    pub place: usize,
    pub first: usize,
}
