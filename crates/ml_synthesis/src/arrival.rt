// Where moves end.

/// A state of an automaton, with the priority of the move that led there.
#[derive(Clone, Copy, PartialEq, Eq, Hash, Debug)]
pub(crate) struct Arrival {
    pub state: u32,
    pub priority: u32,
}
