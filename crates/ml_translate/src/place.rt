// The places of a word automaton.
use crate::cube::Cube;

// where a walk from a state comes to, and what it asks of a letter: contracts see the cube's literals
#[derive(Drop, PartialEq, Eq, Hash)]
pub(crate) struct Place {
    pub state: u32,
    pub node: u32,
    pub cube: Cube,
}
