// Moves of systems.

/// A move of a system: its letter, and the state to which it leads.
#[derive(Clone, Copy, PartialEq, Eq)]
pub struct Move {
    pub letter: u32,
    pub to: u32,
}
