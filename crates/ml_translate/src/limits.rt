// The limit on the word automaton of a formula.

/// How many nodes the word automaton of a formula has at most.
pub const MOST_NODES: u32 = 65_536;
