// The limits that the texts of automata keep.

/// How many states an automaton has at most.
pub const MOST_STATES: u32 = 1_000;

/// How many propositions an automaton has at most.
pub const MOST_PROPS: u32 = 8;

/// How many edges an automaton has at most.
pub const MOST_EDGES: usize = 100_000;

/// How many operators one guard has at most.
pub const MOST_OPERATORS: u32 = 1_000;

/// How many parentheses are open at once, at most, in a label.
pub const MOST_OPEN: usize = 1_000;

/// How many bytes a program should take as the text of an automaton. `read` itself takes any text.
pub const LONGEST_AUTOMATON_TEXT: usize = 16_777_216;
