// The word automaton of a problem of LTL: it accepts exactly the word lassos that satisfy the problem's formula.
//
// A formula of LTL speaks of endless words as well as of paths: a letter is the set of the propositions that are true at a
// place. The nodes of the problem's block, as `ml_blocks` has them, make a Büchi automaton: at each place a block is
// decomposed, one way or another, until only what is asked of the next place is left.
//
// The calls to know:
// - `automaton_of` gives the automaton of a problem, with its states numbered.
// - `letter_at` gives its transitions where these propositions are true.
//
// Begin with `specs/Words.antt` (when a word satisfies a formula), `specs/WordAutomaton.antt` (how letters lead) and
// `specs/Letters.antt` (states and transitions by numbers); the module `laws` says what the automaton accepts.
//
// Below stand `ml_blocks`, for the graph, and `ml_trace`, for words, runs and letters.
#![tactic(auto)]

mod automaton;
pub mod laws;
mod letters;

pub use automaton::{WordAutomaton, automaton_of};
pub use letters::letter_at;
