// Büchi automata made deterministic: a parity automaton over histories.
//
// A Büchi automaton over finitely many letters is a row of letters, each a set of transitions (`specs/Histories.antt`). Its
// histories, along with the marks of their steps, are a deterministic parity automaton, and this accepts exactly the
// ultimately periodic words that the given one accepts: `laws::same_words`, which rests on both cycle laws of `ml_history`.
//
// `determinise` makes it from one state on: the histories that are reached, numbered breadth first, each with a move for
// each letter (`specs/Numbering.antt`). The numbered automaton accepts the same words (`laws::numbered_same_words`). The
// histories have one numbering (`laws::one_numbering`), and a number of histories bounds it or they are more
// (`laws::numbered_or_passed`), so that each answer is given exactly where it is due.
//
// Below stand `ml_trace`, with what it means that an automaton accepts a word, and `ml_history`, with the history step; of
// `ml_product` only this is taken, that histories over finitely many states are finitely many.
#![tactic(auto)]

mod determinising;
pub mod laws;
mod moves;
mod refusals;

pub use determinising::determinise;
pub use moves::DetMove;
pub use refusals::DetRefusal;
