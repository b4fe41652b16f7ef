// Büchi automata over valuations, and the deterministic automata that accept the same words.
//
// An automaton that `ml_hoa` reads has guards over propositions on its edges. Its letters are the valuations of these
// propositions, 2 to their number, each with the transitions of the edges whose guards it makes true
// (`specs/Valuations.antt`). `letters` makes them, and `laws` says that they lead exactly as the edges do.
//
// `determinise` makes a deterministic parity automaton of it (`specs/Deterministic.antt`), which accepts exactly the
// ultimately periodic words of valuations that the Büchi automaton accepts (`laws::same_words`).
//
// Below stand `ml_hoa`, with the automata, `ml_trace`, with letters as sets of transitions, and `ml_determinise`, with the
// automaton of histories.
#![tactic(auto)]

mod determinising;
mod deterministic;
mod guards;
pub mod laws;
mod making;
mod writing;

pub use determinising::determinise;
pub use deterministic::Deterministic;
pub use making::letters;
pub use writing::write;
