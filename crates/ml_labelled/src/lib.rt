// Büchi automata over sets of propositions, whose edges have cubes: some propositions are to be true, and some false.
//
// What such an automaton accepts says `specs/Labelled.antt`. `reached_part` leaves out the states that aren't reached, and
// `reduced` makes an automaton small. `write` gives the text in HOA, the format of automata over infinite
// words (`specs/LabelledText.antt`); `laws` says that the text stands for this automaton.
//
// Below stand `ml_hoa`, with the grammar of automaton texts, and `ml_trace`, for words and runs.
#![tactic(auto)]

mod beside;
mod fitting;
mod following;
mod guide;
mod labelled;
pub mod laws;
mod loops;
mod merging;
mod ranking;
mod reaching;
mod reducing;
mod replacing;
mod simulation;
mod trimming;
mod writing;

pub use beside::reduced_beside;
pub use labelled::{CubeEdge, LabelledAutomaton, Literal};
pub use reaching::reached_part;
pub use reducing::reduced;
pub use writing::write;
