// The trace automaton: by which formulas a branch of the tableau is pursued, and how an endless pursuit is recognised.
//
// A step of the tableau leaves local traces: triples of a node, the lowest priority on the way, and the node that is
// reached. `letter_of` turns them into a letter of the trace automaton, whose states are the nodes, and the nodes with
// an odd priority that was guessed to be the lowest; `number` and `state_of` number its states. A `Letter` holds its
// transitions by their targets, as a step of a history asks for them.
//
// The marks of history steps stand here too, with the condition on names that such a step and a line of a refutation
// share, and the theorem on loops of such steps (`laws`), on which both the determinisation and the checker of
// refutations can rest.
//
// Beside them stands what it means that an automaton accepts an endless word (`specs/WordAutomata`), for Büchi automata and
// for deterministic parity automata.
//
// Below: ml_lists (general mathematics), ml_base (want of memory). Above: ml_history, which determinises the automaton,
// ml_sequent, which makes local traces, and ml_refute_check, which checks loops of steps without histories.
#![tactic(auto)]

pub mod laws;
mod letters;
mod marks;
mod numbering;

pub use letters::{AutomatonState, Letter, LocalTraces, STATE_LIMIT, Transition, Triple};
pub use marks::{Mark, priority_of};
pub use numbering::{letter_of, number, state_of};
