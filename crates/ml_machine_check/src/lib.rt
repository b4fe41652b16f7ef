// Machines and environments checked against the formulas of their tasks.
//
// `check` looks through all words of a machine, or of an environment, and tells that it is right, or gives a word that shows
// that it isn't (`specs/Checked.antt`). A machine is right if each of its words satisfies the formula, an environment if none
// of its words does. So a word is looked for that the word automaton of the negated formula accepts, or of the plain one.
//
// Below stand `ml_task` and `ml_synthesis`, for tasks and what is made of them; `ml_realize`, for what is right and for the
// letters of valuations; `ml_word_automaton`; and `ml_emptiness`, which finds the word.
#![tactic(auto)]

mod checking;
mod found;
pub mod laws;
mod systems;

pub use checking::{MOST_NODES, check};
pub use found::{MachineVerdict, Run};
