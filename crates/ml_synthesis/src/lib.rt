// Machines and environments from deterministic parity automata.
//
// An automaton over valuations of inputs and outputs tells which words are bad, ultimately periodic ones. `synthesise` gives
// a machine none of whose words is bad, or an environment all of whose words are, whatever a machine answers.
// `specs/Machines.antt` says what these are and which words they make, `specs/Synthesis.antt` what is made. There is
// always one of the two, and never both: `laws::some_outcome`.
//
// In between stands a parity game (`specs/Game.antt`): the environment chooses inputs, the machine outputs, and the
// automaton reads them. It is made as an `Arena`, and its solution is read off by states.
//
// Below stand `ml_determinise`, whose automata these are, and `ml_parity`, which solves the game.
#![tactic(auto)]

mod arena;
mod arrival;
mod environment_making;
pub mod laws;
mod machine_making;
mod machines;
mod numbering;
mod outcome;
mod refusals;
mod synthesising;

pub use machines::{Environment, Machine, MachineStep};
pub use outcome::Outcome;
pub use refusals::SynthesisRefusal;
pub use synthesising::synthesise;
