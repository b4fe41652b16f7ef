// What is made of an automaton.

use crate::machines::{Environment, Machine};

/// What is made of an automaton: a machine, or an environment that defeats all machines.
#[derive(Drop)]
pub enum Outcome {
    /// No word of the machine is accepted.
    Made(Machine),
    /// Every word of the environment is accepted.
    Defeated(Environment),
}
