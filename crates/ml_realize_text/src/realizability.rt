// A task is realizable or not, or nothing is told of it.

/// What is answered to a task.
#[derive(Clone, Copy, PartialEq, Eq)]
pub enum Realizability {
    /// A machine realizes it.
    Realizable,
    /// An environment defeats every machine.
    Unrealizable,
    Undecided,
}
