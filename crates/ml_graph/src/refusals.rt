// Why lists are no graph, and why a closure became none.

ghost use Rattle.std.specs.Prelude.{◌≡◌};

use ml_base::NoMemory;
use thiserror::Error;

/// Why lists are no modal graph.
#[derive(Clone, Copy, Debug, PartialEq, Eq, Error)]
pub enum GraphRefusal {
    /// The first number that is out of range: the nodes come before the root, and the fields of a node in their order.
    #[error("the number {0} is out of range")]
    OutOfRange(u32),
    /// There was no memory. `ModalGraph::build` takes none, and never says so.
    #[error("out of memory")]
    NoMemory,
}

/// Why a formula became no graph. Only formulas whose closures may be large are refused for them.
#[derive(Clone, Copy, Debug, PartialEq, Eq, Error)]
pub enum ClosureRefusal {
    /// The closure has more nodes than were allowed.
    #[error("the closure is too large")]
    ClosureTooLarge,
    /// There was no memory.
    #[error("out of memory")]
    NoMemory,
}

impl From<NoMemory> for ClosureRefusal {
    ghost use Rattle.ml_graph.specs.declared.refusals.ClosureRefusal.TheVariants as refusal;

    ghost from_gives = { λ _ e. e ≡ refusal.NoMemory };

    fn from(_: NoMemory) -> ClosureRefusal {
        ClosureRefusal::NoMemory
    }
}
