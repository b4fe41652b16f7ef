// Why neither a machine nor an environment was found.
ghost use Rattle.std.specs.Prelude.{◌≡◌};
ghost use Rattle.ml_realize.specs.private.Rows as rows;

use ml_base::NoMemory;
use ml_graph::ClosureRefusal;
use thiserror::Error;

/// Why neither a machine nor an environment was found.
#[derive(Clone, Copy, Debug, PartialEq, Eq, Error)]
pub enum RealizeRefusal {
    /// The graph of the word automaton has too many nodes.
    #[error("the word automaton is too large")]
    ClosureTooLarge,
    /// The game has more positions than were allowed.
    #[error("the game has too many positions")]
    Passed,
    /// There was no memory.
    #[error("out of memory")]
    NoMemory,
}

impl From<NoMemory> for RealizeRefusal {
    ghost use Rattle.ml_realize.specs.declared.refusals.RealizeRefusal.TheVariants as refusal;

    ghost from_gives = { λ _ e. e ≡ refusal.NoMemory };

    fn from(_: NoMemory) -> RealizeRefusal {
        RealizeRefusal::NoMemory
    }
}

// what is refused where the automaton is made
pub(crate) fn of_automaton(refusal: ClosureRefusal) -> RealizeRefusal
    ensures { result ≡ rows.of_automaton refusal }
{
    match refusal {
        ClosureRefusal::ClosureTooLarge => RealizeRefusal::ClosureTooLarge,
        ClosureRefusal::NoMemory => RealizeRefusal::NoMemory,
    }
}
