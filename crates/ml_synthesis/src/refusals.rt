// Why neither a machine nor an environment was made.

ghost use Rattle.std.specs.Prelude.{◌≡◌};

use ml_base::NoMemory;
use std::alloc::{AllocError, AllocFailed};
use thiserror::Error;

/// Why neither a machine nor an environment was made.
#[derive(Clone, Copy, Debug, PartialEq, Eq, Error)]
pub enum SynthesisRefusal {
    /// The game has more positions than were allowed.
    #[error("the game has too many positions")]
    Passed,
    /// There was no memory.
    #[error("out of memory")]
    NoMemory,
}

impl From<NoMemory> for SynthesisRefusal {
    ghost use Rattle.ml_synthesis.specs.declared.refusals.SynthesisRefusal.TheVariants as refusal;

    ghost from_gives = { λ _ e. e ≡ refusal.NoMemory };

    fn from(_: NoMemory) -> SynthesisRefusal {
        SynthesisRefusal::NoMemory
    }
}
