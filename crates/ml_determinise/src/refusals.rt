// Why an automaton wasn't made deterministic.

ghost use Rattle.std.specs.Prelude.{◌≡◌};

use ml_base::NoMemory;
use std::alloc::{AllocError, AllocFailed};
use thiserror::Error;

/// Why an automaton wasn't made deterministic.
#[derive(Clone, Copy, Debug, PartialEq, Eq, Error)]
pub enum DetRefusal {
    /// More histories are reached than were allowed.
    #[error("the automaton has too many states")]
    Passed,
    /// There was no memory.
    #[error("out of memory")]
    NoMemory,
}

impl From<NoMemory> for DetRefusal {
    ghost use Rattle.ml_determinise.specs.declared.refusals.DetRefusal.TheVariants as refusal;

    ghost from_gives = { λ _ e. e ≡ refusal.NoMemory };

    fn from(_: NoMemory) -> DetRefusal {
        DetRefusal::NoMemory
    }
}

impl From<AllocError> for DetRefusal {
    ghost use Rattle.ml_determinise.specs.declared.refusals.DetRefusal.TheVariants as refusal;

    ghost from_gives = { λ _ e. e ≡ refusal.NoMemory };

    fn from(_: AllocError) -> DetRefusal {
        DetRefusal::NoMemory
    }
}

impl<T: Drop> From<AllocFailed<T>> for DetRefusal {
    ghost use Rattle.ml_determinise.specs.declared.refusals.DetRefusal.TheVariants as refusal;

    ghost from_gives = { λ _ e. e ≡ refusal.NoMemory };

    fn from(_: AllocFailed<T>) -> DetRefusal {
        DetRefusal::NoMemory
    }
}
