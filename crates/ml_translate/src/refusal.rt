// Why a formula got no automaton.
ghost use Rattle.std.specs.Prelude.{◌≡◌};

use ml_base::NoMemory;
use ml_graph::ClosureRefusal;
use std::alloc::{AllocError, AllocFailed};
use thiserror::Error;

/// Why a formula got no automaton.
#[derive(Clone, Copy, Debug, PartialEq, Eq, Error)]
pub enum TranslateRefusal {
    /// Its word automaton has too many nodes.
    #[error("the word automaton is too large")]
    ClosureTooLarge,
    /// Its word automaton has more places than were allowed.
    #[error("the word automaton has too many places")]
    Passed,
    /// There was no memory.
    #[error("out of memory")]
    NoMemory,
}

impl From<NoMemory> for TranslateRefusal {
    ghost use Rattle.ml_translate.specs.declared.refusal.TranslateRefusal.TheVariants as refusal;

    ghost from_gives = { λ _ e. e ≡ refusal.NoMemory };

    fn from(_: NoMemory) -> TranslateRefusal {
        TranslateRefusal::NoMemory
    }
}

impl From<AllocError> for TranslateRefusal {
    ghost use Rattle.ml_translate.specs.declared.refusal.TranslateRefusal.TheVariants as refusal;

    ghost from_gives = { λ _ e. e ≡ refusal.NoMemory };

    fn from(_: AllocError) -> TranslateRefusal {
        TranslateRefusal::NoMemory
    }
}

impl<T: Drop> From<AllocFailed<T>> for TranslateRefusal {
    ghost use Rattle.ml_translate.specs.declared.refusal.TranslateRefusal.TheVariants as refusal;

    ghost from_gives = { λ _ e. e ≡ refusal.NoMemory };

    fn from(_: AllocFailed<T>) -> TranslateRefusal {
        TranslateRefusal::NoMemory
    }
}
