// Why a decision game wasn't explored.

ghost use Rattle.std.specs.Prelude.{◌≡◌};

use ml_base::NoMemory;
use std::alloc::{AllocError, AllocFailed};
use thiserror::Error;

/// Why a decision game wasn't explored.
#[derive(Clone, Copy, Debug, PartialEq, Eq, Error)]
pub enum ExploreRefusal {
    /// The game has more positions than were allowed.
    #[error("the game has too many positions")]
    Passed,
    /// There was no memory.
    #[error("out of memory")]
    NoMemory,
}

impl From<NoMemory> for ExploreRefusal {
    ghost use Rattle.ml_product.specs.declared.refusals.ExploreRefusal.TheVariants as refusal;

    ghost from_gives = { λ _ e. e ≡ refusal.NoMemory };

    fn from(_: NoMemory) -> ExploreRefusal {
        ExploreRefusal::NoMemory
    }
}

impl From<AllocError> for ExploreRefusal {
    ghost use Rattle.ml_product.specs.declared.refusals.ExploreRefusal.TheVariants as refusal;

    ghost from_gives = { λ _ e. e ≡ refusal.NoMemory };

    fn from(_: AllocError) -> ExploreRefusal {
        ExploreRefusal::NoMemory
    }
}

impl<T: Drop> From<AllocFailed<T>> for ExploreRefusal {
    ghost use Rattle.ml_product.specs.declared.refusals.ExploreRefusal.TheVariants as refusal;

    ghost from_gives = { λ _ e. e ≡ refusal.NoMemory };

    fn from(_: AllocFailed<T>) -> ExploreRefusal {
        ExploreRefusal::NoMemory
    }
}
