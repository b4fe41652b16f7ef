// Why a search found nothing.

ghost use Rattle.std.specs.Prelude.{◌≡◌};

use ml_base::NoMemory;
use thiserror::Error;

/// Why a search found nothing.
#[derive(Clone, Copy, Debug, PartialEq, Eq, Error)]
pub enum SearchRefusal {
    /// The decision game has more positions than were allowed.
    #[error("the game has too many positions")]
    Passed,
    /// There was no memory.
    #[error("out of memory")]
    NoMemory,
}

impl From<NoMemory> for SearchRefusal {
    ghost use Rattle.ml_search.specs.declared.refusals.SearchRefusal.TheVariants as refusal;

    ghost from_gives = { λ _ e. e ≡ refusal.NoMemory };

    fn from(_: NoMemory) -> SearchRefusal {
        SearchRefusal::NoMemory
    }
}
