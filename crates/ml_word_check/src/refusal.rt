// Why a problem isn't checked along a word.
ghost use Rattle.std.specs.Prelude.{◌≡◌};

use ml_base::NoMemory;
use thiserror::Error;

/// Why a problem isn't checked along a word.
#[derive(Clone, Copy, Debug, PartialEq, Eq, Error)]
pub enum WordRefusal {
    /// This state, the least such one, hasn't exactly one edge by `_`.
    #[error("state {0} has no edge, or more than one")]
    NotAWord(u32),
    #[error("out of memory")]
    NoMemory,
}

impl From<NoMemory> for WordRefusal {
    ghost use Rattle.ml_word_check.specs.declared.refusal.WordRefusal.TheVariants as refusal;

    ghost from_gives = { λ _ e. e ≡ refusal.NoMemory };

    fn from(_: NoMemory) -> WordRefusal {
        WordRefusal::NoMemory
    }
}
