// Why a text is refused.
use ml_base::NoMemory;
use std::alloc::{AllocError, AllocFailed};
use thiserror::Error;

/// Why the text of a game was refused, and at which byte, counted from 0. Of all places where a text is at fault the
/// first is named, and of several causes there the first in this order, `Unknown` left out: that one comes only in texts
/// that are otherwise whole.
#[derive(Clone, Copy, Debug, PartialEq, Eq, Error)]
pub enum GameTextRefusal {
    /// No game text goes on like this, or the text ends too soon.
    #[error("no game text at byte {at}")]
    Syntax { at: u64 },
    /// An id that stood before as an id.
    #[error("an id that comes again at byte {at}")]
    Repeated { at: u64 },
    /// A successor that is no id.
    #[error("a successor that is no id at byte {at}")]
    Unknown { at: u64 },
    /// The id of the 200,001st vertex, or the 2,000,001st successor.
    #[error("too many vertices or successors at byte {at}")]
    TooMany { at: u64 },
    /// A number above 4,294,967,294.
    #[error("a number that is too large at byte {at}")]
    TooLarge { at: u64 },
    #[error("out of memory")]
    NoMemory,
}

impl From<NoMemory> for GameTextRefusal {
    ghost use Rattle.std.specs.Prelude.{◌≡◌};
    ghost use Rattle.ml_pgsolver.specs.declared.refusal.GameTextRefusal.TheVariants as refusal;

    ghost from_gives = { λ _ e. e ≡ refusal.NoMemory };

    fn from(_: NoMemory) -> GameTextRefusal {
        GameTextRefusal::NoMemory
    }
}

impl From<AllocError> for GameTextRefusal {
    ghost use Rattle.std.specs.Prelude.{◌≡◌};
    ghost use Rattle.ml_pgsolver.specs.declared.refusal.GameTextRefusal.TheVariants as refusal;

    ghost from_gives = { λ _ e. e ≡ refusal.NoMemory };

    fn from(_: AllocError) -> GameTextRefusal {
        GameTextRefusal::NoMemory
    }
}

impl<T: Drop> From<AllocFailed<T>> for GameTextRefusal {
    ghost use Rattle.std.specs.Prelude.{◌≡◌};
    ghost use Rattle.ml_pgsolver.specs.declared.refusal.GameTextRefusal.TheVariants as refusal;

    ghost from_gives = { λ _ e. e ≡ refusal.NoMemory };

    fn from(_: AllocFailed<T>) -> GameTextRefusal {
        GameTextRefusal::NoMemory
    }
}
