// Why a text is no formula.
ghost use Rattle.std.specs.Prelude.{◌≡◌};

use crate::no_memory::NoMemory;
use std::alloc::{AllocError, AllocFailed};
use thiserror::Error;

/// Why a text was refused, and at which byte, counted from 0. Of all places where a text is at fault the first is
/// named; `Unbound` and `NotPositive` come only in texts that are otherwise whole.
#[derive(Clone, Copy, Debug, PartialEq, Eq, Error)]
pub enum ParseRefusal {
    /// No text of the grammar goes on like this, or the text ends too soon.
    #[error("no text of the grammar at byte {at}")]
    Syntax { at: u64 },
    /// A variable without a binder around it.
    #[error("a variable without a binder at byte {at}")]
    Unbound { at: u64 },
    /// A variable that isn't positive in its binder.
    #[error("a variable that isn't positive at byte {at}")]
    NotPositive { at: u64 },
    /// More occurrences than the limit.
    #[error("too many occurrences at byte {at}")]
    TooMany { at: u64 },
    /// More parentheses open at a time than the limit.
    #[error("too many open parentheses at byte {at}")]
    TooNested { at: u64 },
    /// A name of more bytes than the limit.
    #[error("a name that is too long at byte {at}")]
    NameTooLong { at: u64 },
    #[error("out of memory")]
    NoMemory,
}

impl From<NoMemory> for ParseRefusal {
    ghost use Rattle.ml_base.specs.declared.parse_refusal.ParseRefusal.TheVariants as refusal;

    ghost from_gives = { λ _ e. e ≡ refusal.NoMemory };

    fn from(_: NoMemory) -> ParseRefusal {
        ParseRefusal::NoMemory
    }
}

impl From<AllocError> for ParseRefusal {
    ghost use Rattle.ml_base.specs.declared.parse_refusal.ParseRefusal.TheVariants as refusal;

    ghost from_gives = { λ _ e. e ≡ refusal.NoMemory };

    fn from(_: AllocError) -> ParseRefusal {
        ParseRefusal::NoMemory
    }
}

impl<T: Drop> From<AllocFailed<T>> for ParseRefusal {
    ghost use Rattle.ml_base.specs.declared.parse_refusal.ParseRefusal.TheVariants as refusal;

    ghost from_gives = { λ _ e. e ≡ refusal.NoMemory };

    fn from(_: AllocFailed<T>) -> ParseRefusal {
        ParseRefusal::NoMemory
    }
}
