// Why a text is refused.
use ml_base::NoMemory;
use std::alloc::{AllocError, AllocFailed};
use thiserror::Error;

/// Why the text of an automaton was refused, and at which byte, counted from 0. Of all places where the syntax or a limit is
/// broken the first is named, and of the two at one place the syntax; `Range` comes only in texts that are otherwise whole,
/// at the first place.
#[derive(Clone, Copy, Debug, PartialEq, Eq, Error)]
pub enum HoaRefusal {
    /// No automaton text goes on like this, or the text ends too soon.
    #[error("no automaton text at byte {at}")]
    Syntax { at: u64 },
    /// A start, a state or a target that is not below the number of states, a proposition that is not below the number
    /// of propositions, a set that is not below the number of sets, or a state that stood before.
    #[error("a number out of range at byte {at}")]
    Range { at: u64 },
    /// A number of states above 1,000 or of propositions above 8, the `[` of the 100,001st edge, the operator with which
    /// one label passes 1,000 operators, or the parenthesis with which it has 1,001 open.
    #[error("too many of something at byte {at}")]
    TooMany { at: u64 },
    #[error("out of memory")]
    NoMemory,
}

impl From<NoMemory> for HoaRefusal {
    ghost use Rattle.std.specs.Prelude.{◌≡◌};
    ghost use Rattle.ml_hoa.specs.declared.refusal.HoaRefusal.TheVariants as refusal;

    ghost from_gives = { λ _ e. e ≡ refusal.NoMemory };

    fn from(_: NoMemory) -> HoaRefusal {
        HoaRefusal::NoMemory
    }
}

impl From<AllocError> for HoaRefusal {
    ghost use Rattle.std.specs.Prelude.{◌≡◌};
    ghost use Rattle.ml_hoa.specs.declared.refusal.HoaRefusal.TheVariants as refusal;

    ghost from_gives = { λ _ e. e ≡ refusal.NoMemory };

    fn from(_: AllocError) -> HoaRefusal {
        HoaRefusal::NoMemory
    }
}

impl<T: Drop> From<AllocFailed<T>> for HoaRefusal {
    ghost use Rattle.std.specs.Prelude.{◌≡◌};
    ghost use Rattle.ml_hoa.specs.declared.refusal.HoaRefusal.TheVariants as refusal;

    ghost from_gives = { λ _ e. e ≡ refusal.NoMemory };

    fn from(_: AllocFailed<T>) -> HoaRefusal {
        HoaRefusal::NoMemory
    }
}
