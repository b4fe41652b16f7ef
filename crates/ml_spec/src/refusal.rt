// Why a text is refused.
ghost use Rattle.std.specs.Prelude.{◌≡◌};

use crate::rule::SpecRule;
use ml_base::NoMemory;
use thiserror::Error;

/// Why a text is read as no specification.
#[derive(Clone, Copy, Debug, PartialEq, Eq, Error)]
pub enum SpecRefusal {
    /// It breaks this rule at this line and column, both counted from 1. Of all places where it breaks one this is the first,
    /// and of the rules that it breaks there this is the one with the lowest number.
    #[error("no specification at line {line}, column {column}")]
    Refused {
        line: u64,
        column: u64,
        rule: SpecRule,
    },
    #[error("out of memory")]
    NoMemory,
}

impl From<NoMemory> for SpecRefusal {
    ghost use Rattle.ml_spec.specs.declared.refusal.SpecRefusal.TheVariants as refusal;

    ghost from_gives = { λ _ e. e ≡ refusal.NoMemory };

    fn from(_: NoMemory) -> SpecRefusal {
        SpecRefusal::NoMemory
    }
}
