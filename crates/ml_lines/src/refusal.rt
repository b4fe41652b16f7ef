// Why a line of a document was refused.
ghost use Rattle.std.specs.Prelude.{◌≡◌};

use ml_base::NoMemory;
use std::alloc::{AllocError, AllocFailed};

/// Why a line was refused, where the document has these rules.
#[derive(Clone, Copy, Drop)]
pub enum LineRefusal<Rule> {
    /// The lowest rule that it breaks.
    Breaks(Rule),
    NoMemory,
}

impl<Rule: Drop> From<NoMemory> for LineRefusal<Rule> {
    ghost use Rattle.ml_lines.specs.declared.refusal.LineRefusal.TheVariants as refusal;

    ghost from_gives = { λ _ e. e ≡ refusal.NoMemory };

    fn from(_: NoMemory) -> LineRefusal<Rule> {
        LineRefusal::NoMemory
    }
}

impl<Rule: Drop> From<AllocError> for LineRefusal<Rule> {
    ghost use Rattle.ml_lines.specs.declared.refusal.LineRefusal.TheVariants as refusal;

    ghost from_gives = { λ _ e. e ≡ refusal.NoMemory };

    fn from(_: AllocError) -> LineRefusal<Rule> {
        LineRefusal::NoMemory
    }
}

impl<Rule: Drop, T: Drop> From<AllocFailed<T>> for LineRefusal<Rule> {
    ghost use Rattle.ml_lines.specs.declared.refusal.LineRefusal.TheVariants as refusal;

    ghost from_gives = { λ _ e. e ≡ refusal.NoMemory };

    fn from(_: AllocFailed<T>) -> LineRefusal<Rule> {
        LineRefusal::NoMemory
    }
}
