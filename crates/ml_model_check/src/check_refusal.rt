// Why a problem isn't checked on a structure.
ghost use Rattle.std.specs.Prelude.{◌≡◌};

use ml_base::NoMemory;
use thiserror::Error;

/// Why a problem isn't checked on a structure.
#[derive(Clone, Copy, Debug, PartialEq, Eq, Error)]
pub enum CheckRefusal {
    /// This state, the least such one, has no edge by `_`, where the logic wants each state to have one.
    #[error("state {0} has no edge")]
    NotTotal(u32),
    /// This state, the least such one, hasn't exactly one edge by `_`, where the logic wants that of each state.
    #[error("state {0} has no edge, or more than one")]
    NotAWord(u32),
    /// The formula's closure is too large to be checked.
    #[error("the closure is too large")]
    ClosureTooLarge,
    #[error("out of memory")]
    NoMemory,
}

impl From<NoMemory> for CheckRefusal {
    ghost use Rattle.ml_model_check.specs.declared.check_refusal.CheckRefusal.TheVariants as refusal;

    ghost from_gives = { λ _ e. e ≡ refusal.NoMemory };

    fn from(_: NoMemory) -> CheckRefusal {
        CheckRefusal::NoMemory
    }
}
