// The faults that the readers of items tell.
use crate::rule::SpecRule;
use ml_base::NoMemory;
use std::alloc::AllocFailed;

/// Which rule a text breaks first, and at which byte, counted from 0; or want of memory.
#[derive(Clone, Copy)]
pub(crate) enum Fault {
    Breaks { rule: SpecRule, at: usize },
    NoMemory,
}

impl From<NoMemory> for Fault {
    ghost use Rattle.std.specs.Prelude.{◌≡◌};
    ghost use Rattle.ml_spec.specs.declared.fault.Fault.TheVariants as fault;

    ghost from_gives = { λ _ e. e ≡ fault.NoMemory };

    fn from(_: NoMemory) -> Fault {
        Fault::NoMemory
    }
}

impl<T: Drop> From<AllocFailed<T>> for Fault {
    ghost use Rattle.std.specs.Prelude.{◌≡◌};
    ghost use Rattle.ml_spec.specs.declared.fault.Fault.TheVariants as fault;

    ghost from_gives = { λ _ e. e ≡ fault.NoMemory };

    fn from(_: AllocFailed<T>) -> Fault {
        Fault::NoMemory
    }
}
