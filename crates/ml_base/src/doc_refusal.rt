// Why a document, or a part of one, isn't read.
ghost use Rattle.std.specs.Prelude.{◌≡◌};

use crate::doc_fault::DocFault;
use crate::no_memory::NoMemory;
use std::alloc::{AllocError, AllocFailed};
use thiserror::Error;

/// Why a document, or a part of one, isn't read.
#[derive(Clone, Copy, Debug, PartialEq, Eq, Error)]
pub enum DocRefusal {
    /// The first bad line, and the lowest rule that it breaks.
    #[error("a line that breaks a rule")]
    Fault(DocFault),
    #[error("out of memory")]
    NoMemory,
}

impl From<NoMemory> for DocRefusal {
    ghost use Rattle.ml_base.specs.declared.doc_refusal.DocRefusal.TheVariants as refusal;

    ghost from_gives = { λ _ e. e ≡ refusal.NoMemory };

    fn from(_: NoMemory) -> DocRefusal {
        DocRefusal::NoMemory
    }
}

impl From<AllocError> for DocRefusal {
    ghost use Rattle.ml_base.specs.declared.doc_refusal.DocRefusal.TheVariants as refusal;

    ghost from_gives = { λ _ e. e ≡ refusal.NoMemory };

    fn from(_: AllocError) -> DocRefusal {
        DocRefusal::NoMemory
    }
}

impl<T: Drop> From<AllocFailed<T>> for DocRefusal {
    ghost use Rattle.ml_base.specs.declared.doc_refusal.DocRefusal.TheVariants as refusal;

    ghost from_gives = { λ _ e. e ≡ refusal.NoMemory };

    fn from(_: AllocFailed<T>) -> DocRefusal {
        DocRefusal::NoMemory
    }
}
