// Why a measurement ended.

use ml_base::NoMemory;
use ml_tests::NotMade;
use std::alloc::AllocError;
use std::io;
use thiserror::Error;

/// Why a measurement ended.
#[derive(Debug, Drop, Error)]
pub enum Failure {
    #[error("write small, or the name of a measurement and a size")]
    Words,
    #[error("out of memory")]
    NoMemory,
    #[error("{0}")]
    NotMade(NotMade),
    #[error("{0}")]
    Io(io::Error),
}

impl From<AllocError> for Failure {
    fn from(_: AllocError) -> Failure {
        Failure::NoMemory
    }
}

impl From<NoMemory> for Failure {
    fn from(_: NoMemory) -> Failure {
        Failure::NoMemory
    }
}

impl From<NotMade> for Failure {
    fn from(reason: NotMade) -> Failure {
        Failure::NotMade(reason)
    }
}

impl From<io::Error> for Failure {
    fn from(error: io::Error) -> Failure {
        Failure::Io(error)
    }
}
