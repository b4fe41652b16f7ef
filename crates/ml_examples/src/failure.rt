// Why the rows were not all run.

use ml_base::NoMemory;
use std::alloc::AllocError;
use std::io;
use thiserror::Error;

/// Why the rows were not all run.
#[derive(Debug, Drop, Error)]
pub enum Failure {
    #[error("a line that is none of a row")]
    Line,
    #[error("out of memory")]
    NoMemory,
    #[error("{0}")]
    Io(io::Error),
}

impl From<AllocError> for Failure {
    fn from(_: AllocError) -> Failure {
        Failure::NoMemory
    }
}

impl From<NoMemory> for Failure {
    fn from(_: NoMemory) -> Failure {
        Failure::NoMemory
    }
}

impl From<io::Error> for Failure {
    fn from(error: io::Error) -> Failure {
        Failure::Io(error)
    }
}
