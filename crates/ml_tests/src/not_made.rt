// Why a generator made nothing.

use ml_base::NoMemory;
use ml_parity::GameRefusal;
use std::alloc::{AllocError, AllocFailed};
use thiserror::Error;

/// Why a generator made nothing.
#[derive(Clone, Copy, Debug, Error)]
pub enum NotMade {
    /// Memory was wanting.
    #[error("out of memory")]
    NoMemory,
    /// What was asked for is no game.
    #[error("no game: {0}")]
    Game(GameRefusal),
    /// What was asked for has numbers that are too great.
    #[error("too large")]
    TooLarge,
}

impl From<AllocError> for NotMade {
    fn from(_: AllocError) -> NotMade {
        NotMade::NoMemory
    }
}

impl<T: Drop> From<AllocFailed<T>> for NotMade {
    fn from(_: AllocFailed<T>) -> NotMade {
        NotMade::NoMemory
    }
}

impl From<NoMemory> for NotMade {
    fn from(_: NoMemory) -> NotMade {
        NotMade::NoMemory
    }
}

impl From<GameRefusal> for NotMade {
    fn from(refusal: GameRefusal) -> NotMade {
        NotMade::Game(refusal)
    }
}
