// What was found at a position.
ghost use Rattle.std.specs.Prelude.{◌≡◌, ◌+◌, ℕ, [], ◌∷◌, IfOk};
ghost use Rattle.ml_product.specs.private.Recorded.{owner_of, moves_of, IsLike};

use ml_base::NoMemory;
use ml_parity::Player;
use std::alloc::Global;

/// What was found at a position: nothing yet, that it is lost, or won, or the numbers of the positions to which its
/// moves lead, with one side chosen and with the other, or along diamonds.
#[derive(Debug, Drop)]
pub(crate) enum Recorded {
    Waiting,
    Lost,
    Won,
    Chosen([u64; 2]),
    Led(Vec<u64>),
}

impl Recorded {
    // who moves
    pub(crate) fn owner(&self) -> Player
        ensures { result ≡ owner_of self.now }
    {
        match self {
            Recorded::Led(_) => Player::Odd,
            _ => Player::Even,
        }
    }

    // the same again
    pub(crate) fn copy(&self, alloc: Global) -> Result<Recorded, NoMemory>
        ensures { IfOk result (λ copied. IsLike copied self.now) }
    {
        match self {
            Recorded::Waiting => Ok(Recorded::Waiting),
            Recorded::Lost => Ok(Recorded::Lost),
            Recorded::Won => Ok(Recorded::Won),
            Recorded::Chosen(sides) => Ok(Recorded::Chosen(*sides)),
            Recorded::Led(moves) => Ok(Recorded::Led(Vec::from_slice(alloc, moves)?)),
        }
    }

    // the moves as vertices of the game, where these are Lost and Won
    pub(crate) fn moves<'a>(&'a self, ends: &'a [u64; 2]) -> &'a [u64]
        ensures { (n : ℕ) → ends.now ≡ n ∷ (n + 1) ∷ [] → result.now ≡ moves_of n self.now }
    {
        match self {
            Recorded::Waiting => &[],
            Recorded::Lost => &ends[..1],
            Recorded::Won => &ends[1..],
            Recorded::Chosen(sides) => sides,
            Recorded::Led(moves) => moves,
        }
    }
}
