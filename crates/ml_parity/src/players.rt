// The two players.

ghost use Rattle.std.specs.Prelude.{◌≡◌};
ghost use Rattle.ml_parity.specs.Player.{opponent, side};

/// One of the two players of a parity game.
#[derive(Clone, Copy, Debug, PartialEq, Eq)]
pub enum Player {
    /// The player for whom an even lowest priority is good.
    Even,
    /// The player for whom an odd lowest priority is good.
    Odd,
}

impl Player {
    /// The other player.
    pub fn opponent(self) -> Player
        ensures { result ≡ opponent self }
    {
        match self {
            Player::Even => Player::Odd,
            Player::Odd => Player::Even,
        }
    }

    /// The player for whom this lowest priority is good: `Even` if it is even, `Odd` if it is odd.
    pub fn of_priority(priority: u32) -> Player
        ensures { result ≡ side priority }
    {
        if priority % 2 == 0 {
            Player::Even
        } else {
            Player::Odd
        }
    }
}
