// What is claimed of a vertex.

use ml_parity::Player;

/// A claim about a vertex: who wins it, and by which move.
#[derive(Clone, Copy, Debug, PartialEq, Eq)]
pub struct Claim {
    /// The player who is said to win the vertex.
    pub winner: Player,
    /// The vertex to move to, or `None`. It means something only where the winner owns the vertex.
    pub move_to: Option<u64>,
}
