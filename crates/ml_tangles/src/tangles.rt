// Tangles.
use ml_base::NoMemory;
use ml_game_check::numbers::number;
use std::alloc::Global;

/// Vertices within which a player wins whatever stays within, by the moves given, and the only ways out for the other player.
#[derive(Drop)]
pub(crate) struct Tangle {
    pub player: u32,
    /// The vertices, with the player's moves.
    pub vertices: Vec<(u32, u32)>,
    pub escapes: Vec<u32>,
    /// Whether it is still of use.
    pub alive: bool,
}

impl Tangle {
    pub(crate) fn empty(alloc: Global, player: u32) -> Tangle {
        Tangle {
            player,
            vertices: Vec::new(alloc),
            escapes: Vec::new(alloc),
            alive: true,
        }
    }

    /// How much it takes to hold it.
    pub(crate) fn weight(&self) -> u64 {
        (self.vertices.len() as u64).saturating_add(self.escapes.len() as u64)
    }

    /// How many escapes have this mark.
    pub(crate) fn escapes_with(&self, marks: &[u32], mark: u32) -> u32 {
        let mut count: u32 = 0;
        for vertex in &self.escapes {
            if number(marks, *vertex) == mark {
                count = count.saturating_add(1);
            }
        }
        count
    }

    /// Have all vertices one of these marks?
    pub(crate) fn is_within(&self, marks: &[u32], one: u32, other: u32) -> bool {
        for (vertex, _) in &self.vertices {
            let mark = number(marks, *vertex);
            if mark != one && mark != other {
                return false;
            }
        }
        true
    }
}
