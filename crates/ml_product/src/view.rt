// Positions as an arena lends them.
ghost use Rattle.std.specs.Prelude.{◌≡◌, IfOk};
ghost use Rattle.ml_product.specs.View.{viewed};

use crate::store::Store;
use ml_base::NoMemory;
use ml_history::History;
use ml_sequent::{Choice, Sequent};

/// A position, as it is lent.
#[derive(Clone, Copy)]
pub struct View<'a> {
    /// The nodes that are to hold together.
    pub sequent: &'a Sequent,
    /// How these nodes came there.
    pub history: &'a History,
    /// The priority of its vertex.
    pub priority: u32,
    pub(crate) positions: &'a Store,
    pub(crate) number: u32,
}

impl<'a> View<'a> {
    /// The sides that were chosen since the last step.
    ///
    /// # Errors
    /// `NoMemory` alone.
    ///
    /// Cost: a vector for each of the sides, with the sides chosen before.
    pub fn choice(&self) -> Result<Choice, NoMemory>
        ensures { IfOk result (λ choice. choice ≡ (viewed self.now).choice) }
    {
        self.positions.choice(self.number)
    }
}
