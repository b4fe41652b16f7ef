// What the search makes, before it is checked.

use ml_kripke::Model;
use ml_refutation::{Entry, Lists};

/// What may be an answer. Nothing is known of it.
#[derive(Drop)]
pub enum Candidate {
    /// The graph may hold at the start of the model.
    Model(Model),
    /// The entries, with the sequents and stacks that they name, may be a refutation with so many names.
    Refutation {
        names: u32,
        sequents: Lists,
        stacks: Lists,
        entries: Vec<Entry>,
    },
}
