// What a search finds.

use ml_kripke::Model;
use ml_refutation::Refutation;

/// What a search finds: a structure with a state at which a graph holds, or a refutation of the graph.
#[derive(Debug, Drop)]
pub enum Found {
    /// The graph holds at the start of the model.
    Model(Model),
    /// The graph holds nowhere, as the refutation shows.
    Refutation(Refutation),
}
