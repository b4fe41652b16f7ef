// What a search with many formulas comes to.
use ml_kripke::Model;

/// What a search with many formulas at once came to. Nothing is claimed of it.
#[derive(Drop)]
pub enum JoinedFinding {
    /// All of them may hold at the start of the model.
    Structure(Model),
    /// Those that are flagged, by their places, may have no structure.
    Clash(Vec<bool>),
    /// Nothing was found.
    Nothing,
}
