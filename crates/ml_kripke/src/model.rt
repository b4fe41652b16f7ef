// A structure with a state to start from.
ghost use Rattle.std.specs.Prelude.{◌≡◌, ◌<◌};

use crate::structure::Structure;

/// A structure with one of its states, at which something is said to hold.
#[derive(Debug, Drop)]
pub struct Model {
    pub structure: Structure,
    pub start: u32,
    pub ghost is_state: { start < structure.states },
}

impl Model {
    /// The structure with this state to start from.
    pub fn new(structure: Structure, start: u32) -> Model
        requires { start < structure.states }
        ensures structure { result.structure ≡ structure }
        ensures start { result.start ≡ start }
    {
        Model { structure, start }
    }
}
