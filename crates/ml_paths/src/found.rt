// What is found of the paths from a state.
ghost use Rattle.std.specs.Prelude.{◌≡◌};

use std::marker::Model;

/// A path: a state for each place, and the place to which the last one leads back. Contracts see the lasso.
#[derive(Drop)]
pub struct Path {
    states: Vec<u32>,
    loop_start: usize,
}

impl Model for Path {
    ghost use Rattle.ml_lists.specs.Lasso.{Lasso};

    ghost Value = { Lasso };

    ghost view = { λ p. record { entries = p.states.items; start = p.loop_start } };
}

impl Path {
    // the path through these states
    pub(crate) fn new(states: Vec<u32>, loop_start: usize) -> Path
        ensures { result ≡ record { entries = states.items; start = loop_start } }
    {
        Path { states, loop_start }
    }

    /// The states, one for each place.
    ///
    /// Cost: constant.
    pub fn states(&self) -> &[u32]
        ensures { result.now ≡ self.now.entries }
    {
        &self.states
    }

    /// The place to which the last one leads back.
    ///
    /// Cost: constant.
    pub fn loop_start(&self) -> usize
        ensures { result ≡ self.now.start }
    {
        self.loop_start
    }
}

/// What is found of the paths from a state.
#[derive(Drop)]
pub enum Found {
    /// A path that satisfies the formula in its sense.
    Path(Path),
    /// None does.
    NoPath,
    /// The graph of the word automaton has too many nodes.
    ClosureTooLarge,
}
