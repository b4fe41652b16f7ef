// What is found of a machine or an environment.
ghost use Rattle.std.specs.Prelude.{◌≡◌};

use std::marker::Model;

/// A word of a machine or of an environment: a letter for each moment, the number of a valuation, and the place to which the
/// last one leads back. Contracts see the word.
#[derive(Drop)]
pub struct Run {
    letters: Vec<u32>,
    loop_start: usize,
}

impl Model for Run {
    ghost use Rattle.std.specs.Prelude.{ℕ};
    ghost use Rattle.ml_trace.specs.WordAutomata.{WordLasso};

    ghost Value = { WordLasso ℕ };

    ghost view = { λ r. record { word = r.letters.items; loop_start = r.loop_start } };
}

impl Run {
    // the word of these letters
    pub(crate) fn new(letters: Vec<u32>, loop_start: usize) -> Run
        ensures { result ≡ record { word = letters.items; loop_start = loop_start } }
    {
        Run {
            letters,
            loop_start,
        }
    }

    /// The valuations: the bits of the inputs, and above them those of the outputs.
    ///
    /// Cost: constant.
    pub fn letters(&self) -> &[u32]
        ensures { result.now ≡ self.now.word }
    {
        &self.letters
    }

    /// The place to which the last one leads back.
    ///
    /// Cost: constant.
    pub fn loop_start(&self) -> usize
        ensures { result ≡ self.now.loop_start }
    {
        self.loop_start
    }
}

/// What is found of a machine or an environment.
#[derive(Drop)]
pub enum MachineVerdict {
    /// It is right.
    Holds,
    /// It isn't, as this word shows.
    Fails(Run),
    /// The graph of the word automaton has too many nodes.
    ClosureTooLarge,
}
