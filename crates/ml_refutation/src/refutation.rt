// Refutations: why no structure meets a graph, entry by entry.
ghost use Rattle.ml_refutation.specs.Refutation.{IsRefutation};
ghost use Rattle.ml_refutation.specs.Views.{of_parts};
ghost use Rattle.ml_refutation.specs.private.Propositions.{prop_refutation};

use crate::lists::Lists;
use ml_sequent::ClashCause;
use ml_trace::Mark;

/// How deep splits may be nested in a decision.
pub const NESTING_LIMIT: u32 = 4096;

/// What is decided at an entry: each side of each or-node that has to be chosen ends in a clash, or goes on along a
/// diamond to an entry.
#[derive(Debug, Drop)]
pub enum Decision {
    /// Both sides of an or-node are decided.
    Split {
        node: u32,
        left: Box<Decision>,
        right: Box<Decision>,
    },
    Clash(ClashCause),
    Go {
        diamond: u32,
        entry: u32,
        mark: Mark,
    },
}

/// A state of the trace automaton (a node, with no odd priority or with one that was guessed) with its stack of names.
#[derive(Clone, Copy, Debug)]
pub struct Item {
    pub node: u32,
    pub odd: Option<u32>,
    /// Its place among the stacks of the refutation.
    pub stack: usize,
}

/// A sequent with what is known of its traces, the heights of the entry, and what is decided there.
#[derive(Debug, Drop)]
pub struct Entry {
    /// Its place among the sequents of the refutation, each of which is nodes, ascending.
    pub sequent: usize,
    /// How many names are in use.
    pub live: u32,
    /// Ascending by node, and at one node first without an odd priority and then by it.
    pub items: Vec<Item>,
    /// For each even priority from 0 to twice the number of names.
    pub heights: Vec<u32>,
    pub decision: Decision,
}

/// Entries, of which the first is the start, how many names they may use, and the sequents and stacks that they name by
/// their places. A list may stand there again, and need not be named.
#[derive(Debug, Drop)]
pub struct Refutation {
    pub names: u32,
    pub sequents: Lists,
    pub stacks: Lists,
    pub entries: Vec<Entry>,
    pub ghost is_refutation: { IsRefutation (of_parts names sequents stacks entries) } by { prop_refutation (of_parts names sequents stacks entries) },
}

impl Refutation {
    ghost use Rattle.std.specs.Prelude.{◌≡◌};
    ghost use Rattle.ml_refutation.specs.Refutation.{IsRefutation};
    ghost use Rattle.ml_refutation.specs.Views.{of_parts};

    /// The refutation of these entries, which keep what can be said of them without a graph.
    ///
    /// Cost: constant.
    pub fn new(names: u32, sequents: Lists, stacks: Lists, entries: Vec<Entry>) -> Refutation
        requires { IsRefutation (of_parts names sequents stacks entries) }
        ensures names { result.names ≡ names }
        ensures sequents { result.sequents ≡ sequents }
        ensures stacks { result.stacks ≡ stacks }
        ensures entries { result.entries ≡ entries }
    {
        Refutation {
            names,
            sequents,
            stacks,
            entries,
        }
    }
}
