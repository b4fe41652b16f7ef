// Local traces, and the letters and states of the trace automaton.

ghost use Rattle.std.specs.Prelude.{◌≡◌, IfSome, IfNone};
ghost use Rattle.std.specs.List.Sorted.{IsPermutation};
ghost use Rattle.ml_trace.specs.AutomatonNumbers.{HasSmallEnds, RiseByTarget};

use std::marker::Model;

/// A local trace: some way from the node `from` to the node `to` has `lowest` as its lowest priority.
#[derive(Clone, Copy, PartialEq, Eq, Debug)]
pub struct Triple {
    pub from: u32,
    pub lowest: u32,
    pub to: u32,
}

/// The local traces of one step: a list that stands for a set, so that its order and repeats mean nothing.
#[derive(Drop)]
pub struct LocalTraces {
    triples: Vec<Triple>,
}

impl Model for LocalTraces {
    ghost use Rattle.std.specs.Prelude.{List};
    ghost use Rattle.ml_trace.specs.declared.letters.Triple.{Triple};

    ghost Value = { List Triple };

    ghost view = { λ a. a.triples.items };
}

impl LocalTraces {
    /// The set of the given triples; total.
    ///
    /// Cost: constant.
    pub fn new(triples: Vec<Triple>) -> LocalTraces
        ensures { result ≡ triples.items }
    {
        LocalTraces { triples }
    }

    /// The triples, as they were given.
    ///
    /// Cost: constant.
    pub fn triples(&self) -> &[Triple]
        ensures { result.now ≡ self.now }
    {
        self.triples.as_slice()
    }

    /// The triples, as they were given, to be put in another order.
    ///
    /// Cost: constant.
    pub(crate) fn into_triples(self) -> Vec<Triple>
        ensures { result.items ≡ self }
    {
        self.triples
    }
}

/// A state of the trace automaton: a node, with no odd priority or with one that was guessed.
#[derive(Clone, Copy, PartialEq, Eq, Debug)]
pub struct AutomatonState {
    pub node: u32,
    pub odd: Option<u32>,
}

/// A transition of the trace automaton between two states, by their numbers.
#[derive(Clone, Copy, PartialEq, Eq, Debug)]
pub struct Transition {
    pub from: u32,
    pub to: u32,
    pub accepting: bool,
}

/// What all numbers of states are below: 2^30.
pub const STATE_LIMIT: u32 = 1 << 30;

/// A letter of the trace automaton: a list of transitions that stands for a set, so that its order and repeats mean
/// nothing to a reader. All ends are below `STATE_LIMIT`, and the targets do not descend: a step asks each target for
/// the transitions that lead to it, so they are brought together once, when the letter is made.
#[derive(Drop)]
pub struct Letter {
    transitions: Vec<Transition>,
}

impl Model for Letter {
    ghost use Rattle.std.specs.Prelude.{List};
    ghost use Rattle.ml_trace.specs.declared.letters.Transition.{Transition};

    ghost Value = { List Transition };

    ghost use Rattle.ml_trace.specs.AutomatonNumbers.{IsLetter};

    ghost view = { λ a. a.transitions.items };

    ghost invariant = { λ a. IsLetter a.transitions.items };
}

impl Letter {
    /// The letter of the given transitions, whose ends are below `STATE_LIMIT`.
    ///
    /// Cost: a sort of the transitions by their targets, in place; linear where they stand so already.
    pub fn of(mut transitions: Vec<Transition>) -> Letter
        requires { HasSmallEnds transitions.items }
        ensures { IsPermutation transitions.items result }
    {
        transitions.sort_unstable_by_key(|t| t.to);
        Letter { transitions }
    }

    /// The letter of the given transitions, or `None` exactly where an end is `STATE_LIMIT` or more.
    ///
    /// Cost: as `of`.
    pub fn new(transitions: Vec<Transition>) -> Option<Letter>
        ensures some { IfSome result (λ letter. IsPermutation transitions.items letter × HasSmallEnds transitions.items) }
        ensures none { IfNone result (¬ HasSmallEnds transitions.items) }
    {
        let small = transitions
            .iter()
            .all(|t| t.from < STATE_LIMIT && t.to < STATE_LIMIT);
        if small {
            Some(Letter::of(transitions))
        } else {
            None
        }
    }

    /// The transitions, by their targets.
    ///
    /// Cost: constant.
    pub fn transitions(&self) -> &[Transition]
        ensures value { result.now ≡ self.now }
        ensures small { HasSmallEnds result.now }
        ensures by_target { RiseByTarget result.now }
    {
        self.transitions.as_slice()
    }
}
