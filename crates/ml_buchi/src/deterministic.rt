// Deterministic parity automata over valuations.
ghost use Rattle.std.specs.Prelude.{◌≡◌};
ghost use Rattle.ml_determinise.specs.Numbering.{rows_of};
ghost use Rattle.ml_buchi.specs.WrittenText.{IsWritable};

use ml_determinise::DetMove;
use ml_hoa::Quoted;
use std::marker::Model;

/// A deterministic parity automaton: it begins in the state 0, and in each state it has one move for each valuation of the
/// propositions, to one of the states and with a priority below `top`, which is odd. There are at most 8 propositions. A run
/// is accepted if the lowest priority that it meets again and again is odd. Contracts see the record of
/// `specs/Deterministic.antt`; that each automaton is so says `IsWritable` of `specs/WrittenText.antt`.
#[derive(Drop)]
pub struct Deterministic {
    props: Vec<Quoted>,
    top: u32,
    moves: Vec<Vec<DetMove>>,
}

impl Model for Deterministic {
    ghost use Rattle.ml_buchi.specs.Deterministic as plain;
    ghost use Rattle.ml_buchi.specs.WrittenText.{IsWritable};
    ghost use Rattle.ml_determinise.specs.Numbering.{rows_of};

    ghost Value = { plain.Deterministic };

    ghost view = { λ d. record { props = d.props.items; top = d.top; moves = rows_of d.moves.items } };

    ghost invariant = { λ d. IsWritable (record { props = d.props.items; top = d.top; moves = rows_of d.moves.items }) };
}

impl Deterministic {
    /// The automaton with these propositions, this number `top`, and for each state these moves, one for each valuation.
    ///
    /// `top` is odd; there are at most 8 propositions and some state; each move has a priority below `top` and leads to one
    /// of the states.
    ///
    /// Cost: constant.
    pub fn new(props: Vec<Quoted>, top: u32, moves: Vec<Vec<DetMove>>) -> Deterministic
        requires { IsWritable (record { props = props.items; top = top; moves = rows_of moves.items }) }
        ensures { result ≡ record { props = props.items; top = top; moves = rows_of moves.items } }
    {
        Deterministic { props, top, moves }
    }

    /// The names of the propositions, in the order of their numbers.
    ///
    /// Cost: constant.
    pub fn props(&self) -> &[Quoted]
        ensures { result.now ≡ self.now.props }
    {
        &self.props
    }

    /// What all priorities are below.
    ///
    /// Cost: constant.
    pub fn top(&self) -> u32
        ensures { result ≡ self.now.top }
    {
        self.top
    }

    /// The moves of each state, one for each valuation, valuations ascending.
    ///
    /// Cost: constant.
    pub fn moves(&self) -> &[Vec<DetMove>]
        ensures moves { rows_of result.now ≡ self.now.moves }
        ensures writable { IsWritable self.now }
    {
        &self.moves
    }
}
