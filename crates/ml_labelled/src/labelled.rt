// Automata whose edges have cubes.
ghost use Rattle.std.specs.Prelude.{◌≡◌};
ghost use Rattle.ml_labelled.specs.Labelled.{IsLabelled};
ghost use Rattle.ml_labelled.specs.private.Views.{held, rows_of};

use ml_base::Name;
use std::marker::Model;

/// A proposition, by its number, that is to be true, or to be false.
#[derive(Clone, Copy, PartialEq, Eq, Hash)]
pub struct Literal {
    pub prop: u32,
    pub positive: bool,
}

/// An edge of an automaton: it may be taken where all literals of its cube are true.
#[derive(Drop)]
pub struct CubeEdge {
    pub cube: Vec<Literal>,
    pub to: u32,
    pub accepting: bool,
}

/// A Büchi automaton over sets of propositions: it begins in the state 0, and a run accepts if it takes accepting edges again
/// and again. It has a state; each edge leads to a state, under a cube that names propositions of the automaton, each once
/// and in ascending order. Contracts see the record of `specs/Labelled.antt`.
#[derive(Drop)]
pub struct LabelledAutomaton {
    props: Vec<Name>,
    edges: Vec<Vec<CubeEdge>>,
}

impl Model for LabelledAutomaton {
    ghost use Rattle.ml_labelled.specs.Labelled as plain;
    ghost use Rattle.ml_labelled.specs.Labelled.{IsLabelled};
    ghost use Rattle.ml_labelled.specs.private.Views.{held};

    ghost Value = { plain.Automaton };

    ghost view = { λ a. held a.props.items a.edges.items };

    ghost invariant = { λ a. IsLabelled (held a.props.items a.edges.items) };
}

impl LabelledAutomaton {
    /// The automaton with these propositions and these edges of each state.
    ///
    /// There is a state, and there are less than 2^32 states and propositions; each edge leads to a state, under a cube of the
    /// propositions, ascending.
    ///
    /// Cost: constant.
    pub fn new(props: Vec<Name>, edges: Vec<Vec<CubeEdge>>) -> LabelledAutomaton
        requires { IsLabelled (held props.items edges.items) }
        ensures { result ≡ held props.items edges.items }
    {
        LabelledAutomaton { props, edges }
    }

    /// The names of the propositions, in the order of their numbers.
    ///
    /// Cost: constant.
    pub fn props(&self) -> &[Name]
        ensures { result.now ≡ self.now.props }
    {
        &self.props
    }

    /// The edges of each state.
    ///
    /// Cost: constant.
    pub fn edges(&self) -> &[Vec<CubeEdge>]
        ensures edges { rows_of result.now ≡ self.now.edges }
        ensures labelled { IsLabelled self.now }
    {
        &self.edges
    }

    /// The names of the propositions, and the edges of each state.
    ///
    /// Cost: constant.
    pub fn into_parts(self) -> (Vec<Name>, Vec<Vec<CubeEdge>>)
        ensures parts { held result.0.items result.1.items ≡ self }
        ensures labelled { IsLabelled self }
    {
        let LabelledAutomaton { props, edges } = self;
        (props, edges)
    }
}
