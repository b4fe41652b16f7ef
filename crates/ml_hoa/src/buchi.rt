// Büchi automata.
ghost use Rattle.std.specs.Prelude.{◌≡◌, IfOk};
ghost use Rattle.ml_hoa.specs.Automaton.{IsAutomaton};
ghost use Rattle.ml_hoa.specs.private.Views.{edges_of};

use crate::guard::Guard;
use ml_base::NoMemory;
use std::alloc::Global;
use std::marker::Model;

/// A string of a text: the bytes between its quotes, as they stand there, a `\` and the byte behind it too. Contracts see
/// the bytes.
#[derive(Drop)]
pub struct Quoted {
    bytes: Vec<u8>,
}

impl Model for Quoted {
    ghost use Rattle.std.specs.Prelude.{List, ℕ};

    ghost Value = { List ℕ };

    ghost view = { λ q. q.bytes.items };
}

impl Quoted {
    // these bytes
    pub(crate) fn new(alloc: Global, bytes: &[u8]) -> Result<Quoted, NoMemory>
        ensures { IfOk result (λ q. q ≡ bytes.now) }
    {
        Ok(Quoted {
            bytes: Vec::from_slice(alloc, bytes)?,
        })
    }

    /// The bytes.
    pub fn bytes(&self) -> &[u8]
        ensures { result.now ≡ self.now }
    {
        &self.bytes
    }

    /// A copy.
    ///
    /// # Errors
    /// `NoMemory` alone.
    ///
    /// Cost: linear in the bytes.
    pub fn copy(&self) -> Result<Quoted, NoMemory>
        ensures { IfOk result (λ q. q ≡ self.now) }
    {
        Quoted::new(*self.bytes.allocator(), &self.bytes)
    }
}

/// An edge of an automaton: it may be taken where its guard is true.
#[derive(Drop)]
pub struct BuchiEdge {
    pub from: u32,
    pub guard: Guard,
    pub to: u32,
    pub accepting: bool,
}

/// A Büchi automaton: a run accepts if it takes accepting edges infinitely often. States and propositions are known by
/// their numbers, from 0 on; all numbers in it are in range, so it has a state, and it keeps the limits. Contracts see the
/// automaton of `specs/Automaton.antt`.
#[derive(Drop)]
pub struct Buchi {
    states: u32,
    start: u32,
    props: Vec<Quoted>,
    edges: Vec<BuchiEdge>,
}

impl Model for Buchi {
    ghost use Rattle.ml_hoa.specs.Automaton as plain;
    ghost use Rattle.ml_hoa.specs.private.AutomatonCode.{automaton_code};

    ghost Value = { plain.Automaton };

    ghost coded = { automaton_code };

    ghost use Rattle.ml_hoa.specs.Automaton.{IsAutomaton};
    ghost use Rattle.ml_hoa.specs.private.Views.{edges_of};

    ghost view = { λ b. record { states = b.states; start = b.start; props = b.props.items; edges = edges_of b.edges.items } };

    ghost invariant = { λ b. IsAutomaton (record {
      states = b.states;
      start = b.start;
      props = b.props.items;
      edges = edges_of b.edges.items;
    }) };
}

impl Buchi {
    // the automaton with these parts
    pub(crate) fn new(states: u32, start: u32, props: Vec<Quoted>, edges: Vec<BuchiEdge>) -> Buchi
        requires { IsAutomaton (record { states = states; start = start; props = props.items; edges = edges_of edges.items }) }
        ensures { result ≡ record { states = states; start = start; props = props.items; edges = edges_of edges.items } }
    {
        Buchi {
            states,
            start,
            props,
            edges,
        }
    }

    /// How many states there are.
    pub fn states(&self) -> u32
        ensures value { result ≡ self.now.states }
        ensures automaton { IsAutomaton self.now }
    {
        self.states
    }

    /// The first state.
    pub fn start(&self) -> u32
        ensures value { result ≡ self.now.start }
        ensures automaton { IsAutomaton self.now }
    {
        self.start
    }

    /// The names of the propositions, in the order of their numbers.
    pub fn props(&self) -> &[Quoted]
        ensures value { result.now ≡ self.now.props }
        ensures automaton { IsAutomaton self.now }
    {
        &self.props
    }

    /// The edges, in the order of the text.
    pub fn edges(&self) -> &[BuchiEdge]
        ensures value { edges_of result.now ≡ self.now.edges }
        ensures automaton { IsAutomaton self.now }
    {
        &self.edges
    }
}
