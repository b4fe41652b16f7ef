// How a walk goes on from a place.
ghost use Rattle.std.specs.Prelude.{◌≡◌, ◌<◌, ◌↔◌, IfOk};
ghost use Rattle.ml_graph.specs.Graph.{IsGraph, size};
ghost use Rattle.ml_lists.specs.Ascending.{IsAscending};
ghost use Rattle.ml_lists.specs.Member.{IsMember};
ghost use Rattle.ml_translate.specs.declared.place.Place.{Place};
ghost use Rattle.ml_translate.specs.Places.{further};
ghost use Rattle.ml_translate.specs.private.Finding.{AreNumbers, Follows, IsBehindLiteral, IsPast, places_in, props_of};

use crate::cube::joined;
use crate::place::Place;
use crate::propositions::Propositions;
use ml_base::NoMemory;
use ml_graph::{ModalGraph, Node};
use ml_labelled::Literal;
use std::alloc::Global;

// what a walk reads: the graph, and the numbers of its propositions
#[derive(Clone, Copy)]
pub(crate) struct Reading<'a> {
    pub graph: &'a ModalGraph,
    pub propositions: &'a Propositions,
}

// the places to which a walk goes on
#[derive(Drop)]
pub(crate) enum Behind {
    Nothing,
    One(Place),
    Two(Place, Place),
}

// the place at another node
fn moved(place: &Place, node: u32) -> Result<Place, NoMemory>
    ensures { IfOk result (λ s. s ≡ further place.now node place.now.cube) }
{
    Ok(Place {
        state: place.state,
        node,
        cube: place.cube.copy()?,
    })
}

// the place behind a literal, if the cube may have it
fn behind_literal(
    alloc: Global,
    place: &Place,
    node: u32,
    literal: Literal,
) -> Result<Behind, NoMemory>
    requires { IsAscending (props_of place.now.cube) }
    ensures { IfOk result (λ b. (t : Place) → IsMember t (places_in b) ↔ IsBehindLiteral place.now node literal t) }
{
    Ok(match joined(alloc, place.cube.literals(), literal)? {
        Some(cube) => Behind::One(Place {
            state: place.state,
            node,
            cube,
        }),
        None => Behind::Nothing,
    })
}

// the place behind a state node, if a walk goes past it
fn past(
    alloc: Global,
    reading: &Reading,
    place: &Place,
    state_node: u32,
    node: u32,
) -> Result<Behind, NoMemory>
    requires graph { IsGraph reading.now.graph.now }
    requires node { state_node < size reading.now.graph.now }
    requires numbers { AreNumbers reading.now.graph.now reading.now.propositions.now.names.items reading.now.propositions.now.numbers.items }
    requires ascends { IsAscending (props_of place.now.cube) }
    ensures { IfOk result (λ b. (t : Place) → IsMember t (places_in b) ↔ IsPast reading.now.graph.now
        reading.now.propositions.now.names.items place.now state_node node t) }
{
    match *reading.graph.node(state_node) {
        Node::True => Ok(Behind::One(moved(place, node)?)),
        Node::Lit { prop, positive } => match reading.propositions.numbers[prop as usize] {
            Some(prop) => behind_literal(alloc, place, node, Literal { prop, positive }),
            None => Ok(Behind::Nothing),
        },
        Node::False
        | Node::And { .. }
        | Node::Or { .. }
        | Node::Diamond { .. }
        | Node::Square { .. } => Ok(Behind::Nothing),
    }
}

// the places to which a walk goes on from a place
pub(crate) fn walk_on(alloc: Global, reading: &Reading, place: &Place) -> Result<Behind, NoMemory>
    requires graph { IsGraph reading.now.graph.now }
    requires node { place.now.node < size reading.now.graph.now }
    requires numbers { AreNumbers reading.now.graph.now reading.now.propositions.now.names.items reading.now.propositions.now.numbers.items }
    requires ascends { IsAscending (props_of place.now.cube) }
    ensures { IfOk result (λ b. (t : Place) → IsMember t (places_in b)
        ↔ Follows reading.now.graph.now reading.now.propositions.now.names.items place.now t) }
{
    match *reading.graph.node(place.node) {
        Node::And { left, right } if left == right => Ok(Behind::One(moved(place, right)?)),
        Node::And { left, right } => past(alloc, reading, place, left, right),
        Node::Or { left, right } => Ok(Behind::Two(moved(place, left)?, moved(place, right)?)),
        Node::True | Node::False | Node::Lit { .. } | Node::Diamond { .. } | Node::Square { .. } =>
            Ok(Behind::Nothing),
    }
}
