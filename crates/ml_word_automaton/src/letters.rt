// The transitions of a word automaton under a letter.
ghost use Rattle.std.specs.Prelude.{◌≡◌, ◌<◌, ◌++◌, [], None, Some, not, set, length, get_or, ℕ, List, IfOk, OnOk};
ghost use Rattle.ml_graph.specs.Graph.{IsGraph, size, node_at};
ghost use Rattle.ml_word_automaton.specs.Letters.{AreThoseIn, HasTransitions};
ghost use Rattle.ml_word_automaton.specs.private.Walking.{AreAdded, IsSeenMore, has_number, is_last, is_true_node, last, moves, onward};

use crate::automaton::WordAutomaton;
use ml_base::{IdSet, NoMemory};
use ml_graph::{ModalGraph, Node};
use ml_trace::{Letter, Transition};
use std::alloc::Global;

// what a walk reads: the graph, of each node the number of its state, and the propositions that are true
#[derive(Clone, Copy)]
struct Reading<'a> {
    graph: &'a ModalGraph,
    numbers: &'a [u32],
    present: &'a IdSet,
}

// is the proposition true?
fn has(present: &IdSet, prop: u32) -> bool
    ensures { result ≡ has_number present.now prop }
{
    present.contains(prop)
}

// is the node True, or a literal that is true?
fn is_true(graph: &ModalGraph, present: &IdSet, n: u32) -> bool
    requires { n < size graph.now }
    ensures { result ≡ is_true_node present.now (node_at graph.now n) }
{
    match *graph.node(n) {
        Node::True => true,
        Node::Lit { prop, positive } => has(present, prop) == positive,
        Node::False
        | Node::And { .. }
        | Node::Or { .. }
        | Node::Diamond { .. }
        | Node::Square { .. } => false,
    }
}

// goes on from a node to those behind it, or ends with a transition of the state
fn go_on(
    reading: &Reading,
    state: u32,
    n: u32,
    waiting: &mut Vec<u32>,
    transitions: &mut Vec<Transition>,
) -> Result<(), NoMemory>
    requires graph { IsGraph reading.now.graph.now }
    requires numbers { length reading.now.numbers.now ≡ size reading.now.graph.now }
    requires node { n < size reading.now.graph.now }
    ensures waiting { OnOk result (waiting.new.items
        ≡ waiting.old.items ++ onward reading.now.graph.now reading.now.present.now n) }
    ensures transitions { OnOk result (transitions.new.items
        ≡ transitions.old.items ++ moves reading.now.graph.now reading.now.numbers.now state n) }
{
    match *reading.graph.node(n) {
        Node::And { left, right } => {
            if left == right || is_true(reading.graph, reading.present, left) {
                waiting.push(right)?;
            }
        }
        Node::Or { left, right } => {
            waiting.push(left)?;
            waiting.push(right)?;
        }
        Node::Diamond { to, .. } => transitions.push(Transition {
            from: state,
            to: reading.numbers[to as usize],
            accepting: reading.graph.priority(n) == 0,
        })?,
        Node::True => transitions.push(Transition {
            from: state,
            to: reading.numbers[n as usize],
            accepting: true,
        })?,
        Node::False | Node::Lit { .. } | Node::Square { .. } => {}
    }
    Ok(())
}

// marks a node as seen from a state; is it new?
fn visit(seen: &mut Vec<Option<u32>>, state: u32, n: u32) -> bool
    requires { n < length seen.old.items }
    ensures is_new { result ≡ not (is_last state (last seen.old.items n)) }
    ensures seen { seen.new.items ≡ set seen.old.items n (Some state) }
{
    let is_new = seen[n as usize] != Some(state);
    seen[n as usize] = Some(state);
    is_new
}

// adds the transitions of a state, at its node
fn walk_from(
    reading: &Reading,
    state: u32,
    start: u32,
    seen: &mut Vec<Option<u32>>,
    waiting: &mut Vec<u32>,
    transitions: &mut Vec<Transition>,
) -> Result<(), NoMemory>
    requires graph { IsGraph reading.now.graph.now }
    requires numbers { length reading.now.numbers.now ≡ size reading.now.graph.now }
    requires start { start < size reading.now.graph.now }
    requires seen { length seen.old.items ≡ size reading.now.graph.now }
    requires new { (n : ℕ) → last seen.old.items n ≡ Some state → ⊥ }
    requires waiting { waiting.old.items ≡ [] }
    ensures seen { OnOk result (IsSeenMore state seen.old.items seen.new.items) }
    ensures waiting { OnOk result (waiting.new.items ≡ []) }
    ensures transitions { OnOk result (AreAdded (onward reading.now.graph.now reading.now.present.now)
        (moves reading.now.graph.now reading.now.numbers.now state) start transitions.old.items transitions.new.items) }
{
    waiting.push(start)?;
    while let Some(n) = waiting.pop() {
        if visit(seen, state, n) {
            go_on(reading, state, n, waiting, transitions)?;
        }
    }
    Ok(())
}

/// The letter of a word automaton that has the transitions between its states, by their numbers, where exactly the
/// propositions of the graph with these numbers are true.
///
/// Numbers in `present` that are those of no proposition of the graph mean nothing.
///
/// # Errors
/// `NoMemory` alone.
///
/// Cost: linear in the nodes; for each state linear in the nodes that walks from it pass, with a search in `present` for each
/// literal among them; and a sort of the transitions.
pub fn letter_at(automaton: &WordAutomaton, present: &IdSet) -> Result<Letter, NoMemory>
    ensures { IfOk result (λ transitions. (letter : List (List ℕ))
        → AreThoseIn automaton.now.graph letter present.now
        → HasTransitions automaton.now letter transitions) }
{
    let states = automaton.states();
    let reading = Reading {
        graph: automaton.graph(),
        numbers: automaton.numbers(),
        present,
    };
    let alloc = automaton.allocator();
    let mut seen = vec![in alloc; None; reading.graph.size() as usize]?;
    let mut waiting = Vec::new(alloc);
    let mut transitions = Vec::new(alloc);
    for state in 0..states.len() as u32 {
        walk_from(
            &reading,
            state,
            states[state as usize],
            &mut seen,
            &mut waiting,
            &mut transitions,
        )?;
    }
    Ok(Letter::of(transitions))
}
