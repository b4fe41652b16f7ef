// The edges that places make.
ghost use Rattle.std.specs.Prelude.{◌≡◌, ◌<◌, ℕ, [], IfOk, OnOk, length};
ghost use Rattle.ml_graph.specs.Graph.{IsGraph, size};
ghost use Rattle.ml_labelled.specs.private.Views as held;
ghost use Rattle.ml_translate.specs.private.Finding.{AllFit, AreStateNumbers, HaveEdges, HaveNumberedEdges, IsEdgePut, IsPut, row_at};

use crate::place::Place;
use indexmap::IndexSet;
use ml_base::NoMemory;
use ml_graph::{ModalGraph, Node};
use ml_labelled::CubeEdge;
use ml_word_automaton::WordAutomaton;
use std::alloc::Global;

// of each node the number of its state, if it is one
fn state_numbers(alloc: Global, automaton: &WordAutomaton) -> Result<Vec<u32>, NoMemory>
    ensures { IfOk result (λ numbers. AreStateNumbers automaton.now numbers.items) }
{
    let states = automaton.states();
    let size = automaton.graph().size();
    let mut numbers = vec![in alloc; 0u32; size as usize]?;
    for (state, node) in states.iter().enumerate() {
        numbers[*node as usize] = state as u32;
    }
    Ok(numbers)
}

// a row without edges for each state
fn empty_rows(alloc: Global, count: usize) -> Result<Vec<Vec<CubeEdge>>, NoMemory>
    ensures rows { IfOk result (λ rows. length rows.items ≡ count) }
    ensures empty { IfOk result (λ rows. (p : ℕ) → row_at (held.rows_of rows.items) p ≡ []) }
{
    let mut rows = Vec::with_capacity(alloc, count)?;
    while rows.len() < count {
        rows.push(Vec::new(alloc))?;
    }
    Ok(rows)
}

// an edge behind those of a state
fn put(
    rows: &mut Vec<Vec<CubeEdge>>,
    place: Place,
    to: u32,
    accepting: bool,
) -> Result<(), NoMemory>
    requires { place.state < length rows.old.items }
    ensures { OnOk result (IsEdgePut place to accepting (held.rows_of rows.old.items) (held.rows_of rows.new.items)) }
{
    let Place { state, cube, .. } = place;
    rows[state as usize].push(CubeEdge {
        cube: cube.into_literals(),
        to,
        accepting,
    })?;
    Ok(())
}

// the edge with which a walk ends at the place, if it ends there
fn put_edge(
    graph: &ModalGraph,
    numbers: &[u32],
    place: Place,
    rows: &mut Vec<Vec<CubeEdge>>,
) -> Result<(), NoMemory>
    requires graph { IsGraph graph.now }
    requires numbers { length numbers.now ≡ size graph.now }
    requires node { place.node < size graph.now }
    requires state { place.state < length rows.old.items }
    ensures { OnOk result (IsPut graph.now numbers.now place (held.rows_of rows.old.items) (held.rows_of rows.new.items)) }
{
    match *graph.node(place.node) {
        Node::Diamond { to, .. } => {
            let accepting = graph.priority(place.node) == 0;
            put(rows, place, numbers[to as usize], accepting)
        }
        Node::True => {
            let to = numbers[place.node as usize];
            put(rows, place, to, true)
        }
        Node::False | Node::Lit { .. } | Node::And { .. } | Node::Or { .. } | Node::Square { .. } =>
            Ok(()),
    }
}

// the edges of all places, the last one first
fn put_all(
    graph: &ModalGraph,
    numbers: &[u32],
    places: &mut IndexSet<Place>,
    rows: &mut Vec<Vec<CubeEdge>>,
) -> Result<(), NoMemory>
    requires graph { IsGraph graph.now }
    requires numbers { length numbers.now ≡ size graph.now }
    requires fit { AllFit (size graph.now) (length rows.old.items) places.old.keys }
    requires none { (p : ℕ) → row_at (held.rows_of rows.old.items) p ≡ [] }
    ensures edges { OnOk result (HaveEdges graph.now numbers.now places.old.keys (held.rows_of rows.new.items)) }
    ensures as_long { OnOk result (length rows.new.items ≡ length rows.old.items) }
{
    while let Some(place) = places.pop() {
        put_edge(graph, numbers, place, rows)?;
    }
    Ok(())
}

// the edges of each state
pub(crate) fn edges_of(
    alloc: Global,
    automaton: &WordAutomaton,
    mut places: IndexSet<Place>,
) -> Result<Vec<Vec<CubeEdge>>, NoMemory>
    requires { AllFit (size automaton.now.graph) (length automaton.now.states) places.keys }
    ensures rows { IfOk result (λ rows. length rows.items ≡ length automaton.now.states) }
    ensures edges { IfOk result (λ rows. HaveNumberedEdges automaton.now places.keys (held.rows_of rows.items)) }
{
    let numbers = state_numbers(alloc, automaton)?;
    let mut rows = empty_rows(alloc, automaton.states().len())?;
    let graph = automaton.graph();
    graph.keeps();
    put_all(graph, &numbers, &mut places, &mut rows)?;
    Ok(rows)
}
