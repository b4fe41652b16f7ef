// The word automaton of a problem as a value.
ghost use Rattle.std.specs.Prelude.{◌≡◌, ◌<◌, ◌≤◌, ◌^◌, ◌++◌, ◌∷◌, [], if◌then◌else◌, IfOk, OnOk, IsErrOf, length};
ghost use Rattle.ml_graph.specs.Graph.{IsGraph, size, node_at};
ghost use Rattle.ml_graph.specs.declared.node.Node.TheVariants as node;
ghost use Rattle.ml_blocks.specs.Closures.{HasMoreThan};
ghost use Rattle.ml_word_automaton.specs.Letters.{HasItsStates, IsAutomatonOf};
ghost use Rattle.ml_word_automaton.specs.WordAutomaton.{start_block};
ghost use Rattle.ml_word_automaton.specs.private.Numbers.{AreMarked, AreNumbered, IsHeld, IsMarkedMore, Makes};

use ml_base::NoMemory;
use ml_blocks::ltl_block_graph_of;
use ml_graph::{ClosureRefusal, ModalGraph, Node};
use std::alloc::Global;
use std::marker::Model;

/// The word automaton of a problem of LTL: a graph with the nodes of the states. Contracts see both.
#[derive(Debug, Drop)]
pub struct WordAutomaton {
    graph: ModalGraph,
    states: Vec<u32>,
    // of each node the number of its state, if it is one
    numbers: Vec<u32>,
}

impl Model for WordAutomaton {
    ghost use Rattle.ml_word_automaton.specs.Letters.{Automaton};
    ghost use Rattle.ml_word_automaton.specs.private.Numbers.{IsHeld};

    ghost Value = { Automaton };

    ghost view = { λ a. record { graph = a.graph; states = a.states.items } };

    ghost invariant = { λ a. IsHeld a.graph a.states.items a.numbers.items };
}

impl WordAutomaton {
    /// The graph.
    ///
    /// Cost: constant.
    pub fn graph(&self) -> &ModalGraph
        ensures value { result.now ≡ self.now.graph }
    {
        &self.graph
    }

    /// The nodes of the states, in ascending order; the number of a state is its place.
    ///
    /// Cost: constant.
    pub fn states(&self) -> &[u32]
        ensures value { result.now ≡ self.now.states }
        ensures states { HasItsStates self.now }
        ensures few { length result.now ≤ 2 ^ 30 }
    {
        &self.states
    }

    // where its memory comes from
    pub(crate) fn allocator(&self) -> Global {
        *self.states.allocator()
    }

    // of each node the number of its state, if it is one
    pub(crate) fn numbers(&self) -> &[u32]
        ensures { IsHeld self.now.graph self.now.states result.now }
    {
        &self.numbers
    }
}

// marks a node, if it is True
fn mark_true(graph: &ModalGraph, n: u32, marks: &mut Vec<bool>)
    requires node { n < size graph.now }
    requires marks { length marks.old.items ≡ size graph.now }
    ensures { IsMarkedMore (λ m. (m ≡ n) × (node_at graph.now m ≡ node.True)) marks.old.items marks.new.items }
{
    if matches!(graph.node(n), Node::True) {
        marks[n as usize] = true;
    }
}

// marks the nodes that a node makes states
fn mark_behind(graph: &ModalGraph, n: u32, marks: &mut Vec<bool>)
    requires graph { IsGraph graph.now }
    requires node { n < size graph.now }
    requires marks { length marks.old.items ≡ size graph.now }
    ensures { IsMarkedMore (Makes graph.now (node_at graph.now n)) marks.old.items marks.new.items }
{
    match *graph.node(n) {
        Node::Diamond { to, .. } => marks[to as usize] = true,
        Node::And { right, .. } => mark_true(graph, right, marks),
        Node::Or { left, right } => {
            mark_true(graph, left, marks);
            mark_true(graph, right, marks);
        }
        Node::True | Node::False | Node::Lit { .. } | Node::Square { .. } => {}
    }
}

// the marks of the states
fn state_marks(alloc: Global, graph: &ModalGraph) -> Result<Vec<bool>, NoMemory>
    ensures { IfOk result (λ marks. AreMarked graph.now marks.items) }
{
    let size = graph.size();
    let _root = graph.root();
    let mut marks = vec![in alloc; false; size as usize]?;
    marks[0] = true;
    for n in 0..size {
        mark_behind(graph, n, &mut marks);
    }
    Ok(marks)
}

// a number behind those before it, which is listed if it is marked, with the place that it has or would have
fn add_number(
    states: &mut Vec<u32>,
    numbers: &mut Vec<u32>,
    n: u32,
    is_state: bool,
) -> Result<(), NoMemory>
    requires few { length states.old.items < 2 ^ 32 }
    ensures states { OnOk result (states.new.items ≡ states.old.items ++ (if is_state then n ∷ [] else [])) }
    ensures numbers { OnOk result (numbers.new.items ≡ numbers.old.items ++ length states.old.items ∷ []) }
{
    numbers.push(states.len() as u32)?;
    if is_state {
        states.push(n)?;
    }
    Ok(())
}

// the numbers that are marked, and the place of each of them
fn numbered(alloc: Global, marks: &[bool]) -> Result<(Vec<u32>, Vec<u32>), NoMemory>
    requires { length marks.now < 2 ^ 32 }
    ensures { IfOk result (λ r. AreNumbered marks.now r.0.items r.1.items) }
{
    let mut states = Vec::new(alloc);
    let mut numbers = Vec::with_capacity(alloc, marks.len())?;
    for (n, is_state) in marks.iter().enumerate() {
        add_number(&mut states, &mut numbers, n as u32, *is_state)?;
    }
    Ok((states, numbers))
}

/// The word automaton of a problem of LTL, plain or negated, if its graph has at most so many nodes.
///
/// `max` is at most 2^30, so that all numbers of states are below `ml_trace::STATE_LIMIT`.
///
/// # Errors
/// `ClosureTooLarge` exactly where the graph has more than `max` nodes. `NoMemory`.
///
/// Cost: that of `ml_blocks::ltl_block_graph_of`, and linear in the nodes.
///
/// Source: Vardi and Wolper (1986).
pub fn automaton_of(
    alloc: Global,
    formula: &ml_ltl::Formula,
    negated: bool,
    max: u32,
) -> Result<WordAutomaton, ClosureRefusal>
    requires { max ≤ 2 ^ 30 }
    ensures automaton { IfOk result (λ a. IsAutomatonOf a formula.now negated) }
    ensures fits { IfOk result (λ a. size a.graph ≤ max) }
    ensures too_large { IsErrOf result ClosureRefusal.ClosureTooLarge → HasMoreThan (start_block formula.now negated) max }
{
    let graph = ltl_block_graph_of(alloc, formula, negated, max)?;
    let marks = state_marks(alloc, &graph)?;
    let (states, numbers) = numbered(alloc, &marks)?;
    Ok(WordAutomaton {
        graph,
        states,
        numbers,
    })
}
