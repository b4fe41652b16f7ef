// Whether a structure with a state is a model of a graph, as a search may hand it out.
ghost use Rattle.std.specs.Prelude.{◌≡◌, ◌+◌, ◌<◌, ◌≤◌, ℕ, true, false, length, slice_index_or, IfOk, IsTrue};
ghost use Rattle.ml_lists.specs.Member.{IsMember};
ghost use Rattle.ml_extract.specs.Extraction.{IsReachedFrom};
ghost use Rattle.ml_graph.specs.CheckingGame.{Holds};
ghost use Rattle.ml_graph.specs.Graph.{size};
ghost use Rattle.ml_search.specs.Found.{IsModelFound, HasFewEdges, diamonds_with, has_diamond};
ghost use Rattle.ml_search.specs.private.Checked.{AreAlike, AreReached};

use ml_base::{Action, Edge, NoMemory};
use ml_graph::{ModalGraph, Node, holds_at};
use ml_kripke::{Model, Structure};
use ml_witness::surely_holds;
use std::alloc::Global;

/// Is the node a Diamond of the action?
fn has_diamond(graph: &ModalGraph, action: &Action, n: u32) -> bool
    requires { n < size graph.now }
    ensures { IsTrue result → has_diamond graph.now action.now n ≡ true }
{
    match *graph.node(n) {
        Node::Diamond { action: place, .. } => match graph.actions().get(place as usize) {
            Some(other) => *other == *action,
            None => false,
        },
        _ => false,
    }
}

/// How many Diamonds of the action the graph has, or fewer.
fn diamonds_with(graph: &ModalGraph, action: &Action) -> usize
    ensures { result ≤ diamonds_with graph.now action.now }
{
    let mut many: usize = 0;
    for n in 0..graph.size() {
        if has_diamond(graph, action, n) {
            many += 1;
        }
    }
    many
}

/// Has the edge so many places behind this one its source and its action?
fn goes_on(edges: &[Edge], place: usize, many: usize) -> bool
    requires { place < length edges.now }
    ensures { result ≡ false → place + many < length edges.now → AreAlike edges.now place (place + many) → ⊥ }
{
    let edge = &edges[place];
    match edges.get(place.saturating_add(many)) {
        Some(other) => edge.source == other.source && edge.action == other.action,
        None => false,
    }
}

/// Has each state at most as many edges of each action as the graph has Diamonds of it? The edges of a state and an action
/// stand together.
fn has_few_edges(graph: &ModalGraph, structure: &Structure) -> bool
    ensures { IsTrue result → HasFewEdges graph.now structure.now }
{
    structure.keeps();
    let edges = structure.edges();
    for (place, edge) in edges.iter().enumerate() {
        if goes_on(edges, place, diamonds_with(graph, &edge.action)) {
            return false;
        }
    }
    true
}

/// So many flags, of which the one at this place alone is set.
fn one_flag(alloc: Global, count: u32, place: u32) -> Result<Vec<bool>, NoMemory>
    ensures size { IfOk result (λ flags. length flags.items ≡ count) }
    ensures one { IfOk result (λ flags. (t : ℕ) → slice_index_or flags.items t false ≡ true → t ≡ place) }
{
    let mut flags = Vec::with_capacity(alloc, count as usize)?;
    for i in 0..count {
        flags.push(i == place)?;
    }
    Ok(flags)
}

/// Is each state reached from this one, by edges in their order?
fn all_reached(alloc: Global, structure: &Structure, start: u32) -> Result<bool, NoMemory>
    requires { start < structure.now.states }
    ensures { IfOk result (λ b. IsTrue b → (t : ℕ) → t < structure.now.states → IsReachedFrom structure.now start t) }
{
    let mut flags = one_flag(alloc, structure.states(), start)?;
    reach(structure, start, &mut flags);
    Ok(flags.iter().all(|flag| *flag))
}

/// Flags the target of an edge whose source is flagged.
fn pass(_structure: &Structure, _start: u32, edge: &Edge, flags: &mut [bool])
    requires size { length flags.old ≡ _structure.now.states }
    requires source { edge.now.source < _structure.now.states }
    requires target { edge.now.target < _structure.now.states }
    requires member { IsMember edge.now _structure.now.edges }
    requires reached { AreReached _structure.now _start flags.old }
    ensures size { length flags.new ≡ length flags.old }
    ensures reached { AreReached _structure.now _start flags.new }
{
    if flags[edge.source as usize] {
        flags[edge.target as usize] = true;
    }
}

/// Flags the targets of edges whose sources are flagged, in one pass.
fn reach(structure: &Structure, _start: u32, flags: &mut [bool])
    requires size { length flags.old ≡ structure.now.states }
    requires reached { AreReached structure.now _start flags.old }
    ensures size { length flags.new ≡ length flags.old }
    ensures reached { AreReached structure.now _start flags.new }
{
    structure.keeps();
    for edge in structure.edges() {
        pass(structure, _start, edge, flags);
    }
}

/// Does the graph hold at the state? The checking game is solved only where no cheaper check says so.
fn is_met(
    alloc: Global,
    graph: &ModalGraph,
    structure: &Structure,
    state: u32,
) -> Result<bool, NoMemory>
    requires { state < structure.now.states }
    ensures { IfOk result (λ b. IsTrue b → Holds graph.now structure.now state) }
{
    if surely_holds(alloc, graph, structure, state)? {
        return Ok(true);
    }
    holds_at(alloc, graph, structure, state)
}

/// Is this a model of the graph, with no state, no action and no edge too many?
///
/// Cost: that of `ml_witness::surely_holds`, and of the checking game and its solution where this says false; for each edge
/// linear in the nodes.
pub(crate) fn is_model(alloc: Global, graph: &ModalGraph, model: &Model) -> Result<bool, NoMemory>
    ensures { IfOk result (λ b. IsTrue b → IsModelFound graph.now model.now.structure model.now.start) }
{
    graph.keeps();
    model.structure.keeps();
    if has_few_edges(graph, &model.structure) {
        let reached = all_reached(alloc, &model.structure, model.start)?;
        if reached {
            let is_met = is_met(alloc, graph, &model.structure, model.start)?;
            return Ok(is_met);
        }
    }
    Ok(false)
}
