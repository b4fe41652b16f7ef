// The search, and the whole game behind it.
ghost use Rattle.std.specs.Prelude.{◌≡◌, ◌≤◌, IfOk, IfSome, IsErrOf};
ghost use Rattle.ml_graph.specs.Graph.{size};
ghost use Rattle.ml_product.specs.DecisionGame.{HasMoreThan};
ghost use Rattle.ml_product.specs.Position.{automaton_states};
ghost use Rattle.ml_refutation.specs.declared.refutation.TheConstants.{NESTING_LIMIT};
ghost use Rattle.ml_trace.specs.declared.letters.TheConstants.{STATE_LIMIT};
ghost use Rattle.ml_search.specs.Found.{IsFound};
ghost use Rattle.ml_search.specs.declared.refusals.SearchRefusal.TheVariants as refusal;

use crate::checking_models::is_model;
use crate::checking_refutations::accepted;
use crate::found::Found;
use crate::refusals::SearchRefusal;
use crate::whole_game::by_whole_game;
use ml_base::NoMemory;
use ml_candidates::Candidate;
use ml_graph::ModalGraph;
use ml_kripke::Model;
use ml_refutation::{Entry, Lists};
use ml_search_cores::steps_of;
use ml_search_focus::{Sought, seek as seek_by_focus};
use std::alloc::Global;

/// A structure that passes its check; `None` where it doesn't.
fn checked_model(alloc: Global, graph: &ModalGraph, model: Model) -> Result<Option<Found>, NoMemory>
    ensures { IfOk result (λ found. IfSome found (IsFound graph.now)) }
{
    if is_model(alloc, graph, &model)? {
        return Ok(Some(Found::Model(model)));
    }
    Ok(None)
}

/// Entries that pass their check; `None` where they don't.
fn checked_refutation(
    alloc: Global,
    graph: &ModalGraph,
    names: u32,
    sequents: Lists,
    stacks: Lists,
    entries: Vec<Entry>,
) -> Result<Option<Found>, NoMemory>
    ensures { IfOk result (λ found. IfSome found (IsFound graph.now)) }
{
    match accepted(alloc, graph, names, sequents, stacks, entries)? {
        Some(refutation) => Ok(Some(Found::Refutation(refutation))),
        None => Ok(None),
    }
}

/// A candidate, if it passes its check.
fn checked(
    alloc: Global,
    graph: &ModalGraph,
    candidate: Candidate,
) -> Result<Option<Found>, NoMemory>
    ensures { IfOk result (λ found. IfSome found (IsFound graph.now)) }
{
    match candidate {
        Candidate::Model(model) => checked_model(alloc, graph, model),
        Candidate::Refutation {
            names,
            sequents,
            stacks,
            entries,
        } => checked_refutation(alloc, graph, names, sequents, stacks, entries),
    }
}

/// What is found where structures are words.
fn sought_by_frames(
    alloc: Global,
    graph: &ModalGraph,
    limit: u32,
) -> Result<Option<Found>, NoMemory>
    ensures { IfOk result (λ found. IfSome found (IsFound graph.now)) }
{
    match ml_search_frames::candidate(alloc, graph, limit)? {
        Some(candidate) => checked(alloc, graph, candidate),
        None => Ok(None),
    }
}

/// What is found in copies, where the thread of this node splits, if there is such a one.
fn sought_by_copies(
    alloc: Global,
    graph: &ModalGraph,
    splits: Option<u32>,
    limit: u32,
) -> Result<Option<Found>, NoMemory>
    ensures { IfOk result (λ found. IfSome found (IsFound graph.now)) }
{
    match ml_search_copies::candidate(alloc, graph, splits, limit)? {
        Some(candidate) => checked(alloc, graph, candidate),
        None => Ok(None),
    }
}

/// What is found where threads are weak, and else in copies.
fn sought_by_focus(alloc: Global, graph: &ModalGraph, limit: u32) -> Result<Option<Found>, NoMemory>
    ensures { IfOk result (λ found. IfSome found (IsFound graph.now)) }
{
    let trial = seek_by_focus(alloc, graph, steps_of(limit))?;
    match trial.sought {
        Sought::Found(candidate) => checked(alloc, graph, candidate),
        Sought::NotWeak => sought_by_copies(alloc, graph, None, limit),
        Sought::Splits(n) => sought_by_copies(alloc, graph, Some(n), limit),
        Sought::GaveUp => Ok(None),
    }
}

/// What the searches that learn find.
fn sought_by_learning(
    alloc: Global,
    graph: &ModalGraph,
    limit: u32,
) -> Result<Option<Found>, NoMemory>
    ensures { IfOk result (λ found. IfSome found (IsFound graph.now)) }
{
    match sought_by_frames(alloc, graph, limit)? {
        Some(found) => Ok(Some(found)),
        None => sought_by_focus(alloc, graph, limit),
    }
}

/// What is found in any graph.
fn sought_by_rounds(
    alloc: Global,
    graph: &ModalGraph,
    limit: u32,
) -> Result<Option<Found>, NoMemory>
    ensures { IfOk result (λ found. IfSome found (IsFound graph.now)) }
{
    match ml_search_rounds::candidate(alloc, graph, limit)? {
        Some(candidate) => checked(alloc, graph, candidate),
        None => Ok(None),
    }
}

/// What the search alone finds, with the work that goes with the limit; `None` where it gives up.
///
/// The graph has at most 4,096 nodes, its trace automaton at most 2^30 states, and the limit is 1 or more. What is found is
/// a model or a refutation of the graph; nothing is said of where something is found.
///
/// # Errors
/// `NoMemory` alone.
///
/// Cost: the search stops once it has made a fixed multiple of the limit; then the check of what it found.
pub fn seek(alloc: Global, graph: &ModalGraph, limit: u32) -> Result<Option<Found>, NoMemory>
    requires nodes { size graph.now ≤ NESTING_LIMIT }
    requires fits { automaton_states graph.now ≤ STATE_LIMIT }
    requires some { 1 ≤ limit }
    ensures { IfOk result (λ found. IfSome found (IsFound graph.now)) }
{
    match sought_by_learning(alloc, graph, limit)? {
        Some(found) => Ok(Some(found)),
        None => sought_by_rounds(alloc, graph, limit),
    }
}

/// A model of a graph, or a refutation of it.
///
/// The graph has at most 4,096 nodes, its trace automaton at most 2^30 states, and the limit is 1 or more. What `seek`
/// doesn't find, the whole decision game decides.
///
/// # Errors
/// `Passed` only where the decision game of the graph has more than `limit` positions; `NoMemory`.
///
/// Cost: that of `seek`, and then at most that of the decision game up to the limit.
pub fn search(alloc: Global, graph: &ModalGraph, limit: u32) -> Result<Found, SearchRefusal>
    requires nodes { size graph.now ≤ NESTING_LIMIT }
    requires fits { automaton_states graph.now ≤ STATE_LIMIT }
    requires some { 1 ≤ limit }
    ensures found { IfOk result (IsFound graph.now) }
    ensures passed { IsErrOf result refusal.Passed → HasMoreThan graph.now limit }
{
    match seek(alloc, graph, limit)? {
        Some(found) => Ok(found),
        None => by_whole_game(alloc, graph, limit),
    }
}
