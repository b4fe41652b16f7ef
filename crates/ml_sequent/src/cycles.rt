// The least node of a spread that has an odd priority and lies on a closed walk through nodes of no lower priority: by
// strongly connected parts, once for each odd priority that occurs.
//
// Source: Gabow, Path-based depth-first search for strong and biconnected components, 2000; the targets of all nodes of
// a frame wait together, so that joining frames moves nothing.
ghost use Rattle.std.specs.Prelude.{◌≡◌, ◌==◌, ◌%◌, ◌<◌, ◌⊎◌, ◌↔◌, ℕ, List, [], ◌∷◌, Option, None, IfOk, OnOk, IsTrue, MatchOption, length, filter, map, nat_le, take, All};
ghost use Rattle.ml_graph.specs.Graph.{size, priority_at};
ghost use Rattle.ml_lists.specs.Ascending.{IsAscending, ascending};
ghost use Rattle.ml_lists.specs.Member.{IsMember};
ghost use Rattle.ml_sequent.specs.LocalWalk.{children};
ghost use Rattle.ml_sequent.specs.Spread.{IsOddCycle};
ghost use Rattle.ml_sequent.specs.private.Children.{child_list};
ghost use Rattle.ml_sequent.specs.private.ConnectedParts.{HasStages, awaiting, entered, gone, IsLeast, IsLoop, IsCyclic, lesser, offered, IsClosedIn, IsFit, IsPart, WentOn, Began};
ghost use Rattle.ml_sequent.specs.private.Tests.{IsFirstOddCycle};

use crate::children::{LocalChildren, children};
use crate::choice::Choice;
use crate::parts::{Parts, Stage};
use crate::sets::ascending;
use ml_base::NoMemory;
use ml_graph::ModalGraph;
use std::alloc::Global;

/// Lets a child wait, unless it is below the floor.
fn await_child(
    graph: &ModalGraph,
    floor: u32,
    child: u32,
    parts: &mut Parts,
) -> Result<(), NoMemory>
    requires { child < size graph.now }
    ensures size { length parts.new.stages ≡ length parts.old.stages }
    ensures waits { OnOk result (parts.new ≡ awaiting (filter (λ m. nat_le floor (priority_at graph.now m)) (child ∷ [])) parts.old) }
{
    if graph.priority(child) < floor {
        return Ok(());
    }
    parts.await_target(child)
}

/// Puts a node behind the path, and lets its children wait.
fn enter(
    graph: &ModalGraph,
    choice: &Choice,
    floor: u32,
    node: u32,
    parts: &mut Parts,
) -> Result<(), NoMemory>
    requires node { node < size graph.now }
    requires size { HasStages graph.now parts.old }
    ensures size { length parts.new.stages ≡ length parts.old.stages }
    ensures entered { OnOk result (parts.new ≡ entered graph.now choice.now floor node parts.old) }
{
    parts.begin(node)?;
    match children(graph, choice, node) {
        LocalChildren::Leaf => Ok(()),
        LocalChildren::One(child) => await_child(graph, floor, child, parts),
        LocalChildren::Two(left, right) => {
            await_child(graph, floor, left, parts)?;
            await_child(graph, floor, right, parts)
        }
    }
}

/// Looks at a target that waited.
fn go_to(
    graph: &ModalGraph,
    choice: &Choice,
    floor: u32,
    target: u32,
    parts: &mut Parts,
) -> Result<(), NoMemory>
    requires target { target < size graph.now }
    requires size { HasStages graph.now parts.old }
    ensures size { length parts.new.stages ≡ length parts.old.stages }
    ensures gone { OnOk result (parts.new ≡ gone graph.now choice.now floor target parts.old) }
{
    match parts.stage(target) {
        Stage::New => enter(graph, choice, floor, target, parts),
        Stage::On(place) => {
            parts.fold(place);
            Ok(())
        }
        Stage::Done => Ok(()),
    }
}

/// Is the node among these children?
fn is_among(node: u32, children: LocalChildren) -> bool
    ensures { IsTrue result ↔ IsMember node (child_list children) }
{
    match children {
        LocalChildren::Leaf => false,
        LocalChildren::One(child) => node == child,
        LocalChildren::Two(left, right) => node == left || node == right,
    }
}

/// Is the part cyclic: has it two nodes, or one that is its own child?
fn is_cyclic(graph: &ModalGraph, choice: &Choice, part: &[u32]) -> bool
    requires low { All (λ n. n < size graph.now) part.now }
    requires some { 0 < length part.now }
    ensures { IsTrue result ↔ IsCyclic graph.now choice.now part.now }
{
    if part.len() > 1 {
        return true;
    }
    is_among(part[0], children(graph, choice, part[0]))
}

/// The lesser of two numbers, where there are two.
pub(crate) fn lesser(one: Option<u32>, other: Option<u32>) -> Option<u32>
    ensures { result ≡ lesser one other }
{
    match one {
        None => other,
        Some(n) => match other {
            None => Some(n),
            Some(m) => { if m < n { Some(m) } else { Some(n) } }
        },
    }
}

/// The least of the nodes with this priority, and of one more number.
fn offer(graph: &ModalGraph, priority: u32, part: &[u32], best: Option<u32>) -> Option<u32>
    requires { All (λ n. n < size graph.now) part.now }
    ensures { result ≡ offered graph.now priority part.now best }
{
    let mut best = best;
    for node in part {
        if graph.priority(*node) == priority {
            best = lesser(best, Some(*node));
        }
    }
    best
}

/// What is the least, where a part ends.
fn best_of(
    graph: &ModalGraph,
    choice: &Choice,
    floor: u32,
    part: &[u32],
    best: Option<u32>,
) -> Option<u32>
    requires low { All (λ n. n < size graph.now) part.now }
    requires some { 0 < length part.now }
    ensures { (IsCyclic graph.now choice.now part.now × (result ≡ offered graph.now floor part.now best)) ⊎ ((IsCyclic graph.now choice.now part.now → ⊥) × (result ≡ best)) }
{
    if is_cyclic(graph, choice, part) {
        offer(graph, floor, part, best)
    } else {
        best
    }
}

/// One step of the walk: a target that waits in the last frame is looked at, or the frame ends.
fn step(
    graph: &ModalGraph,
    choice: &Choice,
    floor: u32,
    best: Option<u32>,
    parts: &mut Parts,
) -> Result<Option<u32>, NoMemory>
    requires fit { IsFit graph.now parts.old }
    requires some { parts.old.frames ≡ [] → ⊥ }
    ensures size { length parts.new.stages ≡ length parts.old.stages }
    ensures went_on { IfOk result (λ found. (nodes : List ℕ) → IsClosedIn graph.now choice.now nodes
        → IsPart graph.now choice.now floor nodes parts.old best
        → WentOn graph.now choice.now floor nodes parts.old parts.new found) }
{
    match parts.take() {
        Some(target) => {
            go_to(graph, choice, floor, target, parts)?;
            Ok(best)
        }
        None => {
            let found = best_of(graph, choice, floor, parts.last(), best);
            parts.close();
            Ok(found)
        }
    }
}

/// Begins the walk at a node, unless it is below the floor or was met before.
fn begin_at(
    graph: &ModalGraph,
    choice: &Choice,
    floor: u32,
    node: u32,
    parts: &mut Parts,
) -> Result<(), NoMemory>
    requires node { node < size graph.now }
    requires size { HasStages graph.now parts.old }
    requires over { parts.old.path ≡ [] }
    ensures size { length parts.new.stages ≡ length parts.old.stages }
    ensures began { OnOk result ((nodes : List ℕ) (best : Option ℕ) → IsClosedIn graph.now choice.now nodes
        → IsMember node nodes
        → IsPart graph.now choice.now floor nodes parts.old best
        → Began graph.now choice.now floor nodes node parts.old parts.new best) }
{
    if graph.priority(node) < floor {
        return Ok(());
    }
    match parts.stage(node) {
        Stage::New => enter(graph, choice, floor, node, parts),
        _ => Ok(()),
    }
}

/// The least of these nodes that has this priority, and lies on a closed walk through nodes of no lower priority.
fn least_loop(
    graph: &ModalGraph,
    choice: &Choice,
    priority: u32,
    nodes: &[u32],
    parts: &mut Parts,
) -> Result<Option<u32>, NoMemory>
    requires nodes { IsClosedIn graph.now choice.now nodes.now }
    requires size { HasStages graph.now parts.old }
    ensures size { length parts.new.stages ≡ length parts.old.stages }
    ensures least { IfOk result (IsLeast (λ n. IsMember n nodes.now × IsLoop graph.now choice.now priority n)) }
{
    parts.restart(nodes);
    let mut best = None;
    for node in nodes {
        begin_at(graph, choice, priority, *node, parts)?;
        while !parts.is_over() {
            best = step(graph, choice, priority, best, parts)?;
        }
    }
    Ok(best)
}

/// The odd priorities of these nodes, ascending.
fn odds_of(alloc: Global, graph: &ModalGraph, nodes: &[u32]) -> Result<Vec<u32>, NoMemory>
    requires { All (λ n. n < size graph.now) nodes.now }
    ensures { IfOk result (λ odds. odds.items ≡ ascending (filter (λ d. d % 2 == 1) (map (priority_at graph.now) nodes.now))) }
{
    let mut odds = Vec::new(alloc);
    for node in nodes {
        let priority = graph.priority(*node);
        if priority % 2 == 1 {
            odds.push(priority)?;
        }
    }
    Ok(ascending(odds))
}

/// The first of these nodes that has an odd priority, and lies on a closed walk through nodes of no lower priority.
pub(crate) fn first_cycle(
    alloc: Global,
    graph: &ModalGraph,
    choice: &Choice,
    nodes: &[u32],
    parts: &mut Parts,
) -> Result<Option<u32>, NoMemory>
    requires nodes { IsClosedIn graph.now choice.now nodes.now }
    requires size { HasStages graph.now parts.old }
    ensures size { length parts.new.stages ≡ length parts.old.stages }
    ensures first { IfOk result (λ found. MatchOption
        found
        ((n : ℕ) → IsMember n nodes.now → ¬ (IsOddCycle graph.now choice.now n))
        (IsFirstOddCycle graph.now choice.now nodes.now)) }
{
    let odds = odds_of(alloc, graph, nodes)?;
    let mut first = None;
    for odd in &odds {
        let least = least_loop(graph, choice, *odd, nodes, parts)?;
        first = lesser(first, least);
    }
    Ok(first)
}
