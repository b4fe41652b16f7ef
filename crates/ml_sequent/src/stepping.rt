// The step along a diamond, with its local traces, and its parts: the targets alone, and the traces from some nodes.
ghost use Rattle.std.specs.Prelude.{◌≡◌, ◌<◌, ◌≤◌, ◌++◌, ◌↔◌, ℕ, IfOk, OnOk, IsTrue, length, All};
ghost use Rattle.std.specs.List.{flat_map, filter_map};
ghost use Rattle.ml_graph.specs.Graph.{size, node_at, priority_at};
ghost use Rattle.ml_lists.specs.Ascending.{ascending};
ghost use Rattle.ml_sequent.specs.Spread.{IsSpreadOf};
ghost use Rattle.ml_sequent.specs.Step.{IsDiamondOf, IsStep};
ghost use Rattle.ml_sequent.specs.private.Exits.{exit_of, exit_at, exits, triples_to, action_of, AreTracesFrom};
ghost use Rattle.ml_sequent.specs.private.Reach.{IsRanked, HasRoom};

use crate::choice::Choice;
use crate::levels::Levels;
use crate::reach::{Reach, Visit, reach_from};
use crate::sequent::Sequent;
use crate::spreads::Spread;
use crate::trail::Trail;
use ml_base::NoMemory;
use ml_graph::{ModalGraph, Node};
use ml_trace::{LocalTraces, Triple};
use std::alloc::Global;

/// The action of a Diamond; of other nodes, of which nobody asks, the first one.
fn action_of(node: Node) -> u32
    ensures { result ≡ action_of node }
{
    match node {
        Node::Diamond { action, .. } => action,
        _ => 0,
    }
}

/// The child to which a node leads out along a diamond with this action; `None` where it doesn't.
fn exit_of(graph: &ModalGraph, action: u32, diamond: u32, node: u32) -> Option<u32>
    requires { node < size graph.now }
    ensures { result ≡ exit_of action diamond node (node_at graph.now node) }
{
    match *graph.node(node) {
        Node::Diamond { to, .. } if node == diamond => Some(to),
        Node::Square { action: other, to } if other == action => Some(to),
        _ => None,
    }
}

/// Appends the triples of the places that lead out.
fn push_exits(
    graph: &ModalGraph,
    levels: &Levels,
    action: u32,
    diamond: u32,
    from: u32,
    found: &[Visit],
    traces: &mut Vec<Triple>,
) -> Result<(), NoMemory>
    requires nodes { All (λ v. (v.node < size graph.now) × (v.rank < length levels.now.priorities)) found.now }
    ensures { OnOk result (traces.new.items ≡ traces.old.items ++ flat_map (exits graph.now levels.now.priorities action diamond from) found.now) }
{
    for visit in found {
        if let Some(to) = exit_of(graph, action, diamond, visit.node) {
            traces.push(Triple {
                from,
                lowest: levels.priority(visit.rank),
                to,
            })?;
        }
    }
    Ok(())
}

/// The nodes to which those of a trail lead out along a diamond, in the order of the trail.
fn exits_on(
    alloc: Global,
    graph: &ModalGraph,
    trail: &Trail,
    diamond: u32,
) -> Result<Vec<u32>, NoMemory>
    requires room { trail.now.room ≡ size graph.now }
    requires diamond { diamond < size graph.now }
    ensures { IfOk result (λ nodes. nodes.items
        ≡ filter_map (exit_at graph.now (action_of (node_at graph.now diamond)) diamond) trail.now.nodes) }
{
    let action = action_of(*graph.node(diamond));
    let mut nodes = Vec::new(alloc);
    for place in 0..trail.len() {
        if let Some(to) = exit_of(graph, action, diamond, trail.node(place)) {
            nodes.push(to)?;
        }
    }
    Ok(nodes)
}

/// The nodes to which those of a trail lead out along a diamond.
///
/// Cost: linear in the trail, and `n log n` in the nodes to which it leads.
pub(crate) fn targets_on(
    alloc: Global,
    graph: &ModalGraph,
    trail: &Trail,
    diamond: u32,
) -> Result<Sequent, NoMemory>
    requires room { trail.now.room ≡ size graph.now }
    requires diamond { diamond < size graph.now }
    ensures { IfOk result (λ targets. targets
        ≡ ascending (filter_map (exit_at graph.now (action_of (node_at graph.now diamond)) diamond) trail.now.nodes)) }
{
    let nodes = exits_on(alloc, graph, trail, diamond)?;
    Ok(Sequent::of_members(nodes))
}

/// The triples from a node to each of these, with this lowest priority.
fn triples_to(alloc: Global, from: u32, lowest: u32, nodes: &[u32]) -> Result<Vec<Triple>, NoMemory>
    ensures { IfOk result (λ triples. triples.items ≡ triples_to from lowest nodes.now) }
{
    Ok(
        nodes
            .iter()
            .map(|to| Triple {
                from,
                lowest,
                to: *to,
            })
            .collect(alloc)?,
    )
}

/// The triples from a node to where those of a trail lead out along a diamond, with its own priority.
///
/// Cost: linear in the trail.
pub(crate) fn triples_on(
    alloc: Global,
    graph: &ModalGraph,
    trail: &Trail,
    diamond: u32,
    from: u32,
) -> Result<Vec<Triple>, NoMemory>
    requires room { trail.now.room ≡ size graph.now }
    requires diamond { diamond < size graph.now }
    requires from { from < size graph.now }
    ensures { IfOk result (λ triples. triples.items ≡ triples_to from (priority_at graph.now from)
        (filter_map (exit_at graph.now (action_of (node_at graph.now diamond)) diamond) trail.now.nodes)) }
{
    let nodes = exits_on(alloc, graph, trail, diamond)?;
    triples_to(alloc, from, graph.priority(from), &nodes)
}

/// The local traces from these nodes along a diamond.
pub(crate) fn traces_along(
    alloc: Global,
    graph: &ModalGraph,
    levels: &Levels,
    reach: &mut Reach,
    choice: &Choice,
    diamond: u32,
    nodes: &[u32],
) -> Result<Vec<Triple>, NoMemory>
    requires nodes { All (λ n. n < size graph.now) nodes.now }
    requires diamond { diamond < size graph.now }
    requires ranked { IsRanked graph.now levels.now }
    requires room { HasRoom graph.now levels.now reach.old }
    ensures room { HasRoom graph.now levels.now reach.new }
    ensures traces { IfOk result (λ traces. AreTracesFrom graph.now choice.now diamond nodes.now traces.items) }
{
    graph.keeps();
    let action = action_of(*graph.node(diamond));
    let mut traces = Vec::new(alloc);
    for node in nodes {
        reach_from(graph, choice, levels, *node, reach)?;
        push_exits(
            graph,
            levels,
            action,
            diamond,
            *node,
            reach.found(),
            &mut traces,
        )?;
    }
    Ok(traces)
}

/// Is the sequent one node, and does this node have the lowest priority of the graph?
pub(crate) fn begins_all(graph: &ModalGraph, levels: &Levels, sequent: &Sequent, node: u32) -> bool
    requires node { node < size graph.now }
    requires ranked { IsRanked graph.now levels.now }
    ensures { IsTrue result ↔ ((length sequent.now ≡ 1)
        × ((n : ℕ) → n < size graph.now → priority_at graph.now node ≤ priority_at graph.now n)) }
{
    graph.keeps();
    sequent.values().len() == 1 && levels.rank(node) == 0
}

/// The step along a diamond.
pub(crate) fn step_by(
    alloc: Global,
    graph: &ModalGraph,
    levels: &Levels,
    reach: &mut Reach,
    sequent: &Sequent,
    spread: &Spread,
    diamond: u32,
) -> Result<(Sequent, LocalTraces), NoMemory>
    requires spread { IsSpreadOf graph.now sequent.now spread.now.choice spread.now }
    requires diamond { IsDiamondOf graph.now spread.now diamond }
    requires ranked { IsRanked graph.now levels.now }
    requires room { HasRoom graph.now levels.now reach.old }
    ensures room { HasRoom graph.now levels.now reach.new }
    ensures step { IfOk result (λ made. IsStep graph.now sequent.now spread.now diamond made.0 made.1) }
{
    let traces = traces_along(
        alloc,
        graph,
        levels,
        reach,
        spread.choice(),
        diamond,
        sequent.values(),
    )?;
    let targets = traces.iter().map(|t| t.to).collect(alloc)?;
    Ok((Sequent::of_members(targets), LocalTraces::new(traces)))
}
