// Clashes: why the nodes of a spread can't hold together.
ghost use Rattle.std.specs.Prelude.{◌≡◌, ◌<◌, ◌↔◌, ℕ, None, Some, IfOk, IsTrue, MatchOption, length, get_or, find, is_some, All};
ghost use Rattle.std.specs.Option.{option_or};
ghost use Rattle.ml_lists.specs.Ascending.{IsAscending};
ghost use Rattle.ml_lists.specs.Member.{IsMember};
ghost use Rattle.ml_graph.specs.Graph.{size, node_at};
ghost use Rattle.ml_sequent.specs.declared.clashes.ClashCause.{ClashCause};
ghost use Rattle.ml_sequent.specs.Spread.{IsSpread, IsCause, IsOddCycle};
ghost use Rattle.ml_sequent.specs.FirstCause.{IsFirstCause};
ghost use Rattle.ml_sequent.specs.private.ConnectedParts.{HasStages};
ghost use Rattle.ml_sequent.specs.private.Reach.{IsRanked, HasRoom};
ghost use Rattle.ml_sequent.specs.private.Tests.{is_false, negative_prop, positive_prop, partner, HasNegatives, IsFirstPair};

use crate::choice::Choice;
use crate::cycles::first_cycle;
use crate::levels::Levels;
use crate::parts::Parts;
use crate::phase::LocalPhase;
use crate::reach::{Reach, Visit, reach_behind};
use crate::spreads::Spread;
use ml_base::NoMemory;
use ml_graph::{ModalGraph, Node};
use std::alloc::Global;

/// Why a spread clashes.
#[derive(Clone, Copy, Debug, PartialEq, Eq)]
pub enum ClashCause {
    /// The node is False.
    False(u32),
    /// The nodes are the positive and the negative literal of one proposition.
    Pair(u32, u32),
    /// The node has an odd priority, and lies on a closed local walk through nodes of no lower priority.
    Cycle(u32),
}

/// Is this False?
pub(crate) fn is_false(node: Node) -> bool
    ensures { result ≡ is_false node }
{
    matches!(node, Node::False)
}

/// The first False among these nodes.
fn first_false(graph: &ModalGraph, nodes: &[u32]) -> Option<u32>
    requires { All (λ n. n < size graph.now) nodes.now }
    ensures { result ≡ find (λ n. is_false (node_at graph.now n)) nodes.now }
{
    for node in nodes {
        if is_false(*graph.node(*node)) {
            return Some(*node);
        }
    }
    None
}

/// The proposition of a negative literal.
pub(crate) fn negative_prop(node: Node) -> Option<u32>
    ensures { result ≡ negative_prop node }
{
    match node {
        Node::Lit {
            prop,
            positive: false,
        } => Some(prop),
        _ => None,
    }
}

/// The first negative literal among these nodes.
fn first_negative(graph: &ModalGraph, nodes: &[u32]) -> Option<u32>
    requires { All (λ n. n < size graph.now) nodes.now }
    ensures { result ≡ find (λ n. is_some (negative_prop (node_at graph.now n))) nodes.now }
{
    for node in nodes {
        if negative_prop(*graph.node(*node)).is_some() {
            return Some(*node);
        }
    }
    None
}

/// Notes a node as the first negative literal of a proposition, if none was noted before.
fn note(firsts: &mut Vec<Option<u32>>, prop: u32, node: u32)
    requires { prop < length firsts.old.items }
    ensures size { length firsts.new.items ≡ length firsts.old.items }
    ensures noted { get_or firsts.new.items prop None ≡ option_or (get_or firsts.old.items prop None) (Some node) }
    ensures others { (p : ℕ) → (p ≡ prop → ⊥) → get_or firsts.new.items p None ≡ get_or firsts.old.items p None }
{
    if firsts[prop as usize].is_none() {
        firsts[prop as usize] = Some(node);
    }
}

/// For each proposition of the graph, its first negative literal among these nodes.
fn negatives(alloc: Global, graph: &ModalGraph, nodes: &[u32]) -> Result<Vec<Option<u32>>, NoMemory>
    requires { All (λ n. n < size graph.now) nodes.now }
    ensures { IfOk result (λ firsts. HasNegatives graph.now nodes.now firsts.items) }
{
    graph.keeps();
    let mut firsts = Vec::with_capacity(alloc, graph.props().len())?;
    for _ in graph.props() {
        firsts.push(None)?;
    }
    for node in nodes {
        if let Some(prop) = negative_prop(*graph.node(*node)) {
            note(&mut firsts, prop, *node);
        }
    }
    Ok(firsts)
}

/// The proposition of a positive literal.
pub(crate) fn positive_prop(node: Node) -> Option<u32>
    ensures { result ≡ positive_prop node }
{
    match node {
        Node::Lit {
            prop,
            positive: true,
        } => Some(prop),
        _ => None,
    }
}

/// The partner of a node: of a positive literal, the first negative one of its proposition.
fn partner(graph: &ModalGraph, nodes: &[u32], firsts: &[Option<u32>], node: u32) -> Option<u32>
    requires node { node < size graph.now }
    requires firsts { HasNegatives graph.now nodes.now firsts.now }
    ensures { result ≡ partner graph.now nodes.now (node_at graph.now node) }
{
    graph.keeps();
    match positive_prop(*graph.node(node)) {
        Some(prop) => firsts[prop as usize],
        None => None,
    }
}

/// The first positive literal among these nodes that has a partner there, with the first partner.
fn first_pair(
    alloc: Global,
    graph: &ModalGraph,
    nodes: &[u32],
) -> Result<Option<(u32, u32)>, NoMemory>
    requires low { All (λ n. n < size graph.now) nodes.now }
    requires ascends { IsAscending nodes.now }
    ensures { IfOk result (λ found. MatchOption
        found
        ((n : ℕ) → IsMember n nodes.now → partner graph.now nodes.now (node_at graph.now n) ≡ None)
        (IsFirstPair graph.now nodes.now)) }
{
    if first_negative(graph, nodes).is_none() {
        return Ok(None);
    }
    let firsts = negatives(alloc, graph, nodes)?;
    for node in nodes {
        if let Some(other) = partner(graph, nodes, &firsts, *node) {
            return Ok(Some((*node, other)));
        }
    }
    Ok(None)
}

/// Does the node have an odd priority, and lie on a closed local walk through nodes of no lower priority?
pub(crate) fn on_odd_cycle(
    graph: &ModalGraph,
    choice: &Choice,
    levels: &Levels,
    node: u32,
    reach: &mut Reach,
) -> Result<bool, NoMemory>
    requires node { node < size graph.now }
    requires ranked { IsRanked graph.now levels.now }
    requires room { HasRoom graph.now levels.now reach.old }
    ensures room { HasRoom graph.now levels.now reach.new }
    ensures cycle { IfOk result (λ b. IsTrue b ↔ IsOddCycle graph.now choice.now node) }
{
    graph.keeps();
    if graph.priority(node) % 2 == 0 {
        return Ok(false);
    }
    reach_behind(graph, choice, levels, node, reach)?;
    Ok(reach.has(Visit {
        node,
        rank: levels.rank(node),
    }))
}

/// Why the spread clashes, by a walk over it for each of its odd priorities.
pub(crate) fn clash_by(
    alloc: Global,
    graph: &ModalGraph,
    parts: &mut Parts,
    spread: &Spread,
) -> Result<Option<ClashCause>, NoMemory>
    requires spread { IsSpread graph.now spread.now }
    requires size { HasStages graph.now parts.old }
    ensures size { length parts.new.stages ≡ length parts.old.stages }
    ensures cause { IfOk result (λ found. MatchOption
        found
        ((x : ClashCause) → ¬ (IsCause graph.now spread.now x))
        (IsFirstCause graph.now spread.now)) }
{
    let nodes = spread.nodes();
    if let Some(node) = first_false(graph, nodes) {
        return Ok(Some(ClashCause::False(node)));
    }
    if let Some(pair) = first_pair(alloc, graph, nodes)? {
        return Ok(Some(ClashCause::Pair(pair.0, pair.1)));
    }
    match first_cycle(alloc, graph, spread.choice(), nodes, parts)? {
        Some(node) => Ok(Some(ClashCause::Cycle(node))),
        None => Ok(None),
    }
}

/// Why the spread clashes: the first cause in the order of variants, and in each by the numbers; `None` exactly where it
/// doesn't clash.
///
/// # Errors
/// `NoMemory` alone.
///
/// Cost: that of a local phase, and then that of its clash.
pub fn clash(
    alloc: Global,
    graph: &ModalGraph,
    spread: &Spread,
) -> Result<Option<ClashCause>, NoMemory>
    requires { IsSpread graph.now spread.now }
    ensures { IfOk result (λ found. MatchOption
        found
        ((x : ClashCause) → ¬ (IsCause graph.now spread.now x))
        (IsFirstCause graph.now spread.now)) }
{
    LocalPhase::new(alloc, graph)?.clash(spread)
}
