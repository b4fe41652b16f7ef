// Whether claims with ranks are kept.
ghost use Rattle.std.specs.Prelude.{◌≡◌, ◌+◌, ◌*◌, ◌<◌, ℕ, true, length, All, Contains, IsTrue};
ghost use Rattle.std.specs.Str.{bytes_eq};
ghost use Rattle.ml_base.specs.Structure.{lists};
ghost use Rattle.ml_graph.specs.Graph.{action_at, node_at, prop_at, size};
ghost use Rattle.ml_graph.specs.CheckingGame.{targets};
ghost use Rattle.ml_witness.specs.private.Claims.{AllStandAt, AreKept, Leads, LeadsTo, SquareIsKept, SquaresLead, StandsBeside, rank_of};

use ml_base::Edge;
use ml_graph::{ModalGraph, Node};
use ml_kripke::Structure;

/// The number of the pair of a state and a node, among so many nodes.
pub(crate) fn pair(size: u32, state: u32, n: u32) -> usize
    ensures { result ≡ state * size + n }
{
    state as usize * size as usize + n as usize
}

/// The rank of a pair; 0 where it isn't claimed.
pub(crate) fn rank_of(graph: &ModalGraph, ranks: &[u32], state: u32, n: u32) -> u32
    ensures { result ≡ rank_of graph.now ranks.now state n }
{
    match ranks.get(pair(graph.size(), state, n)) {
        Some(rank) => *rank,
        None => 0,
    }
}

/// May a step from a pair of this priority and rank lead to one of the other rank?
fn leads(priority: u32, rank: u32, next: u32) -> bool
    ensures { IsTrue result → Leads priority rank next }
{
    if next == 0 {
        return false;
    }
    if priority == 0 {
        return true;
    }
    if priority % 2 == 0 {
        return next <= rank;
    }
    next < rank
}

/// May a step from this state and node lead to that state and node?
fn leads_to(graph: &ModalGraph, ranks: &[u32], state: u32, n: u32, target: u32, to: u32) -> bool
    requires { n < size graph.now }
    ensures { IsTrue result → LeadsTo graph.now ranks.now state n target to }
{
    leads(
        graph.priority(n),
        rank_of(graph, ranks, state, n),
        rank_of(graph, ranks, target, to),
    )
}

/// Has the edge this action of the graph?
fn has_action(graph: &ModalGraph, edge: &Edge, action: u32) -> bool
    requires { action < length graph.now.actions }
    ensures { result ≡ bytes_eq edge.now.action (action_at graph.now action) }
{
    edge.action == graph.actions()[action as usize]
}

/// Leads the edge from this state, has it this action, and may the step along it lead to this node?
fn goes_along(
    graph: &ModalGraph,
    ranks: &[u32],
    edge: &Edge,
    state: u32,
    n: u32,
    action: u32,
    to: u32,
) -> bool
    requires node { n < size graph.now }
    requires action { action < length graph.now.actions }
    ensures source { IsTrue result → edge.now.source ≡ state }
    ensures action { IsTrue result → bytes_eq edge.now.action (action_at graph.now action) ≡ true }
    ensures leads { IsTrue result → LeadsTo graph.now ranks.now state n edge.now.target to }
{
    if edge.source != state {
        return false;
    }
    if !has_action(graph, edge, action) {
        return false;
    }
    leads_to(graph, ranks, state, n, edge.target, to)
}

/// Is there such an edge at one of these places?
fn some_goes_along(
    graph: &ModalGraph,
    structure: &Structure,
    ranks: &[u32],
    places: (u32, u32),
    state: u32,
    n: u32,
    action: u32,
    to: u32,
) -> bool
    requires node { n < size graph.now }
    requires action { action < length graph.now.actions }
    ensures { IsTrue result → (t : ℕ) × Contains (targets structure.now state (action_at graph.now action)) t × LeadsTo graph.now ranks.now state n t to }
{
    for place in places.0..places.1 {
        if let Some(edge) = structure.edges().get(place as usize) {
            if goes_along(graph, ranks, edge, state, n, action, to) {
                return true;
            }
        }
    }
    false
}

/// Has the literal this truth at the state?
fn literal_stands(
    graph: &ModalGraph,
    structure: &Structure,
    state: u32,
    prop: u32,
    positive: bool,
) -> bool
    requires state { state < structure.now.states }
    requires prop { prop < length graph.now.props }
    ensures { result ≡ true → lists structure.now state (prop_at graph.now prop) ≡ positive }
{
    structure.has_label(state, &graph.props()[prop as usize]) == positive
}

/// Is what it takes for the node to hold at the state claimed, one step on? Of a square nothing is said.
fn stands(
    graph: &ModalGraph,
    structure: &Structure,
    ranks: &[u32],
    places: (u32, u32),
    state: u32,
    n: u32,
) -> bool
    requires state { state < structure.now.states }
    requires node { n < size graph.now }
    ensures { IsTrue result → StandsBeside graph.now structure.now ranks.now state n (node_at graph.now n) }
{
    graph.keeps();
    match *graph.node(n) {
        Node::True => true,
        Node::False => false,
        Node::Lit { prop, positive } => literal_stands(graph, structure, state, prop, positive),
        Node::And { left, right } => {
            leads_to(graph, ranks, state, n, state, left)
                && leads_to(graph, ranks, state, n, state, right)
        }
        Node::Or { left, right } => {
            leads_to(graph, ranks, state, n, state, left)
                || leads_to(graph, ranks, state, n, state, right)
        }
        Node::Diamond { action, to } => {
            some_goes_along(graph, structure, ranks, places, state, n, action, to)
        }
        Node::Square { .. } => true,
    }
}

/// The same of each node that is claimed at the state.
fn all_stand_at(
    graph: &ModalGraph,
    structure: &Structure,
    ranks: &[u32],
    places: (u32, u32),
    state: u32,
) -> bool
    requires { state < structure.now.states }
    ensures { IsTrue result → AllStandAt graph.now structure.now ranks.now state }
{
    for n in 0..graph.size() {
        if rank_of(graph, ranks, state, n) > 0
            && !stands(graph, structure, ranks, places, state, n)
        {
            return false;
        }
    }
    true
}

/// The places at which edges from the state stand.
fn places_of(firsts: &[u32], state: u32) -> (u32, u32) {
    match (firsts.get(state as usize), firsts.get(state as usize + 1)) {
        (Some(first), Some(behind)) => (*first, *behind),
        _ => (0, 0),
    }
}

/// The same at each state.
fn all_stand(graph: &ModalGraph, structure: &Structure, ranks: &[u32], firsts: &[u32]) -> bool
    ensures { IsTrue result → (s : ℕ) → s < structure.now.states → AllStandAt graph.now structure.now ranks.now s }
{
    for state in 0..structure.states() {
        if !all_stand_at(graph, structure, ranks, places_of(firsts, state), state) {
            return false;
        }
    }
    true
}

/// If the node is a square that is claimed where the edge begins, may the step along the edge lead to its child?
fn square_leads(graph: &ModalGraph, ranks: &[u32], edge: &Edge, n: u32) -> bool
    requires { n < size graph.now }
    ensures { IsTrue result → SquareIsKept graph.now ranks.now edge.now n (node_at graph.now n) }
{
    graph.keeps();
    match *graph.node(n) {
        Node::Square { action, to } => {
            if rank_of(graph, ranks, edge.source, n) == 0 {
                return true;
            }
            if !has_action(graph, edge, action) {
                return true;
            }
            leads_to(graph, ranks, edge.source, n, edge.target, to)
        }
        _ => true,
    }
}

/// The same of each node.
fn squares_lead_along(graph: &ModalGraph, ranks: &[u32], edge: &Edge) -> bool
    ensures { IsTrue result → SquaresLead graph.now ranks.now edge.now }
{
    for n in 0..graph.size() {
        if !square_leads(graph, ranks, edge, n) {
            return false;
        }
    }
    true
}

/// The same of each edge.
fn squares_lead(graph: &ModalGraph, edges: &[Edge], ranks: &[u32]) -> bool
    ensures { IsTrue result → All (SquaresLead graph.now ranks.now) edges.now }
{
    for edge in edges {
        if !squares_lead_along(graph, ranks, edge) {
            return false;
        }
    }
    true
}

/// Is each claim kept? Edges from a state are looked for at the places that `firsts` names.
///
/// Cost: linear in the pairs, and in the nodes for each edge.
pub(crate) fn are_kept(
    graph: &ModalGraph,
    structure: &Structure,
    ranks: &[u32],
    firsts: &[u32],
) -> bool
    ensures { IsTrue result → AreKept graph.now structure.now ranks.now }
{
    if !all_stand(graph, structure, ranks, firsts) {
        return false;
    }
    squares_lead(graph, structure.edges(), ranks)
}
