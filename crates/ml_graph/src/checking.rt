// The checking game of a graph and a structure.
ghost use Rattle.std.specs.Prelude.{◌≡◌, ◌<◌, ◌+◌, ◌*◌, ◌++◌, [], ◌∷◌, IfOk, OnOk, List, map};
ghost use Rattle.ml_parity.specs.Game.{IsGame};
ghost use Rattle.ml_parity.specs.Refusal.{game_of};
ghost use Rattle.ml_graph.specs.Graph.{size};
ghost use Rattle.ml_graph.specs.CheckingGame.{Vertex, Pair, Sink, vertex_number, mover, pairs_at, successors, vertices, checking_game};
ghost use Rattle.ml_graph.specs.private.Making.{IsAt, numbers_or_sink, HasVertices};

use crate::at_state::{AtState, count_leaving};
use crate::modal_graph::ModalGraph;
use crate::node::Node;
use ml_base::NoMemory;
use ml_kripke::Structure;
use ml_parity::{Game, Player};
use std::alloc::Global;

/// The vertices of a game that were made so far.
#[derive(Drop)]
struct Vertices {
    owner: Vec<Player>,
    priority: Vec<u32>,
    successors: Vec<Vec<u64>>,
}

/// Who owns the vertices with this node.
fn mover(node: Node) -> Player
    ensures { result ≡ mover node }
{
    match node {
        Node::And { .. } | Node::Square { .. } => Player::Odd,
        _ => Player::Even,
    }
}

/// The number of the pair of a state and a node, in a graph of so many nodes.
fn pair(state: u32, size: u32, node: u32) -> u64
    ensures { result ≡ state * size + node }
{
    state as u64 * size as u64 + node as u64
}

/// The numbers of the pairs of these states and a node, or of the sink if there are no states.
fn pairs_or_sink(
    alloc: Global,
    states: &[u32],
    size: u32,
    node: u32,
    sink: u64,
) -> Result<Vec<u64>, NoMemory>
    ensures { IfOk result (λ moves. moves.items ≡ numbers_or_sink size node sink states.now) }
{
    if states.is_empty() {
        return Ok(vec![in alloc; sink]?);
    }
    Ok(
        states
            .iter()
            .map(|state| pair(*state, size, node))
            .collect(alloc)?,
    )
}

/// The moves from the pair of a state and a node.
fn moves_from(
    alloc: Global,
    graph: &ModalGraph,
    structure: &Structure,
    at: &AtState,
    state: u32,
    n: u32,
) -> Result<Vec<u64>, NoMemory>
    requires here { IsAt graph.now structure.now state at.now }
    requires node { n < size graph.now }
    ensures { IfOk result (λ moves. moves.items ≡ map (vertex_number graph.now structure.now) (successors graph.now structure.now (Pair state n))) }
{
    let size = graph.size();
    let good = pair(structure.states(), size, 0);
    let bad = good + 1;
    match *graph.node(n) {
        Node::True => Ok(vec![in alloc; good]?),
        Node::False => Ok(vec![in alloc; bad]?),
        Node::Lit { prop, positive } => {
            let holds = at.is_true(graph, structure, state, prop) == positive;
            Ok(vec![in alloc; if holds { good } else { bad }]?)
        }
        Node::And { left, right } | Node::Or { left, right } => {
            Ok(vec![in alloc; pair(state, size, left), pair(state, size, right)]?)
        }
        Node::Diamond { action, to } => {
            let targets = at.targets(graph, structure, state, action);
            pairs_or_sink(alloc, targets, size, to, bad)
        }
        Node::Square { action, to } => {
            let targets = at.targets(graph, structure, state, action);
            pairs_or_sink(alloc, targets, size, to, good)
        }
    }
}

impl Vertices {
    /// Adds a vertex.
    fn push(&mut self, owner: Player, priority: u32, moves: Vec<u64>) -> Result<(), NoMemory>
        ensures owners { OnOk result (self.new.owner.items ≡ self.old.owner.items ++ owner ∷ []) }
        ensures priorities { OnOk result (self.new.priority.items ≡ self.old.priority.items ++ priority ∷ []) }
        ensures moves { OnOk result (self.new.successors.items ≡ self.old.successors.items ++ moves ∷ []) }
    {
        self.owner.push(owner)?;
        self.priority.push(priority)?;
        self.successors.push(moves)?;
        Ok(())
    }

    /// Adds the pair of a state and a node.
    fn push_pair(
        &mut self,
        alloc: Global,
        graph: &ModalGraph,
        structure: &Structure,
        at: &AtState,
        state: u32,
        n: u32,
    ) -> Result<(), NoMemory>
        requires here { IsAt graph.now structure.now state at.now }
        requires node { n < size graph.now }
        ensures { OnOk result ((vs : List Vertex) → HasVertices graph.now structure.now self.old vs
            → HasVertices graph.now structure.now self.new (vs ++ Pair state n ∷ [])) }
    {
        let moves = moves_from(alloc, graph, structure, at, state, n)?;
        self.push(mover(*graph.node(n)), graph.priority(n), moves)
    }

    /// Adds the pairs of a state and each node of the graph.
    fn push_pairs(
        &mut self,
        alloc: Global,
        graph: &ModalGraph,
        structure: &Structure,
        at: &AtState,
        state: u32,
    ) -> Result<(), NoMemory>
        requires here { IsAt graph.now structure.now state at.now }
        ensures { OnOk result ((vs : List Vertex) → HasVertices graph.now structure.now self.old vs
            → HasVertices graph.now structure.now self.new (vs ++ pairs_at graph.now state)) }
    {
        for n in 0..graph.size() {
            self.push_pair(alloc, graph, structure, at, state, n)?;
        }
        Ok(())
    }

    /// Adds the sink of a priority.
    fn push_sink(
        &mut self,
        alloc: Global,
        graph: &ModalGraph,
        structure: &Structure,
        priority: u32,
    ) -> Result<(), NoMemory>
        requires { priority < 2 }
        ensures { OnOk result ((vs : List Vertex) → HasVertices graph.now structure.now self.old vs
            → HasVertices graph.now structure.now self.new (vs ++ Sink priority ∷ [])) }
    {
        let number = pair(structure.states(), graph.size(), 0) + priority as u64;
        self.push(Player::Even, priority, vec![in alloc; number]?)?;
        Ok(())
    }
}

/// All vertices of the checking game.
fn all_vertices(
    alloc: Global,
    graph: &ModalGraph,
    structure: &Structure,
) -> Result<Vertices, NoMemory>
    ensures made { IfOk result (λ made. HasVertices graph.now structure.now made (vertices graph.now structure.now)) }
    ensures game { IfOk result (λ made. IsGame (game_of made.owner made.priority made.successors)) }
{
    let count = pair(structure.states(), graph.size(), 2) as usize;
    let mut made = Vertices {
        owner: Vec::with_capacity(alloc, count)?,
        priority: Vec::with_capacity(alloc, count)?,
        successors: Vec::with_capacity(alloc, count)?,
    };
    let mut at = AtState::of(alloc, graph)?;
    let mut edges = structure.edges();
    for state in 0..structure.states() {
        let (leaving, later) = edges.split_at(count_leaving(edges, state));
        at.look(graph, structure, state, leaving)?;
        made.push_pairs(alloc, graph, structure, &at, state)?;
        edges = later;
    }
    made.push_sink(alloc, graph, structure, 0)?;
    made.push_sink(alloc, graph, structure, 1)?;
    Ok(made)
}

/// The checking game of a graph and a structure, and the vertex of a state and the root.
///
/// The pair of the state s and the node n has the number `s * size + n`; behind the pairs stand the sink of priority 0 and
/// then that of priority 1. `ml_parity::solve` says who wins: the graph holds at the state exactly if Even wins the vertex.
///
/// # Errors
/// `NoMemory` alone.
///
/// Cost: linear in the game, where each name of the graph stands at a node, and in the structure; a name is looked up by
/// its hash. (Else linear in the states times the names, too.) Source: Stirling, Local model checking games (1995).
pub fn checking_game(
    alloc: Global,
    graph: &ModalGraph,
    structure: &Structure,
    state: u32,
) -> Result<(Game, u64), NoMemory>
    requires { state < structure.now.states }
    ensures game { IfOk result (λ r. r.0 ≡ checking_game graph.now structure.now) }
    ensures vertex { IfOk result (λ r. r.1 ≡ vertex_number graph.now structure.now (Pair state graph.now.root)) }
{
    let Vertices {
        owner,
        priority,
        successors,
    } = all_vertices(alloc, graph, structure)?;
    let game = Game {
        owner,
        priority,
        successors,
    };
    Ok((game, pair(state, graph.size(), graph.root())))
}
