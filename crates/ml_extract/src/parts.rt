// The labels and the edges of the states.
ghost use Rattle.std.specs.Prelude.{◌≡◌, ◌<◌, ◌^◌, ◌+◌, ◌++◌, true, length, map, get_or, All, IfOk, OnOk};
ghost use Rattle.std.specs.List.{zip};
ghost use Rattle.ml_lists.specs.Member.{IsMember};
ghost use Rattle.ml_graph.specs.Graph.{size, node_at};
ghost use Rattle.ml_sequent.specs.Spread.{IsSpread, is_diamond};
ghost use Rattle.ml_extract.specs.Model.{SpreadAt};
ghost use Rattle.ml_extract.specs.private.Gathered as gathered;
ghost use Rattle.ml_extract.specs.private.Numbered.{AreNumbered};

use crate::states::States;
use crate::won_game::WonGame;
use indexmap::IndexSet;
use ml_base::{Action, Edge, Name, NoMemory};
use ml_graph::{ModalGraph, Node};
use ml_sequent::{LocalPhase, Spread};
use std::alloc::Global;

/// Labels of states, and edges.
#[derive(Drop)]
pub(crate) struct Parts {
    pub labels: Vec<(u32, Name)>,
    pub edges: Vec<Edge>,
}

impl Parts {
    /// The labels and the edges of all states.
    ///
    /// # Errors
    /// `NoMemory` alone.
    ///
    /// Cost: for each state that of its spread, which is made once.
    pub(crate) fn of(alloc: Global, game: &WonGame, states: &States) -> Result<Parts, NoMemory>
        requires { AreNumbered
            game.now.graph.now
            game.now.arena.now
            game.now.solution.now
            states.now.firsts.keys
            states.now.lasts.items }
        ensures { IfOk result (λ parts. (n : AreNumbered
            game.now.graph.now
            game.now.arena.now
            game.now.solution.now
            states.now.firsts.keys
            states.now.lasts.items)
            → gathered.AreGathered
            game.now.graph.now
            game.now.arena.now
            n.states
            (length states.now.lasts.items)
            parts.labels.items
            parts.edges.items) }
    {
        let _size = game.arena.size();
        let mut phase = LocalPhase::new(alloc, game.graph)?;
        let mut parts = Parts {
            labels: Vec::new(alloc),
            edges: Vec::new(alloc),
        };
        for state in 0..states.lasts.len() as u32 {
            parts.add(game, &mut phase, states, state)?;
        }
        Ok(parts)
    }

    /// Adds the labels and the edges of a state.
    fn add(
        &mut self,
        game: &WonGame,
        phase: &mut LocalPhase,
        states: &States,
        state: u32,
    ) -> Result<(), NoMemory>
        requires numbered { AreNumbered
            game.now.graph.now
            game.now.arena.now
            game.now.solution.now
            states.now.firsts.keys
            states.now.lasts.items }
        requires state { state < length states.now.lasts.items }
        requires phase { phase.old ≡ game.now.graph.now }
        ensures phase { phase.new ≡ phase.old }
        ensures gathered { OnOk result ((n : AreNumbered
            game.now.graph.now
            game.now.arena.now
            game.now.solution.now
            states.now.firsts.keys
            states.now.lasts.items)
            → gathered.AreGathered
            game.now.graph.now
            game.now.arena.now
            n.states
            state
            self.old.labels.items
            self.old.edges.items
            → gathered.AreGathered
            game.now.graph.now
            game.now.arena.now
            n.states
            (state + 1)
            self.new.labels.items
            self.new.edges.items) }
    {
        let last = states.lasts[state as usize];
        let spread = spread_at(game, phase, last)?;
        self.add_spread(game, phase, states, state, &spread)
    }

    /// Adds the labels and the edges of a state by its spread.
    fn add_spread(
        &mut self,
        game: &WonGame,
        phase: &LocalPhase,
        states: &States,
        state: u32,
        spread: &Spread,
    ) -> Result<(), NoMemory>
        requires numbered { AreNumbered
            game.now.graph.now
            game.now.arena.now
            game.now.solution.now
            states.now.firsts.keys
            states.now.lasts.items }
        requires state { state < length states.now.lasts.items }
        requires phase { phase.now ≡ game.now.graph.now }
        requires spread { SpreadAt
            game.now.graph.now
            game.now.arena.now
            (get_or states.now.lasts.items state 0)
            spread.now }
        requires is_spread { IsSpread game.now.graph.now spread.now }
        ensures { OnOk result ((n : AreNumbered
            game.now.graph.now
            game.now.arena.now
            game.now.solution.now
            states.now.firsts.keys
            states.now.lasts.items)
            → gathered.AreGathered
            game.now.graph.now
            game.now.arena.now
            n.states
            state
            self.old.labels.items
            self.old.edges.items
            → gathered.AreGathered
            game.now.graph.now
            game.now.arena.now
            n.states
            (state + 1)
            self.new.labels.items
            self.new.edges.items) }
    {
        let _size = game.arena.size();
        let last = states.lasts[state as usize];
        add_labels(&mut self.labels, game.graph, state, spread)?;
        let diamonds = phase.diamonds(spread)?;
        add_edges(
            &mut self.edges,
            game.graph,
            &states.firsts,
            state,
            &diamonds,
            game.arena.moves(last),
        )
    }
}

/// The spread of a position.
fn spread_at(game: &WonGame, phase: &mut LocalPhase, position: u32) -> Result<Spread, NoMemory>
    requires phase { phase.old ≡ game.now.graph.now }
    requires has_spread { gathered.HasSpread game.now.graph.now game.now.arena.now position }
    ensures phase { phase.new ≡ phase.old }
    ensures spread { IfOk result (SpreadAt game.now.graph.now game.now.arena.now position) }
    ensures is_spread { IfOk result (IsSpread game.now.graph.now) }
{
    let view = game.arena.position(position);
    let choice = view.choice()?;
    phase.spread(view.sequent, &choice)
}

/// Adds as a label of the state the proposition of the node, if it is a positive literal.
fn add_label(
    labels: &mut Vec<(u32, Name)>,
    graph: &ModalGraph,
    state: u32,
    node: u32,
) -> Result<(), NoMemory>
    requires { node < size graph.now }
    ensures { OnOk result (labels.new.items
        ≡ labels.old.items ++ gathered.labelled state (gathered.names_of graph.now (node_at graph.now node))) }
{
    graph.keeps();
    if let Node::Lit {
        prop,
        positive: true,
    } = *graph.node(node)
    {
        labels.push((state, graph.props()[prop as usize].copy()?))?;
    }
    Ok(())
}

/// Adds as labels of the state the propositions whose positive literals are in the spread.
fn add_labels(
    labels: &mut Vec<(u32, Name)>,
    graph: &ModalGraph,
    state: u32,
    spread: &Spread,
) -> Result<(), NoMemory>
    requires { IsSpread graph.now spread.now }
    ensures { OnOk result (labels.new.items
        ≡ labels.old.items ++ gathered.labelled state (gathered.names_in graph.now spread.now)) }
{
    for node in spread.nodes() {
        add_label(labels, graph, state, *node)?;
    }
    Ok(())
}

/// The action of a diamond.
fn action(graph: &ModalGraph, diamond: u32) -> &Action
    requires node { diamond < size graph.now }
    requires is_diamond { is_diamond (node_at graph.now diamond) ≡ true }
    ensures { result.now ≡ gathered.action_of graph.now (node_at graph.now diamond) }
{
    graph.keeps();
    match *graph.node(diamond) {
        Node::Diamond { action, .. } => &graph.actions()[action as usize],
        _ => unreachable!(),
    }
}

/// The edge of a state by a diamond, to the state that begins where the diamond leads.
fn edge(
    graph: &ModalGraph,
    firsts: &IndexSet<u64>,
    state: u32,
    diamond: u32,
    next: u64,
) -> Result<Edge, NoMemory>
    requires node { diamond < size graph.now }
    requires is_diamond { is_diamond (node_at graph.now diamond) ≡ true }
    requires begins { IsMember next firsts.now.keys }
    requires few { length firsts.now.keys < 2 ^ 32 }
    ensures { IfOk result (λ edge. edge ≡ gathered.edge_to graph.now firsts.now.keys state (diamond, next)) }
{
    let target = firsts.get_index_of(&next).unwrap();
    Ok(Edge {
        source: state,
        action: action(graph, diamond).copy()?,
        target: target as u32,
    })
}

/// Adds the edges of a state: one for each diamond, by the move that it has.
fn add_edges(
    edges: &mut Vec<Edge>,
    graph: &ModalGraph,
    firsts: &IndexSet<u64>,
    state: u32,
    diamonds: &[u32],
    moves: &[u64],
) -> Result<(), NoMemory>
    requires nodes { All (λ n. n < size graph.now) diamonds.now }
    requires are_diamonds { All (λ n. is_diamond (node_at graph.now n) ≡ true) diamonds.now }
    requires begin { All (λ next. IsMember next.1 firsts.now.keys) (zip diamonds.now moves.now) }
    requires few { length firsts.now.keys < 2 ^ 32 }
    ensures { OnOk result (edges.new.items
        ≡ edges.old.items ++ map (gathered.edge_to graph.now firsts.now.keys state) (zip diamonds.now moves.now)) }
{
    for (diamond, next) in diamonds.iter().zip(moves) {
        edges.push(edge(graph, firsts, state, *diamond, *next)?)?;
    }
    Ok(())
}
