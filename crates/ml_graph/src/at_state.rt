// What the checking game asks of a structure at one state, made in one pass over the state's labels and edges.
ghost use Rattle.std.specs.Prelude.{◌≡◌, ◌<◌, ◌==◌, IfOk, OnOk, length, not};
ghost use Rattle.std.specs.List.{IsDistinct, position, position_or_len};
ghost use Rattle.std.specs.Str.{bytes_eq};
ghost use Rattle.ml_base.specs.Structure.{lists};
ghost use Rattle.ml_graph.specs.Graph.{prop_at, action_at};
ghost use Rattle.ml_graph.specs.CheckingGame.{targets};
ghost use Rattle.ml_graph.specs.private.Making.{AreEmpty, AreEdgesOf, HasAdded, HasTruths, HasTargets, IsFor, IsAt};

use crate::modal_graph::ModalGraph;
use indexmap::IndexSet;
use ml_base::{Action, Edge, Name, NoMemory};
use ml_kripke::Structure;
use std::alloc::Global;

/// Which propositions of a graph are true at a state, and where the edges of each of its actions lead; and the names
/// of the graph, by which their places are found.
#[derive(Drop)]
pub(crate) struct AtState {
    props: IndexSet<Name>,
    actions: IndexSet<Action>,
    truths: Vec<bool>,
    targets: Vec<Vec<u32>>,
}

/// The propositions in their order.
fn places_of_props(alloc: Global, props: &[Name]) -> Result<IndexSet<Name>, NoMemory>
    requires { IsDistinct bytes_eq props.now }
    ensures { IfOk result (λ places. places.keys ≡ props.now) }
{
    let mut places = IndexSet::new(alloc);
    for prop in props {
        places.insert(prop.copy()?)?;
    }
    Ok(places)
}

/// The actions in their order.
fn places_of_actions(alloc: Global, actions: &[Action]) -> Result<IndexSet<Action>, NoMemory>
    requires { IsDistinct bytes_eq actions.now }
    ensures { IfOk result (λ places. places.keys ≡ actions.now) }
{
    let mut places = IndexSet::new(alloc);
    for action in actions {
        places.insert(action.copy()?)?;
    }
    Ok(places)
}

/// Tells of each proposition whether it is one of the labels.
fn mark_truths(truths: &mut [bool], props: &IndexSet<Name>, labels: &[Name])
    requires distinct { IsDistinct bytes_eq props.now.keys }
    requires fits { length truths.old ≡ length props.now.keys }
    ensures { HasTruths props.now.keys labels.now truths.new }
{
    truths.fill(false);
    for label in labels {
        if let Some(prop) = props.get_index_of(label) {
            truths[prop] = true;
        }
    }
}

/// Empties the rows.
fn clear(rows: &mut [Vec<u32>])
    ensures size { length rows.new ≡ length rows.old }
    ensures empty { AreEmpty rows.new }
{
    for row in rows.iter_mut() {
        row.clear();
    }
}

/// Adds to the rows where one edge leads, if its action is one of these.
fn add_edge(rows: &mut [Vec<u32>], actions: &IndexSet<Action>, edge: &Edge) -> Result<(), NoMemory>
    requires distinct { IsDistinct bytes_eq actions.now.keys }
    requires fits { length rows.old ≡ length actions.now.keys }
    ensures { OnOk result (HasAdded actions.now.keys edge.now rows.old rows.new) }
{
    let Some(action) = actions.get_index_of(&edge.action) else {
        return Ok(());
    };
    rows[action].push(edge.target)?;
    Ok(())
}

/// Gathers for each action where those of the edges lead that have it.
fn gather_targets(
    rows: &mut [Vec<u32>],
    actions: &IndexSet<Action>,
    edges: &[Edge],
) -> Result<(), NoMemory>
    requires distinct { IsDistinct bytes_eq actions.now.keys }
    requires fits { length rows.old ≡ length actions.now.keys }
    ensures { OnOk result (HasTargets actions.now.keys edges.now rows.new) }
{
    clear(rows);
    for edge in edges {
        add_edge(rows, actions, edge)?;
    }
    Ok(())
}

/// The place of the first edge that doesn't leave the state.
fn first_other(edges: &[Edge], state: u32) -> Option<usize>
    ensures { result ≡ position (λ e. not (e.source == state)) edges.now }
{
    edges.iter().position(|edge| edge.source != state)
}

/// How many of the edges at the beginning of a list leave the state.
pub(crate) fn count_leaving(edges: &[Edge], state: u32) -> usize
    ensures { result ≡ position_or_len (λ e. not (e.source == state)) edges.now }
{
    first_other(edges, state).unwrap_or(edges.len())
}

impl AtState {
    /// Room for what the graph asks of a state.
    pub(crate) fn of(alloc: Global, graph: &ModalGraph) -> Result<AtState, NoMemory>
        ensures { IfOk result (IsFor graph.now) }
    {
        let mut targets = Vec::new(alloc);
        for _ in 0..graph.actions().len() {
            targets.push(Vec::new(alloc))?;
        }
        Ok(AtState {
            props: places_of_props(alloc, graph.props())?,
            actions: places_of_actions(alloc, graph.actions())?,
            truths: vec![in alloc; false; graph.props().len()]?,
            targets,
        })
    }

    /// Looks at a state, of which these are the edges.
    ///
    /// Cost: linear in the names of the graph, the labels of the state and the edges.
    pub(crate) fn look(
        &mut self,
        graph: &ModalGraph,
        structure: &Structure,
        state: u32,
        edges: &[Edge],
    ) -> Result<(), NoMemory>
        requires names { IsFor graph.now self.old }
        requires state { state < structure.now.states }
        requires edges { AreEdgesOf structure.now state edges.now }
        ensures { OnOk result (IsAt graph.now structure.now state self.new) }
    {
        mark_truths(&mut self.truths, &self.props, structure.labels_of(state));
        gather_targets(&mut self.targets, &self.actions, edges)
    }

    /// Whether a proposition of the graph is true at the state.
    pub(crate) fn is_true(
        &self,
        graph: &ModalGraph,
        structure: &Structure,
        state: u32,
        prop: u32,
    ) -> bool
        requires here { IsAt graph.now structure.now state self.now }
        requires prop { prop < length graph.now.props }
        ensures { result ≡ lists structure.now state (prop_at graph.now prop) }
    {
        self.truths[prop as usize]
    }

    /// Where the edges of an action of the graph lead from the state.
    pub(crate) fn targets(
        &self,
        graph: &ModalGraph,
        structure: &Structure,
        state: u32,
        action: u32,
    ) -> &[u32]
        requires here { IsAt graph.now structure.now state self.now }
        requires action { action < length graph.now.actions }
        ensures { result.now ≡ targets structure.now state (action_at graph.now action) }
    {
        &self.targets[action as usize]
    }
}
