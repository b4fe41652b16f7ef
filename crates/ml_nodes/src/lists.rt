// The lists of which a graph is made.
ghost use Rattle.std.specs.Prelude.{◌≡◌, ◌<◌, ◌^◌, if◌then◌else◌, length, IfOk};
ghost use Rattle.ml_graph.specs.Graph.{IsGraph};
ghost use Rattle.ml_graph.specs.Building.{graph_of};

use crate::draft::Draft;
use crate::names::Names;
use ml_base::{Action, Name, NoMemory};
use ml_graph::{ModalGraph, Node};
use std::alloc::Global;

/// The lists of a graph: nodes, a priority for each, and the names of propositions and actions.
#[derive(Drop)]
pub struct Lists {
    pub nodes: Vec<Node>,
    pub priorities: Vec<u32>,
    pub props: Vec<Name>,
    pub actions: Vec<Action>,
}

impl Lists {
    /// The lists of a draft and of its names.
    ///
    /// # Errors
    /// `NoMemory` alone.
    ///
    /// Cost: linear in the number of names.
    pub fn of(alloc: Global, draft: Draft, names: Names) -> Result<Lists, NoMemory>
        ensures nodes { IfOk result (λ lists. lists.nodes.items ≡ draft.nodes.items) }
        ensures priorities { IfOk result (λ lists. lists.priorities.items ≡ draft.priorities.items) }
        ensures props { IfOk result (λ lists. lists.props.items ≡ names.props.keys) }
        ensures actions { IfOk result (λ lists. lists.actions.items ≡ names.actions.keys) }
    {
        let Names { props, actions } = names;
        let props = props.into_iter().collect(alloc)?;
        let actions = actions.into_iter().collect(alloc)?;
        let Draft { nodes, priorities } = draft;
        Ok(Lists {
            nodes,
            priorities,
            props,
            actions,
        })
    }

    /// The graph of these lists, which they have to make.
    ///
    /// Cost: linear in the nodes.
    pub fn into_graph(self, root: u32) -> ModalGraph
        requires few { length self.nodes.items < 2 ^ 32 }
        requires is_graph { IsGraph (graph_of self.nodes self.priorities root self.props self.actions) }
        ensures { result ≡ graph_of self.nodes self.priorities root self.props self.actions }
    {
        match ModalGraph::build(self.nodes, self.priorities, root, self.props, self.actions) {
            Ok(graph) => graph,
            Err(_) => unreachable!(),
        }
    }
}

/// The root of a formula's graph: the node of the first occurrence, or that of its negation.
pub fn root_of(negated: bool) -> u32
    ensures { result ≡ (if negated then 1 else 0) }
{
    if negated { 1 } else { 0 }
}
