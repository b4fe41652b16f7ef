// Structures of the parts that a search finds.
use crate::candidates::Candidate;
use ml_base::{Action, Edge, Name, NoMemory};
use ml_graph::{ModalGraph, Node};
use ml_kripke::{Model, Structure, StructureRefusal};
use std::alloc::Global;

/// Labels and edges of states, as they are found.
#[derive(Drop)]
pub struct ModelParts {
    labels: Vec<(u32, Name)>,
    edges: Vec<Edge>,
}

impl ModelParts {
    /// No label and no edge.
    ///
    /// Cost: constant.
    pub fn empty(alloc: Global) -> ModelParts {
        ModelParts {
            labels: Vec::new(alloc),
            edges: Vec::new(alloc),
        }
    }

    /// Adds the labels of a state: the propositions of these nodes, which are literals.
    ///
    /// # Errors
    /// `NoMemory` alone.
    pub fn push_labels(
        &mut self,
        graph: &ModalGraph,
        state: u32,
        literals: &[u32],
    ) -> Result<(), NoMemory> {
        for n in literals {
            if let Some(Node::Lit { prop, .. }) = graph.nodes().get(*n as usize) {
                if let Some(name) = graph.props().get(*prop as usize) {
                    self.labels.push((state, name.copy()?))?;
                }
            }
        }
        Ok(())
    }

    /// Adds an edge, whose action has this number in the graph.
    ///
    /// # Errors
    /// `NoMemory` alone.
    pub fn push_edge(
        &mut self,
        graph: &ModalGraph,
        source: u32,
        action: u32,
        target: u32,
    ) -> Result<(), NoMemory> {
        let found: Option<&Action> = graph.actions().get(action as usize);
        if let Some(action) = found {
            self.edges.push(Edge {
                source,
                action: action.copy()?,
                target,
            })?;
        }
        Ok(())
    }

    /// The structure of so many states, with its start at the first one; `None` where it is none.
    ///
    /// # Errors
    /// `NoMemory` alone.
    pub fn candidate(self, alloc: Global, states: u32) -> Result<Option<Candidate>, NoMemory> {
        let ModelParts { labels, edges } = self;
        match Structure::build(alloc, states, labels, edges) {
            Ok(structure) => {
                if structure.states() == 0 {
                    return Ok(None);
                }
                Ok(Some(Candidate::Model(Model::new(structure, 0))))
            }
            Err(StructureRefusal::NoMemory) => Err(NoMemory),
            Err(_) => Ok(None),
        }
    }
}
