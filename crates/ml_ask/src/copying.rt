// Structures copied.
ghost use Rattle.std.specs.Prelude.{◌<◌};

use ml_base::{Edge, Name, NoMemory};
use ml_kripke::{Model, Structure, StructureRefusal};
use std::alloc::Global;

/// A structure with the same labels and edges, and the same start. Nothing is claimed of it: whoever wants to know whether it
/// meets something checks it.
///
/// # Errors
/// `NoMemory` alone.
///
/// Cost: linear in the states, and `n log n` in the labels and the edges.
pub(crate) fn copied(alloc: Global, model: &Model) -> Result<Option<Model>, NoMemory> {
    let labels = labels_of(alloc, &model.structure)?;
    let edges = edges_of(alloc, &model.structure)?;
    built(alloc, model.structure.states(), labels, edges, model.start)
}

fn built(
    alloc: Global,
    states: u32,
    labels: Vec<(u32, Name)>,
    edges: Vec<Edge>,
    start: u32,
) -> Result<Option<Model>, NoMemory> {
    match Structure::build(alloc, states, labels, edges) {
        Ok(structure) => Ok(started(structure, start)),
        Err(StructureRefusal::NoStates | StructureRefusal::StateOutOfRange(_)) => Ok(None),
        Err(StructureRefusal::NoMemory) => Err(NoMemory),
    }
}

// the structure with this start, where that is one of its states
fn started(structure: Structure, start: u32) -> Option<Model> {
    if start < structure.states() {
        Some(Model::new(structure, start))
    } else {
        None
    }
}

fn labels_of(alloc: Global, structure: &Structure) -> Result<Vec<(u32, Name)>, NoMemory> {
    let mut labels = Vec::new(alloc);
    for state in 0..structure.states() {
        for name in structure.labels_of(state) {
            labels.push((state, name.copy()?))?;
        }
    }
    Ok(labels)
}

fn edges_of(alloc: Global, structure: &Structure) -> Result<Vec<Edge>, NoMemory> {
    let mut edges = Vec::new(alloc);
    for edge in structure.edges() {
        edges.push(Edge {
            source: edge.source,
            action: edge.action.copy()?,
            target: edge.target,
        })?;
    }
    Ok(edges)
}
