// The quotient of a structure, made of the classes of its states.
ghost use Rattle.std.specs.Prelude.{◌≡◌, ◌<◌, ◌++◌, ◌^◌, None, length, map, All, IfOk, OnOk};
ghost use Rattle.ml_base.specs.Structure.{IsStructure};
ghost use Rattle.ml_kripke.specs.Ordered.{IsOrdered};
ghost use Rattle.ml_kripke.specs.Built.{IsBuiltFrom, first_bad_state};
ghost use Rattle.ml_bisim.specs.Quotient.{IsQuotientOf};
ghost use Rattle.ml_bisim.specs.private.Merged.{AreClassLabels, between_classes};

use crate::quotients::Quotient;
use crate::rounds::classes;
use ml_base::{Edge, Name, NoMemory};
use ml_kripke::{Structure, StructureRefusal};
use std::alloc::Global;

/// The quotient of a structure by bisimilarity: two states have one class exactly if they are bisimilar. Classes are
/// numbered by their least states, ascending. A class lists the propositions of its states, and has an edge exactly where
/// one of its states has an edge with that action into the other class.
///
/// # Errors
/// `NoMemory` alone.
///
/// Cost: linear in the labels and `n log n` in the edges, and a round for each class at most, on average. A round costs
/// `n log n` in the edges of the states from which an edge leads to a state that got a new class in the round before, and of
/// one more state of each of their classes.
///
/// Source: partition refinement after Kanellakis and Smolka (1990), with the signatures of Blom and Orzan (2005).
pub fn quotient(alloc: Global, structure: &Structure) -> Result<Quotient, NoMemory>
    ensures { IfOk result (λ quotient. IsQuotientOf structure.now quotient.class.items quotient.structure) }
{
    let _states = structure.states();
    let classes = classes(alloc, structure)?;
    let class = narrowed(alloc, &classes.numbers)?;
    let labels = class_labels(alloc, structure, &class)?;
    let edges = class_edges(alloc, structure, &class)?;
    let structure = structure_of(alloc, classes.count as u32, labels, edges)?;
    Ok(Quotient { structure, class })
}

// the same numbers
fn narrowed(alloc: Global, numbers: &[usize]) -> Result<Vec<u32>, NoMemory>
    requires { All (λ n. n < 2 ^ 32) numbers.now }
    ensures { IfOk result (λ narrow. narrow.items ≡ numbers.now) }
{
    let mut narrow = Vec::with_capacity(alloc, numbers.len())?;
    for number in numbers {
        narrow.push(*number as u32)?;
    }
    Ok(narrow)
}

// the labels of the states, each at the class of its state
fn class_labels(
    alloc: Global,
    structure: &Structure,
    class: &[u32],
) -> Result<Vec<(u32, Name)>, NoMemory>
    requires { length class.now ≡ structure.now.states }
    ensures { IfOk result (λ labels. AreClassLabels structure.now class.now structure.now.states labels.items) }
{
    let mut labels = Vec::new(alloc);
    for state in 0..structure.states() {
        push_labels(
            &mut labels,
            class[state as usize],
            structure.labels_of(state),
        )?;
    }
    Ok(labels)
}

fn push_labels(labels: &mut Vec<(u32, Name)>, class: u32, names: &[Name]) -> Result<(), NoMemory>
    ensures { OnOk result (labels.new.items ≡ labels.old.items ++ map (λ p. (class, p)) names.now) }
{
    for name in names {
        labels.push((class, name.copy()?))?;
    }
    Ok(())
}

// the edges of the states, between their classes
fn class_edges(alloc: Global, structure: &Structure, class: &[u32]) -> Result<Vec<Edge>, NoMemory>
    requires { length class.now ≡ structure.now.states }
    ensures { IfOk result (λ edges. edges.items ≡ map (between_classes class.now) structure.now.edges) }
{
    structure.keeps();
    let mut edges = Vec::with_capacity(alloc, structure.edge_count())?;
    for edge in structure.edges() {
        edges.push(Edge {
            source: class[edge.source as usize],
            action: edge.action.copy()?,
            target: class[edge.target as usize],
        })?;
    }
    Ok(edges)
}

// the structure of the labels and the edges of so many states
fn structure_of(
    alloc: Global,
    count: u32,
    labels: Vec<(u32, Name)>,
    edges: Vec<Edge>,
) -> Result<Structure, NoMemory>
    requires some { 0 < count }
    requires in_range { first_bad_state count labels.items edges.items ≡ None }
    ensures built { IfOk result (IsBuiltFrom count labels.items edges.items) }
    ensures is_structure { IfOk result IsStructure }
    ensures is_ordered { IfOk result IsOrdered }
{
    match Structure::build(alloc, count, labels, edges) {
        Ok(structure) => Ok(structure),
        Err(StructureRefusal::NoMemory) => Err(NoMemory),
        Err(StructureRefusal::NoStates) => unreachable!(),
        Err(StructureRefusal::StateOutOfRange(_)) => unreachable!(),
    }
}
