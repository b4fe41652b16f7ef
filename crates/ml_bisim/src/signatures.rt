// What tells states of one class apart: into which classes their edges lead.
ghost use Rattle.std.specs.Prelude.{◌≡◌, ◌<◌, length, All, IfOk, OnOk};
ghost use Rattle.ml_bisim.specs.private.Signatures.{AreEdges, AreParts, AreSignatures, AreSteps};

use crate::edges::Edges;
use crate::numbering::{Numbering, numbered};
use ml_base::NoMemory;
use ml_kripke::{Structure, ascend};
use std::alloc::Global;

/// An edge of a state: the number of its action, and the class into which it leads.
#[derive(Clone, Copy, PartialEq, Eq, PartialOrd, Ord, Hash, Drop)]
pub(crate) struct Step {
    pub action: usize,
    pub class: usize,
}

/// The class of a state, and into which classes its edges lead, in ascending order.
#[derive(PartialEq, Eq, Hash, Drop)]
pub(crate) struct Signature {
    pub class: usize,
    pub steps: Vec<Step>,
}

/// The parts into which a round cuts the classes of these states: two of them are in one part if they have one class,
/// and their edges lead by the same actions into the same classes. Parts are numbered in the order of the states.
///
/// # Errors
/// `NoMemory` alone.
///
/// Cost: of `n log n` in the edges of these states, on average.
pub(crate) fn parts(
    alloc: Global,
    structure: &Structure,
    edges: &Edges,
    class: &[usize],
    states: &[u32],
) -> Result<Numbering, NoMemory>
    requires edges { AreEdges structure.now edges.now }
    requires each_state { length class.now ≡ structure.now.states }
    requires in_range { All (λ s. s < structure.now.states) states.now }
    ensures { IfOk result (λ parts. AreParts structure.now class.now states.now parts.numbers.items parts.count) }
{
    structure.keeps();
    let signatures = signatures(alloc, structure, edges, class, states)?;
    numbered(alloc, signatures)
}

// the signature of each of the states
fn signatures(
    alloc: Global,
    structure: &Structure,
    edges: &Edges,
    class: &[usize],
    states: &[u32],
) -> Result<Vec<Signature>, NoMemory>
    requires edges { AreEdges structure.now edges.now }
    requires each_state { length class.now ≡ structure.now.states }
    requires in_range { All (λ s. s < structure.now.states) states.now }
    ensures { IfOk result (λ ks. AreSignatures structure.now.edges edges.now.actions.items class.now states.now ks.items) }
{
    let mut signatures = Vec::with_capacity(alloc, states.len())?;
    let mut steps = Vec::new(alloc);
    for state in states {
        gather(structure, edges, class, *state, &mut steps)?;
        signatures.push(Signature {
            class: class[*state as usize],
            steps: Vec::from_slice(alloc, &steps)?,
        })?;
    }
    Ok(signatures)
}

// the steps of a state, in strictly ascending order
fn gather(
    structure: &Structure,
    edges: &Edges,
    class: &[usize],
    state: u32,
    steps: &mut Vec<Step>,
) -> Result<(), NoMemory>
    requires edges { AreEdges structure.now edges.now }
    requires each_state { length class.now ≡ structure.now.states }
    requires in_range { state < structure.now.states }
    ensures { OnOk result (AreSteps structure.now.edges edges.now.actions.items class.now state steps.new.items) }
{
    structure.keeps();
    steps.clear();
    let mut rest = edges.leaving.last[state as usize];
    while rest > 0 {
        let place = rest - 1;
        let step = Step {
            action: edges.actions[place],
            class: class[structure.edge_at(place).target as usize],
        };
        steps.push(step)?;
        rest = edges.leaving.before[place];
    }
    ascend(steps);
    Ok(())
}
