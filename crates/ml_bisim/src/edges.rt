// The edges of a structure by numbers: of each the number of its action, and which edges leave a state and which enter it.
ghost use Rattle.std.specs.Prelude.{◌≡◌, map, IfOk};
ghost use Rattle.std.specs.Str.{bytes_eq};
ghost use Rattle.ml_bisim.specs.private.Numbers.{AreNumbers};
ghost use Rattle.ml_bisim.specs.private.Signatures.{AreEdges};

use crate::numbering::{Numbering, numbered};
use crate::places::Places;
use ml_base::NoMemory;
use ml_kripke::Structure;
use std::alloc::Global;

/// The edges of a structure, by their places in its list.
#[derive(Drop)]
pub(crate) struct Edges {
    /// The number of the action of each edge.
    pub actions: Vec<usize>,
    /// The edges that leave a state.
    pub leaving: Places,
    /// The edges that enter a state.
    pub entering: Places,
}

/// The edges of a structure.
///
/// # Errors
/// `NoMemory` alone.
///
/// Cost: linear in the states and the edges, on average.
pub(crate) fn edges_of(alloc: Global, structure: &Structure) -> Result<Edges, NoMemory>
    ensures { IfOk result (AreEdges structure.now) }
{
    let states = structure.states();
    let actions = actions(alloc, structure)?;
    let leaving = Places::of(alloc, &sources(alloc, structure)?, states)?;
    let entering = Places::of(alloc, &targets(alloc, structure)?, states)?;
    Ok(Edges {
        actions: actions.numbers,
        leaving,
        entering,
    })
}

// the actions of the edges, numbered
fn actions(alloc: Global, structure: &Structure) -> Result<Numbering, NoMemory>
    ensures { IfOk result (λ n. AreNumbers bytes_eq (map (λ e. e.action) structure.now.edges) n.numbers.items n.count) }
{
    let mut actions = Vec::with_capacity(alloc, structure.edge_count())?;
    for edge in structure.edges() {
        actions.push(edge.action.copy()?)?;
    }
    numbered(alloc, actions)
}

// the states that the edges leave
fn sources(alloc: Global, structure: &Structure) -> Result<Vec<u32>, NoMemory>
    ensures { IfOk result (λ sources. sources.items ≡ map (λ e. e.source) structure.now.edges) }
{
    let mut sources = Vec::with_capacity(alloc, structure.edge_count())?;
    for edge in structure.edges() {
        sources.push(edge.source)?;
    }
    Ok(sources)
}

// the states that they enter
fn targets(alloc: Global, structure: &Structure) -> Result<Vec<u32>, NoMemory>
    ensures { IfOk result (λ targets. targets.items ≡ map (λ e. e.target) structure.now.edges) }
{
    let mut targets = Vec::with_capacity(alloc, structure.edge_count())?;
    for edge in structure.edges() {
        targets.push(edge.target)?;
    }
    Ok(targets)
}
