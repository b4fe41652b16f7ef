// The model of Even's moves, put together.
ghost use Rattle.std.specs.Prelude.{◌≡◌, ◌<◌, None, IfOk};
ghost use Rattle.ml_base.specs.Structure.{IsStructure};
ghost use Rattle.ml_kripke.specs.Ordered.{IsOrdered};
ghost use Rattle.ml_kripke.specs.Built.{IsBuiltFrom, first_bad_state};
ghost use Rattle.ml_extract.specs.Model.{IsModelOf};
ghost use Rattle.ml_extract.specs.Extraction.{EvenWins, Extracted};

use crate::parts::Parts;
use crate::states::States;
use crate::won_game::WonGame;
use ml_base::NoMemory;
use ml_graph::ModalGraph;
use ml_kripke::{Model, Structure, StructureRefusal};
use ml_parity::Solution;
use ml_product::Arena;
use std::alloc::Global;

/// The model that Even's moves make, where Even wins the decision game of a graph: a structure and a state at which the
/// graph holds.
///
/// `arena` is the decision game of `graph`, and `solution` one of the arena's game, in which Even wins the first position.
/// The states begin at the first position and at those to which diamonds of states lead, and are numbered breadth first.
/// From where a state begins Even's moves choose sides until no or-node is open. The state has the propositions whose
/// positive literals are in the spread that they end with, and for each diamond of it an edge with its action to the state
/// that begins where the diamond leads. Nothing stands there twice.
///
/// # Errors
/// `NoMemory` alone.
///
/// Cost: for each position to which Even's moves come, linear in its moves; for each state that of its spread, which is
/// made once; and `n log n` in the labels and edges.
pub fn model_of(
    alloc: Global,
    graph: &ModalGraph,
    arena: &Arena,
    solution: &Solution,
) -> Result<Model, NoMemory>
    requires { EvenWins graph.now arena.now solution.now }
    ensures is { IfOk result (λ model. IsModelOf graph.now arena.now solution.now model.structure model.start) }
    ensures holds { IfOk result (λ model. Extracted graph.now model.structure model.start) }
{
    let game = WonGame {
        graph,
        arena,
        solution,
    };
    let states = States::of(alloc, &game)?;
    let parts = Parts::of(alloc, &game, &states)?;
    let _size = arena.size();
    let structure = structure_of(alloc, states.lasts.len() as u32, parts)?;
    Ok(Model::new(structure, 0))
}

/// The structure of the labels and the edges of so many states.
fn structure_of(alloc: Global, count: u32, parts: Parts) -> Result<Structure, NoMemory>
    requires some { 0 < count }
    requires in_range { first_bad_state count parts.labels.items parts.edges.items ≡ None }
    ensures built { IfOk result (IsBuiltFrom count parts.labels.items parts.edges.items) }
    ensures is_structure { IfOk result IsStructure }
    ensures is_ordered { IfOk result IsOrdered }
{
    match Structure::build(alloc, count, parts.labels, parts.edges) {
        Ok(structure) => Ok(structure),
        Err(StructureRefusal::NoMemory) => Err(NoMemory),
        Err(StructureRefusal::NoStates) => unreachable!(),
        Err(StructureRefusal::StateOutOfRange(_)) => unreachable!(),
    }
}
