// Words as structures.
ghost use Rattle.std.specs.Prelude.{◌≡◌, ◌<◌, ◌++◌, ◌^◌, None, suc, cond, ltb, length, All, IfOk, OnOk};
ghost use Rattle.ml_kripke.specs.Built as given;
ghost use Rattle.ml_kripke.specs.Built.{IsBuiltFrom, first_bad_state};
ghost use Rattle.ml_paths.specs.Runs.{IsRunOf, word_along, word_at};
ghost use Rattle.ml_paths.specs.private.Built.{letter_of, pairs_at, pairs_of, round_edges};

use crate::found::Path;
use ml_base::{Action, Edge, Name, NoMemory};
use ml_kripke::{Structure, StructureRefusal};
use std::alloc::Global;

// the place behind a place
fn next(places: u32, loop_start: u32, place: u32) -> u32
    requires { place < places }
    ensures { result ≡ cond (ltb (suc place) places) (suc place) loop_start }
{
    if place + 1 < places {
        place + 1
    } else {
        loop_start
    }
}

// the edges from place to place
fn edges_of(alloc: Global, places: u32, loop_start: u32) -> Result<Vec<Edge>, NoMemory>
    ensures { IfOk result (λ edges. edges.items ≡ round_edges places loop_start) }
{
    let blank = Action::blank(alloc)?;
    let mut edges = Vec::with_capacity(alloc, places as usize)?;
    for place in 0..places {
        edges.push(Edge {
            source: place,
            action: blank.copy()?,
            target: next(places, loop_start, place),
        })?;
    }
    Ok(edges)
}

// the structure of labels and edges that name its states alone
fn built(
    alloc: Global,
    states: u32,
    labels: Vec<(u32, Name)>,
    edges: Vec<Edge>,
) -> Result<Structure, NoMemory>
    requires some { 0 < states }
    requires inside { first_bad_state states labels.items edges.items ≡ None }
    ensures built { IfOk result (IsBuiltFrom states labels.items edges.items) }
{
    match Structure::build(alloc, states, labels, edges) {
        Ok(structure) => Ok(structure),
        Err(StructureRefusal::NoMemory) => Err(NoMemory),
        Err(StructureRefusal::NoStates) => unreachable!(),
        Err(StructureRefusal::StateOutOfRange(_)) => unreachable!(),
    }
}

/// The structure of a word: a state for each place, in order, with the labels that are given for it, and with an edge by `_` to
/// the next place, from the last one to the loop start.
///
/// The labels are those of places, in any order.
///
/// # Errors
/// `NoMemory` alone.
///
/// Cost: linear in the places, and `n log n` in the labels.
pub fn run_of(
    alloc: Global,
    places: u32,
    loop_start: u32,
    labels: Vec<(u32, Name)>,
) -> Result<Structure, NoMemory>
    requires loops { loop_start < places }
    requires inside { All (λ label. label.0 < places) labels.items }
    ensures { IfOk result (IsRunOf (word_at (given.labels_at labels.items) places loop_start)) }
{
    let edges = edges_of(alloc, places, loop_start)?;
    let structure = built(alloc, places, labels, edges)?;
    Ok(structure)
}

// the labels of a place, behind those of the places before it
fn add_labels(labels: &mut Vec<(u32, Name)>, place: u32, names: &[Name]) -> Result<(), NoMemory>
    ensures { OnOk result (labels.new.items ≡ labels.old.items ++ pairs_at place names.now) }
{
    for name in names {
        labels.push((place, name.copy()?))?;
    }
    Ok(())
}

// the labels of the states, each at its place
fn labels_along(
    alloc: Global,
    structure: &Structure,
    states: &[u32],
) -> Result<Vec<(u32, Name)>, NoMemory>
    requires few { length states.now < 2 ^ 32 }
    requires states { All (λ s. s < structure.now.states) states.now }
    ensures { IfOk result (λ labels. labels.items ≡ pairs_of (letter_of structure.now states.now) (length states.now)) }
{
    let mut labels = Vec::new(alloc);
    for (place, state) in states.iter().enumerate() {
        add_labels(&mut labels, place as u32, structure.labels_of(*state))?;
    }
    Ok(labels)
}

/// The structure of the word of the labels along a path.
///
/// The path is one of states of the structure.
///
/// # Errors
/// `NoMemory` alone.
///
/// Cost: as that of `run_of`.
pub fn run_along(alloc: Global, structure: &Structure, path: &Path) -> Result<Structure, NoMemory>
    requires loops { path.now.start < length path.now.entries }
    requires states { All (λ s. s < structure.now.states) path.now.entries }
    ensures { IfOk result (IsRunOf (word_along structure.now path.now)) }
{
    let states = path.states();
    // a path of more places than a number counts is want of memory
    let Ok(places) = u32::try_from(states.len()) else {
        return Err(NoMemory);
    };
    let labels = labels_along(alloc, structure, states)?;
    let structure = run_of(alloc, places, path.loop_start() as u32, labels)?;
    Ok(structure)
}
