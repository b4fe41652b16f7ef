// Where the edges by `_` of the states of a structure lead.
ghost use Rattle.std.specs.Prelude.{◌≡◌, ◌<◌, length, not, codes, IfOk};
ghost use Rattle.std.specs.List.{position};
ghost use Rattle.ml_word_check.specs.private.Steps.{AllTell, is_only, with_edge};
ghost use Rattle.ml_word_check.specs.private.Steps as spec;

use ml_base::{Action, Edge, NoMemory};
use ml_kripke::Structure;
use std::alloc::Global;

/// Where the edges by `_` of a state lead.
#[derive(Clone, Copy, PartialEq, Eq)]
pub(crate) enum Steps {
    /// There is none.
    Nowhere,
    /// To this state alone.
    Only(u32),
    /// To more than one state.
    Apart,
}

// with an edge to this state more
fn with_target(steps: Steps, target: u32) -> Steps
    ensures { result ≡ spec.with_target steps target }
{
    match steps {
        Steps::Nowhere => Steps::Only(target),
        Steps::Only(only) => {
            if only == target {
                Steps::Only(only)
            } else {
                Steps::Apart
            }
        }
        Steps::Apart => Steps::Apart,
    }
}

// with this edge more
fn add(rows: &mut Vec<Steps>, edge: &Edge, blank: &Action)
    requires inside { edge.now.source < length rows.old.items }
    requires blank { blank.now ≡ codes "_" }
    ensures { rows.new.items ≡ with_edge rows.old.items edge.now }
{
    if edge.action == *blank {
        let row = edge.source as usize;
        rows[row] = with_target(rows[row], edge.target);
    }
}

/// Where the edges by `_` of each state lead.
///
/// # Errors
/// `NoMemory` alone.
///
/// Cost: linear in the states and edges.
pub(crate) fn steps_of(alloc: Global, structure: &Structure) -> Result<Vec<Steps>, NoMemory>
    ensures { IfOk result (λ rows. AllTell structure.now.states structure.now.edges rows.items) }
{
    let states = structure.states();
    let blank = Action::blank(alloc)?;
    let mut rows = vec![in alloc; Steps::Nowhere; states as usize]?;
    for i in 0..structure.edge_count() {
        add(&mut rows, structure.edge_at(i), &blank);
    }
    Ok(rows)
}

/// The first state from which not exactly one edge by `_` leads, if there is one.
///
/// Cost: linear in the states.
pub(crate) fn first_fork(rows: &[Steps]) -> Option<usize>
    ensures { result ≡ position (λ x. not (is_only x)) rows.now }
{
    rows.iter().position(|steps| !is_only(*steps))
}

fn is_only(steps: Steps) -> bool
    ensures { result ≡ is_only steps }
{
    matches!(steps, Steps::Only(_))
}
