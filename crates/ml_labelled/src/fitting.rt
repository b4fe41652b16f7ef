// Whether edges that were found are those of an automaton.
ghost use Rattle.std.specs.Prelude.{◌≡◌, ◌<◌, ◌∷◌, true, length, map, ℕ};
ghost use Rattle.ml_lists.specs.Ascending.{IsAscending};
ghost use Rattle.ml_lists.specs.Member.{IsMember};
ghost use Rattle.ml_labelled.specs.Labelled.{Edge, IsEdge};
ghost use Rattle.ml_labelled.specs.private.Fitting.{AllFit, AreEdges, prop_of};
ghost use Rattle.ml_labelled.specs.declared.labelled.Literal.{Literal};
ghost use Rattle.ml_labelled.specs.private.Views.{edge_of, rows_of};

use crate::labelled::{CubeEdge, Literal};

// do the propositions ascend, behind this one?
fn ascends_behind(prop: u32, cube: &[Literal]) -> bool
    ensures { result ≡ true → IsAscending (prop ∷ map prop_of cube.now) }
{
    match cube.split_first() {
        None => true,
        Some((first, rest)) => {
            if first.prop <= prop {
                return false;
            }
            ascends_behind(first.prop, rest)
        }
    }
}

fn ascends(cube: &[Literal]) -> bool
    ensures { result ≡ true → IsAscending (map prop_of cube.now) }
{
    match cube.split_first() {
        None => true,
        Some((first, rest)) => ascends_behind(first.prop, rest),
    }
}

// are there more propositions than the cube names?
fn is_below(props: usize, cube: &[Literal]) -> bool
    ensures { result ≡ true → (l : Literal) → IsMember l cube.now → l.prop < props }
{
    for literal in cube {
        if literal.prop as usize >= props {
            return false;
        }
    }
    true
}

fn is_edge(states: usize, props: usize, edge: &CubeEdge) -> bool
    ensures { result ≡ true → IsEdge states props (edge_of edge.now) }
{
    if edge.to as usize >= states {
        return false;
    }
    if !is_below(props, &edge.cube) {
        return false;
    }
    ascends(&edge.cube)
}

fn row_fits(states: usize, props: usize, row: &[CubeEdge]) -> bool
    ensures { result ≡ true → (e : Edge) → IsMember e (map edge_of row.now) → IsEdge states props e }
{
    for edge in row {
        if !is_edge(states, props, edge) {
            return false;
        }
    }
    true
}

// Do all edges lead to states, under cubes of so many propositions? The cost is linear in the literals.
fn rows_fit(props: usize, rows: &[Vec<CubeEdge>]) -> bool
    ensures { result ≡ true → AllFit props (rows_of rows.now) }
{
    for row in rows {
        if !row_fits(rows.len(), props, row) {
            return false;
        }
    }
    true
}

// how many states there may be
const MOST_STATES: usize = 65_536;

// Are these the edges of an automaton with so many propositions?
pub(crate) fn are_edges(props: usize, rows: &[Vec<CubeEdge>]) -> bool
    ensures { result ≡ true → AreEdges props (rows_of rows.now) }
{
    if rows.len() == 0 {
        return false;
    }
    if rows.len() > MOST_STATES {
        return false;
    }
    rows_fit(props, rows)
}
