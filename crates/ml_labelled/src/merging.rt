// States with the same edges, which become one.
ghost use Rattle.std.specs.Prelude.{◌≡◌, ◌<◌, ◌^◌, true, map, length, IfOk};
ghost use Rattle.ml_labelled.specs.Labelled.{AcceptSame};
ghost use Rattle.ml_labelled.specs.private.Merging.{AreAlike, IsAlike};
ghost use Rattle.ml_labelled.specs.private.Views.{edge_of, rows_of};

use crate::labelled::{CubeEdge, LabelledAutomaton};
use crate::reaching::retarget_all;
use indexmap::IndexSet;
use ml_base::NoMemory;
use std::alloc::Global;

// are the edges one?
fn is_same(edge: &CubeEdge, other: &CubeEdge) -> bool
    ensures { result ≡ true → edge_of edge.now ≡ edge_of other.now }
{
    if edge.to != other.to {
        return false;
    }
    if edge.accepting != other.accepting {
        return false;
    }
    edge.cube == other.cube
}

// are the edges of two states the same, in the same order?
fn are_same(row: &[CubeEdge], other: &[CubeEdge]) -> bool
    ensures { result ≡ true → map edge_of row.now ≡ map edge_of other.now }
{
    if row.len() != other.len() {
        return false;
    }
    for (i, edge) in row.iter().enumerate() {
        if !is_same(edge, &other[i]) {
            return false;
        }
    }
    true
}

// one number made of two
fn mixed(sum: u64, n: u64) -> u64 {
    sum.wrapping_mul(0x9E37_79B9_7F4A_7C15)
        .wrapping_add(n)
        .wrapping_add(1)
}

// a number that the same edge gives with this flag, and others hardly ever: nothing rests on it
pub(crate) fn mark_of_edge(edge: &CubeEdge, accepting: bool) -> u64 {
    let mut sum = mixed(u64::from(edge.to), u64::from(accepting));
    for literal in &edge.cube {
        sum = mixed(sum, u64::from(literal.prop));
        sum = mixed(sum, u64::from(literal.positive));
    }
    sum
}

// so it is of the same edges
fn mark_of(row: &[CubeEdge]) -> u64 {
    let mut sum = 0u64;
    for edge in row {
        sum = mixed(sum, mark_of_edge(edge, edge.accepting));
    }
    sum
}

// the number of a mark among those that were met
fn number(marks: &mut IndexSet<u64>, mark: u64) -> Result<usize, NoMemory> {
    let (at, _) = marks.insert_full(mark)?;
    Ok(at)
}

// the first of two states, if they have the same edges, and else the second
fn first_of(rows: &[Vec<CubeEdge>], first: u32, p: usize) -> u32
    requires few { length rows.now < 2 ^ 32 }
    requires is_state { p < length rows.now }
    ensures { IsAlike (rows_of rows.now) p result }
{
    let at = first as usize;
    if at < rows.len() && are_same(&rows[at], &rows[p]) {
        first
    } else {
        p as u32
    }
}

// a state with the edges of the state p, whose mark has this number: the first one where it was met
fn alike_to(
    rows: &[Vec<CubeEdge>],
    firsts: &mut Vec<u32>,
    at: usize,
    p: usize,
) -> Result<u32, NoMemory>
    requires few { length rows.now < 2 ^ 32 }
    requires is_state { p < length rows.now }
    ensures { IfOk result (λ q. IsAlike (rows_of rows.now) p q) }
{
    if at < firsts.len() {
        return Ok(first_of(rows, firsts[at], p));
    }
    firsts.push(p as u32)?;
    Ok(first_of(rows, p as u32, p))
}

// of each state one with the same edges
fn alike(alloc: Global, rows: &[Vec<CubeEdge>]) -> Result<Vec<u32>, NoMemory>
    requires { length rows.now < 2 ^ 32 }
    ensures { IfOk result (λ targets. AreAlike (length rows.now) (rows_of rows.now) targets.items) }
{
    let mut marks = IndexSet::new(alloc);
    let mut firsts = Vec::new(alloc);
    let mut targets = Vec::with_capacity(alloc, rows.len())?;
    for (p, row) in rows.iter().enumerate() {
        let at = number(&mut marks, mark_of(row))?;
        targets.push(alike_to(rows, &mut firsts, at, p)?)?;
    }
    Ok(targets)
}

// each edge leads to one of the states with the edges of its target
pub(crate) fn merged(
    alloc: Global,
    automaton: LabelledAutomaton,
) -> Result<LabelledAutomaton, NoMemory>
    ensures same { IfOk result (λ b. AcceptSame automaton b) }
    ensures props { IfOk result (λ b. b.props ≡ automaton.props) }
    ensures as_many { IfOk result (λ b. length b.edges ≡ length automaton.edges) }
{
    let targets = alike(alloc, automaton.edges())?;
    let (props, mut edges) = automaton.into_parts();
    retarget_all(&mut edges, &targets);
    Ok(LabelledAutomaton::new(props, edges))
}
