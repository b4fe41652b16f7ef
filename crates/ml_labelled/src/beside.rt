// An automaton beside other edges that may be those of a smaller one.
ghost use Rattle.std.specs.Prelude.{◌≡◌, ◌≤◌, length, IfOk};
ghost use Rattle.ml_labelled.specs.Labelled.{AcceptSame, AreReached, IsLabelled};

use crate::fitting::are_edges;
use crate::following::Ranks;
use crate::labelled::{CubeEdge, LabelledAutomaton};
use crate::ranking::ranks_of;
use crate::reaching::reached_part;
use crate::reducing::{by_targets, reduced};
use crate::replacing::replaced;
use ml_base::{Name, NoMemory};
use std::alloc::Global;

// Edges of another automaton, with ranks at which it follows one, and is followed.
#[derive(Drop)]
struct Beside {
    rows: Vec<Vec<CubeEdge>>,
    there: Ranks,
    back: Ranks,
}

fn copied(alloc: Global, props: &[Name]) -> Result<Vec<Name>, NoMemory>
    ensures { IfOk result (λ names. names.items ≡ props.now) }
{
    let mut names = Vec::with_capacity(alloc, props.len())?;
    for name in props {
        names.push(name.copy()?)?;
    }
    Ok(names)
}

// the automaton with the propositions of another one and these edges, if they are such
fn with_rows(
    alloc: Global,
    automaton: &LabelledAutomaton,
    rows: Vec<Vec<CubeEdge>>,
) -> Result<Option<LabelledAutomaton>, NoMemory> {
    let _edges = automaton.edges();
    let names = copied(alloc, automaton.props())?;
    if !are_edges(names.len(), &rows) {
        return Ok(None);
    }
    Ok(Some(LabelledAutomaton::new(names, rows)))
}

// the highest rank that is looked for
const MOST_RANK: u32 = 64;

// the ranks at which the two automata follow each other
fn ranked(
    alloc: Global,
    automaton: &LabelledAutomaton,
    rows: Vec<Vec<CubeEdge>>,
    comparisons: u64,
) -> Result<Option<Beside>, NoMemory> {
    let old = automaton.edges();
    match ranks_of(alloc, old, &rows, MOST_RANK, comparisons)? {
        Some(there) => match ranks_of(alloc, &rows, old, MOST_RANK, comparisons)? {
            Some(back) => Ok(Some(Beside { rows, there, back })),
            None => Ok(None),
        },
        None => Ok(None),
    }
}

// the other edges, made few, if their states are fewer
fn smaller_beside(
    alloc: Global,
    automaton: &LabelledAutomaton,
    rows: Vec<Vec<CubeEdge>>,
    limit: u32,
) -> Result<Option<Beside>, NoMemory> {
    match with_rows(alloc, automaton, rows)? {
        Some(other) => {
            let small = reduced(alloc, other, limit)?;
            if small.edges().len() >= automaton.edges().len() {
                return Ok(None);
            }
            let (_, rows) = small.into_parts();
            ranked(alloc, automaton, rows, by_targets(limit))
        }
        None => Ok(None),
    }
}

/// An automaton that accepts the same words as this one, each state reached, made small as `reduced` does; or the automaton
/// with the other edges in place of its own, made small too, if it has fewer states then, and is seen to accept the same.
///
/// Nothing is asked of the other edges: they may be none, and accept whatever they do. It is seen that the two automata accept
/// the same by ranks at which they simulate each other fairly, if `limit` allows to find them.
///
/// # Errors
/// `NoMemory` alone.
///
/// Cost: that of `reduced`, for both, and comparisons of edges: to find the ranks, which is given up behind two hundred
/// times `limit` of them, and to see that they are right.
///
/// Source: Etessami, Wilke and Schuller (2005).
pub fn reduced_beside(
    alloc: Global,
    automaton: LabelledAutomaton,
    rows: Vec<Vec<CubeEdge>>,
    limit: u32,
) -> Result<LabelledAutomaton, NoMemory>
    ensures labelled { IfOk result IsLabelled }
    ensures same { IfOk result (λ b. AcceptSame automaton b) }
    ensures props { IfOk result (λ b. b.props ≡ automaton.props) }
    ensures reached { IfOk result AreReached }
    ensures few { IfOk result (λ b. length b.edges ≤ length automaton.edges) }
{
    let small = reduced(alloc, automaton, limit)?;
    match smaller_beside(alloc, &small, rows, limit)? {
        Some(found) => {
            let Beside { rows, there, back } = found;
            let other = replaced(small, rows, &there, &back);
            reached_part(alloc, other)
        }
        None => Ok(small),
    }
}
