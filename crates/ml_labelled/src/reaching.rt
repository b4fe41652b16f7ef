// The part of an automaton that is reached.
ghost use Rattle.std.specs.Prelude.{◌≡◌, ◌<◌, ◌≤◌, ◌^◌, [], ◌∷◌, map, length, IfOk, OnOk, ℕ};
ghost use Rattle.ml_lists.specs.Member.{IsMember};
ghost use Rattle.ml_labelled.specs.Labelled.{AcceptSame, AreReached, Edge, IsLabelled};
ghost use Rattle.ml_labelled.specs.private.Reaching.{AreMarked, AreRanks, IsKept, IsSpread, retargeted, targets, TargetsFit};
ghost use Rattle.ml_labelled.specs.private.Views.{edge_of, rows_of};

use crate::labelled::{CubeEdge, LabelledAutomaton};
use ml_base::NoMemory;
use std::alloc::Global;

// marks a number, which then waits, unless it was marked
fn visit(marks: &mut Vec<bool>, waiting: &mut Vec<u32>, n: u32) -> Result<(), NoMemory>
    requires { n < length marks.old.items }
    ensures { OnOk result (IsSpread (n ∷ []) marks.old.items waiting.old.items marks.new.items waiting.new.items) }
{
    if !marks[n as usize] {
        marks[n as usize] = true;
        waiting.push(n)?;
    }
    Ok(())
}

// so for each number to which an edge leads
fn visit_all(
    marks: &mut Vec<bool>,
    waiting: &mut Vec<u32>,
    edges: &[CubeEdge],
) -> Result<(), NoMemory>
    requires { (n : ℕ) → IsMember n (targets edges.now) → n < length marks.old.items }
    ensures { OnOk result (IsSpread (targets edges.now) marks.old.items waiting.old.items marks.new.items waiting.new.items) }
{
    for edge in edges {
        visit(marks, waiting, edge.to)?;
    }
    Ok(())
}

// the marks of the states that are reached
fn reached_marks(alloc: Global, automaton: &LabelledAutomaton) -> Result<Vec<bool>, NoMemory>
    ensures { IfOk result (λ marks. AreMarked automaton.now marks.items) }
{
    let rows = automaton.edges();
    let mut marks = vec![in alloc; false; rows.len()]?;
    let mut waiting = Vec::new(alloc);
    visit(&mut marks, &mut waiting, 0)?;
    while let Some(p) = waiting.pop() {
        visit_all(&mut marks, &mut waiting, &rows[p as usize])?;
    }
    Ok(marks)
}

// of each number, how many below it are marked
fn ranks(alloc: Global, marks: &[bool]) -> Result<Vec<u32>, NoMemory>
    requires { length marks.now < 2 ^ 32 }
    ensures { IfOk result (λ numbers. AreRanks marks.now numbers.items) }
{
    let mut numbers = Vec::with_capacity(alloc, marks.len())?;
    let mut at = 0u32;
    for is_marked in marks {
        numbers.push(at)?;
        if *is_marked {
            at += 1;
        }
    }
    Ok(numbers)
}

// the edges lead to the numbers that their targets get
fn retarget(edges: &mut Vec<CubeEdge>, numbers: &[u32])
    requires { (e : Edge) → IsMember e (map edge_of edges.old.items) → e.to < length numbers.now }
    ensures { map edge_of edges.new.items ≡ map (retargeted numbers.now) (map edge_of edges.old.items) }
{
    for edge in edges.iter_mut() {
        edge.to = numbers[edge.to as usize];
    }
}

pub(crate) fn retarget_all(rows: &mut Vec<Vec<CubeEdge>>, numbers: &[u32])
    requires { TargetsFit (length numbers.now) (rows_of rows.old.items) }
    ensures { rows_of rows.new.items ≡ map (map (retargeted numbers.now)) (rows_of rows.old.items) }
{
    for row in rows.iter_mut() {
        retarget(row, numbers);
    }
}

// the rows with marks, in their order
fn keep_marked(rows: &mut Vec<Vec<CubeEdge>>, marks: &[bool])
    requires { length rows.old.items ≡ length marks.now }
    ensures { IsKept marks.now rows.old.items rows.new.items }
{
    let mut at = 0;
    for (p, is_marked) in marks.iter().enumerate() {
        if *is_marked {
            rows.swap(at, p);
            at += 1;
        }
    }
    rows.truncate(at);
}

/// The part of an automaton that is reached from its start, with its states in their order: it accepts the same words.
///
/// # Errors
/// `NoMemory` alone.
///
/// Cost: linear in the edges.
pub fn reached_part(
    alloc: Global,
    automaton: LabelledAutomaton,
) -> Result<LabelledAutomaton, NoMemory>
    ensures labelled { IfOk result IsLabelled }
    ensures same { IfOk result (λ b. AcceptSame automaton b) }
    ensures props { IfOk result (λ b. b.props ≡ automaton.props) }
    ensures reached { IfOk result AreReached }
    ensures few { IfOk result (λ b. length b.edges ≤ length automaton.edges) }
{
    let marks = reached_marks(alloc, &automaton)?;
    let numbers = ranks(alloc, &marks)?;
    let (props, mut edges) = automaton.into_parts();
    keep_marked(&mut edges, &marks);
    retarget_all(&mut edges, &numbers);
    Ok(LabelledAutomaton::new(props, edges))
}
