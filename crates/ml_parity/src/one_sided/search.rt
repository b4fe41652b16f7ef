// The search for heights: the longest walks, or an even cycle.

ghost use Rattle.std.specs.Prelude.{◌≡◌, ◌↔◌, ◌%◌, ℕ, [], ◌∷◌, Contains, IfOk, IsErr, IsOk, MatchOption, MatchResult, OnOk, get_or, length};
ghost use Rattle.ml_parity.specs.OneSided.{AreHeights, AreLongest, AtMost, EvenCycleIn, IsEvenCycle, count_at};
ghost use Rattle.ml_parity.specs.private.HeightSteps.{AreAttained, IsAppended, IsColumn, IsPass, LoopAt, RaisesAlong};
ghost use Rattle.ml_parity.specs.Refusal.{lists_of};

use crate::one_sided::answer::{EvenCycle, Heights};
use crate::one_sided::cycles::{cycle_at, guessed_cycle};
use crate::one_sided::graph::{Arc, OneSided};
use crate::one_sided::order::{Ends, arcs_by_ends, order_of};
use ml_base::NoMemory;
use std::alloc::Global;

/// What a pass over arcs did.
#[derive(Clone, Copy)]
enum Pass {
    /// No number was raised.
    Stays,
    /// Some number was raised.
    Raised,
    /// Some number would pass the number of vertices, so that there is a loop.
    TooHigh,
}

/// What an arc counts at a priority: one if it has this priority, and nothing otherwise.
fn weight(priority: u32, arc: Arc) -> u64
    ensures { result ≡ count_at priority (arc ∷ []) }
{
    if arc.priority == priority { 1 } else { 0 }
}

/// Raises the number of the vertex that an arc leaves, if it is too low.
fn raise(graph: &OneSided, priority: u32, arc: Arc, numbers: &mut [u64]) -> Pass
    requires member { Contains graph.now.arcs arc }
    requires numbers { AreAttained graph.now priority numbers.old }
    ensures attained { AreAttained graph.now priority numbers.new }
    ensures pass { RaisesAlong graph.now priority numbers.old numbers.new arc result }
{
    let size = graph.size;
    if arc.priority < priority {
        return Pass::Stays;
    }
    let least = weight(priority, arc) + numbers[arc.to as usize];
    if least <= numbers[arc.from as usize] {
        return Pass::Stays;
    }
    if least > size {
        return Pass::TooHigh;
    }
    numbers[arc.from as usize] = least;
    Pass::Raised
}

/// Raises numbers along arcs in this order.
fn raise_in_order(graph: &OneSided, priority: u32, order: &[usize], numbers: &mut [u64]) -> Pass
    requires { AreAttained graph.now priority numbers.old }
    ensures attained { AreAttained graph.now priority numbers.new }
    ensures pass { IsPass graph.now priority numbers.old numbers.new 0 result }
{
    let mut raised = false;
    for k in order {
        if *k < graph.arcs.len() {
            match raise(graph, priority, graph.arcs[*k], numbers) {
                Pass::Stays => {}
                Pass::Raised => raised = true,
                Pass::TooHigh => return Pass::TooHigh,
            }
        }
    }
    if raised { Pass::Raised } else { Pass::Stays }
}

/// Raises numbers along arcs in this order, and then along all arcs.
fn raise_all(graph: &OneSided, priority: u32, order: &[usize], numbers: &mut [u64]) -> Pass
    requires { AreAttained graph.now priority numbers.old }
    ensures attained { AreAttained graph.now priority numbers.new }
    ensures pass { IsPass graph.now priority numbers.old numbers.new (length graph.now.arcs) result }
{
    let mut raised = match raise_in_order(graph, priority, order, numbers) {
        Pass::Stays => false,
        Pass::Raised => true,
        Pass::TooHigh => return Pass::TooHigh,
    };
    for arc in &graph.arcs {
        match raise(graph, priority, *arc, numbers) {
            Pass::Stays => {}
            Pass::Raised => raised = true,
            Pass::TooHigh => return Pass::TooHigh,
        }
    }
    if raised { Pass::Raised } else { Pass::Stays }
}

/// For each vertex the largest number of arcs of this priority on a walk along arcs of at least it, or nothing where
/// there is a loop.
fn longest(
    alloc: Global,
    graph: &OneSided,
    priority: u32,
    order: &[usize],
) -> Result<Option<Vec<u64>>, NoMemory>
    ensures { IfOk result (λ o. MatchOption o (LoopAt graph.now priority) (λ v. IsColumn graph.now priority v.items)) }
{
    let mut numbers = vec![in alloc; 0; graph.size as usize]?;
    loop {
        match raise_all(graph, priority, order, &mut numbers) {
            Pass::Stays => return Ok(Some(numbers)),
            Pass::Raised => {}
            Pass::TooHigh => return Ok(None),
        }
    }
}

/// The largest numbers for an even priority, or an even cycle along arcs of at least it.
fn column_or_cycle(
    alloc: Global,
    graph: &OneSided,
    ends: &Ends,
    priority: u32,
) -> Result<Result<Vec<u64>, Vec<Arc>>, NoMemory>
    requires { priority % 2 ≡ 0 }
    ensures { IfOk result (λ r. MatchResult
        r
        (λ column. IsColumn graph.now priority column.items)
        (λ cycle. IsEvenCycle graph.now cycle.items)) }
{
    let order = order_of(alloc, graph, ends, priority)?;
    if let Some(cycle) = guessed_cycle(alloc, graph, priority, &order)? {
        return Ok(Err(cycle));
    }
    match longest(alloc, graph, priority, &order.arcs)? {
        Some(column) => Ok(Ok(column)),
        None => Ok(Err(cycle_at(alloc, graph, priority, &order.arcs)?)),
    }
}

/// Adds a number to each row, from the column.
fn append_column(rows: &mut [Vec<u64>], column: &[u64]) -> Result<(), NoMemory>
    requires { length column.now ≡ length rows.old }
    ensures { OnOk result (IsAppended (lists_of rows.old) column.now (length column.now) (lists_of rows.new)) }
{
    for v in 0..column.len() {
        rows[v].push(column[v])?;
    }
    Ok(())
}

/// A row without a number for each vertex.
fn empty_rows(alloc: Global, size: u64) -> Result<Vec<Vec<u64>>, NoMemory>
    ensures size { IfOk result (λ rows. length rows.items ≡ size) }
    ensures empty { IfOk result (λ rows. (v : ℕ) → get_or (lists_of rows.items) v [] ≡ []) }
{
    let mut rows = Vec::new(alloc);
    for _ in 0..size {
        rows.push(Vec::new(alloc))?;
    }
    Ok(rows)
}

/// Heights of a graph, or a cycle whose lowest priority is even.
///
/// The height of a vertex for an even priority is the largest number of arcs of that priority on a walk from the vertex
/// along arcs of at least that priority. There is a largest one exactly where no cycle has an even lowest priority; where
/// one has, the answer is such a cycle. A height is at most the number of vertices.
///
/// # Errors
/// `NoMemory` alone.
///
/// Cost: for each even priority one walk depth first, and passes over the arcs until none raises a number. The order in
/// which arcs are tried is made so that two passes do; no clause says that. No recursion. Source: the method of Bellman and
/// Ford, for longest walks.
pub fn heights(alloc: Global, graph: &OneSided) -> Result<Result<Heights, EvenCycle>, NoMemory>
    ensures answer { IfOk result (λ r. MatchResult r (AreLongest graph.now) (IsEvenCycle graph.now)) }
    ensures heights { IfOk result (λ r. IfOk r (AreHeights graph.now)) }
    ensures low { IfOk result (λ r. IfOk r (AtMost graph.now.size)) }
    ensures where_no_cycle { IfOk result (λ r. IsOk r ↔ ¬ (EvenCycleIn graph.now)) }
    ensures where_a_cycle { IfOk result (λ r. IsErr r ↔ EvenCycleIn graph.now) }
{
    let mut rows = empty_rows(alloc, graph.size)?;
    let ends = arcs_by_ends(alloc, graph)?;
    for half in 0..graph.top / 2 + 1 {
        match column_or_cycle(alloc, graph, &ends, 2 * half)? {
            Ok(column) => append_column(&mut rows, &column)?,
            Err(arcs) => return Ok(Err(EvenCycle { arcs })),
        }
    }
    Ok(Ok(Heights { rows }))
}
