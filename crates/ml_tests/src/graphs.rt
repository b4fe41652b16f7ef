// One-sided graphs.
ghost use Rattle.std.specs.Prelude.{◌≡◌, ◌+◌, ◌<◌, ◌≤◌, ◌^◌, IfOk};
ghost use Rattle.ml_parity.specs.HeightLists.{graph_of};

use crate::not_made::NotMade;
use crate::numbers::Numbers;
use ml_parity::{Arc, OneSided};
use std::alloc::Global;

// The graph of these arcs, if they are those of one.
pub(crate) fn checked(size: u64, top: u32, arcs: Vec<Arc>) -> Result<OneSided, NotMade>
    ensures { IfOk result (λ g. g ≡ graph_of size top arcs) }
{
    let are_in = arcs.iter().all(|arc| arc.priority <= top && arc.from < size && arc.to < size);
    if top % 2 == 0 && are_in {
        Ok(OneSided::build(size, top, arcs))
    } else {
        Err(NotMade::TooLarge)
    }
}

/// A chain of so many arcs of the priority 0, from each vertex to the next: the height of the vertex v is the number of
/// arcs less v.
///
/// # Errors
/// `NoMemory`, and `TooLarge` for 2^64 - 1 arcs.
///
/// Linear in the graph.
pub fn chain(alloc: Global, arcs: u64) -> Result<OneSided, NotMade>
    ensures { IfOk result (λ g. g.size ≡ arcs + 1) }
{
    if arcs == u64::MAX {
        return Err(NotMade::TooLarge);
    }
    let mut all = Vec::new(alloc);
    for v in 0..arcs {
        all.push(Arc {
            from: v,
            priority: 0,
            to: v + 1,
        })?;
    }
    checked(arcs + 1, 0, all)
}

/// A graph without a cycle of even lowest priority: so many vertices, so many random arcs, and so many even priorities.
///
/// The vertices stand in blocks, one behind the other, one less than there are even priorities. Within block b, arcs
/// that lead on have an even priority above 2 * b, and arcs that lead back have the priority 2 * b + 1, which is the
/// lowest of each cycle there; arcs that leave a block lead to later ones, and have any even priority.
///
/// # Errors
/// `NoMemory`, and `TooLarge` for more than 2^30 even priorities.
///
/// Linear in the graph.
pub fn random_blocks(
    alloc: Global,
    numbers: &mut Numbers,
    vertices: u64,
    arcs: u64,
    evens: u32,
) -> Result<OneSided, NotMade>
    requires vertices { 0 < vertices }
    requires evens { 1 < evens }
    ensures { IfOk result (λ g. g.size ≡ vertices) }
{
    if evens > 1 << 30 {
        return Err(NotMade::TooLarge);
    }
    let mut all = Vec::new(alloc);
    for _ in 0..arcs {
        let first = numbers.below(vertices);
        let second = numbers.below(vertices);
        all.push(block_arc(numbers, first, second, vertices, evens))?;
    }
    checked(vertices, 2 * (evens - 1), all)
}

/// The block in which a vertex stands, out of so many.
fn block_of(vertex: u64, vertices: u64, blocks: u32) -> u32
    requires { 0 < blocks }
    ensures { result < blocks }
{
    let share = (vertices / blocks as u64).saturating_add(1);
    ((vertex / share) % blocks as u64) as u32
}

/// An arc between two vertices, one way or the other.
fn block_arc(numbers: &mut Numbers, first: u64, second: u64, vertices: u64, evens: u32) -> Arc
    requires some { 1 < evens }
    requires few { evens ≤ 2 ^ 30 }
{
    let block = block_of(first, vertices, evens - 1);
    if block != block_of(second, vertices, evens - 1) {
        return Arc {
            from: first.min(second),
            priority: 2 * numbers.below(evens as u64) as u32,
            to: first.max(second),
        };
    }
    if first < second {
        let above = numbers.below((evens - 1 - block) as u64) as u32;
        return Arc {
            from: first,
            priority: 2 * (block + 1 + above),
            to: second,
        };
    }
    Arc {
        from: first,
        priority: 2 * block + 1,
        to: second,
    }
}

/// A graph in which each number has a long way round: so many vertices in a row, joined in both ways by arcs of one odd
/// priority, the last of them first; one vertex more, to which an arc of each lower even priority leads from the first
/// vertex. There are so many even priorities.
///
/// # Errors
/// `NoMemory`, and `TooLarge` for 2^64 - 1 vertices or more than 2^30 even priorities.
///
/// Linear in the graph.
pub fn slow_row(
    alloc: Global,
    vertices: u64,
    evens: u32,
    has_cycle: bool,
) -> Result<OneSided, NotMade>
    requires { 1 < evens }
    ensures { IfOk result (λ g. g.size ≡ vertices + 1) }
{
    if vertices == u64::MAX || evens > 1 << 30 {
        return Err(NotMade::TooLarge);
    }
    let priority = 2 * evens - 3;
    let mut all = Vec::new(alloc);
    if has_cycle && vertices > 0 {
        all.push(Arc {
            from: 0,
            priority: 0,
            to: vertices - 1,
        })?;
    }
    for k in 1..vertices {
        let v = vertices - k;
        all.push(Arc {
            from: v,
            priority,
            to: v - 1,
        })?;
        all.push(Arc {
            from: v - 1,
            priority,
            to: v,
        })?;
    }
    for half in 0..evens - 1 {
        all.push(Arc {
            from: 0,
            priority: 2 * half,
            to: vertices,
        })?;
    }
    checked(vertices + 1, 2 * (evens - 1), all)
}
