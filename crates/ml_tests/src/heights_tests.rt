// Small graphs worked out by hand: heights, and even cycles.
use crate::graphs::checked;
use ml_parity::{Arc, Heights, OneSided, heights, heights_ok};
use std::alloc::{AllocError, Global};
use std::test::Fail;

// An arc: where it begins, its priority, and where it ends.
type Row = (u64, u32, u64);

// The arcs of these rows.
fn arcs_of(alloc: Global, rows: &[Row]) -> Result<Vec<Arc>, AllocError> {
    let mut arcs = Vec::new(alloc);
    for (from, priority, to) in rows {
        arcs.push(Arc {
            from: *from,
            priority: *priority,
            to: *to,
        })?;
    }
    Ok(arcs)
}

// The numbers as heights.
fn heights_of_rows(alloc: Global, numbers: &[&[u64]]) -> Result<Heights, AllocError> {
    let mut rows = Vec::new(alloc);
    for row in numbers {
        rows.push(Vec::from_slice(alloc, row)?)?;
    }
    Ok(Heights { rows })
}

// What is found in a graph.
#[derive(Clone, Copy)]
enum Found {
    // these heights
    Heights(&'static [&'static [u64]]),
    // this even cycle
    Cycle(&'static [Row]),
}

// Are these heights found, which are heights of the graph?
fn are_found(
    alloc: Global,
    graph: &OneSided,
    found: &Heights,
    wanted: Found,
) -> Result<bool, AllocError> {
    let Found::Heights(rows) = wanted else {
        return Ok(false);
    };
    let rows = heights_of_rows(alloc, rows)?.rows;
    Ok(found.rows == rows && heights_ok(graph, found))
}

// Is this cycle found?
fn is_cycle(alloc: Global, found: &[Arc], wanted: Found) -> Result<bool, AllocError> {
    match wanted {
        Found::Heights(_) => Ok(false),
        Found::Cycle(arcs) => Ok(arcs_of(alloc, arcs)?.as_slice() == found),
    }
}

// Is this what is found in the graph?
fn is_found(alloc: Global, graph: &OneSided, wanted: Found) -> Result<bool, Fail> {
    match heights(alloc, graph)? {
        Ok(found) => Ok(are_found(alloc, graph, &found, wanted)?),
        Err(found) => Ok(is_cycle(alloc, &found.arcs, wanted)?),
    }
}

// The size of a graph, its top and its arcs, and what is found in it.
type Worked = (u64, u32, &'static [Row], Found);

// The place of the first graph in which another thing is found.
fn first_wrong(alloc: Global, rows: &[Worked]) -> Result<Option<usize>, Fail> {
    for (place, (size, top, arcs, wanted)) in rows.iter().enumerate() {
        let graph = checked(*size, *top, arcs_of(alloc, arcs)?)?;
        if !is_found(alloc, &graph, *wanted)? {
            return Ok(Some(place));
        }
    }
    Ok(None)
}

const SMALL: [Worked; 9] = [
    // no vertex
    (0, 0, &[], Found::Heights(&[])),
    // loops of one priority
    (1, 2, &[(0, 0, 0)], Found::Cycle(&[(0, 0, 0)])),
    (1, 2, &[(0, 1, 0)], Found::Heights(&[&[0, 0]])),
    (1, 2, &[(0, 2, 0)], Found::Cycle(&[(0, 2, 0)])),
    // an arc of another priority on the way does not count
    (
        4,
        2,
        &[(0, 0, 1), (1, 1, 2), (2, 0, 3)],
        Found::Heights(&[&[2, 0], &[1, 0], &[1, 0], &[0, 0]]),
    ),
    // an arc twice, and a cycle of odd lowest priority beside it
    (
        2,
        2,
        &[(0, 1, 1), (1, 1, 0), (0, 2, 1), (0, 2, 1)],
        Found::Heights(&[&[0, 1], &[0, 0]]),
    ),
    // an arc of a lower priority is not followed
    (
        2,
        2,
        &[(0, 1, 1), (1, 2, 0)],
        Found::Heights(&[&[0, 0], &[0, 1]]),
    ),
    // round a cycle, and out of it; and a part of its own
    (
        4,
        4,
        &[(0, 3, 1), (1, 3, 0), (1, 2, 2), (3, 1, 3)],
        Found::Heights(&[&[0, 1, 0], &[0, 1, 0], &[0, 0, 0], &[0, 0, 0]]),
    ),
    // the lowest priority of a cycle decides
    (
        2,
        4,
        &[(0, 3, 1), (1, 2, 0)],
        Found::Cycle(&[(0, 3, 1), (1, 2, 0)]),
    ),
];

#[test]
fn heights_and_cycles_of_small_graphs(rt: HostRuntime) -> Result<(), Fail> {
    assert_eq!(rt; first_wrong(rt.alloc(), &SMALL)?, None);
    Ok(())
}

// Numbers, and are they heights of the graph with the arcs (0, 0, 1) and (1, 1, 1)?
const NUMBERS: [(&'static [&'static [u64]], bool); 7] = [
    (&[&[1, 0], &[0, 0]], true),
    // larger numbers that fall are heights too
    (&[&[9, 5], &[3, 7]], true),
    // the height for 0 stays equal
    (&[&[0, 0], &[0, 0]], false),
    (&[&[0, 0], &[1, 0]], false),
    (&[&[1, 0]], false),
    (&[&[1, 0], &[0]], false),
    (&[&[1, 0], &[0, 0], &[0, 0]], false),
];

// The place of the first numbers of which it is told otherwise.
fn first_told_wrong(
    alloc: Global,
    graph: &OneSided,
    table: &[(&'static [&'static [u64]], bool)],
) -> Result<Option<usize>, AllocError> {
    for (place, (rows, wanted)) in table.iter().enumerate() {
        if heights_ok(graph, &heights_of_rows(alloc, rows)?) != *wanted {
            return Ok(Some(place));
        }
    }
    Ok(None)
}

#[test]
fn which_numbers_are_heights(rt: HostRuntime) -> Result<(), Fail> {
    let graph = checked(2, 2, arcs_of(rt.alloc(), &[(0, 0, 1), (1, 1, 1)])?)?;
    assert_eq!(rt; first_told_wrong(rt.alloc(), &graph, &NUMBERS)?, None);
    Ok(())
}
