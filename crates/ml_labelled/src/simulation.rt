// Fewer states and edges by direct simulation: states that simulate each other become one, and beside an edge those go that it
// beats. Nothing rests on it: whether the automaton accepts the same is looked through (`replacing`).
use crate::following::Ranks;
use crate::labelled::CubeEdge;
use crate::ranking::ranks_of;
use crate::trimming::has_all;
use ml_arrays::small;
use ml_base::NoMemory;
use std::alloc::Global;

// Edges in place of others, with the direct simulation by which they were found.
#[derive(Drop)]
pub(crate) struct Simulated {
    pub rows: Vec<Vec<CubeEdge>>,
    pub ranks: Ranks,
}

fn simulates(ranks: &Ranks, p: usize, q: usize) -> bool {
    ranks.rank_of(p, q).is_some()
}

// the first state that simulates p and is simulated by it
fn first_alike(ranks: &Ranks, p: usize) -> u32 {
    for q in 0..p {
        if simulates(ranks, p, q) && simulates(ranks, q, p) {
            return small(q);
        }
    }
    small(p)
}

fn firsts_alike(alloc: Global, ranks: &Ranks, states: usize) -> Result<Vec<u32>, NoMemory> {
    let mut firsts = Vec::with_capacity(alloc, states)?;
    for p in 0..states {
        firsts.push(first_alike(ranks, p))?;
    }
    Ok(firsts)
}

// may the first edge be taken wherever the second may, to a state that simulates its target, and accept if it does?
fn beats(ranks: &Ranks, edge: &CubeEdge, other: &CubeEdge) -> bool {
    (edge.accepting || !other.accepting)
        && simulates(ranks, other.to as usize, edge.to as usize)
        && has_all(&other.cube, &edge.cube)
}

fn is_beaten(ranks: &Ranks, kept: &[CubeEdge], edge: &CubeEdge) -> bool {
    for other in kept {
        if beats(ranks, other, edge) {
            return true;
        }
    }
    false
}

// those of the edges that the edge doesn't beat
fn unbeaten(
    alloc: Global,
    ranks: &Ranks,
    edges: Vec<CubeEdge>,
    edge: &CubeEdge,
) -> Result<Vec<CubeEdge>, NoMemory> {
    let mut others = Vec::with_capacity(alloc, edges.len())?;
    for other in edges {
        if !beats(ranks, edge, &other) {
            others.push(other)?;
        }
    }
    Ok(others)
}

// the edge, to the first state that is like its target
fn moved(alloc: Global, firsts: &[u32], edge: &CubeEdge) -> Result<CubeEdge, NoMemory> {
    let to = match firsts.get(edge.to as usize) {
        Some(first) => *first,
        None => edge.to,
    };
    Ok(CubeEdge {
        cube: Vec::from_slice(alloc, &edge.cube)?,
        to,
        accepting: edge.accepting,
    })
}

// the edges of a state that none of them beats
fn row_of(
    alloc: Global,
    ranks: &Ranks,
    firsts: &[u32],
    edges: &[CubeEdge],
) -> Result<Vec<CubeEdge>, NoMemory> {
    let mut kept = Vec::new(alloc);
    for edge in edges {
        let edge = moved(alloc, firsts, edge)?;
        if !is_beaten(ranks, &kept, &edge) {
            kept = unbeaten(alloc, ranks, kept, &edge)?;
            kept.push(edge)?;
        }
    }
    Ok(kept)
}

fn rows_of(
    alloc: Global,
    ranks: &Ranks,
    rows: &[Vec<CubeEdge>],
) -> Result<Vec<Vec<CubeEdge>>, NoMemory> {
    let firsts = firsts_alike(alloc, ranks, rows.len())?;
    let mut new = Vec::with_capacity(alloc, rows.len())?;
    for row in rows {
        new.push(row_of(alloc, ranks, &firsts, row)?)?;
    }
    Ok(new)
}

// how many comparisons it takes to compare the edges of each state with each other
fn within_states(rows: &[Vec<CubeEdge>]) -> u64 {
    let mut count = 0u64;
    for row in rows {
        let edges = row.len() as u64;
        count = count.saturating_add(edges.saturating_mul(edges));
    }
    count
}

// Fewer edges, and edges to fewer states, by the greatest direct simulation, if it is found by so many comparisons of edges.
// The cost is that of the comparisons.
pub(crate) fn simulated_rows(
    alloc: Global,
    rows: &[Vec<CubeEdge>],
    comparisons: u64,
) -> Result<Option<Simulated>, NoMemory> {
    if within_states(rows) > comparisons / 4 {
        return Ok(None);
    }
    match ranks_of(alloc, rows, rows, 0, comparisons)? {
        Some(ranks) => {
            let rows = rows_of(alloc, &ranks, rows)?;
            Ok(Some(Simulated { rows, ranks }))
        }
        None => Ok(None),
    }
}
