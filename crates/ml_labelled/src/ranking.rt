// Ranks at which an automaton follows another one, by lifting: each pair of states begins with the rank 0, and is lifted to the
// least rank from which all edges are answered, until nothing changes. Nothing rests on it: `Ranks::follows` looks them
// through.
//
// Source: Etessami, Wilke and Schuller (2005), with the progress measures of Jurdziński (2000).
use crate::following::Ranks;
use crate::labelled::CubeEdge;
use crate::trimming::has_all;
use ml_base::NoMemory;
use std::alloc::Global;

// What is lifted.
#[derive(Drop)]
struct Lifting<'a> {
    rows: &'a [Vec<CubeEdge>],
    others: &'a [Vec<CubeEdge>],
    ranks: Ranks,
    // no rank is greater
    most: u32,
    // how many pairs of edges may still be compared
    left: u64,
}

// the edges of a state
pub(crate) fn edges_at(rows: &[Vec<CubeEdge>], p: usize) -> &[CubeEdge] {
    match rows.get(p) {
        Some(row) => row.as_slice(),
        None => &[],
    }
}

// the least rank from which an edge to a pair of this rank answers, where the edges accept as these say
fn needed(next: Option<u32>, followed: bool, follows: bool) -> Option<u32> {
    match next {
        Some(rank) => {
            if follows {
                Some(0)
            } else if followed {
                Some(rank.saturating_add(1))
            } else {
                Some(rank)
            }
        }
        None => None,
    }
}

// is the rank lower than the best one so far?
fn is_lower(rank: u32, best: Option<u32>) -> bool {
    match best {
        Some(other) => rank < other,
        None => true,
    }
}

impl<'a> Lifting<'a> {
    // the least rank from which the edge is answered by the state x
    fn rank_for(&mut self, edge: &CubeEdge, x: usize) -> Option<u32> {
        let mut best = None;
        for other in edges_at(self.others, x) {
            self.left = self.left.saturating_sub(1);
            let next = self.ranks.rank_of(edge.to as usize, other.to as usize);
            if let Some(rank) = needed(next, edge.accepting, other.accepting) {
                if is_lower(rank, best) && has_all(&edge.cube, &other.cube) {
                    best = Some(rank);
                }
            }
            if best == Some(0) {
                return best;
            }
        }
        best
    }

    // the least rank from which all edges of p are answered by x
    fn lifted(&mut self, p: usize, x: usize) -> Option<u32> {
        let mut least = 0;
        for edge in edges_at(self.rows, p) {
            match self.rank_for(edge, x) {
                Some(rank) => {
                    if rank > self.most {
                        return None;
                    }
                    least = least.max(rank);
                }
                None => return None,
            }
        }
        Some(least)
    }

    fn put(&mut self, p: usize, x: usize, rank: Option<u32>) {
        if let Some(row) = self.ranks.rows.get_mut(p) {
            if let Some(place) = row.get_mut(x) {
                *place = rank;
            }
        }
    }

    // lifts a pair; does that change it?
    fn lift(&mut self, p: usize, x: usize) -> bool {
        let before = self.ranks.rank_of(p, x);
        if before.is_none() {
            return false;
        }
        let rank = self.lifted(p, x);
        if rank == before {
            return false;
        }
        self.put(p, x, rank);
        true
    }

    // lifts all pairs of a state; does one change?
    fn lift_state(&mut self, p: usize) -> bool {
        let mut is_changed = false;
        for x in 0..self.others.len() {
            if self.lift(p, x) {
                is_changed = true;
            }
        }
        is_changed
    }

    fn lift_states(&mut self) -> bool {
        let mut is_changed = false;
        for p in 0..self.rows.len() {
            if self.left > 0 && self.lift_state(p) {
                is_changed = true;
            }
        }
        is_changed
    }

    // lifts until nothing changes; did that come to its end?
    fn lift_all(&mut self) -> bool {
        for _ in 0..u64::MAX {
            if !self.lift_states() {
                break;
            }
        }
        self.left > 0
    }
}

// the rank 0 for all pairs
fn lowest(alloc: Global, states: usize, others: usize) -> Result<Ranks, NoMemory> {
    let mut rows = Vec::with_capacity(alloc, states)?;
    for _ in 0..states {
        rows.push(vec![in alloc; Some(0u32); others]?)?;
    }
    Ok(Ranks { rows })
}

// How many pairs of states there may be.
const MOST_PAIRS: usize = 4_000_000;

// Ranks of at most `most` at which the second automaton follows the first, if they are found by so many comparisons of edges.
// With the rank 0 alone it is the greatest direct simulation. The cost is that of the comparisons.
pub(crate) fn ranks_of(
    alloc: Global,
    rows: &[Vec<CubeEdge>],
    others: &[Vec<CubeEdge>],
    most: u32,
    comparisons: u64,
) -> Result<Option<Ranks>, NoMemory> {
    if rows.len().saturating_mul(others.len()) > MOST_PAIRS {
        return Ok(None);
    }
    let mut lifting = Lifting {
        rows,
        others,
        ranks: lowest(alloc, rows.len(), others.len())?,
        most,
        left: comparisons,
    };
    if lifting.lift_all() {
        Ok(Some(lifting.ranks))
    } else {
        Ok(None)
    }
}
