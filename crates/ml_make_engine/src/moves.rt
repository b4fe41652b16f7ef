// What a machine or an environment does: for each of its states a list of moves, one for each set of inputs, or of outputs.
use indexmap::IndexSet;
use ml_arrays::{Numbering, number, small};
use ml_base::NoMemory;
use std::alloc::Global;

/// How many moves are read at most to find which states agree.
const MOST_READ: usize = 100_000_000;

/// A move: its letter, and the state to which it leads.
#[derive(Clone, Copy, PartialEq, Eq, Hash)]
pub(crate) struct Move {
    pub letter: u32,
    pub to: u32,
}

/// The moves of each state; it begins in the first one.
pub(crate) type Moves = Vec<Vec<Move>>;

/// The moves of a state.
pub(crate) fn moves_at(moves: &[Vec<Move>], state: u32) -> &[Move] {
    match moves.get(state as usize) {
        Some(row) => row.as_slice(),
        None => &[],
    }
}

fn numbered_row(
    alloc: Global,
    row: &[Move],
    numbering: &mut Numbering,
) -> Result<Vec<Move>, NoMemory> {
    let mut numbered = Vec::with_capacity(alloc, row.len())?;
    for step in row {
        numbered.push(Move {
            letter: step.letter,
            to: numbering.number(step.to)?,
        })?;
    }
    Ok(numbered)
}

/// The moves with the states numbered breadth first from a start, without those that aren't reached.
pub(crate) fn numbered(alloc: Global, moves: &[Vec<Move>], start: u32) -> Result<Moves, NoMemory> {
    let mut numbering = Numbering::empty(alloc);
    let mut numbered = Vec::new(alloc);
    numbering.make_room(moves.len())?;
    numbering.number(start)?;
    for place in 0..usize::MAX {
        let Some(state) = numbering.met().get(place).copied() else {
            break;
        };
        numbered.push(numbered_row(alloc, moves_at(moves, state), &mut numbering)?)?;
    }
    Ok(numbered)
}

/// A row of moves, led to classes of states.
fn behind(alloc: Global, row: &[Move], class: &[u32]) -> Result<Vec<Move>, NoMemory> {
    let mut behind = Vec::with_capacity(alloc, row.len())?;
    for step in row {
        behind.push(Move {
            letter: step.letter,
            to: number(class, step.to),
        })?;
    }
    Ok(behind)
}

/// The moves, led to classes of states.
pub(crate) fn all_behind(
    alloc: Global,
    moves: &[Vec<Move>],
    class: &[u32],
) -> Result<Moves, NoMemory> {
    let mut all = Vec::with_capacity(alloc, moves.len())?;
    for row in moves {
        all.push(behind(alloc, row, class)?)?;
    }
    Ok(all)
}

/// Takes classes apart whose moves lead to different ones; the rows by classes are left in `rows`.
fn refine(
    alloc: Global,
    moves: &[Vec<Move>],
    class: &mut Vec<u32>,
    rows: &mut IndexSet<Vec<Move>>,
) -> Result<(), NoMemory> {
    let mut new = Vec::with_capacity(alloc, moves.len())?;
    for row in moves {
        let (number, _) = rows.insert_full(behind(alloc, row, class)?)?;
        new.push(small(number))?;
    }
    *class = new;
    Ok(())
}

/// How many moves there are.
fn size(moves: &[Vec<Move>]) -> usize {
    let mut size: usize = 0;
    for row in moves {
        size = size.saturating_add(row.len());
    }
    size
}

/// Takes classes apart until they are stable; tells whether they are.
fn refine_all(alloc: Global, moves: &[Vec<Move>], class: &mut Vec<u32>) -> Result<bool, NoMemory> {
    let size = size(moves);
    let mut left = MOST_READ;
    let mut count: usize = 1;
    for _ in 0..moves.len().saturating_add(1) {
        if left < size {
            return Ok(false);
        }
        left = left.saturating_sub(size);
        let mut rows = IndexSet::new(alloc);
        refine(alloc, moves, class, &mut rows)?;
        if rows.len() == count {
            return Ok(true);
        }
        count = rows.len();
    }
    Ok(false)
}

/// The moves with states merged that agree in all they give and lead to.
pub(crate) fn merged(alloc: Global, moves: &[Vec<Move>]) -> Result<Moves, NoMemory> {
    let mut class = vec![in alloc; 0; moves.len()]?;
    if !refine_all(alloc, moves, &mut class)? {
        return numbered(alloc, moves, 0);
    }
    let mut merged = Vec::new(alloc);
    for (state, row) in moves.iter().enumerate() {
        // the classes are numbered by their first states
        if number(&class, small(state)) == small(merged.len()) {
            merged.push(behind(alloc, row, &class)?)?;
        }
    }
    numbered(alloc, &merged, 0)
}
