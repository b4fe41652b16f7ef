// What is known of the states of an automaton, so that edges can be left out and flags changed.
ghost use Rattle.std.specs.Prelude.{◌≡◌, ◌<◌, true, false, get_or, map};
ghost use Rattle.ml_lists.specs.Member.{IsMember};
ghost use Rattle.ml_labelled.specs.Labelled.{Edge};
ghost use Rattle.ml_labelled.specs.private.Trimming as trimming;
ghost use Rattle.ml_labelled.specs.private.Trimming.{Guides, IsGuided, KeepsDead, KeepsFull};
ghost use Rattle.ml_labelled.specs.private.Views.{edge_of, rows_of};

use crate::labelled::CubeEdge;
use crate::loops::{Loops, loops_of};
use ml_base::NoMemory;
use std::alloc::Global;

// What a guide says: no edge leads to a state that comes before; from dead states nothing is accepted; in full states each
// loop accepts, since an edge that doesn't leads deeper.
#[derive(Drop)]
pub(crate) struct Guide {
    pub order: Vec<usize>,
    pub dead: Vec<bool>,
    pub full: Vec<bool>,
    pub depth: Vec<usize>,
}

fn number_at(numbers: &[usize], p: usize) -> usize
    ensures { result ≡ get_or numbers.now p 0 }
{
    if p < numbers.len() { numbers[p] } else { 0 }
}

fn mark_at(marks: &[bool], p: usize) -> bool
    ensures { result ≡ get_or marks.now p false }
{
    if p < marks.len() { marks[p] } else { false }
}

impl Guide {
    pub(crate) fn order_of(&self, p: usize) -> usize
        ensures { result ≡ trimming.order_of self.now p }
    {
        number_at(&self.order, p)
    }

    pub(crate) fn depth_of(&self, p: usize) -> usize
        ensures { result ≡ trimming.depth_of self.now p }
    {
        number_at(&self.depth, p)
    }

    pub(crate) fn is_dead(&self, p: usize) -> bool
        ensures { result ≡ trimming.is_dead self.now p }
    {
        mark_at(&self.dead, p)
    }

    pub(crate) fn is_full(&self, p: usize) -> bool
        ensures { result ≡ trimming.is_full self.now p }
    {
        mark_at(&self.full, p)
    }

    // from a dead state edges lead to dead ones, and accepting ones come to a later state
    fn keeps_dead(&self, p: usize, edge: &CubeEdge) -> bool
        ensures { result ≡ true → KeepsDead self.now p (edge_of edge.now) }
    {
        let to = edge.to as usize;
        if !self.is_dead(p) {
            return true;
        }
        if !self.is_dead(to) {
            return false;
        }
        if !edge.accepting {
            return true;
        }
        self.order_of(p) < self.order_of(to)
    }

    // from a full state edges that come to no later state lead to full ones, and those that don't accept lead deeper
    fn keeps_full(&self, p: usize, edge: &CubeEdge) -> bool
        ensures { result ≡ true → KeepsFull self.now p (edge_of edge.now) }
    {
        let to = edge.to as usize;
        if !self.is_full(p) {
            return true;
        }
        if self.order_of(to) != self.order_of(p) {
            return true;
        }
        if !self.is_full(to) {
            return false;
        }
        if edge.accepting {
            return true;
        }
        self.depth_of(p) < self.depth_of(to)
    }

    // is the guide right about an edge of the state?
    fn is_right(&self, p: usize, edge: &CubeEdge) -> bool
        ensures { result ≡ true → IsGuided self.now p (edge_of edge.now) }
    {
        if self.order_of(edge.to as usize) < self.order_of(p) {
            return false;
        }
        if !self.keeps_dead(p, edge) {
            return false;
        }
        self.keeps_full(p, edge)
    }

    fn guides_row(&self, p: usize, row: &[CubeEdge]) -> bool
        ensures { result ≡ true → (e : Edge) → IsMember e (map edge_of row.now) → IsGuided self.now p e }
    {
        for edge in row {
            if !self.is_right(p, edge) {
                return false;
            }
        }
        true
    }

    // Is the guide right about all edges? The cost is linear in them.
    pub(crate) fn guides(&self, rows: &[Vec<CubeEdge>]) -> bool
        ensures { result ≡ true → Guides self.now (rows_of rows.now) }
    {
        for (p, row) in rows.iter().enumerate() {
            if !self.guides_row(p, row) {
                return false;
            }
        }
        true
    }
}

// ---- a guide that may be right

fn targets(alloc: Global, row: &[CubeEdge]) -> Result<Vec<usize>, NoMemory> {
    let mut targets = Vec::with_capacity(alloc, row.len())?;
    for edge in row {
        targets.push(edge.to as usize)?;
    }
    Ok(targets)
}

// where the edges lead
fn arrows(alloc: Global, rows: &[Vec<CubeEdge>]) -> Result<Vec<Vec<usize>>, NoMemory> {
    let mut next = Vec::with_capacity(alloc, rows.len())?;
    for row in rows {
        next.push(targets(alloc, row)?)?;
    }
    Ok(next)
}

// does the edge lie on a loop, as far as the numbers tell?
fn is_on_loop(order: &[usize], p: usize, edge: &CubeEdge) -> bool {
    number_at(order, edge.to as usize) == number_at(order, p)
}

fn idle_targets(
    alloc: Global,
    order: &[usize],
    p: usize,
    row: &[CubeEdge],
) -> Result<Vec<usize>, NoMemory> {
    let mut targets = Vec::new(alloc);
    for edge in row {
        if !edge.accepting && is_on_loop(order, p, edge) {
            targets.push(edge.to as usize)?;
        }
    }
    Ok(targets)
}

// where the edges on loops lead that don't accept
fn idle_arrows(
    alloc: Global,
    order: &[usize],
    rows: &[Vec<CubeEdge>],
) -> Result<Vec<Vec<usize>>, NoMemory> {
    let mut next = Vec::with_capacity(alloc, rows.len())?;
    for (p, row) in rows.iter().enumerate() {
        next.push(idle_targets(alloc, order, p, row)?)?;
    }
    Ok(next)
}

// marks the number of the state
fn put(marks: &mut Vec<bool>, order: &[usize], p: usize) {
    let at = number_at(order, p);
    if at < marks.len() {
        marks[at] = true;
    }
}

// is the number of the state marked?
fn has(marks: &[bool], order: &[usize], p: usize) -> bool {
    mark_at(marks, number_at(order, p))
}

// of each state the mark of its number, turned round
fn others(alloc: Global, marks: &[bool], order: &[usize]) -> Result<Vec<bool>, NoMemory> {
    let mut others = Vec::with_capacity(alloc, order.len())?;
    for p in 0..order.len() {
        others.push(!has(marks, order, p))?;
    }
    Ok(others)
}

// does an edge of the state go round without accepting?
fn goes_round(order: &[usize], depth: &[usize], p: usize, row: &[CubeEdge]) -> bool {
    for edge in row {
        if !edge.accepting
            && is_on_loop(order, p, edge)
            && number_at(depth, edge.to as usize) <= number_at(depth, p)
        {
            return true;
        }
    }
    false
}

// the states whose loops all accept
fn full(
    alloc: Global,
    order: &[usize],
    depth: &[usize],
    rows: &[Vec<CubeEdge>],
) -> Result<Vec<bool>, NoMemory> {
    let mut marks = vec![in alloc; false; rows.len()]?;
    for (p, row) in rows.iter().enumerate() {
        if goes_round(order, depth, p, row) {
            put(&mut marks, order, p);
        }
    }
    others(alloc, &marks, order)
}

// does an edge of the state accept on a loop, or lead where that is so?
fn lives(marks: &[bool], order: &[usize], p: usize, row: &[CubeEdge]) -> bool {
    for edge in row {
        if has(marks, order, edge.to as usize) {
            return true;
        }
        if edge.accepting && is_on_loop(order, p, edge) {
            return true;
        }
    }
    false
}

// the states from which nothing is accepted
fn dead(alloc: Global, loops: &Loops, rows: &[Vec<CubeEdge>]) -> Result<Vec<bool>, NoMemory> {
    let mut marks = vec![in alloc; false; rows.len()]?;
    for p in loops.states.iter().rev() {
        if *p < rows.len() && lives(&marks, &loops.numbers, *p, &rows[*p]) {
            put(&mut marks, &loops.numbers, *p);
        }
    }
    others(alloc, &marks, &loops.numbers)
}

// A guide for these edges. The cost is linear in them.
pub(crate) fn guide_of(alloc: Global, rows: &[Vec<CubeEdge>]) -> Result<Guide, NoMemory> {
    let loops = loops_of(alloc, &arrows(alloc, rows)?)?;
    let dead = dead(alloc, &loops, rows)?;
    let order = loops.numbers;
    let idle = loops_of(alloc, &idle_arrows(alloc, &order, rows)?)?;
    let depth = idle.numbers;
    let full = full(alloc, &order, &depth, rows)?;
    Ok(Guide {
        order,
        dead,
        full,
        depth,
    })
}
