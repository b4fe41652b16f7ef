// Leaves: what holds at a state, and where it leads.
use crate::sequents::Sequents;
use ml_arrays::{NONE, ascend};
use ml_base::NoMemory;
use ml_graph::Node;
use ml_search_cores::Knowledge;
use ml_sequent_solver::{Solver, Terms};

/// A diamond of a leaf, with the sequent to which it leads.
#[derive(Drop)]
pub(crate) struct Go {
    pub diamond: u32,
    pub to: u32,
    /// Where the threads of the sequent go along it.
    pub threads: Vec<(u32, u32)>,
}

/// What holds at a state, and where it leads.
#[derive(Drop)]
pub(crate) struct Leaf {
    /// The positive literals.
    pub labels: Vec<u32>,
    pub gos: Vec<Go>,
}

impl Go {
    /// Where a thread goes along the diamond; `NONE` where it is ended.
    pub(crate) fn thread(&self, thread: u32) -> u32 {
        for (from, to) in &self.threads {
            if *from == thread {
                return *to;
            }
        }
        NONE
    }
}

/// Writes the next sequent along a diamond.
fn write_next(
    t: &Terms,
    solver: &Solver,
    diamond: u32,
    nodes: &mut Vec<u32>,
) -> Result<(), NoMemory> {
    for n in &solver.branch.modals {
        let to = t.along(*n, diamond);
        if to != NONE && t.node(to) != Node::True {
            nodes.push(to)?;
        }
    }
    ascend(nodes);
    Ok(())
}

/// Writes the modal nodes to which the thread of a node goes at the leaf.
fn write_walk(
    t: &Terms,
    solver: &Solver,
    root: u32,
    seen: &mut Vec<u32>,
    ends: &mut Vec<u32>,
) -> Result<(), NoMemory> {
    seen.clear();
    ends.clear();
    seen.push(root)?;
    for i in 0..usize::MAX {
        let Some(n) = seen.get(i).copied() else {
            break;
        };
        let (left, right) = solver.branch.next_on_thread(t, n);
        if left != NONE && !seen.contains(&left) {
            seen.push(left)?;
        }
        if right != NONE && !seen.contains(&right) {
            seen.push(right)?;
        }
        if is_thread_step(t, n) {
            ends.push(n)?;
        }
    }
    Ok(())
}

/// Does a thread go along this modal node?
pub(crate) fn is_thread_step(t: &Terms, n: u32) -> bool {
    match t.node(n) {
        Node::Diamond { to, .. } | Node::Square { to, .. } => t.threads(n, to),
        _ => false,
    }
}

/// Adds where a thread goes along a diamond; tells whether that is one node at most.
fn push_thread(
    t: &Terms,
    thread: u32,
    ends: &[u32],
    diamond: u32,
    threads: &mut Vec<(u32, u32)>,
) -> Result<bool, NoMemory> {
    let mut found = NONE;
    for n in ends {
        let to = t.along(*n, diamond);
        if to != NONE {
            if found != NONE && found != to {
                return Ok(false);
            }
            found = to;
        }
    }
    if found != NONE {
        threads.push((thread, found))?;
    }
    Ok(true)
}

/// Writes the diamonds that stand, with their next sequents.
fn write_gos(
    t: &Terms,
    solver: &Solver,
    sequents: &mut Sequents,
    gos: &mut Vec<Go>,
) -> Result<(), NoMemory> {
    for n in &solver.branch.modals {
        if let Node::Diamond { .. } = t.node(*n) {
            let mut nodes = Vec::new(t.alloc);
            write_next(t, solver, *n, &mut nodes)?;
            let to = sequents.number(nodes)?;
            gos.push(Go {
                diamond: *n,
                to,
                threads: Vec::new(t.alloc),
            })?;
        }
    }
    Ok(())
}

/// Writes where the threads of the sequent go; the first one that goes to two nodes along a diamond, or `NONE`.
fn write_threads(
    t: &Terms,
    solver: &Solver,
    nodes: &[u32],
    gos: &mut [Go],
) -> Result<u32, NoMemory> {
    let mut seen = Vec::new(t.alloc);
    let mut ends = Vec::new(t.alloc);
    for n in nodes {
        if t.component(*n) != 0 {
            write_walk(t, solver, *n, &mut seen, &mut ends)?;
            if !push_threads(t, *n, &ends, gos)? {
                return Ok(*n);
            }
        }
    }
    Ok(NONE)
}

fn push_threads(t: &Terms, n: u32, ends: &[u32], gos: &mut [Go]) -> Result<bool, NoMemory> {
    for go in gos.iter_mut() {
        if !push_thread(t, n, ends, go.diamond, &mut go.threads)? {
            return Ok(false);
        }
    }
    Ok(true)
}

/// Writes the leaf at which the branch stands, for a sequent; the first of its threads that goes to two nodes along a diamond,
/// or `NONE`.
pub(crate) fn write_leaf(
    known: &Knowledge,
    sequents: &mut Sequents,
    sequent: u32,
    leaf: &mut Leaf,
) -> Result<u32, NoMemory> {
    let (t, solver) = (&known.terms, &known.solver);
    solver.branch.write_labels(t, &mut leaf.labels)?;
    write_gos(t, solver, sequents, &mut leaf.gos)?;
    write_threads(t, solver, sequents.nodes(sequent), &mut leaf.gos)
}
