// The moves of a game from behind: for each vertex its predecessors, and how many moves each vertex has.
//
// First all moves are put into one list, each with the one before it that leads to the same vertex, so that there is a
// chain of moves for each vertex. Then the chains are followed one after the other, and the vertices from which their
// moves come are written behind each other. No vertex has a list of its own.

ghost use Rattle.std.specs.Prelude.{◌≡◌, ◌-◌, ◌<◌, ◌≤◌, ◌++◌, [], ℕ, List, IfOk, OnOk, drop, get_or, length, take};
ghost use Rattle.ml_parity.specs.Game.{moves_of, size};
ghost use Rattle.ml_parity.specs.private.Chains.{AddsTo, AreChains, IsChain, IsInChains};
ghost use Rattle.ml_parity.specs.private.SolverSteps.{ArePredecessors};

use crate::games::Game;
use ml_base::NoMemory;
use std::alloc::Global;
use std::marker::Model;

/// For each vertex the vertices with a move to it. Contracts see one list for each vertex.
#[derive(Drop)]
pub(crate) struct Predecessors {
    /// Where the row of each vertex begins in `sources`, and where the last one ends.
    starts: Vec<usize>,
    /// The rows of the vertices, one behind the other.
    sources: Vec<usize>,
}

impl Model for Predecessors {
    ghost use Rattle.std.specs.Prelude.{ℕ, List};
    ghost use Rattle.ml_parity.specs.private.FlatRows.{IsLaid, rows_of};

    ghost Value = { List (List ℕ) };

    ghost view = { λ a. rows_of a.starts.items a.sources.items };

    ghost invariant = { λ a. IsLaid a.starts.items a.sources.items };
}

impl Predecessors {
    /// The vertices with a move to this one.
    pub(crate) fn at(&self, vertex: usize) -> &[usize]
        requires { vertex < length self.now }
        ensures { result.now ≡ get_or self.now vertex [] }
    {
        let start = self.starts[vertex];
        let end = self.starts[vertex + 1];
        part(&self.sources, start, end)
    }
}

/// The entries from one place up to another.
fn part(sources: &[usize], start: usize, end: usize) -> &[usize]
    requires up { start ≤ end }
    requires fits { end ≤ length sources.now }
    ensures { result.now ≡ take (end - start) (drop start sources.now) }
{
    &sources[start..end]
}

/// A move in a chain.
#[derive(Clone, Copy)]
pub(crate) struct Arrow {
    /// From which vertex it leads.
    pub(crate) source: usize,
    /// The number behind the place of the move before it that leads to the same vertex, or 0 if there is none.
    pub(crate) before: usize,
}

/// Puts the moves of a vertex into the chains of those to which they lead.
fn add_moves(
    last: &mut [usize],
    arrows: &mut Vec<Arrow>,
    vertex: usize,
    moves: &[u64],
) -> Result<(), NoMemory>
    requires { (k : ℕ) → k < length moves.now → get_or moves.now k 0 < length last.old }
    ensures { OnOk result (AddsTo last.old arrows.old.items last.new arrows.new.items vertex moves.now) }
{
    for to in moves {
        let to = *to as usize;
        arrows.push(Arrow {
            source: vertex,
            before: last[to],
        })?;
        last[to] = arrows.len();
    }
    Ok(())
}

/// Writes the sources of a chain, the last move first.
fn follow(arrows: &[Arrow], head: usize, sources: &mut Vec<usize>) -> Result<(), NoMemory>
    requires { (row : List ℕ) × IsChain arrows.now head row }
    ensures { OnOk result ((row : List ℕ) → IsChain arrows.now head row → sources.new.items ≡ sources.old.items ++ row) }
{
    let mut at = head;
    while at > 0 {
        let arrow = arrows[at - 1];
        sources.push(arrow.source)?;
        at = arrow.before;
    }
    Ok(())
}

/// The sources of all chains, one chain behind the other.
fn laid_out(alloc: Global, last: &[usize], arrows: &[Arrow]) -> Result<Predecessors, NoMemory>
    requires { IsInChains last.now arrows.now }
    ensures { IfOk result (λ p. (rows : List (List ℕ)) → AreChains last.now arrows.now rows → p ≡ rows) }
{
    let mut starts = Vec::with_capacity(alloc, last.len() + 1)?;
    let mut sources = Vec::with_capacity(alloc, arrows.len())?;
    starts.push(0)?;
    for head in last {
        follow(arrows, *head, &mut sources)?;
        starts.push(sources.len())?;
    }
    Ok(Predecessors { starts, sources })
}

/// For each vertex the vertices with a move to it, each of them once for each such move.
pub(crate) fn predecessors_of(alloc: Global, game: &Game) -> Result<Predecessors, NoMemory>
    ensures { IfOk result (ArePredecessors game.now) }
{
    let size = game.size();
    let mut last = vec![in alloc; 0; size]?;
    let mut arrows = Vec::new(alloc);
    // A chain is read from its last move on: so the sources ascend.
    for vertex in (0..size).rev() {
        add_moves(&mut last, &mut arrows, vertex, game.moves_at(vertex))?;
    }
    laid_out(alloc, &last, &arrows)
}

/// How many moves each vertex has.
pub(crate) fn move_counts(alloc: Global, game: &Game) -> Result<Vec<usize>, NoMemory>
    ensures size { IfOk result (λ counts. length counts.items ≡ size game.now) }
    ensures each { IfOk result (λ counts. (v : ℕ) → v < size game.now → get_or counts.items v 0 ≡ length (moves_of game.now v)) }
{
    let size = game.size();
    let mut counts = Vec::with_capacity(alloc, size)?;
    for vertex in 0..size {
        counts.push(game.moves_at(vertex).len())?;
    }
    Ok(counts)
}
