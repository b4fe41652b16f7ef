// What the engine finds out about cycles of ways: nothing is claimed of it, and what it finds is checked.
use crate::arcs::{Arc, Arcs, all_arcs, levels_of, ways_from};
use crate::circles::Circle;
use crate::claims::Claim;
use crate::halving::{Halved, halve_all};
use crate::numbers::{NONE, number, put, small};
use crate::sorted::Row;
use crate::strong::Targets;
use ml_base::NoMemory;
use ml_parity::Game;
use std::alloc::Global;

/// What the engine found.
#[derive(Drop)]
pub(crate) enum Finding {
    /// The vertices in a row, where no cycle is bad.
    Sorted(Row),
    /// A bad cycle.
    Closed(Circle),
}

/// Some way from each vertex, where there is one, and else a successor.
fn some_ways(alloc: Global, game: &Game, claims: &[Option<Claim>]) -> Result<Vec<u64>, NoMemory> {
    let mut choices = Vec::with_capacity(alloc, claims.len())?;
    for vertex in 0..claims.len() {
        choices.push(some_way(game, vertex, claims[vertex]))?;
    }
    Ok(choices)
}

fn some_way(game: &Game, vertex: usize, claim: Option<Claim>) -> u64 {
    if let Some(claim) = claim {
        if let (Some(to), _) = ways_from(game, vertex, claim) {
            return to;
        }
    }
    match game.successors.get(vertex) {
        Some(successors) => match successors.first() {
            Some(to) => *to,
            None => 0,
        },
        None => 0,
    }
}

/// Choices along which each vertex that can comes to this one by arcs that are no lower than it, and this one back to itself.
fn towards(
    alloc: Global,
    vertex: u32,
    points: u32,
    backwards: &[Arc],
    level: u32,
    choices: Vec<u64>,
) -> Result<Circle, NoMemory> {
    let mut choices = choices;
    let mut sources = Targets::empty(alloc);
    sources.fill(points, backwards, level)?;
    let mut met = Vec::new(alloc);
    met.resize(points as usize, 0)?;
    let mut waiting = Vec::new(alloc);
    waiting.push(vertex)?;
    for _ in 0..u64::MAX {
        let Some(to) = waiting.pop() else {
            break;
        };
        for place in number(&sources.first, to)..number(&sources.first, to.saturating_add(1)) {
            let from = number(&sources.all, place);
            if number(&met, from) == 0 {
                put(&mut met, from, 1);
                if let Some(choice) = choices.get_mut(from as usize) {
                    *choice = to as u64;
                }
                waiting.push(from)?;
            }
        }
    }
    Ok(Circle {
        start: vertex as usize,
        choices,
    })
}

/// The arcs turned round.
fn turn(arcs: &mut [Arc]) {
    for arc in arcs.iter_mut() {
        let from = arc.from;
        arc.from = arc.to;
        arc.to = from;
    }
}

/// Choices that lead round from a vertex of bad priority, with no lower one.
fn circle_from(
    alloc: Global,
    game: &Game,
    claims: &[Option<Claim>],
    levels: &[u32],
    vertex: u32,
) -> Result<Circle, NoMemory> {
    let mut backwards = all_arcs(alloc, game, claims, levels)?.arcs;
    turn(&mut backwards);
    let choices = some_ways(alloc, game, claims)?;
    towards(
        alloc,
        vertex,
        small(claims.len()),
        &backwards,
        number(levels, vertex),
        choices,
    )
}

/// Looks for a bad cycle.
pub(crate) fn look(
    alloc: Global,
    game: &Game,
    claims: &[Option<Claim>],
) -> Result<Finding, NoMemory> {
    let vertices = small(claims.len());
    let levels = levels_of(alloc, game)?;
    let Arcs { arcs, bad, looped } = all_arcs(alloc, game, claims, &levels.of)?;
    if let Some(vertex) = looped {
        let mut choices = some_ways(alloc, game, claims)?;
        if let Some(choice) = choices.get_mut(vertex as usize) {
            *choice = vertex as u64;
        }
        return Ok(Finding::Closed(Circle {
            start: vertex as usize,
            choices,
        }));
    }
    let count = small(levels.priorities.len());
    match halve_all(alloc, vertices, count, &bad, arcs)? {
        Halved::Bad(vertex) => Ok(Finding::Closed(circle_from(
            alloc, game, claims, &levels.of, vertex,
        )?)),
        Halved::Nested(nest) => Ok(Finding::Sorted(nest.row(alloc, vertices, &levels.priorities)?)),
    }
}
