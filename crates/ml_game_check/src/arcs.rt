// The ways of claims as arcs, for the engine: nothing is claimed of them.
use crate::claims::Claim;
use crate::numbers::{NONE, number, small};
use ml_base::NoMemory;
use ml_parity::{Game, Player};
use std::alloc::Global;

/// A way between points: vertices, or classes of them.
#[derive(Clone, Copy)]
pub struct Arc {
    /// The point that it leaves.
    pub from: u32,
    /// The point to which it leads.
    pub to: u32,
    /// The place of its priority among all priorities, from 1 on.
    pub level: u32,
    /// The vertex that it leaves.
    pub source: u32,
}

/// The priorities that occur, ascending, and for each vertex the place of its own among them, from 1 on.
#[derive(Drop)]
pub(crate) struct Levels {
    pub priorities: Vec<u32>,
    pub of: Vec<u32>,
}

/// The levels of a game's vertices.
pub(crate) fn levels_of(alloc: Global, game: &Game) -> Result<Levels, NoMemory> {
    let mut priorities = Vec::from_slice(alloc, &game.priority)?;
    priorities.sort_unstable();
    priorities.dedup();
    let mut of = Vec::with_capacity(alloc, game.priority.len())?;
    for priority in &game.priority {
        of.push(level_of(&priorities, *priority))?;
    }
    Ok(Levels { priorities, of })
}

fn level_of(priorities: &[u32], priority: u32) -> u32 {
    match priorities.binary_search(&priority) {
        Ok(place) => small(place).saturating_add(1),
        Err(_) => NONE,
    }
}

/// The ways from a vertex with this claim.
pub(crate) fn ways_from(game: &Game, vertex: usize, claim: Claim) -> (Option<u64>, &[u64]) {
    match (game.owner.get(vertex), game.successors.get(vertex)) {
        (Some(owner), Some(_)) if *owner == claim.winner => (claim.move_to, &[]),
        (Some(_), Some(successors)) => (None, successors.as_slice()),
        _ => (None, &[]),
    }
}

/// Is the priority of the vertex bad for the player?
pub(crate) fn is_bad(game: &Game, vertex: usize, player: Player) -> bool {
    match game.priority.get(vertex) {
        Some(priority) => Player::of_priority(*priority) != player,
        None => false,
    }
}

/// All ways between different vertices.
#[derive(Drop)]
pub(crate) struct Arcs {
    pub arcs: Vec<Arc>,
    /// For each vertex with a claim whether its priority is bad for the winner.
    pub bad: Vec<bool>,
    /// A vertex whose priority is bad, with a way to itself.
    pub looped: Option<u32>,
}

impl Arcs {
    fn add(&mut self, from: u32, to: u64, level: u32, bad: bool) -> Result<(), NoMemory> {
        let to = small(to as usize);
        if from != to {
            self.arcs.push(Arc {
                from,
                to,
                level,
                source: from,
            })?;
        } else if bad {
            self.looped = Some(from);
        }
        Ok(())
    }

    fn add_all(
        &mut self,
        game: &Game,
        vertex: usize,
        claim: Claim,
        level: u32,
    ) -> Result<(), NoMemory> {
        let bad = is_bad(game, vertex, claim.winner);
        self.bad.push(bad)?;
        let from = small(vertex);
        let (one, many) = ways_from(game, vertex, claim);
        if let Some(to) = one {
            self.add(from, to, level, bad)?;
        }
        for to in many {
            self.add(from, *to, level, bad)?;
        }
        Ok(())
    }
}

/// How many ways there are.
fn ways_count(game: &Game, claims: &[Option<Claim>]) -> usize {
    let mut count: usize = 0;
    for vertex in 0..claims.len() {
        if let Some(claim) = claims[vertex] {
            let (_, many) = ways_from(game, vertex, claim);
            count = count.saturating_add(many.len().max(1));
        }
    }
    count
}

/// All ways of the claims.
pub(crate) fn all_arcs(
    alloc: Global,
    game: &Game,
    claims: &[Option<Claim>],
    levels: &[u32],
) -> Result<Arcs, NoMemory> {
    let mut made = Arcs {
        arcs: Vec::with_capacity(alloc, ways_count(game, claims))?,
        bad: Vec::with_capacity(alloc, claims.len())?,
        looped: None,
    };
    for vertex in 0..claims.len() {
        match claims[vertex] {
            Some(claim) => {
                made.add_all(game, vertex, claim, number(levels, small(vertex)))?;
            }
            None => made.bad.push(false)?,
        }
    }
    Ok(made)
}
