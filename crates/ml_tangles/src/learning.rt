// Tangle learning, part by part (van Dijk, Attracting tangles to solve parity games, 2018).
use crate::arena::{Arena, Guess};
use crate::passes::{FREE, Learning, OPEN, OUT};
use crate::tangles::Tangle;
use ml_base::NoMemory;
use ml_game_check::Strong;
use ml_game_check::numbers::{NONE, number, put, small};
use std::alloc::Global;

/// Vertices, ascending by priority, with the tangles among them.
#[derive(Drop)]
struct Part {
    vertices: Vec<u32>,
    tangles: Vec<u32>,
    /// Whether the vertices are known to be strongly connected.
    whole: bool,
}

fn filled(alloc: Global, count: u32, value: u32) -> Result<Vec<u32>, NoMemory> {
    let mut numbers = Vec::new(alloc);
    numbers.resize(count as usize, value)?;
    Ok(numbers)
}

fn learning_of(alloc: Global, arena: &Arena) -> Result<Learning<'_>, NoMemory> {
    let size = arena.size;
    let mut degree = Vec::with_capacity(alloc, size as usize)?;
    let mut into = Vec::with_capacity(alloc, size as usize)?;
    for vertex in 0..size {
        let (begin, end) = arena.successors.range(vertex);
        degree.push(end.saturating_sub(begin))?;
        into.push(Vec::new(alloc))?;
    }
    Ok(Learning {
        alloc,
        arena,
        winner: filled(alloc, size, OPEN)?,
        choice: filled(alloc, size, NONE)?,
        degree,
        region: filled(alloc, size, OUT)?,
        left: filled(alloc, size, 0)?,
        along: filled(alloc, size, NONE)?,
        tangles: Vec::new(alloc),
        into,
        escapes_left: Vec::new(alloc),
        queue: Vec::new(alloc),
        strong: Strong::empty(alloc),
        local: filled(alloc, size, NONE)?,
        turns: 0,
        weight: 0,
    })
}

impl Learning<'_> {
    /// Keeps a tangle.
    fn keep(&mut self, tangle: Tangle, mine: &mut Vec<u32>) -> Result<(), NoMemory> {
        let count = small(self.tangles.len());
        for vertex in &tangle.escapes {
            if let Some(row) = self.into.get_mut(*vertex as usize) {
                row.push(count)?;
            }
        }
        self.weight = self.weight.saturating_add(tangle.weight());
        self.escapes_left.push(0)?;
        mine.push(count)?;
        self.tangles.push(tangle)?;
        Ok(())
    }

    /// Gives the player a dominion, and what is attracted to it.
    fn win(&mut self, dominion: &Tangle) -> Result<(), NoMemory> {
        let player = dominion.player;
        self.queue.clear();
        for (vertex, to) in &dominion.vertices {
            self.give(*vertex, *to, player)?;
        }
        for i in 0..usize::MAX {
            let Some(to) = self.queue.get(i).copied() else {
                break;
            };
            let (begin, end) = self.arena.predecessors.range(to);
            for place in begin..end {
                let vertex = number(&self.arena.predecessors.all, place);
                self.draw(vertex, to, player)?;
            }
        }
        Ok(())
    }

    fn give(&mut self, vertex: u32, to: u32, player: u32) -> Result<(), NoMemory> {
        if number(&self.winner, vertex) == OPEN {
            put(&mut self.winner, vertex, player);
            put(&mut self.choice, vertex, to);
            put(&mut self.region, vertex, OUT);
            self.queue.push(vertex)?;
        }
        Ok(())
    }

    /// Gives the player a vertex, if it is drawn to one that the player wins.
    fn draw(&mut self, vertex: u32, to: u32, player: u32) -> Result<(), NoMemory> {
        self.turns = self.turns.saturating_add(1);
        if number(&self.winner, vertex) != OPEN {
            return Ok(());
        }
        let left = number(&self.degree, vertex).saturating_sub(1);
        put(&mut self.degree, vertex, left);
        if number(&self.arena.owner, vertex) == player {
            self.give(vertex, to, player)?;
        } else if left == 0 {
            self.give(vertex, NONE, player)?;
        }
        Ok(())
    }

    /// The open vertices of a part.
    fn open_of(&self, vertices: &[u32]) -> Result<Vec<u32>, NoMemory> {
        let mut open = Vec::new(self.alloc);
        for vertex in vertices {
            if number(&self.winner, *vertex) == OPEN {
                open.push(*vertex)?;
            }
        }
        Ok(open)
    }

    /// The tangles whose vertices are all open; the others are of no more use.
    fn alive_of(&mut self, tangles: &[u32]) -> Result<Vec<u32>, NoMemory> {
        let mut alive = Vec::new(self.alloc);
        for tangle in tangles {
            if let Some(known) = self.tangles.get_mut(*tangle as usize) {
                known.alive = known.is_within(&self.winner, OPEN, OPEN);
                if known.alive {
                    alive.push(*tangle)?;
                } else {
                    known.vertices.clear();
                }
            }
        }
        Ok(alive)
    }

    fn mark(&mut self, vertices: &[u32], region: u32) {
        for vertex in vertices {
            put(&mut self.region, *vertex, region);
        }
    }

    /// Splits a part into its strongly connected parts, those first from which nothing leads to later ones.
    fn split(&mut self, part: &Part) -> Result<Vec<Part>, NoMemory> {
        self.mark(&part.vertices, FREE);
        let arcs = self.arcs(&part.vertices, NONE, FREE)?;
        self.mark(&part.vertices, OUT);
        self.strong.search(small(part.vertices.len()), &arcs, 0)?;
        let mut parts = Vec::new(self.alloc);
        for _ in 0..self.strong.classes {
            parts.push(Part {
                vertices: Vec::new(self.alloc),
                tangles: Vec::new(self.alloc),
                whole: true,
            })?;
        }
        for i in 0..part.vertices.len() {
            let class = number(&self.strong.class, small(i));
            if let Some(one) = parts.get_mut(class as usize) {
                one.vertices.push(part.vertices[i])?;
            }
        }
        for tangle in &part.tangles {
            let class = number(&self.strong.class, self.place_of(*tangle));
            if let Some(one) = parts.get_mut(class as usize) {
                one.tangles.push(*tangle)?;
            }
        }
        Ok(parts)
    }

    /// The place of a tangle's first vertex among those whose classes are known.
    fn place_of(&self, tangle: u32) -> u32 {
        match self.tangles.get(tangle as usize) {
            Some(known) => match known.vertices.first() {
                Some((vertex, _)) => number(&self.local, *vertex),
                None => NONE,
            },
            None => NONE,
        }
    }

    fn is_spent(&self, fuel: u64) -> bool {
        fuel < self.turns || fuel < self.weight
    }

    /// Makes passes over a part until one finds dominions; tells whether one did before the fuel ended.
    fn explore(&mut self, part: &mut Part, fuel: u64) -> Result<bool, NoMemory> {
        for _ in 0..u64::MAX {
            let found = self.pass(&part.vertices, &part.tangles)?;
            if self.is_spent(fuel) {
                break;
            }
            let mut won = false;
            for tangle in &found {
                won = won || tangle.escapes.is_empty();
            }
            self.mark(&part.vertices, OUT);
            for tangle in found {
                if tangle.escapes.is_empty() {
                    self.win(&tangle)?;
                } else {
                    self.keep(tangle, &mut part.tangles)?;
                }
            }
            if won {
                return Ok(true);
            }
        }
        Ok(false)
    }

    /// Treats the parts until none is left; tells whether the fuel lasted.
    fn run(&mut self, parts: &mut Vec<Part>, fuel: u64) -> Result<bool, NoMemory> {
        for _ in 0..u64::MAX {
            let Some(old) = parts.pop() else {
                return Ok(true);
            };
            if self.is_spent(fuel) {
                return Ok(false);
            }
            let vertices = self.open_of(&old.vertices)?;
            let tangles = self.alive_of(&old.tangles)?;
            let whole = old.whole && vertices.len() == old.vertices.len();
            let mut part = Part {
                vertices,
                tangles,
                whole,
            };
            if part.whole {
                if !self.explore(&mut part, fuel)? {
                    return Ok(false);
                }
                parts.push(part)?;
            } else if !part.vertices.is_empty() {
                let mut split = self.split(&part)?;
                for _ in 0..split.len() {
                    if let Some(one) = split.pop() {
                        parts.push(one)?;
                    }
                }
            }
        }
        Ok(false)
    }
}

/// Who wins each vertex, by tangles, if so many turns are enough.
pub(crate) fn learn(alloc: Global, arena: &Arena, fuel: u64) -> Result<Option<Guess>, NoMemory> {
    let mut learning = learning_of(alloc, arena)?;
    let mut parts = Vec::new(alloc);
    parts.push(Part {
        vertices: arena.by_priority(alloc)?,
        tangles: Vec::new(alloc),
        whole: false,
    })?;
    if learning.run(&mut parts, fuel)? {
        let Learning { winner, choice, .. } = learning;
        Ok(Some(Guess { winner, choice }))
    } else {
        Ok(None)
    }
}
