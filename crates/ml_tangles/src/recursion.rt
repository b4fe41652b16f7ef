// The counted recursion (Zielonka, Infinite games on finitely coloured graphs, 1998), with its frames on a list.
//
// Each vertex has the depth of the innermost frame to which it belongs: so the vertices of a frame are those of its list that
// are at least as deep as it.
use crate::arena::{Arena, Guess};
use ml_base::NoMemory;
use ml_game_check::numbers::{NONE, number, put};
use std::alloc::Global;

/// A part of the game that is to be solved.
#[derive(Drop)]
struct Frame {
    /// Its vertices, ascending by priority.
    vertices: Vec<u32>,
    /// Whether the rest without the attractor of its lowest vertices is solved.
    done: bool,
}

#[derive(Drop)]
struct Recursion<'a> {
    alloc: Global,
    arena: &'a Arena,
    winner: Vec<u32>,
    choice: Vec<u32>,
    depth: Vec<u32>,
    /// The attractor in which each vertex was last, and the one for which its moves were last counted.
    drawn: Vec<u32>,
    counted: Vec<u32>,
    left: Vec<u32>,
    /// The number of the attractor.
    stamp: u32,
    queue: Vec<u32>,
    turns: u64,
}

impl Recursion<'_> {
    /// How many moves of a vertex lead to vertices that are so deep.
    fn moves_within(&mut self, vertex: u32, depth: u32) -> u32 {
        let mut count: u32 = 0;
        let (begin, end) = self.arena.successors.range(vertex);
        for place in begin..end {
            self.turns = self.turns.saturating_add(1);
            let to = number(&self.arena.successors.all, place);
            if depth <= self.depth_of(to) {
                count = count.saturating_add(1);
            }
        }
        count
    }

    fn depth_of(&self, vertex: u32) -> u32 {
        match self.depth.get(vertex as usize) {
            Some(depth) => *depth,
            None => 0,
        }
    }

    fn begin(&mut self) {
        self.stamp = self.stamp.saturating_add(1);
        self.queue.clear();
    }

    fn add(&mut self, vertex: u32) -> Result<(), NoMemory> {
        put(&mut self.drawn, vertex, self.stamp);
        self.queue.push(vertex)?;
        Ok(())
    }

    /// Draws to the vertices of the queue what the player can force there, among vertices that are so deep.
    fn attract(&mut self, player: u32, depth: u32) -> Result<(), NoMemory> {
        for i in 0..usize::MAX {
            let Some(to) = self.queue.get(i).copied() else {
                break;
            };
            let (begin, end) = self.arena.predecessors.range(to);
            for place in begin..end {
                self.turns = self.turns.saturating_add(1);
                let vertex = number(&self.arena.predecessors.all, place);
                if depth <= self.depth_of(vertex) && number(&self.drawn, vertex) != self.stamp {
                    self.draw(vertex, to, player, depth)?;
                }
            }
        }
        Ok(())
    }

    fn draw(&mut self, vertex: u32, to: u32, player: u32, depth: u32) -> Result<(), NoMemory> {
        if number(&self.arena.owner, vertex) == player {
            put(&mut self.choice, vertex, to);
            return self.add(vertex);
        }
        if number(&self.counted, vertex) != self.stamp {
            put(&mut self.counted, vertex, self.stamp);
            let count = self.moves_within(vertex, depth);
            put(&mut self.left, vertex, count);
        }
        let left = number(&self.left, vertex).saturating_sub(1);
        put(&mut self.left, vertex, left);
        if left == 0 {
            self.add(vertex)?;
        }
        Ok(())
    }

    /// A move of the vertex to one that is so deep.
    fn some_move(&self, vertex: u32, depth: u32) -> u32 {
        let (begin, end) = self.arena.successors.range(vertex);
        for place in begin..end {
            let to = number(&self.arena.successors.all, place);
            if depth <= self.depth_of(to) {
                return to;
            }
        }
        NONE
    }

    /// Removes the attractor of the lowest vertices of a part, and gives the rest, which is one deeper.
    fn enter(&mut self, vertices: &[u32], depth: u32) -> Result<Vec<u32>, NoMemory> {
        self.begin();
        let player = self.player_of(vertices);
        let lowest = self.priority_of(vertices);
        for vertex in vertices {
            if number(&self.arena.priority, *vertex) != lowest {
                break;
            }
            let to = self.some_move(*vertex, depth);
            put(&mut self.choice, *vertex, to);
            self.add(*vertex)?;
        }
        self.attract(player, depth)?;
        for vertex in &self.queue {
            put(&mut self.winner, *vertex, player);
        }
        let mut rest = Vec::new(self.alloc);
        for vertex in vertices {
            if number(&self.drawn, *vertex) != self.stamp {
                put(&mut self.depth, *vertex, depth.saturating_add(1));
                rest.push(*vertex)?;
            }
        }
        Ok(rest)
    }

    fn player_of(&self, vertices: &[u32]) -> u32 {
        match vertices.first() {
            Some(vertex) => number(&self.arena.side, *vertex),
            None => 0,
        }
    }

    fn priority_of(&self, vertices: &[u32]) -> u32 {
        match vertices.first() {
            Some(vertex) => number(&self.arena.priority, *vertex),
            None => 0,
        }
    }

    /// When the rest is solved: what is left of the part without the attractor of what the other player wins of the rest, or
    /// nothing, if that is nothing and so the part is solved.
    fn leave(&mut self, vertices: &[u32], depth: u32) -> Result<Vec<u32>, NoMemory> {
        self.begin();
        let player = self.player_of(vertices);
        let other = 1u32.saturating_sub(player);
        for vertex in vertices {
            if number(&self.winner, *vertex) == other {
                self.add(*vertex)?;
            }
            put(&mut self.depth, *vertex, depth);
        }
        let mut rest = Vec::new(self.alloc);
        let lost = !self.queue.is_empty();
        self.attract(other, depth)?;
        for vertex in vertices {
            if lost && number(&self.drawn, *vertex) != self.stamp {
                rest.push(*vertex)?;
            } else {
                put(&mut self.depth, *vertex, depth.saturating_sub(1));
            }
        }
        for vertex in &self.queue {
            put(&mut self.winner, *vertex, other);
        }
        Ok(rest)
    }

    fn run(&mut self, fuel: u64) -> Result<bool, NoMemory> {
        let mut frames = Vec::new(self.alloc);
        frames.push(Frame {
            vertices: self.arena.by_priority(self.alloc)?,
            done: false,
        })?;
        let mut depth: u32 = 1;
        for _ in 0..u64::MAX {
            let Some(Frame { vertices, done }) = frames.pop() else {
                return Ok(true);
            };
            self.turns = self.turns.saturating_add(vertices.len() as u64);
            if fuel < self.turns {
                return Ok(false);
            }
            if vertices.is_empty() {
                depth = depth.saturating_sub(1);
            } else if done {
                let rest = self.leave(&vertices, depth)?;
                frames.push(Frame {
                    vertices: rest,
                    done: false,
                })?;
            } else {
                let rest = self.enter(&vertices, depth)?;
                frames.push(Frame {
                    vertices,
                    done: true,
                })?;
                frames.push(Frame {
                    vertices: rest,
                    done: false,
                })?;
                depth = depth.saturating_add(1);
            }
        }
        Ok(false)
    }
}

fn filled(alloc: Global, count: u32, value: u32) -> Result<Vec<u32>, NoMemory> {
    let mut numbers = Vec::new(alloc);
    numbers.resize(count as usize, value)?;
    Ok(numbers)
}

/// Who wins each vertex, by recursion, if so many turns are enough.
pub(crate) fn recur(alloc: Global, arena: &Arena, fuel: u64) -> Result<Option<Guess>, NoMemory> {
    let size = arena.size;
    let mut recursion = Recursion {
        alloc,
        arena,
        winner: filled(alloc, size, 0)?,
        choice: filled(alloc, size, NONE)?,
        depth: filled(alloc, size, 1)?,
        drawn: filled(alloc, size, 0)?,
        counted: filled(alloc, size, 0)?,
        left: filled(alloc, size, 0)?,
        stamp: 0,
        queue: Vec::new(alloc),
        turns: 0,
    };
    if recursion.run(fuel)? {
        let Recursion { winner, choice, .. } = recursion;
        Ok(Some(Guess { winner, choice }))
    } else {
        Ok(None)
    }
}
