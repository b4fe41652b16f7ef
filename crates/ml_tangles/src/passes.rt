// One pass over a part of a game: regions, and the tangles in them (van Dijk, Attracting tangles to solve parity games, 2018).
use crate::arena::Arena;
use crate::tangles::Tangle;
use ml_base::NoMemory;
use ml_game_check::numbers::{NONE, number, put, small};
use ml_game_check::{Arc, Strong};
use std::alloc::Global;

/// The mark of a vertex of the part that is in no region.
pub(crate) const FREE: u32 = u32::MAX;

/// The mark of a vertex outside the part.
pub(crate) const OUT: u32 = u32::MAX - 1;

/// The mark of a vertex that nobody is known to win.
pub(crate) const OPEN: u32 = 2;

/// What is known of a game.
#[derive(Drop)]
pub(crate) struct Learning<'a> {
    pub alloc: Global,
    pub arena: &'a Arena,
    /// Who wins each vertex.
    pub winner: Vec<u32>,
    pub choice: Vec<u32>,
    /// How many moves of each vertex lead to open ones.
    pub degree: Vec<u32>,
    /// The region of each vertex.
    pub region: Vec<u32>,
    /// How many moves of each vertex lead to none of the region.
    pub left: Vec<u32>,
    /// The move of each vertex within the region.
    pub along: Vec<u32>,
    pub tangles: Vec<Tangle>,
    /// The tangles that have each vertex as an escape.
    pub into: Vec<Vec<u32>>,
    /// How many escapes of each tangle are outside the region.
    pub escapes_left: Vec<u32>,
    pub queue: Vec<u32>,
    pub strong: Strong,
    /// The place of each vertex among those whose classes are sought.
    pub local: Vec<u32>,
    pub turns: u64,
    pub weight: u64,
}

impl Learning<'_> {
    fn place(&mut self, vertex: u32, region: u32, to: u32) -> Result<(), NoMemory> {
        put(&mut self.region, vertex, region);
        put(&mut self.along, vertex, to);
        self.queue.push(vertex)?;
        Ok(())
    }

    fn turn(&mut self) {
        self.turns = self.turns.saturating_add(1);
    }

    /// Begins a pass.
    fn begin(&mut self, part: &[u32], mine: &[u32]) {
        for vertex in part {
            self.turn();
            put(&mut self.region, *vertex, FREE);
            let degree = number(&self.degree, *vertex);
            put(&mut self.left, *vertex, degree);
        }
        for tangle in mine {
            self.turn();
            if let Some(known) = self.tangles.get(*tangle as usize) {
                let left = known.escapes_with(&self.winner, OPEN);
                put(&mut self.escapes_left, *tangle, left);
            }
        }
    }

    /// Puts into the region the free vertices from a place on whose priorities are good for the player, up to the first free
    /// one whose priority isn't; tells where that is.
    fn take_heads(
        &mut self,
        part: &[u32],
        start: usize,
        player: u32,
        region: u32,
    ) -> Result<usize, NoMemory> {
        self.queue.clear();
        for i in start..part.len() {
            let vertex = part[i];
            if number(&self.region, vertex) == FREE {
                if number(&self.arena.side, vertex) != player {
                    return Ok(i);
                }
                self.place(vertex, region, NONE)?;
            }
        }
        Ok(part.len())
    }

    /// Lets a vertex join if it may, now that one of its moves leads into the region.
    fn pull(&mut self, vertex: u32, to: u32, player: u32, region: u32) -> Result<(), NoMemory> {
        let here = number(&self.region, vertex);
        if here == OUT {
            return Ok(());
        }
        let left = number(&self.left, vertex).saturating_sub(1);
        put(&mut self.left, vertex, left);
        if number(&self.arena.owner, vertex) == player {
            if here == FREE {
                self.place(vertex, region, to)?;
            } else if here == region && number(&self.along, vertex) == NONE {
                put(&mut self.along, vertex, to);
            }
        } else if here == FREE && left == 0 {
            self.place(vertex, region, NONE)?;
        }
        Ok(())
    }

    /// Lets a tangle join if it may, now that one of its escapes is in the region.
    fn pull_tangle(&mut self, tangle: u32, player: u32, region: u32) -> Result<(), NoMemory> {
        let left = number(&self.escapes_left, tangle).saturating_sub(1);
        put(&mut self.escapes_left, tangle, left);
        let mut count: usize = 0;
        if let Some(known) = self.tangles.get(tangle as usize) {
            if known.alive
                && left == 0
                && known.player == player
                && known.is_within(&self.region, FREE, region)
            {
                count = known.vertices.len();
            }
        }
        for i in 0..count {
            self.turn();
            let (vertex, to) = self.vertex_of(tangle, i);
            if number(&self.region, vertex) == FREE {
                self.place(vertex, region, to)?;
            }
        }
        Ok(())
    }

    fn vertex_of(&self, tangle: u32, i: usize) -> (u32, u32) {
        match self.tangles.get(tangle as usize) {
            Some(known) => match known.vertices.get(i) {
                Some(vertex) => *vertex,
                None => (NONE, NONE),
            },
            None => (NONE, NONE),
        }
    }

    /// The number of a tangle with this escape.
    fn tangle_into(&self, vertex: u32, i: usize) -> Option<u32> {
        match self.into.get(vertex as usize) {
            Some(row) => row.get(i).copied(),
            None => None,
        }
    }

    /// Closes the region.
    fn close(&mut self, player: u32, region: u32) -> Result<(), NoMemory> {
        for i in 0..usize::MAX {
            let Some(to) = self.queue.get(i).copied() else {
                break;
            };
            let (begin, end) = self.arena.predecessors.range(to);
            for place in begin..end {
                self.turn();
                let vertex = number(&self.arena.predecessors.all, place);
                self.pull(vertex, to, player, region)?;
            }
            for k in 0..usize::MAX {
                let Some(tangle) = self.tangle_into(to, k) else {
                    break;
                };
                self.turn();
                self.pull_tangle(tangle, player, region)?;
            }
        }
        Ok(())
    }

    fn leaks(&self, vertex: u32, player: u32) -> bool {
        if number(&self.arena.owner, vertex) == player {
            number(&self.along, vertex) == NONE
        } else {
            number(&self.left, vertex) != 0
        }
    }

    /// The vertices of the region from which no way leads out but by escapes of the other player's.
    fn kept(&mut self, heads: usize, player: u32, region: u32) -> Result<Vec<u32>, NoMemory> {
        let gone = region.saturating_add(1);
        let mut leak = Vec::new(self.alloc);
        for i in 0..heads {
            if let Some(head) = self.queue.get(i).copied() {
                if self.leaks(head, player) {
                    put(&mut self.region, head, gone);
                    leak.push(head)?;
                }
            }
        }
        for _ in 0..u64::MAX {
            let Some(to) = leak.pop() else {
                break;
            };
            let (begin, end) = self.arena.predecessors.range(to);
            for place in begin..end {
                self.turn();
                let vertex = number(&self.arena.predecessors.all, place);
                if number(&self.region, vertex) == region
                    && (number(&self.arena.owner, vertex) != player
                        || number(&self.along, vertex) == to)
                {
                    put(&mut self.region, vertex, gone);
                    leak.push(vertex)?;
                }
            }
        }
        let mut kept = Vec::new(self.alloc);
        for i in 0..self.queue.len() {
            let vertex = self.queue[i];
            if number(&self.region, vertex) == region {
                kept.push(vertex)?;
            }
        }
        Ok(kept)
    }

    /// The ways between these vertices of a region, where the player makes the moves that are given; or, without a player,
    /// all moves.
    pub(crate) fn arcs(
        &mut self,
        vertices: &[u32],
        player: u32,
        region: u32,
    ) -> Result<Vec<Arc>, NoMemory> {
        for i in 0..vertices.len() {
            put(&mut self.local, vertices[i], small(i));
        }
        let mut arcs = Vec::new(self.alloc);
        for i in 0..vertices.len() {
            let vertex = vertices[i];
            if number(&self.arena.owner, vertex) == player {
                let to = number(&self.along, vertex);
                self.add_arc(&mut arcs, small(i), to, region)?;
            } else {
                let (begin, end) = self.arena.successors.range(vertex);
                for place in begin..end {
                    let to = number(&self.arena.successors.all, place);
                    self.add_arc(&mut arcs, small(i), to, region)?;
                }
            }
        }
        Ok(arcs)
    }

    fn add_arc(
        &mut self,
        arcs: &mut Vec<Arc>,
        from: u32,
        to: u32,
        region: u32,
    ) -> Result<(), NoMemory> {
        self.turn();
        if number(&self.region, to) == region {
            arcs.push(Arc {
                from,
                to: number(&self.local, to),
                level: 0,
                source: from,
            })?;
        }
        Ok(())
    }

    /// The tangles among these vertices of a region.
    fn tangles_among(
        &mut self,
        vertices: &[u32],
        player: u32,
        region: u32,
    ) -> Result<Vec<Tangle>, NoMemory> {
        let arcs = self.arcs(vertices, player, region)?;
        self.strong.search(small(vertices.len()), &arcs, 0)?;
        let slots = self.bottoms(&arcs)?;
        let mut found = Vec::new(self.alloc);
        for slot in &slots {
            if *slot != NONE {
                found.push(Tangle::empty(self.alloc, player))?;
            }
        }
        for i in 0..vertices.len() {
            let slot = number(&slots, number(&self.strong.class, small(i)));
            if let Some(tangle) = found.get_mut(slot as usize) {
                self.join(tangle, vertices[i], region)?;
            }
        }
        for tangle in found.iter_mut() {
            tangle.escapes.sort_unstable();
            tangle.escapes.dedup();
        }
        Ok(found)
    }

    /// For each class from which no arc leads away, if it has one at all, its number among these.
    fn bottoms(&self, arcs: &[Arc]) -> Result<Vec<u32>, NoMemory> {
        let mut slots = Vec::new(self.alloc);
        slots.resize(self.strong.classes as usize, NONE)?;
        for arc in arcs {
            put(&mut slots, number(&self.strong.class, arc.from), 0);
        }
        for arc in arcs {
            let class = number(&self.strong.class, arc.from);
            if class != number(&self.strong.class, arc.to) {
                put(&mut slots, class, NONE);
            }
        }
        let mut count: u32 = 0;
        for class in 0..self.strong.classes {
            if number(&slots, class) != NONE {
                put(&mut slots, class, count);
                count = count.saturating_add(1);
            }
        }
        Ok(slots)
    }

    /// Adds a vertex to a tangle, with its ways out.
    fn join(&mut self, tangle: &mut Tangle, vertex: u32, region: u32) -> Result<(), NoMemory> {
        if number(&self.arena.owner, vertex) == tangle.player {
            tangle.vertices.push((vertex, number(&self.along, vertex)))?;
            return Ok(());
        }
        tangle.vertices.push((vertex, NONE))?;
        let (begin, end) = self.arena.successors.range(vertex);
        for place in begin..end {
            self.turn();
            let to = number(&self.arena.successors.all, place);
            if number(&self.region, to) != region && number(&self.winner, to) == OPEN {
                tangle.escapes.push(to)?;
            }
        }
        Ok(())
    }

    /// One pass: the tangles of all regions.
    pub(crate) fn pass(&mut self, part: &[u32], mine: &[u32]) -> Result<Vec<Tangle>, NoMemory> {
        self.begin(part, mine);
        let mut found = Vec::new(self.alloc);
        let mut i: usize = 0;
        let mut region: u32 = 0;
        for _ in 0..u64::MAX {
            let Some(first) = part.get(i).copied() else {
                break;
            };
            if number(&self.region, first) == FREE {
                i = self.make_region(part, i, region, &mut found)?;
                region = region.saturating_add(2);
            } else {
                i = i.saturating_add(1);
            }
        }
        Ok(found)
    }

    /// Makes a region of the vertices from a place on, and finds its tangles.
    fn make_region(
        &mut self,
        part: &[u32],
        start: usize,
        region: u32,
        found: &mut Vec<Tangle>,
    ) -> Result<usize, NoMemory> {
        let player = match part.get(start) {
            Some(vertex) => number(&self.arena.side, *vertex),
            None => 0,
        };
        let end = self.take_heads(part, start, player, region)?;
        let heads = self.queue.len();
        self.close(player, region)?;
        let kept = self.kept(heads, player, region)?;
        if !kept.is_empty() {
            let mut tangles = self.tangles_among(&kept, player, region)?;
            found.append(&mut tangles)?;
        }
        Ok(end)
    }
}
