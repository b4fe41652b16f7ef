// A game laid out flat, for the engines.
use ml_base::NoMemory;
use ml_game_check::numbers::{NONE, count_at, number, put, small};
use ml_parity::{Game, Player};
use std::alloc::Global;

/// Rows of vertices, one behind the other.
#[derive(Drop)]
pub(crate) struct Rows {
    /// Where each row begins, and the last one ends.
    pub first: Vec<u32>,
    pub all: Vec<u32>,
}

impl Rows {
    /// Where the row of a vertex begins, and where it ends.
    pub(crate) fn range(&self, vertex: u32) -> (u32, u32) {
        let begin = number(&self.first, vertex);
        let end = number(&self.first, vertex.saturating_add(1));
        if begin == NONE || end == NONE {
            (0, 0)
        } else {
            (begin, end)
        }
    }
}

/// A game: 0 stands for Even, and 1 for Odd.
#[derive(Drop)]
pub(crate) struct Arena {
    pub size: u32,
    pub owner: Vec<u32>,
    pub priority: Vec<u32>,
    /// For whom the priority of each vertex is good.
    pub side: Vec<u32>,
    pub successors: Rows,
    pub predecessors: Rows,
}

/// The number that stands for a player.
fn player_number(player: Player) -> u32 {
    match player {
        Player::Even => 0,
        Player::Odd => 1,
    }
}

/// The player for whom a number stands.
pub(crate) fn player_of(number: u32) -> Player {
    if number == 0 {
        Player::Even
    } else {
        Player::Odd
    }
}

fn successors_of(alloc: Global, game: &Game) -> Result<Rows, NoMemory> {
    let mut rows = Rows {
        first: Vec::new(alloc),
        all: Vec::new(alloc),
    };
    rows.first.push(0)?;
    for row in &game.successors {
        for to in row {
            rows.all.push(small(*to as usize))?;
        }
        let end = small(rows.all.len());
        rows.first.push(end)?;
    }
    Ok(rows)
}

/// The vertices from which moves lead to each vertex.
fn turned(alloc: Global, size: u32, rows: &Rows) -> Result<Rows, NoMemory> {
    let mut next = Vec::new(alloc);
    next.resize(size as usize, 0)?;
    for to in &rows.all {
        count_at(&mut next, *to);
    }
    let mut turned = Rows {
        first: Vec::new(alloc),
        all: Vec::new(alloc),
    };
    let mut begin: u32 = 0;
    for vertex in 0..size {
        turned.first.push(begin)?;
        let many = number(&next, vertex);
        put(&mut next, vertex, begin);
        begin = begin.saturating_add(many);
    }
    turned.first.push(begin)?;
    turned.all.resize(begin as usize, NONE)?;
    for vertex in 0..size {
        let (begin, end) = rows.range(vertex);
        for place in begin..end {
            let to = number(&rows.all, place);
            put(&mut turned.all, number(&next, to), vertex);
            count_at(&mut next, to);
        }
    }
    Ok(turned)
}

/// Lays a game out.
pub(crate) fn arena_of(alloc: Global, game: &Game) -> Result<Arena, NoMemory> {
    let size = small(game.size());
    let mut owner = Vec::with_capacity(alloc, game.size())?;
    for player in &game.owner {
        owner.push(player_number(*player))?;
    }
    let mut side = Vec::with_capacity(alloc, game.size())?;
    for priority in &game.priority {
        side.push(player_number(Player::of_priority(*priority)))?;
    }
    let priority = Vec::from_slice(alloc, &game.priority)?;
    let successors = successors_of(alloc, game)?;
    let predecessors = turned(alloc, size, &successors)?;
    Ok(Arena {
        size,
        owner,
        priority,
        side,
        successors,
        predecessors,
    })
}

impl Arena {
    /// The vertices, ascending by priority.
    pub(crate) fn by_priority(&self, alloc: Global) -> Result<Vec<u32>, NoMemory> {
        let mut pairs = Vec::with_capacity(alloc, self.size as usize)?;
        for vertex in 0..self.size {
            pairs.push((number(&self.priority, vertex), vertex))?;
        }
        pairs.sort_unstable();
        let mut order = Vec::with_capacity(alloc, self.size as usize)?;
        for (_, vertex) in &pairs {
            order.push(*vertex)?;
        }
        Ok(order)
    }
}

/// Who wins each vertex, and a move for each.
#[derive(Drop)]
pub(crate) struct Guess {
    pub winner: Vec<u32>,
    pub choice: Vec<u32>,
}
