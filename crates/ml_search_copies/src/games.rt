// The parity game on what was expanded. Odd chooses trees and ways, Even leaves.
use crate::classes::Classes;
use crate::positions::{Next, Positions};
use ml_arrays::{NONE, number, put, small};
use ml_base::NoMemory;
use ml_candidates::priority_of;
use ml_parity::{Game, Player, Solution, solve};
use std::alloc::Global;

/// A vertex of the game.
#[derive(Clone, Copy, PartialEq, Eq)]
pub(crate) enum Vertex {
    /// Even has won: what isn't expanded counts so.
    Won,
    /// Even has lost.
    Lost,
    At(u32),
    Tree {
        position: u32,
        tree: usize,
    },
    /// A leaf of a tree at a position.
    Spot {
        position: u32,
        tree: usize,
        place: usize,
    },
    Go {
        position: u32,
        tree: usize,
        place: usize,
        way: usize,
    },
}

/// What the game is played on.
#[derive(Clone, Copy)]
pub(crate) struct Board<'a> {
    pub classes: &'a Classes,
    pub positions: &'a Positions,
}

/// A game with its solution.
#[derive(Drop)]
pub(crate) struct Solved {
    pub vertices: Vec<Vertex>,
    /// The vertex of each position that is reached.
    at: Vec<u32>,
    solution: Solution,
}

/// The vertices of a game as they are made.
#[derive(Drop)]
struct Making<'a> {
    board: Board<'a>,
    alloc: Global,
    vertices: Vec<Vertex>,
    at: Vec<u32>,
    owner: Vec<Player>,
    priority: Vec<u32>,
    successors: Vec<Vec<u64>>,
}

/// Who moves at a vertex.
fn owner_of(vertex: Vertex) -> Player {
    match vertex {
        Vertex::Tree { .. } => Player::Even,
        _ => Player::Odd,
    }
}

/// The end of a vertex without moves: a tree all of whose ends clash is Odd's, else there is none.
fn end_of(vertex: Vertex) -> u64 {
    match vertex {
        Vertex::Lost | Vertex::Tree { .. } => 1,
        _ => 0,
    }
}

impl<'a> Board<'a> {
    /// The step of a vertex, if it is one.
    fn step_of(self, vertex: Vertex) -> Option<Next> {
        match vertex {
            Vertex::Go {
                position,
                tree,
                place,
                way,
            } => self
                .positions
                .nexts(position, tree, place)
                .get(way)
                .copied(),
            _ => None,
        }
    }

    /// The game on what is reached from the start, solved; `None` where it is none, which doesn't come.
    pub(crate) fn play(self, alloc: Global) -> Result<Option<Solved>, NoMemory> {
        let mut making = Making::start(self, alloc)?;
        making.make_all()?;
        let Making {
            vertices,
            at,
            owner,
            priority,
            successors,
            ..
        } = making;
        if priority.len() != owner.len() || successors.len() != owner.len() {
            return Ok(None);
        }
        let Ok(game) = Game::build(owner, priority, successors) else {
            return Ok(None);
        };
        let solution = solve(alloc, &game)?;
        Ok(Some(Solved {
            vertices,
            at,
            solution,
        }))
    }
}

impl<'a> Making<'a> {
    /// The two ends, and the start.
    fn start(board: Board<'a>, alloc: Global) -> Result<Making<'a>, NoMemory> {
        let mut making = Making {
            board,
            alloc,
            vertices: vec![in alloc; Vertex::Won, Vertex::Lost]?,
            at: vec![in alloc; NONE; board.positions.all.len()]?,
            owner: Vec::new(alloc),
            priority: Vec::new(alloc),
            successors: Vec::new(alloc),
        };
        making.position(0)?;
        Ok(making)
    }

    /// The number of a new vertex.
    fn vertex(&mut self, vertex: Vertex) -> Result<u64, NoMemory> {
        let number = self.vertices.len();
        self.vertices.push(vertex)?;
        Ok(number as u64)
    }

    /// The vertex of a position.
    fn position(&mut self, p: u32) -> Result<u64, NoMemory> {
        if !self.board.positions.is_expanded(p) {
            return Ok(0);
        }
        let known = number(&self.at, p);
        if known != NONE {
            return Ok(known as u64);
        }
        put(&mut self.at, p, small(self.vertices.len()));
        self.vertex(Vertex::At(p))
    }

    /// Adds the trees at a position.
    fn push_trees(&mut self, position: u32, moves: &mut Vec<u64>) -> Result<(), NoMemory> {
        let class = self.board.positions.class(position);
        for tree in 0..self.board.classes.trees(class).len() {
            moves.push(self.vertex(Vertex::Tree { position, tree })?)?;
        }
        Ok(())
    }

    /// Adds the leaves of a tree, but for those from which a class that is won is reached.
    fn push_spots(
        &mut self,
        position: u32,
        tree: usize,
        moves: &mut Vec<u64>,
    ) -> Result<(), NoMemory> {
        let board = self.board;
        for (place, spot) in board.positions.spots(position, tree).iter().enumerate() {
            if board.classes.won(spot.leaf) == NONE {
                moves.push(self.vertex(Vertex::Spot {
                    position,
                    tree,
                    place,
                })?)?;
            }
        }
        Ok(())
    }

    /// Adds where Odd may go at a leaf.
    fn push_gos(
        &mut self,
        position: u32,
        tree: usize,
        place: usize,
        moves: &mut Vec<u64>,
    ) -> Result<(), NoMemory> {
        for way in 0..self.board.positions.nexts(position, tree, place).len() {
            moves.push(self.vertex(Vertex::Go {
                position,
                tree,
                place,
                way,
            })?)?;
        }
        Ok(())
    }

    /// Adds where the moves of a vertex lead.
    fn push_moves(&mut self, vertex: Vertex, moves: &mut Vec<u64>) -> Result<(), NoMemory> {
        match vertex {
            Vertex::Won | Vertex::Lost => Ok(()),
            Vertex::At(p) => self.push_trees(p, moves),
            Vertex::Tree { position, tree } => self.push_spots(position, tree, moves),
            Vertex::Spot {
                position,
                tree,
                place,
            } => self.push_gos(position, tree, place, moves),
            Vertex::Go { .. } => {
                if let Some(next) = self.board.step_of(vertex) {
                    moves.push(self.position(next.to)?)?;
                }
                Ok(())
            }
        }
    }

    /// The priority of a vertex.
    fn priority_of(&self, vertex: Vertex) -> u32 {
        let neutral = self
            .board
            .positions
            .live
            .saturating_add(1)
            .saturating_mul(2);
        match vertex {
            Vertex::Won => 0,
            Vertex::Lost => 1,
            _ => match self.board.step_of(vertex) {
                Some(next) => priority_of(neutral, next.mark),
                None => neutral,
            },
        }
    }

    /// Makes a vertex: who moves there, its priority, and where its moves lead.
    fn make(&mut self, vertex: Vertex) -> Result<(), NoMemory> {
        let mut moves = Vec::new(self.alloc);
        self.push_moves(vertex, &mut moves)?;
        if moves.is_empty() {
            moves.push(end_of(vertex))?;
        }
        let priority = self.priority_of(vertex);
        self.successors.push(moves)?;
        self.owner.push(owner_of(vertex))?;
        self.priority.push(priority)?;
        Ok(())
    }

    /// Makes the vertices that are reached from the start.
    fn make_all(&mut self) -> Result<(), NoMemory> {
        for i in 0..u64::MAX {
            let Some(vertex) = self.vertices.get(i as usize).copied() else {
                break;
            };
            self.make(vertex)?;
        }
        Ok(())
    }
}

impl Solved {
    /// Does Odd win a vertex?
    pub(crate) fn is_odd(&self, v: usize) -> bool {
        match self.solution.winner.get(v) {
            Some(Player::Odd) => true,
            _ => false,
        }
    }

    /// Where the winner of a vertex goes.
    pub(crate) fn choice(&self, v: usize) -> Vertex {
        match self.solution.choice.get(v) {
            Some(next) => match self.vertices.get(*next as usize) {
                Some(vertex) => *vertex,
                None => Vertex::Won,
            },
            None => Vertex::Won,
        }
    }
}
