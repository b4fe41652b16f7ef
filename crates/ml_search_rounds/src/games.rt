// Parity games on what was made.
use crate::positions::{Made, Next};
use crate::trees::Standing;
use ml_arrays::{NONE, number, put, small};
use ml_base::NoMemory;
use ml_candidates::priority_of;
use ml_parity::{Game, Player, Solution, solve};

/// A vertex of the game.
#[derive(Clone, Copy, PartialEq, Eq)]
pub(crate) enum Vertex {
    /// Even has won: nothing is asked for, or what waits is hoped for.
    Won,
    /// Even has lost.
    Lost,
    At(u32),
    Link {
        position: u32,
        link: usize,
    },
    Go {
        position: u32,
        link: usize,
        next: usize,
    },
}

/// How what waits is taken.
#[derive(Clone, Copy, PartialEq, Eq)]
pub(crate) enum Mood {
    /// What waits is won for Even, and weak leaves count.
    Hopeful,
    /// What waits is lost, and weak leaves don't count.
    Careful,
}

/// A game on what is reached from the start, with its solution.
#[derive(Drop)]
pub(crate) struct Solved {
    pub vertices: Vec<Vertex>,
    /// The vertex of each position that is reached.
    pub at: Vec<u32>,
    pub solution: Solution,
}

/// The vertices of a game as they are made.
#[derive(Drop)]
struct Making<'a> {
    made: Made<'a>,
    mood: Mood,
    vertices: Vec<Vertex>,
    at: Vec<u32>,
    owner: Vec<Player>,
    priority: Vec<u32>,
    successors: Vec<Vec<u64>>,
}

/// Who moves at a vertex.
fn owner_of(vertex: Vertex) -> Player {
    match vertex {
        Vertex::Link { .. } => Player::Odd,
        _ => Player::Even,
    }
}

/// The end of a vertex with no moves: who should move there has lost.
fn end_of(vertex: Vertex) -> u64 {
    match vertex {
        Vertex::Won | Vertex::Link { .. } => 0,
        _ => 1,
    }
}

impl<'a> Making<'a> {
    /// The two ends, and the start.
    fn start(made: Made<'a>, mood: Mood) -> Result<Making<'a>, NoMemory> {
        let alloc = made.terms.alloc;
        let mut making = Making {
            made,
            mood,
            vertices: vec![in alloc; Vertex::Won, Vertex::Lost]?,
            at: vec![in alloc; NONE; made.positions.all.len()]?,
            owner: Vec::new(alloc),
            priority: Vec::new(alloc),
            successors: Vec::new(alloc),
        };
        making.position(0)?;
        Ok(making)
    }

    /// The number of a new vertex.
    fn vertex(&mut self, vertex: Vertex) -> Result<u64, NoMemory> {
        let number = self.vertices.len();
        self.vertices.push(vertex)?;
        Ok(number as u64)
    }

    /// The vertex of a position.
    fn position(&mut self, p: u32) -> Result<u64, NoMemory> {
        let known = number(&self.at, p);
        if known != NONE {
            return Ok(known as u64);
        }
        put(&mut self.at, p, small(self.vertices.len()));
        self.vertex(Vertex::At(p))
    }

    /// Adds the moves along the links of a position to leaves that stand so.
    fn push_links(
        &mut self,
        position: u32,
        standing: Standing,
        moves: &mut Vec<u64>,
    ) -> Result<(), NoMemory> {
        let made = self.made;
        for (link, found) in made.positions.links(position).iter().enumerate() {
            if made.trees.standing(found.leaf) == standing {
                moves.push(self.vertex(Vertex::Link { position, link })?)?;
            }
        }
        Ok(())
    }

    /// Adds what Even may take at a position.
    fn push_options(&mut self, p: u32, moves: &mut Vec<u64>) -> Result<(), NoMemory> {
        self.push_links(p, Standing::Full, moves)?;
        if self.mood == Mood::Careful || (!moves.is_empty() && !self.made.positions.hopes(p)) {
            return Ok(());
        }
        self.push_links(p, Standing::Weak, moves)?;
        if self.made.waits(p) {
            moves.push(0)?;
        }
        Ok(())
    }

    /// Adds where Odd may go along a link.
    fn push_gos(
        &mut self,
        position: u32,
        link: usize,
        moves: &mut Vec<u64>,
    ) -> Result<(), NoMemory> {
        let made = self.made;
        if let Some(found) = made.positions.links(position).get(link) {
            for next in 0..found.nexts.len() {
                moves.push(self.vertex(Vertex::Go {
                    position,
                    link,
                    next,
                })?)?;
            }
        }
        Ok(())
    }

    /// Adds where the moves of a vertex lead, if it has any beside the one to its end.
    fn push_moves(&mut self, vertex: Vertex, moves: &mut Vec<u64>) -> Result<(), NoMemory> {
        match vertex {
            Vertex::Won | Vertex::Lost => Ok(()),
            Vertex::At(p) => self.push_options(p, moves),
            Vertex::Link { position, link } => self.push_gos(position, link, moves),
            Vertex::Go { .. } => {
                if let Some(next) = self.made.step_of(vertex) {
                    moves.push(self.position(next.to)?)?;
                }
                Ok(())
            }
        }
    }

    /// The priority of a vertex.
    fn priority_of(&self, vertex: Vertex) -> u32 {
        match vertex {
            Vertex::Won => 0,
            Vertex::Lost => 1,
            _ => match self.made.step_of(vertex) {
                Some(next) => priority_of(self.made.terms.neutral, next.mark),
                None => self.made.terms.neutral,
            },
        }
    }

    /// Makes a vertex: who moves there, its priority, and where its moves lead.
    fn make(&mut self, vertex: Vertex) -> Result<(), NoMemory> {
        let mut moves = Vec::new(self.made.terms.alloc);
        self.push_moves(vertex, &mut moves)?;
        if moves.is_empty() {
            moves.push(end_of(vertex))?;
        }
        let priority = self.priority_of(vertex);
        self.successors.push(moves)?;
        self.owner.push(owner_of(vertex))?;
        self.priority.push(priority)?;
        Ok(())
    }

    /// Makes the vertices that are reached from the start.
    fn make_all(&mut self) -> Result<(), NoMemory> {
        for i in 0..u64::MAX {
            let Some(vertex) = self.vertices.get(i as usize).copied() else {
                break;
            };
            self.make(vertex)?;
        }
        Ok(())
    }
}

impl<'a> Made<'a> {
    /// The step of a vertex, if it is one.
    fn step_of(self, vertex: Vertex) -> Option<Next> {
        match vertex {
            Vertex::Go {
                position,
                link,
                next,
            } => self.positions.next_at(position, link, next),
            _ => None,
        }
    }

    /// The game on what is reached from the start, solved; `None` where it is none, which doesn't come.
    pub(crate) fn play(self, mood: Mood) -> Result<Option<Solved>, NoMemory> {
        let mut making = Making::start(self, mood)?;
        making.make_all()?;
        let Making {
            vertices,
            at,
            owner,
            priority,
            successors,
            ..
        } = making;
        if priority.len() != owner.len() || successors.len() != owner.len() {
            return Ok(None);
        }
        let Ok(game) = Game::build(owner, priority, successors) else {
            return Ok(None);
        };
        let solution = solve(self.terms.alloc, &game)?;
        Ok(Some(Solved {
            vertices,
            at,
            solution,
        }))
    }
}

impl Solved {
    /// Does Even win a vertex?
    pub(crate) fn is_even(&self, v: u32) -> bool {
        match self.solution.winner.get(v as usize) {
            Some(Player::Even) => true,
            _ => false,
        }
    }

    /// Does Even win a position? Of what isn't reached, no.
    pub(crate) fn is_won(&self, p: u32) -> bool {
        self.is_even(number(&self.at, p))
    }

    /// Is the position reached?
    pub(crate) fn is_reached(&self, p: u32) -> bool {
        number(&self.at, p) != NONE
    }

    /// Where the winner of a vertex goes.
    pub(crate) fn choice(&self, v: u32) -> Vertex {
        match self.solution.choice.get(v as usize) {
            Some(next) => self.vertex(*next as usize),
            None => Vertex::Lost,
        }
    }

    /// A vertex.
    pub(crate) fn vertex(&self, v: usize) -> Vertex {
        match self.vertices.get(v) {
            Some(vertex) => *vertex,
            None => Vertex::Lost,
        }
    }

    /// What Even takes at a position.
    pub(crate) fn taken(&self, p: u32) -> Vertex {
        self.choice(number(&self.at, p))
    }
}
