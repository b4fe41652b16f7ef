// Rounds: both games are solved, and what waits on Even's way is made.
use crate::games::{Mood, Solved, Vertex};
use crate::positions::{Made, Positions};
use crate::terms::Terms;
use crate::trees::{Standing, Trees};
use ml_arrays::{NONE, NumberSet, small};
use ml_base::NoMemory;
use ml_candidates::Candidate;
use ml_graph::ModalGraph;
use ml_history::History;
use ml_sequent::Sequent;
use std::alloc::Global;

/// How much is made for each position of the limit.
const WORK: usize = 8;

/// So many vertices of a game that is solved count as one thing that is made.
const VERTICES: usize = 16;

/// What was made of a graph, and how much may be made.
#[derive(Drop)]
pub(crate) struct Engine<'a> {
    terms: Terms<'a>,
    trees: Trees,
    positions: Positions,
    /// How many vertices the games had that were solved.
    solved: usize,
    most: usize,
}

/// What a round came to.
#[derive(Drop)]
enum Round {
    /// A candidate was found, or nothing more is made.
    Over(Option<Candidate>),
    /// More was made, or weak leaves were taken back.
    GoesOn,
}

/// What is on Even's way.
#[derive(Drop)]
struct Way {
    /// The positions at which something waits.
    waiting: Vec<u32>,
    /// The weak leaves that are taken.
    weak: Vec<u32>,
}

impl<'a> Engine<'a> {
    /// Nothing is made yet.
    pub(crate) fn new(
        alloc: Global,
        graph: &'a ModalGraph,
        limit: u32,
    ) -> Result<Engine<'a>, NoMemory> {
        let terms = Terms::new(alloc, graph)?;
        let trees = Trees::new(&terms)?;
        let positions = Positions::new(&terms);
        Ok(Engine {
            terms,
            trees,
            positions,
            solved: 0,
            most: (limit as usize).saturating_mul(WORK),
        })
    }

    /// Makes the start, where its state has a number that histories take.
    fn begin(&mut self) -> Result<(), NoMemory> {
        let alloc = self.terms.alloc;
        let root = self.terms.graph.root();
        let state = self.terms.state(root, 0);
        if state < 1 << 30 {
            let sequent = Sequent::of(alloc, &[root])?;
            let sequent = self.trees.sequent(&self.terms, sequent)?;
            let history = History::start(alloc, state)?;
            self.positions.number(&self.terms, sequent, history)?;
        }
        Ok(())
    }

    /// What was made.
    fn made(&self) -> Made<'_> {
        Made {
            terms: &self.terms,
            trees: &self.trees,
            positions: &self.positions,
        }
    }

    /// How much was made.
    fn spent(&self) -> usize {
        let made = self.trees.spent.saturating_add(self.positions.all.len());
        made.saturating_add(self.solved / VERTICES)
    }

    /// The game on what was made, solved.
    fn play(&mut self, mood: Mood) -> Result<Option<Solved>, NoMemory> {
        let game = self.made().play(mood)?;
        if let Some(game) = &game {
            self.solved = self.solved.saturating_add(game.vertices.len());
        }
        Ok(game)
    }

    /// The start, and then rounds until something is found or enough is made.
    pub(crate) fn run(&mut self) -> Result<Option<Candidate>, NoMemory> {
        self.begin()?;
        if self.positions.all.is_empty() {
            return Ok(None);
        }
        let _ = self.explore(vec![in self.terms.alloc; 0]?)?;
        for _ in 0..u64::MAX {
            if let Round::Over(found) = self.round()? {
                return Ok(found);
            }
        }
        Ok(None)
    }

    /// A round: the careful game, where Even's win is a model, and then the hopeful one.
    fn round(&mut self) -> Result<Round, NoMemory> {
        let Some(careful) = self.play(Mood::Careful)? else {
            return Ok(Round::Over(None));
        };
        if careful.is_won(0) {
            let found = self.made().model(&careful)?;
            return Ok(Round::Over(found));
        }
        self.hopeful_round()
    }

    /// The hopeful game, where Odd's win is a refutation, and else more on Even's way, unless enough was made.
    fn hopeful_round(&mut self) -> Result<Round, NoMemory> {
        let Some(hopeful) = self.hopeful()? else {
            return Ok(Round::Over(None));
        };
        if !hopeful.is_won(0) {
            let found = self.made().refutation(&hopeful)?;
            return Ok(Round::Over(found));
        }
        if self.spent() >= self.most {
            return Ok(Round::Over(None));
        }
        self.more(&hopeful)?;
        Ok(Round::GoesOn)
    }

    /// Makes what waits on Even's way; where nothing does, takes back the weak leaves there.
    fn more(&mut self, hopeful: &Solved) -> Result<(), NoMemory> {
        let Way { waiting, weak } = self.way(hopeful)?;
        if waiting.is_empty() {
            for leaf in weak {
                self.trees.strengthen(leaf);
            }
            return Ok(());
        }
        let made = self.explore(waiting)?;
        self.widen(hopeful, made)
    }

    /// The hopeful game, where Even may hope at more positions until it is won, or there are none.
    fn hopeful(&mut self) -> Result<Option<Solved>, NoMemory> {
        for _ in 0..u64::MAX {
            let Some(game) = self.play(Mood::Hopeful)? else {
                return Ok(None);
            };
            if game.is_won(0) || !self.hope(&game) {
                return Ok(Some(game));
            }
        }
        Ok(None)
    }

    /// Even may hope at all positions that are lost; false if there are none at which something is to be hoped for.
    fn hope(&mut self, game: &Solved) -> bool {
        let mut some = false;
        for p in 0..small(self.positions.all.len()) {
            if game.is_reached(p) && !game.is_won(p) {
                let more = self.has_more(p);
                if let Some(position) = self.positions.all.get_mut(p as usize) {
                    if more && !position.hopes {
                        position.hopes = true;
                        some = true;
                    }
                }
            }
        }
        some
    }

    /// Does something wait at a position, or has it weak leaves?
    fn has_more(&self, p: u32) -> bool {
        if self.made().waits(p) {
            return true;
        }
        for link in self.positions.links(p) {
            if self.trees.standing(link.leaf) == Standing::Weak {
                return true;
            }
        }
        false
    }

    /// What is on Even's way from the start.
    fn way(&self, game: &Solved) -> Result<Way, NoMemory> {
        let alloc = self.terms.alloc;
        let mut way = Way {
            waiting: Vec::new(alloc),
            weak: Vec::new(alloc),
        };
        let mut seen = NumberSet::empty(alloc);
        let mut work: Vec<u32> = vec![in alloc; 0]?;
        for _ in 0..u64::MAX {
            let Some(p) = work.pop() else {
                break;
            };
            if !seen.insert(p)? {
                continue;
            }
            match game.taken(p) {
                Vertex::Link { link, .. } => {
                    if let Some(found) = self.positions.links(p).get(link) {
                        if self.trees.standing(found.leaf) == Standing::Weak {
                            way.weak.push(found.leaf)?;
                        }
                        for next in &found.nexts {
                            work.push(next.to)?;
                        }
                    }
                }
                _ => way.waiting.push(p)?,
            }
        }
        Ok(way)
    }

    /// Makes leaves at positions, and goes on depth first from what is new; tells how many.
    fn explore(&mut self, mut work: Vec<u32>) -> Result<usize, NoMemory> {
        let half = self.trees.leaves.len() / 2;
        let most = half.max(8);
        let mut made: usize = 0;
        for _ in 0..u64::MAX {
            if made >= most || self.spent() >= self.most {
                break;
            }
            let Some(p) = work.pop() else {
                break;
            };
            let known = self.positions.all.len();
            self.grow(p)?;
            made = made.saturating_add(1);
            for next in known..self.positions.all.len() {
                work.push(small(next))?;
            }
        }
        Ok(made)
    }

    /// Where few leaves were made on Even's way, makes more where something waits and Even hopes. So what is made grows by a
    /// part of itself in each round.
    fn widen(&mut self, game: &Solved, made: usize) -> Result<(), NoMemory> {
        let most = self.trees.leaves.len() / 8;
        let mut made = made;
        for p in 0..small(game.at.len()) {
            if made >= most || self.spent() >= self.most {
                break;
            }
            if game.is_won(p) && self.made().waits(p) {
                self.grow(p)?;
                made = made.saturating_add(1);
            }
        }
        Ok(())
    }

    /// Links a position to one more leaf, or more where it has several; makes them if there are none.
    fn grow(&mut self, p: u32) -> Result<(), NoMemory> {
        let sequent = self.positions.sequent(p);
        if sequent == NONE {
            return Ok(());
        }
        let looked = match self.positions.all.get(p as usize) {
            Some(position) => position.looked,
            None => 0,
        };
        if looked >= self.trees.leaves_of(sequent).len() {
            let most = self.most;
            self.trees.grow(&self.terms, sequent, looked.max(1), most)?;
        }
        let count = self.trees.leaves_of(sequent).len();
        for k in looked..count {
            let Some(leaf) = self.trees.leaves_of(sequent).get(k) else {
                break;
            };
            let leaf = *leaf;
            if self.trees.standing(leaf) != Standing::Gone {
                self.positions.link(&self.terms, &self.trees, p, leaf)?;
            }
        }
        if let Some(position) = self.positions.all.get_mut(p as usize) {
            position.looked = count;
            position.hopes = false;
        }
        Ok(())
    }
}
