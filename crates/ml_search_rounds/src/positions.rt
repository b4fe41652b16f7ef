// Positions: sequents with histories, linked to leaves of the sequents' trees.
use crate::terms::Terms;
use crate::trees::Trees;
use indexmap::IndexSet;
use ml_arrays::{NONE, small};
use ml_base::NoMemory;
use ml_history::History;
use ml_trace::Mark;

/// Where a way leads from a position.
#[derive(Clone, Copy)]
pub(crate) struct Next {
    pub mark: Mark,
    pub to: u32,
}

/// A leaf at a position: where its ways lead.
#[derive(Drop)]
pub(crate) struct Link {
    pub leaf: u32,
    pub nexts: Vec<Next>,
}

/// A sequent with a history.
#[derive(Drop)]
pub(crate) struct Position {
    pub sequent: u32,
    pub history: u32,
    pub links: Vec<Link>,
    /// How many leaves of the tree were looked at.
    pub looked: usize,
    /// What waits here may be hoped for, also where leaves were made.
    pub hopes: bool,
}

/// The positions by their numbers.
#[derive(Drop)]
pub(crate) struct Positions {
    pub histories: IndexSet<History>,
    numbers: IndexSet<(u32, u32)>,
    pub all: Vec<Position>,
}

impl Positions {
    pub(crate) fn new(terms: &Terms) -> Positions {
        Positions {
            histories: IndexSet::new(terms.alloc),
            numbers: IndexSet::new(terms.alloc),
            all: Vec::new(terms.alloc),
        }
    }

    /// The number of a position.
    pub(crate) fn number(
        &mut self,
        terms: &Terms,
        sequent: u32,
        history: History,
    ) -> Result<u32, NoMemory> {
        let (history, _) = self.histories.insert_full(history)?;
        let history = small(history);
        let (number, _) = self.numbers.insert_full((sequent, history))?;
        if number >= self.all.len() {
            self.all.push(Position {
                sequent,
                history,
                links: Vec::new(terms.alloc),
                looked: 0,
                hopes: false,
            })?;
        }
        Ok(small(number))
    }

    /// The sequent of a position.
    pub(crate) fn sequent(&self, p: u32) -> u32 {
        match self.all.get(p as usize) {
            Some(position) => position.sequent,
            None => NONE,
        }
    }

    /// The links of a position.
    pub(crate) fn links(&self, p: u32) -> &[Link] {
        match self.all.get(p as usize) {
            Some(position) => position.links.as_slice(),
            None => &[],
        }
    }

    /// Where a way of a link of a position leads, if it is there.
    pub(crate) fn next_at(&self, p: u32, link: usize, way: usize) -> Option<Next> {
        match self.links(p).get(link) {
            Some(found) => found.nexts.get(way).copied(),
            None => None,
        }
    }

    /// May what waits at a position be hoped for, also where leaves were made?
    pub(crate) fn hopes(&self, p: u32) -> bool {
        match self.all.get(p as usize) {
            Some(position) => position.hopes,
            None => false,
        }
    }

    /// The step of a position's history along a way of a leaf.
    fn next(
        &mut self,
        terms: &Terms,
        trees: &Trees,
        p: u32,
        leaf: u32,
        way: usize,
    ) -> Result<Option<Next>, NoMemory> {
        let Some(position) = self.all.get(p as usize) else {
            return Ok(None);
        };
        let Some(leaf) = trees.leaves.get(leaf as usize) else {
            return Ok(None);
        };
        let Some(way) = leaf.ways.get(way) else {
            return Ok(None);
        };
        let Some(history) = self.histories.as_slice().get(position.history as usize) else {
            return Ok(None);
        };
        let (history, mark) = history.step(&way.letter)?;
        let to = self.number(terms, way.next, history)?;
        Ok(Some(Next { mark, to }))
    }

    /// Links a position to a leaf of its tree.
    pub(crate) fn link(
        &mut self,
        terms: &Terms,
        trees: &Trees,
        p: u32,
        leaf: u32,
    ) -> Result<(), NoMemory> {
        let ways = match trees.leaves.get(leaf as usize) {
            Some(leaf) => leaf.ways.len(),
            None => 0,
        };
        let mut nexts = Vec::with_capacity(terms.alloc, ways)?;
        for way in 0..ways {
            if let Some(next) = self.next(terms, trees, p, leaf, way)? {
                nexts.push(next)?;
            }
        }
        if let Some(position) = self.all.get_mut(p as usize) {
            position.links.push(Link { leaf, nexts })?;
        }
        Ok(())
    }
}

/// What was made of a graph.
#[derive(Clone, Copy)]
pub(crate) struct Made<'a> {
    pub terms: &'a Terms<'a>,
    pub trees: &'a Trees,
    pub positions: &'a Positions,
}

impl<'a> Made<'a> {
    /// Does something wait at a position?
    pub(crate) fn waits(self, p: u32) -> bool {
        let Some(position) = self.positions.all.get(p as usize) else {
            return false;
        };
        self.trees.waits(position.sequent)
            || position.looked < self.trees.leaves_of(position.sequent).len()
    }
}
