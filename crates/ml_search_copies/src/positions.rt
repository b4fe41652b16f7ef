// Positions: classes with names, and where Odd may go from them.
use crate::classes::{Classes, Way};
use crate::letters::write_states;
use crate::naming::{Letter, Names};
use crate::regions::Regions;
use indexmap::IndexSet;
use ml_arrays::{NONE, number, small};
use ml_base::NoMemory;
use ml_trace::Mark;
use std::alloc::Global;

/// Where a step leads.
#[derive(Clone, Copy)]
pub(crate) struct Next {
    pub to: u32,
    pub mark: Mark,
}

/// A leaf of a tree at a position: the steps along its ways.
#[derive(Drop)]
pub(crate) struct Spot {
    pub leaf: u32,
    pub nexts: Vec<Next>,
}

/// A class with names.
#[derive(Drop)]
pub(crate) struct Position {
    pub class: u32,
    pub names: Names,
    /// Of each tree its leaves, once the position is expanded.
    pub trees: Option<Vec<Vec<Spot>>>,
}

/// The positions by their numbers.
#[derive(Drop)]
pub(crate) struct Positions {
    numbers: IndexSet<Vec<u32>>,
    pub all: Vec<Position>,
    /// The greatest number of names in use.
    pub live: u32,
    alloc: Global,
}

impl Positions {
    /// No position.
    pub(crate) fn empty(alloc: Global) -> Positions {
        Positions {
            numbers: IndexSet::new(alloc),
            all: Vec::new(alloc),
            live: 0,
            alloc,
        }
    }

    /// The number of a position.
    fn number(&mut self, class: u32, names: Names) -> Result<u32, NoMemory> {
        let mut code = vec![in self.alloc; class]?;
        names.write(&mut code)?;
        let (number, _) = self.numbers.insert_full(code)?;
        if number >= self.all.len() {
            self.live = self.live.max(names.live);
            self.all.push(Position {
                class,
                names,
                trees: None,
            })?;
        }
        Ok(small(number))
    }

    /// The position of a class where nothing was followed before.
    pub(crate) fn start(
        &mut self,
        regions: &Regions,
        classes: &Classes,
        class: u32,
    ) -> Result<(), NoMemory> {
        let mut letter = Letter {
            moves: Vec::new(self.alloc),
            states: Vec::new(self.alloc),
        };
        if let Some(class) = classes.all.get(class as usize) {
            write_states(regions, class, &mut letter.states)?;
        }
        let (names, _) = Names::empty(self.alloc).step(self.alloc, &letter)?;
        self.number(class, names)?;
        Ok(())
    }

    /// The class of a position.
    pub(crate) fn class(&self, p: u32) -> u32 {
        match self.all.get(p as usize) {
            Some(position) => position.class,
            None => NONE,
        }
    }

    /// How many states are followed at a position.
    fn breadth(&self, p: u32) -> usize {
        match self.all.get(p as usize) {
            Some(position) => position.names.stacks.len(),
            None => 0,
        }
    }

    /// Is a position expanded?
    pub(crate) fn is_expanded(&self, p: u32) -> bool {
        match self.all.get(p as usize) {
            Some(position) => position.trees.is_some(),
            None => false,
        }
    }

    /// The leaves of each tree of a position, once it is expanded.
    pub(crate) fn trees(&self, p: u32) -> &[Vec<Spot>] {
        match self.all.get(p as usize) {
            Some(
                Position {
                    trees: Some(trees),
                    ..
                },
            ) => trees.as_slice(),
            _ => &[],
        }
    }

    /// The leaves of a tree of a position.
    pub(crate) fn spots(&self, p: u32, tree: usize) -> &[Spot] {
        match self.trees(p).get(tree) {
            Some(spots) => spots.as_slice(),
            None => &[],
        }
    }

    /// The steps from a position at a leaf of a tree.
    pub(crate) fn nexts(&self, p: u32, tree: usize, place: usize) -> &[Next] {
        match self.spots(p, tree).get(place) {
            Some(spot) => spot.nexts.as_slice(),
            None => &[],
        }
    }

    /// The step along a way from a position.
    fn next(&mut self, p: u32, way: &Way) -> Result<Option<Next>, NoMemory> {
        let (Some(position), Some(letter)) = (self.all.get(p as usize), &way.letter) else {
            return Ok(None);
        };
        let (names, mark) = position.names.step(self.alloc, letter)?;
        let to = self.number(way.to, names)?;
        Ok(Some(Next { to, mark }))
    }

    /// The steps from a position along the ways of a leaf.
    fn make_nexts(&mut self, p: u32, ways: &[Way]) -> Result<Vec<Next>, NoMemory> {
        let mut nexts = Vec::new(self.alloc);
        for way in ways {
            if let Some(next) = self.next(p, way)? {
                nexts.push(next)?;
            }
        }
        Ok(nexts)
    }

    /// Adds a leaf of a position, with steps unless a class that is won lies within its targets; tells how much was looked at.
    fn push_spot(
        &mut self,
        regions: &Regions,
        classes: &mut Classes,
        p: u32,
        leaf: u32,
        spots: &mut Vec<Spot>,
    ) -> Result<usize, NoMemory> {
        let mut looked: usize = 1;
        let mut nexts = Vec::new(self.alloc);
        if classes.won(leaf) == NONE {
            looked = classes.make_letters(self.alloc, regions, self.class(p), leaf)?;
            nexts = self.make_nexts(p, classes.ways(leaf))?;
            let steps = nexts.len().saturating_mul(self.breadth(p));
            looked = looked.saturating_add(steps);
        }
        spots.push(Spot { leaf, nexts })?;
        Ok(looked)
    }

    /// Makes the steps from a position; tells how much was looked at.
    pub(crate) fn expand(
        &mut self,
        regions: &Regions,
        classes: &mut Classes,
        p: u32,
    ) -> Result<usize, NoMemory> {
        let mut trees = Vec::new(self.alloc);
        let mut looked: usize = 1;
        for tree in 0..classes.trees(self.class(p)).len() {
            let more = self.push_tree(regions, classes, p, tree, &mut trees)?;
            looked = looked.saturating_add(more);
        }
        if let Some(position) = self.all.get_mut(p as usize) {
            position.trees = Some(trees);
        }
        Ok(looked)
    }

    /// Adds the leaves of a tree.
    fn push_tree(
        &mut self,
        regions: &Regions,
        classes: &mut Classes,
        p: u32,
        tree: usize,
        trees: &mut Vec<Vec<Spot>>,
    ) -> Result<usize, NoMemory> {
        let mut spots = Vec::new(self.alloc);
        let looked = self.write_spots(regions, classes, p, tree, &mut spots)?;
        trees.push(spots)?;
        Ok(looked)
    }

    fn write_spots(
        &mut self,
        regions: &Regions,
        classes: &mut Classes,
        p: u32,
        tree: usize,
        spots: &mut Vec<Spot>,
    ) -> Result<usize, NoMemory> {
        let class = self.class(p);
        let mut looked: usize = 1;
        for place in 0..classes.leaves_of(class, tree).len() {
            let leaf = number(classes.leaves_of(class, tree), small(place));
            let more = self.push_spot(regions, classes, p, leaf, spots)?;
            looked = looked.saturating_add(more);
        }
        Ok(looked)
    }
}
