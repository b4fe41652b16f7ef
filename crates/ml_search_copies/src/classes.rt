// Classes of entries, with what can be decided at them.
use crate::naming::Letter;
use indexmap::IndexSet;
use ml_arrays::{NONE, signature, small, within};
use ml_base::NoMemory;
use ml_sequent::ClashCause;
use std::alloc::Global;

/// What is decided at a place of a tree.
#[derive(Clone, Copy, PartialEq, Eq)]
pub(crate) enum Step {
    Split { node: u32, left: u32, right: u32 },
    Clash(ClashCause),
    /// It goes on at this leaf.
    Leaf(u32),
}

/// A walk from a node of a sequent to a target, with its lowest priority.
#[derive(Clone, Copy)]
pub(crate) struct Trace {
    pub from: u32,
    pub lowest: u32,
    pub to: u32,
}

/// A class to which a leaf may go.
#[derive(Drop)]
pub(crate) struct Way {
    pub to: u32,
    /// How threads go on there, once this was asked.
    pub letter: Option<Letter>,
}

/// Where a decision goes on along a diamond.
#[derive(Drop)]
pub(crate) struct Leaf {
    pub diamond: u32,
    pub targets: Vec<u32>,
    pub traces: Vec<Trace>,
    pub ways: Vec<Way>,
    /// A class that is won and lies within the targets, or `NONE`.
    pub won: u32,
}

/// A decision without marks.
#[derive(Drop)]
pub(crate) struct Tree {
    pub root: u32,
    pub leaves: Vec<u32>,
}

/// Entries with the same sequent and the same thread in focus, whatever passages are left.
#[derive(Drop)]
pub(crate) struct Class {
    pub sequent: Vec<u32>,
    /// The state of the thread in focus, or `NONE`.
    pub thread: u32,
    pub trees: Vec<Tree>,
}

/// All classes, with the places and leaves of their trees.
#[derive(Drop)]
pub(crate) struct Classes {
    numbers: IndexSet<(Vec<u32>, u32)>,
    pub all: Vec<Class>,
    pub steps: Vec<Step>,
    pub leaves: Vec<Leaf>,
    /// The leaves at which no passage is left.
    pub ended: Vec<u32>,
    alloc: Global,
}

/// How much was made.
#[derive(Clone, Copy)]
pub(crate) struct Made {
    steps: usize,
    leaves: usize,
    ended: usize,
}

impl Classes {
    /// No class.
    pub(crate) fn empty(alloc: Global) -> Classes {
        Classes {
            numbers: IndexSet::new(alloc),
            all: Vec::new(alloc),
            steps: Vec::new(alloc),
            leaves: Vec::new(alloc),
            ended: Vec::new(alloc),
            alloc,
        }
    }

    /// The number of a class.
    pub(crate) fn number(&mut self, sequent: Vec<u32>, thread: u32) -> Result<u32, NoMemory> {
        let copy = Vec::from_slice(self.alloc, &sequent)?;
        let (number, _) = self.numbers.insert_full((sequent, thread))?;
        if number >= self.all.len() {
            self.all.push(Class {
                sequent: copy,
                thread,
                trees: Vec::new(self.alloc),
            })?;
        }
        Ok(small(number))
    }

    /// The sequent of a class.
    pub(crate) fn sequent(&self, class: u32) -> &[u32] {
        match self.all.get(class as usize) {
            Some(class) => class.sequent.as_slice(),
            None => &[],
        }
    }

    /// The thread in focus of a class.
    pub(crate) fn thread(&self, class: u32) -> u32 {
        match self.all.get(class as usize) {
            Some(class) => class.thread,
            None => NONE,
        }
    }

    /// The trees of a class.
    pub(crate) fn trees(&self, class: u32) -> &[Tree] {
        match self.all.get(class as usize) {
            Some(class) => class.trees.as_slice(),
            None => &[],
        }
    }

    /// The leaves of a tree of a class.
    pub(crate) fn leaves_of(&self, class: u32, tree: usize) -> &[u32] {
        match self.trees(class).get(tree) {
            Some(tree) => tree.leaves.as_slice(),
            None => &[],
        }
    }

    /// The ways of a leaf.
    pub(crate) fn ways(&self, leaf: u32) -> &[Way] {
        match self.leaves.get(leaf as usize) {
            Some(leaf) => leaf.ways.as_slice(),
            None => &[],
        }
    }

    /// The class that is won and lies within the targets of a leaf, or `NONE`.
    pub(crate) fn won(&self, leaf: u32) -> u32 {
        match self.leaves.get(leaf as usize) {
            Some(leaf) => leaf.won,
            None => NONE,
        }
    }

    /// What is decided at a place.
    pub(crate) fn step(&self, place: u32) -> Option<Step> {
        self.steps.get(place as usize).copied()
    }

    /// Adds a place.
    pub(crate) fn push_step(&mut self, step: Step) -> Result<u32, NoMemory> {
        let place = small(self.steps.len());
        self.steps.push(step)?;
        Ok(place)
    }

    /// How much was made.
    pub(crate) fn made(&self) -> Made {
        Made {
            steps: self.steps.len(),
            leaves: self.leaves.len(),
            ended: self.ended.len(),
        }
    }

    /// Takes back what was made since.
    pub(crate) fn take_back(&mut self, made: Made) {
        self.steps.truncate(made.steps);
        self.leaves.truncate(made.leaves);
        self.ended.truncate(made.ended);
    }

    /// Adds a tree to a class, unless it has the like; then what was made since is taken back. Tells how many places were
    /// looked at.
    pub(crate) fn add(&mut self, class: u32, tree: Tree, made: Made) -> Result<usize, NoMemory> {
        let mut looked: usize = 0;
        let mut work = Vec::new(self.alloc);
        for known in self.trees(class) {
            if self.are_alike(known, &tree, &mut work, &mut looked)? {
                self.take_back(made);
                return Ok(looked);
            }
        }
        if let Some(class) = self.all.get_mut(class as usize) {
            class.trees.push(tree)?;
        }
        Ok(looked)
    }

    fn are_alike(
        &self,
        tree: &Tree,
        other: &Tree,
        work: &mut Vec<(u32, u32)>,
        looked: &mut usize,
    ) -> Result<bool, NoMemory> {
        if tree.leaves.len() != other.leaves.len() {
            return Ok(false);
        }
        work.clear();
        work.push((tree.root, other.root))?;
        for _ in 0..u64::MAX {
            let Some((here, there)) = work.pop() else {
                break;
            };
            *looked = looked.saturating_add(1);
            if !self.is_alike(here, there, work)? {
                return Ok(false);
            }
        }
        Ok(true)
    }

    /// Is the same decided at two places, as far as they themselves tell?
    fn is_alike(
        &self,
        here: u32,
        there: u32,
        work: &mut Vec<(u32, u32)>,
    ) -> Result<bool, NoMemory> {
        match (self.step(here), self.step(there)) {
            (
                Some(Step::Split { node, left, right }),
                Some(
                    Step::Split {
                        node: other,
                        left: first,
                        right: second,
                    },
                ),
            ) => {
                work.push((left, first))?;
                work.push((right, second))?;
                Ok(node == other)
            }
            (Some(Step::Clash(_)), Some(Step::Clash(_))) => Ok(true),
            (Some(Step::Leaf(leaf)), Some(Step::Leaf(other))) => Ok(self.go_alike(leaf, other)),
            _ => Ok(false),
        }
    }

    fn go_alike(&self, leaf: u32, other: u32) -> bool {
        match (
            self.leaves.get(leaf as usize),
            self.leaves.get(other as usize),
        ) {
            (Some(leaf), Some(other)) => {
                leaf.diamond == other.diamond && first_way(leaf) == first_way(other)
            }
            _ => false,
        }
    }

    /// Where no passage is left, a leaf may go to each class within its targets. Tells how many were looked at.
    pub(crate) fn open_ended(&mut self) -> Result<usize, NoMemory> {
        let mut bits = Vec::with_capacity(self.alloc, self.all.len())?;
        for class in &self.all {
            bits.push(signature(&class.sequent))?;
        }
        for leaf in &self.ended {
            if let Some(leaf) = self.leaves.get_mut(*leaf as usize) {
                open_to_all(leaf, &self.all, &bits)?;
            }
        }
        Ok(self.ended.len().saturating_mul(self.all.len()))
    }

    /// A class is won: leaves within whose targets it lies may go there.
    pub(crate) fn win(&mut self, class: u32) {
        let Some(won) = self.all.get(class as usize) else {
            return;
        };
        for leaf in self.leaves.iter_mut() {
            if leaf.won == NONE && within(&won.sequent, &leaf.targets) {
                leaf.won = class;
            }
        }
    }
}

/// The class to which a leaf first may go, or `NONE`.
fn first_way(leaf: &Leaf) -> u32 {
    match leaf.ways.first() {
        Some(way) => way.to,
        None => NONE,
    }
}

/// Opens a leaf to each class within its targets.
fn open_to_all(leaf: &mut Leaf, classes: &[Class], bits: &[u64]) -> Result<(), NoMemory> {
    let here = signature(&leaf.targets);
    for (i, (class, own)) in classes.iter().zip(bits).enumerate() {
        if *own & !here == 0 && within(&class.sequent, &leaf.targets) {
            leaf.ways.push(Way {
                to: small(i),
                letter: None,
            })?;
        }
    }
    Ok(())
}
