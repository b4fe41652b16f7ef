// Queries on a sequent: choices, analysis of clashes, jumps back.
use crate::branches::{Branch, Clash};
use crate::choices::Choices;
use crate::cores::FOR_GOOD;
use crate::marks::Marks;
use crate::terms::Terms;
use crate::trees::{Tree, Trees};
use ml_arrays::{NONE, more_numbers, number, put};
use ml_base::NoMemory;
use ml_graph::Node;
use std::alloc::Global;

/// What a query came to.
#[derive(Clone, Copy, PartialEq, Eq)]
pub enum Outcome {
    /// The branch of the solver stands at a leaf: no clash, and each or-node is settled.
    Leaf,
    /// Each choice clashes. `Solver::tree` is the tree, `Solver::roots` and `Solver::cores` what it used.
    Closed,
    /// Enough was done.
    Out,
}

/// How far a choice is.
#[derive(Clone, Copy, PartialEq, Eq)]
enum Kind {
    /// The other side can't hold.
    Unit,
    /// This is the first side.
    First,
    /// The other side is closed.
    Second,
}

/// A choice, with what it goes back to.
#[derive(Clone, Copy)]
struct Level {
    node: u32,
    kind: Kind,
    /// Of a unit, whether the right side can't hold; else whether the right side was first.
    right: bool,
    mark: usize,
    /// The tree of the first side.
    tree: u32,
    /// Where what the first side needs begins.
    saved: usize,
    unwanted: bool,
    /// The tree by which the choice was made.
    guide: u32,
}

/// Something that the first side of a choice needs.
#[derive(Clone, Copy)]
enum Needed {
    Or(u32),
    Root(u32),
    Core(u32),
}

/// A choice that is to be made.
#[derive(Clone, Copy)]
struct Choice {
    node: u32,
    kind: Kind,
    right: bool,
}

/// Asks queries, and learns which choices matter.
#[derive(Drop)]
pub struct Solver {
    /// The branch.
    pub branch: Branch,
    marks: Marks,
    trees: Trees,
    levels: Vec<Level>,
    saved: Vec<Needed>,
    choices: Choices,
    /// Of each or-node the side at the last leaf: 0 for none, 1 for the left one, 2 for the right one.
    phase: Vec<u32>,
    guide: u32,
    copied: Vec<u32>,
    /// The tree of the last query that was closed.
    pub tree: u32,
    /// The nodes of its sequent that it used, ascending.
    pub roots: Vec<u32>,
    /// The cores that it used, ascending.
    pub cores: Vec<u32>,
    /// Whether it used that nodes weren't wanted.
    pub unwanted: bool,
}

/// Writes the sides that were chosen.
fn write_phases(branch: &Branch, phase: &mut [u32]) {
    for n in &branch.ors {
        let side = branch.side(*n);
        if side != 0 {
            put(phase, *n, side as u32);
        }
    }
}

impl Solver {
    /// Nothing was asked yet, and there is no room.
    ///
    /// Cost: constant.
    pub fn empty(alloc: Global) -> Solver {
        Solver {
            branch: Branch::empty(alloc),
            marks: Marks::empty(alloc),
            trees: Trees::empty(alloc),
            levels: Vec::new(alloc),
            saved: Vec::new(alloc),
            choices: Choices::empty(alloc),
            phase: Vec::new(alloc),
            guide: NONE,
            copied: Vec::new(alloc),
            tree: NONE,
            roots: Vec::new(alloc),
            cores: Vec::new(alloc),
            unwanted: false,
        }
    }

    /// Makes room for a graph, and allows so many steps.
    ///
    /// # Errors
    /// `NoMemory` alone.
    ///
    /// Cost: linear in the graph.
    pub fn fill(&mut self, t: &Terms, fuel: u64) -> Result<(), NoMemory> {
        self.branch.fuel = fuel;
        self.branch.fill(t)?;
        self.branch.fuel = fuel;
        self.marks.fill(t)?;
        self.choices.fill(t)?;
        more_numbers(&mut self.phase, t.size as usize, 0)
    }

    /// A tree, if there is one with this number.
    pub fn tree(&self, tree: u32) -> Option<Tree> {
        self.trees.at(tree)
    }

    /// Adds a core of these nodes, which ascend, along an action. Its thread is watched as such where it has an owner; a core
    /// for good is active for those that are born later.
    ///
    /// # Errors
    /// `NoMemory` alone.
    ///
    /// Cost: linear in the nodes, and in what stands.
    pub fn put(
        &mut self,
        t: &Terms,
        action: u32,
        nodes: Vec<u32>,
        thread: u32,
        owner: u32,
        born: u32,
    ) -> Result<u32, NoMemory> {
        self.branch.undo(t, 0);
        self.branch.spend(nodes.len() as u64);
        let id = self
            .branch
            .watches
            .add(t, action, nodes, thread, owner, born)?;
        if let Some(core) = self.branch.watches.cores.at_mut(id) {
            core.thread = thread;
        }
        Ok(id)
    }

    /// From now on cores of this owner are active, which are among these, beside those for good.
    ///
    /// # Errors
    /// `NoMemory` alone.
    ///
    /// Cost: linear in the cores and the graph where the owner changes.
    pub fn set_owner(&mut self, t: &Terms, owner: u32, cores: &[u32]) -> Result<(), NoMemory> {
        self.branch.undo(t, 0);
        if owner != self.branch.watches.owner {
            self.branch.spend(cores.len() as u64);
        }
        self.branch.watches.set_owner(t, owner, cores)
    }

    /// Gives a core another owner.
    pub fn give(&mut self, t: &Terms, core: u32, owner: u32) {
        self.branch.undo(t, 0);
        self.branch.watches.give(core, owner);
    }

    /// Seeks choices under which the nodes can stand, where some aren't wanted, and one thread is followed (or `NONE`). It
    /// begins along a tree, or with `NONE`.
    ///
    /// # Errors
    /// `NoMemory` alone.
    ///
    /// Cost: at most what is left to be done.
    pub fn query(
        &mut self,
        t: &Terms,
        nodes: &[u32],
        unwanted: &[u32],
        focus: u32,
        guide: u32,
    ) -> Result<Outcome, NoMemory> {
        self.levels.clear();
        self.saved.clear();
        self.choices.clear();
        self.guide = guide;
        let trees = self.trees.len();
        self.branch.start(t, nodes, unwanted, focus)?;
        for _ in 0..u64::MAX {
            if self.branch.fuel == 0 {
                break;
            }
            if let Some(clash) = self.branch.clash {
                if !self.backtrack(t, clash)? {
                    return Ok(Outcome::Closed);
                }
            } else if !self.decide(t)? {
                self.trees.truncate(trees);
                return Ok(Outcome::Leaf);
            }
        }
        Ok(Outcome::Out)
    }

    /// The same for the nodes of a core.
    ///
    /// # Errors
    /// `NoMemory` alone.
    pub fn query_core(
        &mut self,
        t: &Terms,
        core: u32,
        focus: u32,
        guide: u32,
    ) -> Result<Outcome, NoMemory> {
        let mut nodes = std::mem::replace(&mut self.copied, Vec::new(t.alloc));
        let outcome = self.query_copied(t, core, focus, guide, &mut nodes);
        self.copied = nodes;
        outcome
    }

    fn query_copied(
        &mut self,
        t: &Terms,
        core: u32,
        focus: u32,
        guide: u32,
        nodes: &mut Vec<u32>,
    ) -> Result<Outcome, NoMemory> {
        nodes.clear();
        nodes.extend_from_slice(self.branch.watches.cores.nodes(core))?;
        self.query(t, nodes, &[], focus, guide)
    }

    /// Makes the next choice; tells whether there was one.
    fn decide(&mut self, t: &Terms) -> Result<bool, NoMemory> {
        let guide = self.guide;
        let Some(choice) = self.pick(t)? else {
            return Ok(false);
        };
        self.levels.push(Level {
            node: choice.node,
            kind: choice.kind,
            right: choice.right,
            mark: self.branch.mark(),
            tree: NONE,
            saved: self.saved.len(),
            unwanted: false,
            guide,
        })?;
        let right = match choice.kind {
            Kind::Unit => !choice.right,
            _ => choice.right,
        };
        self.branch.choose(t, choice.node, right)?;
        Ok(true)
    }

    fn pick(&mut self, t: &Terms) -> Result<Option<Choice>, NoMemory> {
        if let Some(choice) = self.guided(t) {
            return Ok(Some(choice));
        }
        self.guide = NONE;
        self.choices.refresh(t, &mut self.branch)?;
        match self.choices.next_unit(t, &mut self.branch)? {
            Some((node, right)) => Ok(Some(Choice {
                node,
                kind: Kind::Unit,
                right,
            })),
            None => self.pick_first(t),
        }
    }

    /// The or-node of greatest activity that isn't settled.
    fn pick_first(&mut self, t: &Terms) -> Result<Option<Choice>, NoMemory> {
        let Some(node) = self.choices.next(t, &mut self.branch)? else {
            return Ok(None);
        };
        Ok(Some(Choice {
            node,
            kind: Kind::First,
            right: self.prefers_right(t, node),
        }))
    }

    /// The choice of the tree that is followed.
    fn guided(&mut self, t: &Terms) -> Option<Choice> {
        match self.trees.at(self.guide) {
            Some(Tree::Split { node, left, .. }) if self.is_open(node) => {
                self.guide = left;
                Some(Choice {
                    node,
                    kind: Kind::First,
                    right: false,
                })
            }
            Some(Tree::Unit { node, right, rest }) if self.is_open(node) => {
                if self.branch.unit(t, node) == Some(right) {
                    self.guide = rest;
                    return Some(Choice {
                        node,
                        kind: Kind::Unit,
                        right,
                    });
                }
                None
            }
            _ => None,
        }
    }

    fn is_open(&self, node: u32) -> bool {
        self.branch.stands(node) && self.branch.side(node) == 0
    }

    /// Whether the right side is tried first.
    fn prefers_right(&self, t: &Terms, n: u32) -> bool {
        let Node::Or { left, right } = t.node(n) else {
            return false;
        };
        let goes_left = t.threads(n, left);
        if goes_left != t.threads(n, right) {
            return goes_left;
        }
        match number(&self.phase, n) {
            1 => false,
            2 => true,
            _ => number(&t.weight, right) < number(&t.weight, left),
        }
    }

    /// The sides taken at a leaf are taken first from now on.
    pub fn save_phases(&mut self) {
        write_phases(&self.branch, &mut self.phase);
    }

    /// Goes back from a clash to a choice whose other side is taken; tells whether there is one.
    fn backtrack(&mut self, t: &Terms, clash: Clash) -> Result<bool, NoMemory> {
        self.marks.clear();
        self.marks.clash(t, &self.branch, clash)?;
        self.choices.raise(t, self.marks.ors.list());
        let mut tree = self.trees.push(Tree::Closed(clash))?;
        for _ in 0..u64::MAX {
            let Some(level) = self.levels.pop() else {
                break;
            };
            self.branch.undo(t, level.mark);
            if !self.marks.ors.has(level.node) {
                self.saved.truncate(level.saved);
                continue;
            }
            match level.kind {
                Kind::Unit => tree = self.pass_unit(t, level, tree)?,
                Kind::Second => tree = self.join(t, level, tree)?,
                Kind::First => {
                    self.flip(t, level, tree)?;
                    self.spend_steps();
                    return Ok(true);
                }
            }
        }
        self.spend_steps();
        self.close(tree)?;
        Ok(false)
    }

    fn spend_steps(&mut self) {
        self.branch.spend(self.marks.steps);
        self.marks.steps = 0;
    }

    /// Back past a choice whose other side can't hold.
    fn pass_unit(&mut self, t: &Terms, level: Level, rest: u32) -> Result<u32, NoMemory> {
        let Node::Or { left, right } = t.node(level.node) else {
            return Ok(rest);
        };
        self.marks.ors.remove(level.node);
        let dead = if level.right { right } else { left };
        self.marks.dead(t, &self.branch, dead)?;
        self.marks.chain(t, &self.branch, level.node)?;
        self.trees.push(Tree::Unit {
            node: level.node,
            right: level.right,
            rest,
        })
    }

    /// Back past a choice both sides of which are closed.
    fn join(&mut self, t: &Terms, level: Level, tree: u32) -> Result<u32, NoMemory> {
        self.marks.ors.remove(level.node);
        self.marks.unwanted = self.marks.unwanted || level.unwanted;
        self.mark_saved(level.saved)?;
        self.marks.chain(t, &self.branch, level.node)?;
        let (left, right) = if level.right {
            (tree, level.tree)
        } else {
            (level.tree, tree)
        };
        self.trees.push(Tree::Split {
            node: level.node,
            left,
            right,
        })
    }

    /// Marks what the first side needs.
    fn mark_saved(&mut self, from: usize) -> Result<(), NoMemory> {
        for _ in from..self.saved.len() {
            match self.saved.pop() {
                Some(Needed::Or(n)) => {
                    self.marks.ors.insert(n)?;
                }
                Some(Needed::Root(n)) => {
                    self.marks.roots.insert(n)?;
                }
                Some(Needed::Core(core)) => {
                    self.marks.cores.insert(core)?;
                }
                None => break,
            }
        }
        Ok(())
    }

    /// The first side is closed: keeps what it needs, and takes the other one.
    fn flip(&mut self, t: &Terms, level: Level, tree: u32) -> Result<(), NoMemory> {
        self.marks.ors.remove(level.node);
        self.saved.truncate(level.saved);
        self.save()?;
        self.guide = match self.trees.at(level.guide) {
            Some(Tree::Split { node, right, .. }) if node == level.node && !level.right => right,
            _ => NONE,
        };
        let guide = self.guide;
        self.levels.push(Level {
            kind: Kind::Second,
            tree,
            unwanted: self.marks.unwanted,
            guide,
            ..level
        })?;
        self.branch.choose(t, level.node, !level.right)
    }

    fn save(&mut self) -> Result<(), NoMemory> {
        for n in self.marks.ors.list() {
            if self.marks.ors.has(*n) {
                self.saved.push(Needed::Or(*n))?;
            }
        }
        for n in self.marks.roots.list() {
            self.saved.push(Needed::Root(*n))?;
        }
        for core in self.marks.cores.list() {
            self.saved.push(Needed::Core(*core))?;
        }
        Ok(())
    }

    /// What the closed query used.
    fn close(&mut self, tree: u32) -> Result<(), NoMemory> {
        self.tree = tree;
        self.unwanted = self.marks.unwanted;
        self.marks.roots.write(&mut self.roots)?;
        self.marks.cores.write(&mut self.cores)
    }

    /// Whether all cores that the closed query used are for good.
    pub fn is_for_good(&self) -> bool {
        for core in &self.cores {
            if self.branch.watches.cores.owner(*core) != FOR_GOOD {
                return false;
            }
        }
        !self.unwanted
    }
}
