// Trees of choices, one for each sequent, which grow on demand.
use crate::branches::Branch;
use crate::exits::{Exit, Walks, letter, targets};
use crate::terms::{Terms, sides};
use indexmap::IndexSet;
use ml_arrays::{NONE, ascend, small, within};
use ml_base::NoMemory;
use ml_graph::Node;
use ml_sequent::{ClashCause, Sequent, Side};
use ml_trace::Letter;

/// So many leaves that are looked at, to ask for less, count as one thing that is made.
const LEAVES: usize = 256;

/// What stands at a node of a tree.
#[derive(Clone, Copy)]
pub(crate) enum Kind {
    /// Nothing was made here yet.
    Waits,
    /// A side is chosen at an or-node.
    Split { node: u32, left: u32, right: u32 },
    /// The spread clashes.
    Clash(ClashCause),
    /// Diamonds lead on.
    Leaf(u32),
}

/// A node of a tree.
#[derive(Drop)]
pub(crate) struct Knot {
    pub kind: Kind,
    parent: u32,
    /// Something waits here or below.
    open: bool,
    /// Nothing less is tried here or below.
    plain: bool,
    /// Where all below clashes: the or-nodes whose sides that needs.
    needs: Option<Vec<u32>>,
}

/// A way on from a leaf.
#[derive(Drop)]
pub(crate) struct Way {
    pub diamond: u32,
    pub action: u32,
    /// The next sequent.
    pub next: u32,
    pub letter: Letter,
}

/// For whom a leaf counts.
#[derive(Clone, Copy, PartialEq, Eq)]
pub(crate) enum Standing {
    /// For both players.
    Full,
    /// For Odd alone: its ways ask for less than the leaf does.
    Weak,
    /// For none: it was weak, and was taken back.
    Gone,
}

/// A leaf from which diamonds lead on.
#[derive(Drop)]
pub(crate) struct Leaf {
    pub knot: u32,
    /// The positive literals.
    pub literals: Vec<u32>,
    pub ways: Vec<Way>,
    pub standing: Standing,
}

/// The tree of a sequent.
#[derive(Drop)]
pub(crate) struct Tree {
    pub root: u32,
    pub leaves: Vec<u32>,
}

/// A step from a node of a tree to one of its sides.
#[derive(Clone, Copy)]
struct Descent {
    knot: u32,
    mark: usize,
    modals: usize,
}

/// Where a tree is grown.
#[derive(Drop)]
struct Growth {
    /// A node of the tree.
    at: u32,
    /// How many Diamonds and Squares stood at the node above.
    modals: usize,
    /// The steps from the root.
    path: Vec<Descent>,
}

/// The sequents with their trees.
#[derive(Drop)]
pub(crate) struct Trees {
    pub sequents: IndexSet<Sequent>,
    pub trees: Vec<Tree>,
    pub knots: Vec<Knot>,
    pub leaves: Vec<Leaf>,
    branch: Branch,
    walks: Walks,
    /// How much was made.
    pub spent: usize,
}

impl Trees {
    pub(crate) fn new(terms: &Terms) -> Result<Trees, NoMemory> {
        Ok(Trees {
            sequents: IndexSet::new(terms.alloc),
            trees: Vec::new(terms.alloc),
            knots: Vec::new(terms.alloc),
            leaves: Vec::new(terms.alloc),
            branch: Branch::new(terms)?,
            walks: Walks::empty(terms.alloc),
            spent: 0,
        })
    }

    /// The number of a sequent, which gets a tree.
    pub(crate) fn sequent(&mut self, terms: &Terms, sequent: Sequent) -> Result<u32, NoMemory> {
        let (number, _) = self.sequents.insert_full(sequent)?;
        if number >= self.trees.len() {
            let root = self.knot(NONE, false)?;
            self.trees.push(Tree {
                root,
                leaves: Vec::new(terms.alloc),
            })?;
        }
        Ok(small(number))
    }

    /// The number of a new node of a tree.
    fn knot(&mut self, parent: u32, plain: bool) -> Result<u32, NoMemory> {
        self.spent = self.spent.saturating_add(1);
        self.knots.push(Knot {
            kind: Kind::Waits,
            parent,
            open: true,
            plain,
            needs: None,
        })?;
        Ok(small(self.knots.len().saturating_sub(1)))
    }

    /// What stands at a node.
    pub(crate) fn kind(&self, knot: u32) -> Kind {
        match self.knots.get(knot as usize) {
            Some(knot) => knot.kind,
            None => Kind::Clash(ClashCause::False(0)),
        }
    }

    fn is_open(&self, knot: u32) -> bool {
        match self.knots.get(knot as usize) {
            Some(knot) => knot.open,
            None => false,
        }
    }

    fn is_plain(&self, knot: u32) -> bool {
        match self.knots.get(knot as usize) {
            Some(knot) => knot.plain,
            None => false,
        }
    }

    fn needs(&self, knot: u32) -> Option<&[u32]> {
        match self.knots.get(knot as usize) {
            Some(knot) => match &knot.needs {
                Some(needs) => Some(needs.as_slice()),
                None => None,
            },
            None => None,
        }
    }

    fn set(&mut self, knot: u32, kind: Kind, open: bool, needs: Option<Vec<u32>>) {
        if let Some(place) = self.knots.get_mut(knot as usize) {
            place.kind = kind;
            place.open = open;
            place.needs = needs;
        }
    }

    /// The root of the tree of a sequent.
    pub(crate) fn root(&self, sequent: u32) -> u32 {
        match self.trees.get(sequent as usize) {
            Some(tree) => tree.root,
            None => NONE,
        }
    }

    /// Does something wait in the tree of a sequent?
    pub(crate) fn waits(&self, sequent: u32) -> bool {
        self.is_open(self.root(sequent))
    }

    /// The leaves of a sequent.
    pub(crate) fn leaves_of(&self, sequent: u32) -> &[u32] {
        match self.trees.get(sequent as usize) {
            Some(tree) => tree.leaves.as_slice(),
            None => &[],
        }
    }

    /// For whom a leaf counts.
    pub(crate) fn standing(&self, leaf: u32) -> Standing {
        match self.leaves.get(leaf as usize) {
            Some(leaf) => leaf.standing,
            None => Standing::Gone,
        }
    }

    /// A weak leaf is taken back: what it asks for itself is made.
    pub(crate) fn strengthen(&mut self, leaf: u32) {
        let Some(place) = self.leaves.get_mut(leaf as usize) else {
            return;
        };
        place.standing = Standing::Gone;
        let mut at = place.knot;
        if let Some(knot) = self.knots.get_mut(at as usize) {
            knot.kind = Kind::Waits;
            knot.plain = true;
        }
        for _ in 0..u64::MAX {
            let Some(knot) = self.knots.get_mut(at as usize) else {
                break;
            };
            knot.open = true;
            at = knot.parent;
        }
    }

    /// Makes up to so many new leaves of a sequent, left sides first.
    pub(crate) fn grow(
        &mut self,
        terms: &Terms,
        sequent: u32,
        count: usize,
        most: usize,
    ) -> Result<(), NoMemory> {
        let nodes = Vec::from_slice(terms.alloc, self.nodes_of(sequent))?;
        self.branch.start(terms, &nodes)?;
        let mut growth = Growth {
            at: self.root(sequent),
            modals: usize::MAX,
            path: Vec::new(terms.alloc),
        };
        let mut made: usize = 0;
        for _ in 0..u64::MAX {
            if made >= count || self.spent >= most {
                break;
            }
            if self.expand(terms, sequent, &growth, &nodes)? {
                made = made.saturating_add(1);
            }
            if !self.go_on(terms, &mut growth)? {
                break;
            }
        }
        for _ in 0..u64::MAX {
            if !self.ascend(terms, &mut growth)? {
                break;
            }
        }
        Ok(())
    }

    /// Goes on, to a side of a split where something waits below, or back; false where all was seen.
    fn go_on(&mut self, terms: &Terms, growth: &mut Growth) -> Result<bool, NoMemory> {
        match self.kind(growth.at) {
            Kind::Split { node, left, right } if self.is_open(growth.at) => {
                self.descend(terms, growth, node, left, right)?;
                Ok(true)
            }
            _ => self.ascend(terms, growth),
        }
    }

    /// Goes on to the side of a split that is looked at next.
    fn descend(
        &mut self,
        terms: &Terms,
        growth: &mut Growth,
        node: u32,
        left: u32,
        right: u32,
    ) -> Result<(), NoMemory> {
        let side = self.first_side(terms, node, left, right);
        growth.path.push(Descent {
            knot: growth.at,
            mark: self.branch.mark(),
            modals: growth.modals,
        })?;
        growth.modals = self.branch.modals().len();
        growth.at = match side {
            Side::Left => left,
            Side::Right => right,
        };
        self.branch.choose(terms, node, side)
    }

    /// Goes back to the split above, and settles what stands there; false at the root.
    fn ascend(&mut self, terms: &Terms, growth: &mut Growth) -> Result<bool, NoMemory> {
        let Some(descent) = growth.path.pop() else {
            return Ok(false);
        };
        self.branch.undo(terms, descent.mark);
        growth.modals = descent.modals;
        growth.at = descent.knot;
        self.settle(terms, descent.knot)?;
        Ok(true)
    }

    /// The side of a split that is looked at next: one that can't hold before the other, and left before right.
    fn first_side(&self, terms: &Terms, node: u32, left: u32, right: u32) -> Side {
        if !self.is_open(left) {
            return Side::Right;
        }
        match sides(terms.node(node)) {
            Some((_, child)) if self.is_open(right) && self.branch.is_dead(child) => Side::Right,
            _ => Side::Left,
        }
    }

    /// What stands at a split, once a side of it is closed.
    fn settle(&mut self, terms: &Terms, at: u32) -> Result<(), NoMemory> {
        let Kind::Split { node, left, right } = self.kind(at) else {
            return Ok(());
        };
        if self.takes_over(terms, at, node, left)? || self.takes_over(terms, at, node, right)? {
            return Ok(());
        }
        if self.is_open(left) || self.is_open(right) {
            return Ok(());
        }
        let needs = self.joined(terms, node, left, right)?;
        self.set(at, Kind::Split { node, left, right }, false, needs);
        Ok(())
    }

    /// Where a side clashes whatever is chosen at the split, it stands for the whole.
    fn takes_over(
        &mut self,
        terms: &Terms,
        at: u32,
        node: u32,
        side: u32,
    ) -> Result<bool, NoMemory> {
        if self.is_open(side) {
            return Ok(false);
        }
        let copy = match self.needs(side) {
            Some(needs) if !needs.contains(&node) => Vec::from_slice(terms.alloc, needs)?,
            _ => return Ok(false),
        };
        let kind = self.kind(side);
        self.set(at, kind, false, Some(copy));
        Ok(true)
    }

    /// The or-nodes that the clashes of both sides need, if both clash.
    fn joined(
        &self,
        terms: &Terms,
        node: u32,
        left: u32,
        right: u32,
    ) -> Result<Option<Vec<u32>>, NoMemory> {
        let (Some(one), Some(other)) = (self.needs(left), self.needs(right)) else {
            return Ok(None);
        };
        let mut needs = Vec::from_slice(terms.alloc, one)?;
        needs.extend_from_slice(other)?;
        self.branch.reasons(terms, node, &mut needs)?;
        ascend(&mut needs);
        needs.retain(|n| *n != node);
        Ok(Some(needs))
    }

    /// The or-nodes that a clash needs.
    fn needs_of(&self, terms: &Terms, cause: ClashCause) -> Result<Vec<u32>, NoMemory> {
        let mut needs = Vec::new(terms.alloc);
        match cause {
            ClashCause::False(n) => self.branch.reasons(terms, n, &mut needs)?,
            ClashCause::Pair(p, q) => {
                self.branch.reasons(terms, p, &mut needs)?;
                self.branch.reasons(terms, q, &mut needs)?;
            }
            ClashCause::Cycle(_) => self.branch.all_chosen(&mut needs)?,
        }
        ascend(&mut needs);
        Ok(needs)
    }

    /// Makes what stands at a node, if it waits; true if that is a leaf.
    fn expand(
        &mut self,
        terms: &Terms,
        sequent: u32,
        growth: &Growth,
        nodes: &[u32],
    ) -> Result<bool, NoMemory> {
        let at = growth.at;
        let Kind::Waits = self.kind(at) else {
            return Ok(false);
        };
        self.spent = self.spent.saturating_add(1);
        if !terms.cyclic.is_empty() {
            self.branch.look_for_cycles(terms)?;
        }
        if let Some(cause) = self.branch.cause() {
            let needs = self.needs_of(terms, cause)?;
            self.set(at, Kind::Clash(cause), false, Some(needs));
            return Ok(false);
        }
        let next = self.branch.next_or(terms);
        if !self.is_plain(at) && (next.is_none() || self.branch.modals().len() != growth.modals) {
            let looked = self.leaves_of(sequent).len() / LEAVES;
            self.spent = self.spent.saturating_add(looked);
            if let Some(less) = self.less(terms, sequent)? {
                self.weak_leaf(terms, sequent, at, nodes, less)?;
                return Ok(true);
            }
        }
        match next {
            Some(node) => {
                self.split(at, node)?;
                Ok(false)
            }
            None => {
                self.leaf(terms, sequent, at, nodes)?;
                Ok(true)
            }
        }
    }

    /// Splits at an or-node.
    fn split(&mut self, at: u32, node: u32) -> Result<(), NoMemory> {
        let plain = self.is_plain(at);
        let left = self.knot(at, plain)?;
        let right = self.knot(at, plain)?;
        self.set(at, Kind::Split { node, left, right }, true, None);
        Ok(())
    }

    /// Adds a leaf.
    fn push_leaf(
        &mut self,
        terms: &Terms,
        sequent: u32,
        at: u32,
        ways: Vec<Way>,
        standing: Standing,
    ) -> Result<(), NoMemory> {
        let number = small(self.leaves.len());
        self.leaves.push(Leaf {
            knot: at,
            literals: Vec::from_slice(terms.alloc, self.branch.literals())?,
            ways,
            standing,
        })?;
        if let Some(tree) = self.trees.get_mut(sequent as usize) {
            tree.leaves.push(number)?;
        }
        self.set(at, Kind::Leaf(number), false, None);
        Ok(())
    }

    /// A leaf where all or-nodes are decided or met.
    fn leaf(
        &mut self,
        terms: &Terms,
        sequent: u32,
        at: u32,
        nodes: &[u32],
    ) -> Result<(), NoMemory> {
        let exits = self.walks.exits(terms, &self.branch, nodes)?;
        let mut ways = Vec::new(terms.alloc);
        for (diamond, action) in self.diamonds(terms)? {
            if let Some(way) = self.way(terms, &exits, diamond, action)? {
                ways.push(way)?;
            }
        }
        self.push_leaf(terms, sequent, at, ways, Standing::Full)
    }

    /// The Diamonds that stand, ascending, with their actions.
    fn diamonds(&self, terms: &Terms) -> Result<Vec<(u32, u32)>, NoMemory> {
        let mut diamonds = Vec::new(terms.alloc);
        for n in self.branch.modals() {
            if let Node::Diamond { action, .. } = terms.node(*n) {
                diamonds.push((*n, action))?;
            }
        }
        diamonds.sort_unstable();
        Ok(diamonds)
    }

    /// The way on along a Diamond; `None` where the numbers of its letter are too large.
    fn way(
        &mut self,
        terms: &Terms,
        exits: &[Exit],
        diamond: u32,
        action: u32,
    ) -> Result<Option<Way>, NoMemory> {
        let into = targets(terms, &self.branch, diamond, action)?;
        let Some(letter) = letter(terms, exits, diamond, action, &into)? else {
            return Ok(None);
        };
        let next = self.sequent(terms, Sequent::of(terms.alloc, &into)?)?;
        Ok(Some(Way {
            diamond,
            action,
            next,
            letter,
        }))
    }

    /// The nodes of a sequent.
    pub(crate) fn nodes_of(&self, sequent: u32) -> &[u32] {
        match self.sequents.as_slice().get(sequent as usize) {
            Some(sequent) => sequent.values(),
            None => &[],
        }
    }

    /// A leaf that asks for less than the branch: for each of its ways, the Diamond within whose targets the next sequent
    /// lies.
    fn less(&self, terms: &Terms, sequent: u32) -> Result<Option<Vec<(u32, u32)>>, NoMemory> {
        if self.leaves_of(sequent).is_empty() {
            return Ok(None);
        }
        let mut rows = Vec::new(terms.alloc);
        for n in self.branch.modals() {
            if let Node::Diamond { action, .. } = terms.node(*n) {
                rows.push((*n, targets(terms, &self.branch, *n, action)?))?;
            }
        }
        for leaf in self.leaves_of(sequent) {
            if let Some(found) = self.less_than(terms, *leaf, &rows)? {
                return Ok(Some(found));
            }
        }
        Ok(None)
    }

    /// For each way of a leaf, the Diamond within whose targets its next sequent lies.
    fn less_than(
        &self,
        terms: &Terms,
        leaf: u32,
        rows: &[(u32, Vec<u32>)],
    ) -> Result<Option<Vec<(u32, u32)>>, NoMemory> {
        let Some(leaf) = self.leaves.get(leaf as usize) else {
            return Ok(None);
        };
        if leaf.standing != Standing::Full {
            return Ok(None);
        }
        let mut found = Vec::new(terms.alloc);
        for way in &leaf.ways {
            match diamond_over(rows, self.nodes_of(way.next)) {
                Some(diamond) => found.push((diamond, way.next))?,
                None => return Ok(None),
            }
        }
        Ok(Some(found))
    }

    /// A leaf that goes on to what an earlier one asks for.
    fn weak_leaf(
        &mut self,
        terms: &Terms,
        sequent: u32,
        at: u32,
        nodes: &[u32],
        less: Vec<(u32, u32)>,
    ) -> Result<(), NoMemory> {
        let exits = self.walks.exits(terms, &self.branch, nodes)?;
        let mut ways = Vec::new(terms.alloc);
        for (diamond, next) in less {
            if let Node::Diamond { action, .. } = terms.node(diamond) {
                let found = letter(terms, &exits, diamond, action, self.nodes_of(next))?;
                if let Some(letter) = found {
                    ways.push(Way {
                        diamond,
                        action,
                        next,
                        letter,
                    })?;
                }
            }
        }
        self.push_leaf(terms, sequent, at, ways, Standing::Weak)
    }
}

/// The first Diamond within whose targets these nodes lie.
fn diamond_over(rows: &[(u32, Vec<u32>)], nodes: &[u32]) -> Option<u32> {
    for row in rows {
        if within(nodes, &row.1) {
            return Some(row.0);
        }
    }
    None
}
