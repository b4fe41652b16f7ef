// The spread along a branch of choices, which grows and is taken back.
use crate::terms::{Terms, sides};
use ml_arrays::{NONE, flag, number, put, row, set_flag};
use ml_base::NoMemory;
use ml_graph::Node;
use ml_sequent::{ClashCause, Side};

/// What is known of a node, whatever is chosen.
#[derive(Clone, Copy)]
enum Fact {
    Holds,
    /// It can't hold.
    Fails,
}

/// What is taken back.
#[derive(Clone, Copy)]
enum Change {
    /// The node stands in the spread.
    Stands(u32),
    /// This is known of the node.
    Known(u32, Fact),
    /// A side of the node was chosen.
    Chosen(u32),
}

/// The spread of a sequent under some choices, with what is known of all nodes then.
#[derive(Drop)]
pub(crate) struct Branch {
    stands: Vec<bool>,
    /// The nodes that hold, and those that can't, whatever is chosen.
    met: Vec<bool>,
    dead: Vec<bool>,
    side: Vec<Option<Side>>,
    /// The node because of which a node stands.
    why: Vec<u32>,
    /// The or-nodes that stand.
    ors: Vec<u32>,
    /// The Diamonds and Squares that stand.
    modals: Vec<u32>,
    /// The positive literals that stand.
    literals: Vec<u32>,
    trail: Vec<Change>,
    work: Vec<(u32, u32)>,
    /// Memory for the nodes of which something is known next; empty in between.
    near: Vec<u32>,
    cause: Option<ClashCause>,
}

impl Branch {
    /// The empty spread, where nothing is known.
    fn empty(terms: &Terms) -> Result<Branch, NoMemory> {
        let alloc = terms.alloc;
        Ok(Branch {
            stands: vec![in alloc; false; terms.size as usize]?,
            met: vec![in alloc; false; terms.size as usize]?,
            dead: vec![in alloc; false; terms.size as usize]?,
            side: vec![in alloc; None; terms.size as usize]?,
            why: vec![in alloc; NONE; terms.size as usize]?,
            ors: Vec::new(alloc),
            modals: Vec::new(alloc),
            literals: Vec::new(alloc),
            trail: Vec::new(alloc),
            work: Vec::new(alloc),
            near: Vec::new(alloc),
            cause: None,
        })
    }

    /// The empty spread.
    pub(crate) fn new(terms: &Terms) -> Result<Branch, NoMemory> {
        let mut branch = Branch::empty(terms)?;
        for n in 0..terms.size {
            match terms.node(n) {
                Node::True => branch.learn(terms, n, Fact::Holds)?,
                Node::False => branch.learn(terms, n, Fact::Fails)?,
                _ => {}
            }
        }
        branch.trail.clear();
        Ok(branch)
    }

    /// How much there is to take back.
    pub(crate) fn mark(&self) -> usize {
        self.trail.len()
    }

    /// Takes back all but so many changes.
    pub(crate) fn undo(&mut self, terms: &Terms, mark: usize) {
        self.work.clear();
        self.cause = None;
        for _ in 0..u64::MAX {
            if self.trail.len() <= mark {
                break;
            }
            let Some(change) = self.trail.pop() else {
                break;
            };
            match change {
                Change::Stands(n) => self.fall(terms, n),
                Change::Known(n, fact) => self.set_known(n, fact, false),
                Change::Chosen(n) => self.set_side(n, None),
            }
        }
    }

    fn set_side(&mut self, n: u32, side: Option<Side>) {
        if let Some(place) = self.side.get_mut(n as usize) {
            *place = side;
        }
    }

    /// A node stands no longer.
    fn fall(&mut self, terms: &Terms, n: u32) {
        set_flag(&mut self.stands, n, false);
        put(&mut self.why, n, NONE);
        match terms.node(n) {
            Node::Or { .. } => {
                let _ = self.ors.pop();
            }
            Node::Diamond { .. } | Node::Square { .. } => {
                let _ = self.modals.pop();
            }
            Node::Lit { positive: true, .. } => {
                let _ = self.literals.pop();
            }
            _ => {}
        }
    }

    /// Starts with a sequent.
    pub(crate) fn start(&mut self, terms: &Terms, nodes: &[u32]) -> Result<(), NoMemory> {
        self.undo(terms, 0);
        for n in nodes {
            self.work.push((*n, NONE))?;
        }
        self.spread(terms)
    }

    /// Chooses a side of an or-node that stands.
    pub(crate) fn choose(&mut self, terms: &Terms, n: u32, side: Side) -> Result<(), NoMemory> {
        if let Node::Or { left, right } = terms.node(n) {
            self.set_side(n, Some(side));
            self.trail.push(Change::Chosen(n))?;
            let child = match side {
                Side::Left => left,
                Side::Right => right,
            };
            self.work.push((child, n))?;
        }
        self.spread(terms)
    }

    /// Adds what is to be added.
    fn spread(&mut self, terms: &Terms) -> Result<(), NoMemory> {
        for _ in 0..u64::MAX {
            let Some((n, why)) = self.work.pop() else {
                break;
            };
            if flag(&self.stands, n) {
                continue;
            }
            set_flag(&mut self.stands, n, true);
            put(&mut self.why, n, why);
            self.trail.push(Change::Stands(n))?;
            self.stand(terms, n)?;
            if self.cause.is_some() {
                self.work.clear();
                break;
            }
        }
        Ok(())
    }

    /// What follows where a node stands.
    fn stand(&mut self, terms: &Terms, n: u32) -> Result<(), NoMemory> {
        match terms.node(n) {
            Node::True => {}
            Node::False => self.cause = Some(ClashCause::False(n)),
            Node::Lit { prop, positive } => {
                if positive {
                    self.literals.push(n)?;
                }
                self.take_literal(terms, n, prop, positive)?;
            }
            Node::And { left, right } => {
                self.work.push((right, n))?;
                self.work.push((left, n))?;
            }
            Node::Or { .. } => self.ors.push(n)?,
            Node::Diamond { .. } | Node::Square { .. } => self.modals.push(n)?,
        }
        Ok(())
    }

    /// What follows where a literal stands.
    fn take_literal(
        &mut self,
        terms: &Terms,
        n: u32,
        prop: u32,
        positive: bool,
    ) -> Result<(), NoMemory> {
        let (same, other) = if positive {
            (row(&terms.positive, prop), row(&terms.negative, prop))
        } else {
            (row(&terms.negative, prop), row(&terms.positive, prop))
        };
        if let Some(m) = self.first_standing(other) {
            self.cause = Some(if positive {
                ClashCause::Pair(n, m)
            } else {
                ClashCause::Pair(m, n)
            });
            return Ok(());
        }
        self.learn_all(terms, same, Fact::Holds)?;
        self.learn_all(terms, other, Fact::Fails)
    }

    /// The first of these nodes that stands.
    fn first_standing(&self, nodes: &[u32]) -> Option<u32> {
        for n in nodes {
            if flag(&self.stands, *n) {
                return Some(*n);
            }
        }
        None
    }

    /// This is known of these nodes, and so of others because of them.
    fn learn_all(&mut self, terms: &Terms, nodes: &[u32], fact: Fact) -> Result<(), NoMemory> {
        for n in nodes {
            self.learn(terms, *n, fact)?;
        }
        Ok(())
    }

    /// Is this known of a node?
    fn is_known(&self, n: u32, fact: Fact) -> bool {
        match fact {
            Fact::Holds => flag(&self.met, n),
            Fact::Fails => flag(&self.dead, n),
        }
    }

    fn set_known(&mut self, n: u32, fact: Fact, known: bool) {
        match fact {
            Fact::Holds => set_flag(&mut self.met, n, known),
            Fact::Fails => set_flag(&mut self.dead, n, known),
        }
    }

    /// This is known of a node, and so of others because of it.
    fn learn(&mut self, terms: &Terms, first: u32, fact: Fact) -> Result<(), NoMemory> {
        self.near.push(first)?;
        for _ in 0..u64::MAX {
            let Some(n) = self.near.pop() else {
                break;
            };
            self.note(terms, n, fact)?;
        }
        Ok(())
    }

    /// This is noted of a node, unless it was; the nodes of which it follows come next.
    fn note(&mut self, terms: &Terms, n: u32, fact: Fact) -> Result<(), NoMemory> {
        if self.is_known(n, fact) {
            return Ok(());
        }
        self.set_known(n, fact, true);
        self.trail.push(Change::Known(n, fact))?;
        for p in row(&terms.parents, n) {
            if self.follows(terms.node(*p), fact) {
                self.near.push(*p)?;
            }
        }
        Ok(())
    }

    /// Is this so of a node by what is known of its sides? A disjunction holds by one of them and fails by both, a
    /// conjunction fails by one and holds by both.
    fn follows(&self, node: Node, fact: Fact) -> bool {
        match (node, fact) {
            (Node::Or { .. }, Fact::Holds) | (Node::And { .. }, Fact::Fails) => true,
            (Node::And { left, right }, _) | (Node::Or { left, right }, _) => {
                self.is_known(left, fact) && self.is_known(right, fact)
            }
            _ => false,
        }
    }

    /// Why the spread clashes, if it does.
    pub(crate) fn cause(&self) -> Option<ClashCause> {
        self.cause
    }

    /// The Diamonds and Squares that stand.
    pub(crate) fn modals(&self) -> &[u32] {
        &self.modals
    }

    /// The positive literals that stand.
    pub(crate) fn literals(&self) -> &[u32] {
        &self.literals
    }

    /// The side that was chosen at an or-node.
    pub(crate) fn side(&self, n: u32) -> Option<Side> {
        match self.side.get(n as usize) {
            Some(side) => *side,
            None => None,
        }
    }

    /// Does the node stand?
    pub(crate) fn stands(&self, n: u32) -> bool {
        flag(&self.stands, n)
    }

    /// The or-node at which a side is chosen next, with the side that is looked at first; `None` where all are decided or
    /// met.
    pub(crate) fn next_or(&self, terms: &Terms) -> Option<u32> {
        let mut best = NONE;
        let mut least = NONE;
        for n in &self.ors {
            if self.side(*n).is_some() || flag(&self.met, *n) {
                continue;
            }
            if let Some((left, right)) = sides(terms.node(*n)) {
                if flag(&self.dead, left) || flag(&self.dead, right) {
                    return Some(*n);
                }
            }
            let rank = number(&terms.rank, *n);
            if rank < least || best == NONE {
                least = rank;
                best = *n;
            }
        }
        if best == NONE { None } else { Some(best) }
    }

    /// Can the node not hold?
    pub(crate) fn is_dead(&self, n: u32) -> bool {
        flag(&self.dead, n)
    }

    /// Adds the or-nodes by whose choices a node stands.
    pub(crate) fn reasons(
        &self,
        terms: &Terms,
        n: u32,
        reasons: &mut Vec<u32>,
    ) -> Result<(), NoMemory> {
        let mut at = number(&self.why, n);
        for _ in 0..u64::MAX {
            if at == NONE {
                break;
            }
            if let Node::Or { .. } = terms.node(at) {
                reasons.push(at)?;
            }
            at = number(&self.why, at);
        }
        Ok(())
    }

    /// All or-nodes at which a side was chosen.
    pub(crate) fn all_chosen(&self, reasons: &mut Vec<u32>) -> Result<(), NoMemory> {
        for n in &self.ors {
            if self.side(*n).is_some() {
                reasons.push(*n)?;
            }
        }
        Ok(())
    }

    /// The nodes to which a node leads under the choices.
    pub(crate) fn children(&self, terms: &Terms, n: u32) -> (u32, u32) {
        match terms.node(n) {
            Node::And { left, right } => (left, right),
            Node::Or { left, right } => match self.side(n) {
                Some(Side::Left) => (left, NONE),
                Some(Side::Right) => (right, NONE),
                None => (NONE, NONE),
            },
            _ => (NONE, NONE),
        }
    }

    /// Does a closed walk lead from the node through nodes of no lower priority?
    fn returns(&self, terms: &Terms, n: u32) -> Result<bool, NoMemory> {
        let least = terms.priority(n);
        let mut seen = vec![in terms.alloc; false; terms.size as usize]?;
        let mut work = Vec::new(terms.alloc);
        self.push_children(terms, n, &mut work)?;
        for _ in 0..u64::MAX {
            let Some(m) = work.pop() else {
                break;
            };
            if terms.priority(m) < least || flag(&seen, m) {
                continue;
            }
            if m == n {
                return Ok(true);
            }
            set_flag(&mut seen, m, true);
            self.push_children(terms, m, &mut work)?;
        }
        Ok(false)
    }

    /// Adds the nodes to which a node leads under the choices.
    fn push_children(&self, terms: &Terms, n: u32, work: &mut Vec<u32>) -> Result<(), NoMemory> {
        let (left, right) = self.children(terms, n);
        if left != NONE {
            work.push(left)?;
        }
        if right != NONE {
            work.push(right)?;
        }
        Ok(())
    }

    /// A node of an odd priority on a closed walk through nodes of no lower priority, noted as the cause of a clash.
    pub(crate) fn look_for_cycles(&mut self, terms: &Terms) -> Result<(), NoMemory> {
        if self.cause.is_some() {
            return Ok(());
        }
        for n in &terms.cyclic {
            if flag(&self.stands, *n) && terms.priority(*n) % 2 == 1 && self.returns(terms, *n)? {
                self.cause = Some(ClashCause::Cycle(*n));
                return Ok(());
            }
        }
        Ok(())
    }
}
