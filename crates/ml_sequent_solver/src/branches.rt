// The spread of a sequent under choices, with what follows, which grows and is taken back.
use crate::terms::Terms;
use crate::watching::Watches;
use ml_arrays::{NONE, flag, more_flags, more_numbers, number, put, set_flag};
use ml_base::NoMemory;
use ml_graph::Node;
use std::alloc::Global;

/// Why a node can't hold.
#[derive(Clone, Copy, PartialEq, Eq)]
pub enum Why {
    /// It is False, or it isn't so.
    Nothing,
    /// The complement of this literal.
    Literal(u32),
    /// This side of a conjunction can't hold.
    Child(u32),
    /// Neither side of a disjunction can hold.
    Both,
    /// With its target this core would be complete.
    Core(u32),
    /// It isn't wanted in this query.
    Unwanted,
}

/// Why a spread clashes.
#[derive(Clone, Copy, PartialEq, Eq)]
pub enum Clash {
    /// The node stands, and is False.
    False(u32),
    /// A positive and a negative literal of one proposition stand.
    Pair(u32, u32),
    /// The targets along a standing diamond, the second number, contain this core.
    Core(u32, u32),
    /// The node stands, and can't hold.
    Dead(u32),
}

/// What is taken back.
#[derive(Clone, Copy)]
pub(crate) enum Change {
    Stands(u32),
    Met(u32),
    Dead(u32),
    Chosen(u32),
    Traced(u32),
}

/// What is known of nodes, whatever is chosen.
#[derive(Drop)]
pub struct Facts {
    /// The nodes that hold.
    pub met: Vec<bool>,
    /// The nodes that can't hold.
    pub dead: Vec<bool>,
    why: Vec<Why>,
}

/// Which nodes are targets, by place.
#[derive(Drop)]
pub struct Targets {
    /// How many standing squares lead there.
    pub leads: Vec<u32>,
    /// The first of these.
    pub first: Vec<u32>,
    /// Of each action, how many diamonds stand.
    pub diamonds: Vec<u32>,
}

/// The spread of a sequent under choices.
#[derive(Drop)]
pub struct Branch {
    /// The nodes that stand.
    pub stands: Vec<bool>,
    /// The node because of which a node stands.
    pub why: Vec<u32>,
    /// The side that was chosen: 0 for none, 1 for the left one, 2 for the right one.
    pub side: Vec<u8>,
    /// The nodes on walks from the focus without modal steps, within its component.
    pub traced: Vec<bool>,
    /// What is known of nodes.
    pub facts: Facts,
    /// Which nodes are targets.
    pub targets: Targets,
    /// The cores.
    pub watches: Watches,
    /// The or-nodes that stand.
    pub ors: Vec<u32>,
    /// The diamonds and squares that stand.
    pub modals: Vec<u32>,
    /// The literals that stand.
    pub literals: Vec<u32>,
    pub(crate) trail: Vec<Change>,
    pub(crate) work: Vec<(u32, u32)>,
    pub(crate) near: Vec<(u32, Why)>,
    pub(crate) tracing: Vec<u32>,
    pub(crate) pending: Vec<u32>,
    /// Or-nodes with a side that can't hold, perhaps settled since.
    pub(crate) units: Vec<u32>,
    /// The least number of changes, and of or-nodes that stand, to which changes were taken back since that was asked.
    least: (usize, usize),
    /// Why the spread clashes.
    pub clash: Option<Clash>,
    /// Only clashes that stand end the branch, and each side is chosen: that a node can't hold, or has one node as both
    /// sides, doesn't count.
    pub is_patient: bool,
    /// The thread that is followed.
    pub focus: u32,
    /// How much may still be done.
    pub fuel: u64,
}

impl Facts {
    fn empty(alloc: Global) -> Facts {
        Facts {
            met: Vec::new(alloc),
            dead: Vec::new(alloc),
            why: Vec::new(alloc),
        }
    }

    fn fill(&mut self, size: usize) -> Result<(), NoMemory> {
        more_flags(&mut self.met, size)?;
        more_flags(&mut self.dead, size)?;
        for _ in self.why.len()..size {
            self.why.push(Why::Nothing)?;
        }
        Ok(())
    }

    /// Why a node can't hold.
    pub fn why(&self, n: u32) -> Why {
        match self.why.get(n as usize) {
            Some(why) => *why,
            None => Why::Nothing,
        }
    }

    pub(crate) fn set_dead(&mut self, n: u32, dead: bool, why: Why) {
        set_flag(&mut self.dead, n, dead);
        if let Some(place) = self.why.get_mut(n as usize) {
            *place = why;
        }
    }
}

impl Targets {
    fn empty(alloc: Global) -> Targets {
        Targets {
            leads: Vec::new(alloc),
            first: Vec::new(alloc),
            diamonds: Vec::new(alloc),
        }
    }

    fn fill(&mut self, t: &Terms) -> Result<(), NoMemory> {
        let places = t.places() as usize;
        more_numbers(&mut self.leads, places, 0)?;
        more_numbers(&mut self.first, places, NONE)?;
        more_numbers(&mut self.diamonds, t.actions as usize, 0)
    }

    /// A square leads to a place; tells whether it is the first one.
    pub(crate) fn add(&mut self, place: u32, square: u32) -> bool {
        let count = number(&self.leads, place);
        put(&mut self.leads, place, count.saturating_add(1));
        if count == 0 {
            put(&mut self.first, place, square);
        }
        count == 0
    }

    fn remove(&mut self, place: u32) {
        let count = number(&self.leads, place);
        put(&mut self.leads, place, count.saturating_sub(1));
        if count == 1 {
            put(&mut self.first, place, NONE);
        }
    }

    /// Is there a diamond of the action?
    pub(crate) fn has_diamond(&self, action: u32) -> bool {
        match self.diamonds.get(action as usize) {
            Some(count) => *count > 0,
            None => false,
        }
    }

    /// A diamond more; tells whether it is the first one.
    pub(crate) fn add_diamond(&mut self, action: u32) -> bool {
        let count = number(&self.diamonds, action);
        put(&mut self.diamonds, action, count.saturating_add(1));
        count == 0
    }

    fn remove_diamond(&mut self, action: u32) {
        let count = number(&self.diamonds, action);
        put(&mut self.diamonds, action, count.saturating_sub(1));
    }
}

/// A node to which a node refers, if a thread goes there.
fn on_thread(t: &Terms, n: u32, to: u32) -> u32 {
    if t.threads(n, to) { to } else { NONE }
}

impl Branch {
    /// Nothing stands, and there is no room.
    ///
    /// Cost: constant.
    pub fn empty(alloc: Global) -> Branch {
        Branch {
            stands: Vec::new(alloc),
            why: Vec::new(alloc),
            side: Vec::new(alloc),
            traced: Vec::new(alloc),
            facts: Facts::empty(alloc),
            targets: Targets::empty(alloc),
            watches: Watches::empty(alloc),
            ors: Vec::new(alloc),
            modals: Vec::new(alloc),
            literals: Vec::new(alloc),
            trail: Vec::new(alloc),
            work: Vec::new(alloc),
            near: Vec::new(alloc),
            tracing: Vec::new(alloc),
            pending: Vec::new(alloc),
            units: Vec::new(alloc),
            least: (0, 0),
            clash: None,
            is_patient: false,
            focus: NONE,
            fuel: 0,
        }
    }

    /// Makes room for a graph.
    ///
    /// # Errors
    /// `NoMemory` alone.
    ///
    /// Cost: linear in the graph.
    pub fn fill(&mut self, t: &Terms) -> Result<(), NoMemory> {
        let size = t.size as usize;
        more_flags(&mut self.stands, size)?;
        more_flags(&mut self.traced, size)?;
        more_numbers(&mut self.why, size, NONE)?;
        for _ in self.side.len()..size {
            self.side.push(0)?;
        }
        self.facts.fill(size)?;
        self.targets.fill(t)?;
        self.watches.fill(t)?;
        self.learn_constants(t)
    }

    fn learn_constants(&mut self, t: &Terms) -> Result<(), NoMemory> {
        for n in 0..t.size {
            match t.node(n) {
                Node::True => self.learn_met(t, n)?,
                Node::False => self.learn_dead(t, n, Why::Nothing)?,
                _ => {}
            }
        }
        self.trail.clear();
        self.units.clear();
        Ok(())
    }

    /// How much there is to take back.
    pub fn mark(&self) -> usize {
        self.trail.len()
    }

    /// So much was done.
    pub fn spend(&mut self, steps: u64) {
        self.fuel = self.fuel.saturating_sub(steps);
    }

    /// Notes a change.
    pub(crate) fn change(&mut self, change: Change) -> Result<(), NoMemory> {
        self.spend(1);
        self.trail.push(change)?;
        Ok(())
    }

    /// Takes back all but so many changes.
    ///
    /// Cost: linear in what is taken back.
    pub fn undo(&mut self, t: &Terms, mark: usize) {
        self.work.clear();
        self.clash = None;
        for _ in mark..self.trail.len() {
            if let Some(change) = self.trail.pop() {
                self.take_back(t, change);
            }
        }
        let (changes, ors) = self.least;
        self.least = (changes.min(mark), ors.min(self.ors.len()));
    }

    /// To how many changes, and or-nodes that stand, changes were taken back since this was asked.
    pub(crate) fn take_least(&mut self) -> (usize, usize) {
        std::mem::replace(&mut self.least, (usize::MAX, usize::MAX))
    }

    fn take_back(&mut self, t: &Terms, change: Change) {
        match change {
            Change::Stands(n) => self.fall(t, n),
            Change::Met(n) => set_flag(&mut self.facts.met, n, false),
            Change::Dead(n) => self.facts.set_dead(n, false, Why::Nothing),
            Change::Chosen(n) => self.set_side(n, 0),
            Change::Traced(n) => self.untrace(t, n),
        }
    }

    /// A node stands no longer.
    fn fall(&mut self, t: &Terms, n: u32) {
        set_flag(&mut self.stands, n, false);
        put(&mut self.why, n, NONE);
        match t.node(n) {
            Node::Or { .. } => {
                let _ = self.ors.pop();
            }
            Node::Lit { .. } => {
                let _ = self.literals.pop();
            }
            Node::Diamond { action, .. } => {
                let _ = self.modals.pop();
                self.targets.remove_diamond(action);
            }
            Node::Square { action, to } => {
                let _ = self.modals.pop();
                self.targets.remove(t.place(action, to));
            }
            _ => {}
        }
    }

    fn untrace(&mut self, t: &Terms, n: u32) {
        set_flag(&mut self.traced, n, false);
        if let Node::Square { action, to } = t.node(n) {
            if t.threads(n, to) {
                self.targets
                    .remove(t.place(action, to).saturating_add(t.size));
            }
        }
    }

    pub(crate) fn set_side(&mut self, n: u32, side: u8) {
        if let Some(place) = self.side.get_mut(n as usize) {
            *place = side;
        }
    }

    /// The side that was chosen at an or-node: 0 for none, 1 for the left one, 2 for the right one.
    pub fn side(&self, n: u32) -> u8 {
        match self.side.get(n as usize) {
            Some(side) => *side,
            None => 0,
        }
    }

    /// Where a thread goes on from a node that stands, without modal steps.
    pub fn next_on_thread(&self, t: &Terms, n: u32) -> (u32, u32) {
        let (left, right) = match (t.node(n), self.side(n)) {
            (Node::And { left, right }, _) => (left, right),
            (Node::Or { left, .. }, 1) => (left, NONE),
            (Node::Or { right, .. }, 2) => (NONE, right),
            _ => (NONE, NONE),
        };
        (on_thread(t, n, left), on_thread(t, n, right))
    }

    /// Adds the positive literals that stand.
    ///
    /// # Errors
    /// `NoMemory` alone.
    pub fn write_labels(&self, t: &Terms, labels: &mut Vec<u32>) -> Result<(), NoMemory> {
        for n in &self.literals {
            if let Node::Lit { positive: true, .. } = t.node(*n) {
                labels.push(*n)?;
            }
        }
        Ok(())
    }

    /// Does the node stand?
    pub fn stands(&self, n: u32) -> bool {
        flag(&self.stands, n)
    }

    /// Can the node not hold?
    pub fn is_dead(&self, n: u32) -> bool {
        flag(&self.facts.dead, n)
    }

    /// Needs an or-node that stands no choice?
    pub fn is_settled(&self, t: &Terms, n: u32) -> bool {
        if self.side(n) != 0 || flag(&self.facts.met, n) {
            return true;
        }
        match t.node(n) {
            Node::Or { left, right } => {
                (self.stands(left) && !t.threads(n, left))
                    || (self.stands(right) && !t.threads(n, right))
            }
            _ => true,
        }
    }

    /// Whether the right side of an or-node can't hold, or the left one can't; `None` where both may.
    pub(crate) fn unit(&self, t: &Terms, n: u32) -> Option<bool> {
        match t.node(n) {
            Node::Or { left, .. } if self.is_dead(left) => Some(false),
            Node::Or { right, .. } if self.is_dead(right) => Some(true),
            _ => None,
        }
    }
}
