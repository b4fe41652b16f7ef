// What a clash needs: the or-nodes whose choices lead to it, nodes of the sequent, cores.
use crate::branches::{Branch, Clash, Why};
use crate::terms::Terms;
use ml_arrays::{NONE, NumberSet, more_numbers, number, put};
use ml_base::NoMemory;
use ml_graph::Node;
use std::alloc::Global;

/// What a clash needs.
#[derive(Drop)]
pub struct Marks {
    /// Or-nodes.
    pub ors: NumberSet,
    /// Nodes of the sequent.
    pub roots: NumberSet,
    /// Cores.
    pub cores: NumberSet,
    /// That nodes weren't wanted.
    pub unwanted: bool,
    /// When a node's chain was walked last, and when it was seen why it can't hold.
    walked: Vec<u32>,
    seen: Vec<u32>,
    stamp: u32,
    open: Vec<u32>,
    /// How much was done since this was read.
    pub(crate) steps: u64,
}

impl Marks {
    /// Nothing is marked, and there is no room.
    ///
    /// Cost: constant.
    pub fn empty(alloc: Global) -> Marks {
        Marks {
            ors: NumberSet::empty(alloc),
            roots: NumberSet::empty(alloc),
            cores: NumberSet::empty(alloc),
            unwanted: false,
            walked: Vec::new(alloc),
            seen: Vec::new(alloc),
            stamp: 0,
            open: Vec::new(alloc),
            steps: 0,
        }
    }

    /// Makes room for a graph.
    pub(crate) fn fill(&mut self, t: &Terms) -> Result<(), NoMemory> {
        let size = t.size as usize;
        more_numbers(&mut self.walked, size, 0)?;
        more_numbers(&mut self.seen, size, 0)
    }

    /// Marks nothing.
    pub(crate) fn clear(&mut self) {
        self.ors.clear();
        self.roots.clear();
        self.cores.clear();
        self.unwanted = false;
        self.stamp = self.stamp.wrapping_add(1);
    }

    /// Marks the or-nodes by whose sides a node stands, and the node of the sequent at the end.
    pub(crate) fn chain(&mut self, t: &Terms, br: &Branch, n: u32) -> Result<(), NoMemory> {
        let mut at = n;
        for _ in 0..u64::MAX {
            self.steps = self.steps.saturating_add(1);
            if at >= t.size || number(&self.walked, at) == self.stamp {
                break;
            }
            put(&mut self.walked, at, self.stamp);
            let by = number(&br.why, at);
            if by == NONE {
                if at != t.always {
                    self.roots.insert(at)?;
                }
                break;
            }
            self.mark_or(t, by)?;
            at = by;
        }
        Ok(())
    }

    fn mark_or(&mut self, t: &Terms, n: u32) -> Result<(), NoMemory> {
        match t.node(n) {
            Node::Or { left, right } if left != right => {
                self.ors.insert(n)?;
                Ok(())
            }
            _ => Ok(()),
        }
    }

    /// Marks why targets contain a core, but for one node.
    fn core(&mut self, t: &Terms, br: &Branch, id: u32, but: u32) -> Result<(), NoMemory> {
        self.cores.insert(id)?;
        let Some(core) = br.watches.cores.at(id) else {
            return Ok(());
        };
        let base = t.place(core.action, 0);
        for k in &core.watched {
            self.steps = self.steps.saturating_add(1);
            let plain = if *k >= t.size { *k - t.size } else { *k };
            if plain != but && (!core.is_narrow || core.need.binary_search(&plain).is_ok()) {
                let by = number(&br.targets.first, base.saturating_add(*k));
                if by != NONE {
                    self.chain(t, br, by)?;
                }
            }
        }
        Ok(())
    }

    /// Marks why a node can't hold.
    pub(crate) fn dead(&mut self, t: &Terms, br: &Branch, first: u32) -> Result<(), NoMemory> {
        self.open.push(first)?;
        for _ in 0..u64::MAX {
            let Some(n) = self.open.pop() else {
                break;
            };
            self.steps = self.steps.saturating_add(1);
            if n < t.size && number(&self.seen, n) != self.stamp {
                put(&mut self.seen, n, self.stamp);
                self.dead_one(t, br, n)?;
            }
        }
        Ok(())
    }

    fn dead_one(&mut self, t: &Terms, br: &Branch, n: u32) -> Result<(), NoMemory> {
        match br.facts.why(n) {
            Why::Nothing => Ok(()),
            Why::Literal(other) => self.chain(t, br, other),
            Why::Child(child) => {
                self.open.push(child)?;
                Ok(())
            }
            Why::Both => self.open_both(t, n),
            Why::Core(core) => self.dead_by_core(t, br, n, core),
            Why::Unwanted => {
                self.unwanted = true;
                Ok(())
            }
        }
    }

    fn open_both(&mut self, t: &Terms, n: u32) -> Result<(), NoMemory> {
        if let Node::Or { left, right } = t.node(n) {
            self.open.push(left)?;
            self.open.push(right)?;
        }
        Ok(())
    }

    /// Marks why a modal node would complete a core.
    fn dead_by_core(&mut self, t: &Terms, br: &Branch, n: u32, core: u32) -> Result<(), NoMemory> {
        match t.node(n) {
            Node::Diamond { to, .. } => self.core(t, br, core, to),
            Node::Square { action, to } => {
                if let Some(diamond) = br.first_diamond(t, action) {
                    self.chain(t, br, diamond)?;
                }
                self.core(t, br, core, to)
            }
            _ => Ok(()),
        }
    }

    /// Marks what a clash needs.
    pub(crate) fn clash(&mut self, t: &Terms, br: &Branch, clash: Clash) -> Result<(), NoMemory> {
        match clash {
            Clash::False(n) => self.chain(t, br, n),
            Clash::Pair(positive, negative) => {
                self.chain(t, br, positive)?;
                self.chain(t, br, negative)
            }
            Clash::Dead(n) => {
                self.chain(t, br, n)?;
                self.dead(t, br, n)
            }
            Clash::Core(core, diamond) => {
                self.chain(t, br, diamond)?;
                self.core(t, br, core, lacking(t, br, core, diamond))
            }
        }
    }
}

/// The target of a diamond, where no square leads there too.
fn lacking(t: &Terms, br: &Branch, core: u32, diamond: u32) -> u32 {
    let Node::Diamond { action, to } = t.node(diamond) else {
        return NONE;
    };
    match br.watches.cores.at(core) {
        Some(_) if number(&br.targets.leads, t.place(action, to)) == 0 => to,
        _ => NONE,
    }
}
