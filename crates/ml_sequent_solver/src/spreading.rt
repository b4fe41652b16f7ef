// How a spread grows: what stands, what follows of it, and which cores fire.
use crate::branches::{Branch, Change, Clash, Why};
use crate::terms::Terms;
use ml_arrays::{NONE, flag, number, put, row, set_flag, small};
use ml_base::NoMemory;
use ml_graph::Node;

/// What a core lacks.
#[derive(Clone, Copy)]
enum Lack {
    Nothing,
    One(u32),
    More,
}

impl Branch {
    /// Begins with nothing that stands; these nodes aren't wanted.
    pub(crate) fn begin(
        &mut self,
        t: &Terms,
        unwanted: &[u32],
        focus: u32,
    ) -> Result<(), NoMemory> {
        self.undo(t, 0);
        self.units.clear();
        self.pending.clear();
        self.focus = focus;
        for n in unwanted {
            self.learn_dead(t, *n, Why::Unwanted)?;
        }
        Ok(())
    }

    /// Starts with a sequent, all of whose nodes stand; these nodes aren't wanted.
    ///
    /// # Errors
    /// `NoMemory` alone.
    ///
    /// Cost: what follows, and what is watched.
    pub fn start(
        &mut self,
        t: &Terms,
        nodes: &[u32],
        unwanted: &[u32],
        focus: u32,
    ) -> Result<(), NoMemory> {
        self.begin(t, unwanted, focus)?;
        for n in nodes {
            self.work.push((*n, NONE))?;
        }
        if t.always != NONE {
            self.work.push((t.always, NONE))?;
        }
        let last = t.places().saturating_sub(1);
        self.look_at(last)?;
        if focus != NONE {
            self.trace(t, focus)?;
        }
        self.spread(t)
    }

    /// Chooses a side of an or-node that stands.
    ///
    /// # Errors
    /// `NoMemory` alone.
    ///
    /// Cost: what follows, and what is watched.
    pub fn choose(&mut self, t: &Terms, n: u32, right: bool) -> Result<(), NoMemory> {
        if let Node::Or { left, right: other } = t.node(n) {
            self.set_side(n, if right { 2 } else { 1 });
            self.change(Change::Chosen(n))?;
            let child = if right { other } else { left };
            self.work.push((child, n))?;
            if flag(&self.traced, n) && t.threads(n, child) {
                self.trace(t, child)?;
            }
        }
        self.spread(t)
    }

    /// A node that stands, or will at once, is on a walk from the focus.
    fn trace(&mut self, t: &Terms, first: u32) -> Result<(), NoMemory> {
        self.tracing.push(first)?;
        for _ in 0..u64::MAX {
            let Some(n) = self.tracing.pop() else {
                break;
            };
            if !flag(&self.traced, n) && n < t.size {
                set_flag(&mut self.traced, n, true);
                self.change(Change::Traced(n))?;
                self.trace_on(t, n)?;
            }
        }
        Ok(())
    }

    /// Where the walk goes on.
    fn trace_on(&mut self, t: &Terms, n: u32) -> Result<(), NoMemory> {
        match t.node(n) {
            Node::And { left, right } => {
                self.trace_to(t, n, left)?;
                self.trace_to(t, n, right)
            }
            Node::Or { left, right } => match self.side(n) {
                1 => self.trace_to(t, n, left),
                2 => self.trace_to(t, n, right),
                _ => Ok(()),
            },
            Node::Square { action, to } if t.threads(n, to) => {
                let place = t.place(action, to).saturating_add(t.size);
                if self.targets.add(place, n) {
                    self.visit(t, action, place)?;
                }
                Ok(())
            }
            Node::Diamond { action, to } if t.threads(n, to) => {
                self.look_at(t.place(action, to).saturating_add(t.size))
            }
            _ => Ok(()),
        }
    }

    fn trace_to(&mut self, t: &Terms, n: u32, to: u32) -> Result<(), NoMemory> {
        if t.threads(n, to) {
            self.tracing.push(to)?;
        }
        Ok(())
    }

    /// All cores that are watched at a place become pending.
    fn look_at(&mut self, place: u32) -> Result<(), NoMemory> {
        self.look_at_list(place, false)?;
        self.look_at_list(place, true)
    }

    fn look_at_list(&mut self, place: u32, is_own: bool) -> Result<(), NoMemory> {
        for i in 0..self.watches.count(place, is_own) {
            let core = self.watches.core_at(place, is_own, small(i));
            self.spend(1);
            self.pending.push(core)?;
        }
        Ok(())
    }

    /// A node has become a target: cores look for other nodes to watch.
    fn visit(&mut self, t: &Terms, action: u32, place: u32) -> Result<(), NoMemory> {
        let base = t.place(action, 0);
        let steps = self
            .watches
            .visit(&self.targets.leads, base, place, false, &mut self.pending)?;
        self.spend(steps);
        let steps = self
            .watches
            .visit(&self.targets.leads, base, place, true, &mut self.pending)?;
        self.spend(steps);
        Ok(())
    }

    /// Adds what is to be added, and fires what is pending, until there is a clash or nothing is left.
    fn spread(&mut self, t: &Terms) -> Result<(), NoMemory> {
        for _ in 0..u64::MAX {
            if self.clash.is_some() || self.fuel == 0 {
                self.work.clear();
                break;
            }
            if let Some((n, why)) = self.work.pop() {
                self.stand(t, n, why)?;
            } else if let Some(core) = self.pending.pop() {
                self.fire(t, core)?;
            } else {
                break;
            }
        }
        Ok(())
    }

    /// A node stands, because of another one.
    fn stand(&mut self, t: &Terms, n: u32, why: u32) -> Result<(), NoMemory> {
        if self.stands(n) || n >= t.size {
            return Ok(());
        }
        set_flag(&mut self.stands, n, true);
        put(&mut self.why, n, why);
        self.change(Change::Stands(n))?;
        if self.is_dead(n) && !self.is_patient {
            self.clash = Some(Clash::Dead(n));
        }
        self.follow(t, n)
    }

    /// What follows where a node stands.
    fn follow(&mut self, t: &Terms, n: u32) -> Result<(), NoMemory> {
        match t.node(n) {
            Node::True => Ok(()),
            Node::False => {
                self.clash = Some(Clash::False(n));
                Ok(())
            }
            Node::Lit { prop, positive } => self.take_literal(t, n, prop, positive),
            Node::And { left, right } => {
                self.work.push((right, n))?;
                self.work.push((left, n))?;
                Ok(())
            }
            Node::Or { left, right } => self.take_or(t, n, left, right),
            Node::Diamond { action, to } => self.take_diamond(t, n, action, to),
            Node::Square { action, to } => self.take_square(t, n, action, to),
        }
    }

    /// Where both sides are one node it is chosen, but for who is patient.
    fn take_or(&mut self, t: &Terms, n: u32, left: u32, right: u32) -> Result<(), NoMemory> {
        self.ors.push(n)?;
        if left == right && !self.is_patient {
            self.set_side(n, 1);
            self.change(Change::Chosen(n))?;
            self.work.push((left, n))?;
            if flag(&self.traced, n) && t.threads(n, left) {
                self.trace(t, left)?;
            }
        } else if self.is_dead(left) || self.is_dead(right) {
            self.units.push(n)?;
        }
        Ok(())
    }

    fn take_square(&mut self, t: &Terms, n: u32, action: u32, to: u32) -> Result<(), NoMemory> {
        self.modals.push(n)?;
        let place = t.place(action, to);
        if self.targets.add(place, n) {
            self.visit(t, action, place)?;
        }
        Ok(())
    }

    /// A diamond stands: cores that lacked its target alone, or a diamond, are looked at again.
    fn take_diamond(&mut self, t: &Terms, n: u32, action: u32, to: u32) -> Result<(), NoMemory> {
        self.modals.push(n)?;
        let is_first = self.targets.add_diamond(action);
        let place = t.place(action, to);
        self.look_at(place)?;
        self.look_at(place.saturating_add(t.size))?;
        self.look_at(t.places().saturating_sub(1))?;
        if is_first {
            self.visit_all(t, action)?;
        }
        Ok(())
    }

    /// All targets by squares of the action are visited.
    fn visit_all(&mut self, t: &Terms, action: u32) -> Result<(), NoMemory> {
        for i in 0..self.modals.len() {
            if let Some(n) = self.modals.get(i).copied() {
                self.visit_square(t, n, action)?;
            }
        }
        Ok(())
    }

    fn visit_square(&mut self, t: &Terms, n: u32, action: u32) -> Result<(), NoMemory> {
        match t.node(n) {
            Node::Square { action: other, to } if other == action => {
                let place = t.place(action, to);
                self.visit(t, action, place)?;
                self.visit(t, action, place.saturating_add(t.size))
            }
            _ => Ok(()),
        }
    }

    fn take_literal(
        &mut self,
        t: &Terms,
        n: u32,
        prop: u32,
        positive: bool,
    ) -> Result<(), NoMemory> {
        self.literals.push(n)?;
        let (same, others) = if positive {
            (row(&t.positive, prop), row(&t.negative, prop))
        } else {
            (row(&t.negative, prop), row(&t.positive, prop))
        };
        if let Some(other) = self.first_standing(others) {
            self.clash = Some(if positive {
                Clash::Pair(n, other)
            } else {
                Clash::Pair(other, n)
            });
            return Ok(());
        }
        for other in same {
            self.learn_met(t, *other)?;
        }
        for other in others {
            self.learn_dead(t, *other, Why::Literal(n))?;
        }
        Ok(())
    }

    fn first_standing(&self, nodes: &[u32]) -> Option<u32> {
        for n in nodes {
            if self.stands(*n) {
                return Some(*n);
            }
        }
        None
    }

    /// A node holds, whatever is chosen, and so others do.
    pub(crate) fn learn_met(&mut self, t: &Terms, first: u32) -> Result<(), NoMemory> {
        self.near.push((first, Why::Nothing))?;
        for _ in 0..u64::MAX {
            let Some((n, _)) = self.near.pop() else {
                break;
            };
            if !flag(&self.facts.met, n) && n < t.size {
                set_flag(&mut self.facts.met, n, true);
                self.change(Change::Met(n))?;
                self.pass_met(t, n)?;
            }
        }
        Ok(())
    }

    fn pass_met(&mut self, t: &Terms, n: u32) -> Result<(), NoMemory> {
        for p in row(&t.parents, n) {
            let follows = match t.node(*p) {
                Node::Or { .. } => true,
                Node::And { left, right } => {
                    flag(&self.facts.met, left) && flag(&self.facts.met, right)
                }
                _ => false,
            };
            if follows {
                self.near.push((*p, Why::Nothing))?;
            }
        }
        Ok(())
    }

    /// A node can't hold, and so others can't.
    pub(crate) fn learn_dead(&mut self, t: &Terms, first: u32, why: Why) -> Result<(), NoMemory> {
        self.near.push((first, why))?;
        for _ in 0..u64::MAX {
            let Some((n, why)) = self.near.pop() else {
                break;
            };
            if !self.is_dead(n) && n < t.size {
                self.facts.set_dead(n, true, why);
                self.change(Change::Dead(n))?;
                if self.stands(n) && self.clash.is_none() && !self.is_patient {
                    self.clash = Some(Clash::Dead(n));
                }
                self.pass_dead(t, n)?;
            }
        }
        Ok(())
    }

    fn pass_dead(&mut self, t: &Terms, n: u32) -> Result<(), NoMemory> {
        for p in row(&t.parents, n) {
            match t.node(*p) {
                Node::And { .. } => self.near.push((*p, Why::Child(n)))?,
                Node::Or { left, right } => {
                    if self.is_dead(left) && self.is_dead(right) {
                        self.near.push((*p, Why::Both))?;
                    } else if self.stands(*p) {
                        self.units.push(*p)?;
                    }
                }
                _ => {}
            }
        }
        Ok(())
    }

    /// What an active core lacks, and its action.
    fn lack(&self, t: &Terms, core: u32) -> (Lack, u32) {
        let Some(core) = self.watches.cores.at(core) else {
            return (Lack::More, 0);
        };
        if !self.watches.is_active(core) {
            return (Lack::More, 0);
        }
        let base = t.place(core.action, 0);
        let mut lack = Lack::Nothing;
        for n in &core.watched {
            if number(&self.targets.leads, base.saturating_add(*n)) == 0 {
                lack = match lack {
                    Lack::Nothing => Lack::One(*n),
                    _ => return (Lack::More, 0),
                };
            }
        }
        (lack, core.action)
    }

    /// A core that lacks at most one target, which a diamond may give.
    fn fire(&mut self, t: &Terms, core: u32) -> Result<(), NoMemory> {
        self.spend(2);
        match self.lack(t, core) {
            (Lack::More, _) => Ok(()),
            (Lack::Nothing, action) => {
                if let Some(diamond) = self.first_diamond(t, action) {
                    self.clash = Some(Clash::Core(core, diamond));
                }
                Ok(())
            }
            (Lack::One(node), action) if node < t.size => {
                self.fire_diamonds(t, core, action, node, false)?;
                self.fire_squares(t, core, action, node, false)
            }
            (Lack::One(node), action) => {
                let node = node.saturating_sub(t.size);
                self.fire_diamonds(t, core, action, node, true)?;
                self.fire_squares(t, core, action, node, true)
            }
        }
    }

    /// The first diamond of the action that stands.
    pub(crate) fn first_diamond(&self, t: &Terms, action: u32) -> Option<u32> {
        for n in &self.modals {
            match t.node(*n) {
                Node::Diamond { action: other, .. } if other == action => return Some(*n),
                _ => {}
            }
        }
        None
    }

    /// Diamonds to the node that a core lacks: one that stands clashes, others can't hold.
    fn fire_diamonds(
        &mut self,
        t: &Terms,
        core: u32,
        action: u32,
        node: u32,
        is_thread: bool,
    ) -> Result<(), NoMemory> {
        for diamond in row(&t.diamonds_to, node) {
            if self.clash.is_none()
                && self.has_action(t, *diamond, action)
                && (!is_thread || self.is_on_thread(t, *diamond, node))
            {
                if self.stands(*diamond) {
                    self.clash = Some(Clash::Core(core, *diamond));
                } else {
                    self.learn_dead(t, *diamond, Why::Core(core))?;
                }
            }
        }
        Ok(())
    }

    /// Squares to the node that a core lacks can't hold where a diamond stands.
    fn fire_squares(
        &mut self,
        t: &Terms,
        core: u32,
        action: u32,
        node: u32,
        is_thread: bool,
    ) -> Result<(), NoMemory> {
        if self.clash.is_some() || !self.targets.has_diamond(action) {
            return Ok(());
        }
        for square in row(&t.squares_to, node) {
            if self.has_action(t, *square, action)
                && (!is_thread || self.is_on_simple(t, *square, node))
            {
                self.learn_dead(t, *square, Why::Core(core))?;
            }
        }
        Ok(())
    }

    fn has_action(&self, t: &Terms, n: u32, action: u32) -> bool {
        match t.node(n) {
            Node::Diamond { action: other, .. } | Node::Square { action: other, .. } => {
                other == action
            }
            _ => false,
        }
    }

    /// Does the thread go along the edge wherever this node stands?
    fn is_on_simple(&self, t: &Terms, n: u32, to: u32) -> bool {
        t.threads(n, to) && self.focus == to && t.traces.is_simple(to)
    }

    /// Does the thread go along the diamond, or would it if the diamond stood?
    fn is_on_thread(&self, t: &Terms, n: u32, to: u32) -> bool {
        t.threads(n, to)
            && (flag(&self.traced, n) || (!self.stands(n) && self.is_on_simple(t, n, to)))
    }
}
