// Claims with ranks, made by evaluating a graph on a structure.
use crate::checking::pair;
use crate::rows::Rows;
use ml_arrays::{Components, Digraph, NONE, more_numbers, number, small};
use ml_base::{Action, Edge, NoMemory};
use ml_graph::{ModalGraph, Node};
use ml_kripke::Structure;
use std::alloc::Global;

/// What is evaluated, and what came of it so far.
///
/// The strong components of the graph are taken from below. Where one has an odd priority, a pair is claimed as soon as what it
/// takes is, and its rank is how many were claimed before it. Otherwise all of its pairs are claimed at one rank, and taken
/// back as what they take fails.
#[derive(Drop)]
pub(crate) struct Making<'a> {
    graph: &'a ModalGraph,
    structure: &'a Structure,
    components: Components,
    /// The node `n` stands in the rows of what it refers to, as `2 * n` and `2 * n + 1`.
    parents: Rows,
    /// For each state the places of the edges that lead there.
    arriving: Rows,
    /// The place of the first edge from each state, and behind all states the number of edges.
    pub(crate) firsts: Vec<u32>,
    /// The place of each edge's action among those of the graph.
    actions: Vec<u32>,
    /// The rank of each pair; 0 where it isn't claimed.
    pub(crate) ranks: Vec<u32>,
    next: u32,
    changed: Vec<(u32, u32)>,
    alloc: Global,
}

/// The nodes to which a node refers.
fn references(node: Node) -> (u32, u32) {
    match node {
        Node::And { left, right } | Node::Or { left, right } => (left, right),
        Node::Diamond { to, .. } | Node::Square { to, .. } => (to, NONE),
        _ => (NONE, NONE),
    }
}

/// Writes to which nodes each node refers.
fn write_references(graph: &ModalGraph, written: &mut Digraph) -> Result<(), NoMemory> {
    for node in graph.nodes() {
        let (left, right) = references(*node);
        written.push_target(left)?;
        written.push_target(right)?;
        written.end_node()?;
    }
    Ok(())
}

/// The place of an action of the graph, tried first at the place where the last one was found.
fn place_of(actions: &[Action], action: &Action, last: u32) -> u32 {
    if let Some(other) = actions.get(last as usize) {
        if *other == *action {
            return last;
        }
    }
    match actions.iter().position(|other| *other == *action) {
        Some(place) => small(place),
        None => NONE,
    }
}

impl<'a> Making<'a> {
    /// Nothing made yet.
    pub(crate) fn empty(
        alloc: Global,
        graph: &'a ModalGraph,
        structure: &'a Structure,
    ) -> Making<'a> {
        Making {
            graph,
            structure,
            components: Components::empty(alloc),
            parents: Rows::empty(alloc),
            arriving: Rows::empty(alloc),
            firsts: Vec::new(alloc),
            actions: Vec::new(alloc),
            ranks: Vec::new(alloc),
            next: 0,
            changed: Vec::new(alloc),
            alloc,
        }
    }

    /// Makes the claims.
    pub(crate) fn make(&mut self) -> Result<(), NoMemory> {
        self.find_components()?;
        self.find_parents()?;
        self.find_edges()?;
        let count = pair(self.graph.size(), self.structure.states(), 0);
        more_numbers(&mut self.ranks, count, 0)?;
        let mut first = 0;
        for component in 0..small(self.components.ends.len()) {
            let end = number(&self.components.ends, component);
            self.evaluate(component, first, end)?;
            first = end;
        }
        Ok(())
    }

    fn find_components(&mut self) -> Result<(), NoMemory> {
        let mut references = Digraph::empty(self.alloc);
        write_references(self.graph, &mut references)?;
        self.components.find_from(&references, self.graph.root())
    }

    fn find_parents(&mut self) -> Result<(), NoMemory> {
        let size = self.graph.nodes().len();
        self.parents.make_room(size, size.saturating_mul(2))?;
        for n in 0..self.graph.size() {
            if number(&self.components.of, n) != NONE {
                let (left, right) = references(self.node(n));
                self.parents.add(left, n.saturating_mul(2));
                self.parents
                    .add(right, n.saturating_mul(2).saturating_add(1));
            }
        }
        Ok(())
    }

    fn find_edges(&mut self) -> Result<(), NoMemory> {
        let count = self.structure.edges().len();
        self.arriving
            .make_room(self.structure.states() as usize, count)?;
        let mut last = 0;
        for place in 0..count {
            if let Some(edge) = self.structure.edges().get(place) {
                last = self.find_edge(small(place), edge, last)?;
            }
        }
        more_numbers(
            &mut self.firsts,
            self.structure.states() as usize + 1,
            small(count),
        )
    }

    /// Notes an edge; answers the place of its action.
    fn find_edge(&mut self, place: u32, edge: &Edge, last: u32) -> Result<u32, NoMemory> {
        more_numbers(&mut self.firsts, edge.source as usize + 1, place)?;
        let action = place_of(self.graph.actions(), &edge.action, last);
        self.actions.push(action)?;
        self.arriving.add(edge.target, place);
        Ok(action)
    }

    fn rank(&self, state: u32, n: u32) -> u32 {
        match self.ranks.get(pair(self.graph.size(), state, n)) {
            Some(rank) => *rank,
            None => 0,
        }
    }

    fn set_rank(&mut self, state: u32, n: u32, rank: u32) {
        let place = pair(self.graph.size(), state, n);
        if let Some(kept) = self.ranks.get_mut(place) {
            *kept = rank;
        }
    }

    /// The node; True where there is none.
    fn node(&self, n: u32) -> Node {
        match self.graph.nodes().get(n as usize) {
            Some(node) => *node,
            None => Node::True,
        }
    }

    fn is_odd(&self, n: u32) -> bool {
        match self.graph.priorities().get(n as usize) {
            Some(priority) => *priority % 2 == 1,
            None => false,
        }
    }

    /// Evaluates a component, whose nodes stand at these places.
    fn evaluate(&mut self, component: u32, first: u32, end: u32) -> Result<(), NoMemory> {
        let is_least = self.has_odd(first, end);
        if !is_least {
            self.claim_all(first, end);
        }
        let last = self.structure.states().saturating_sub(1);
        for steps in 0..self.structure.states() {
            self.update_all(is_least, last.saturating_sub(steps), first, end)?;
            self.propagate(component, is_least)?;
        }
        Ok(())
    }

    /// Updates each pair of a state and a node of the component.
    fn update_all(
        &mut self,
        is_least: bool,
        state: u32,
        first: u32,
        end: u32,
    ) -> Result<(), NoMemory> {
        for place in first..end {
            let n = number(&self.components.nodes, place);
            self.update(is_least, state, n)?;
        }
        Ok(())
    }

    fn has_odd(&self, first: u32, end: u32) -> bool {
        for place in first..end {
            if self.is_odd(number(&self.components.nodes, place)) {
                return true;
            }
        }
        false
    }

    /// Claims all pairs of a component, at one rank.
    fn claim_all(&mut self, first: u32, end: u32) {
        self.next = self.next.saturating_add(1);
        for state in 0..self.structure.states() {
            for place in first..end {
                let n = number(&self.components.nodes, place);
                self.set_rank(state, n, self.next);
            }
        }
    }

    /// Claims a pair, or takes its claim back, if it is time.
    fn update(&mut self, is_least: bool, state: u32, n: u32) -> Result<(), NoMemory> {
        let is_claimed = self.rank(state, n) > 0;
        if is_claimed == is_least || self.holds(state, n) != is_least {
            return Ok(());
        }
        if is_least {
            self.next = self.next.saturating_add(1);
            self.set_rank(state, n, self.next);
        } else {
            self.set_rank(state, n, 0);
        }
        self.changed.push((state, n))?;
        Ok(())
    }

    /// Updates what depends on what changed, in the component.
    fn propagate(&mut self, component: u32, is_least: bool) -> Result<(), NoMemory> {
        for _ in 0..u64::MAX {
            let Some((state, n)) = self.changed.pop() else {
                break;
            };
            self.update_parents(component, is_least, state, n)?;
        }
        Ok(())
    }

    fn update_parents(
        &mut self,
        component: u32,
        is_least: bool,
        state: u32,
        n: u32,
    ) -> Result<(), NoMemory> {
        let mut link = self.parents.first(n);
        for _ in 0..u64::MAX {
            if link == NONE {
                break;
            }
            if number(&self.components.of, link / 2) == component {
                self.update_parent(is_least, state, link / 2)?;
            }
            link = self.parents.after(link);
        }
        Ok(())
    }

    fn update_parent(&mut self, is_least: bool, state: u32, n: u32) -> Result<(), NoMemory> {
        match self.node(n) {
            Node::Diamond { action, .. } | Node::Square { action, .. } => {
                self.update_sources(is_least, state, n, action)
            }
            _ => self.update(is_least, state, n),
        }
    }

    /// Updates a node at each state from which an edge of the action leads to this one.
    fn update_sources(
        &mut self,
        is_least: bool,
        state: u32,
        n: u32,
        action: u32,
    ) -> Result<(), NoMemory> {
        let mut place = self.arriving.first(state);
        for _ in 0..u64::MAX {
            if place == NONE {
                break;
            }
            if number(&self.actions, place) == action {
                let source = self.source(place);
                self.update(is_least, source, n)?;
            }
            place = self.arriving.after(place);
        }
        Ok(())
    }

    fn source(&self, place: u32) -> u32 {
        match self.structure.edges().get(place as usize) {
            Some(edge) => edge.source,
            None => NONE,
        }
    }

    /// Does the node hold at the state, as far as is claimed?
    fn holds(&self, state: u32, n: u32) -> bool {
        match self.node(n) {
            Node::True => true,
            Node::False => false,
            Node::Lit { prop, positive } => self.literal_holds(state, prop, positive),
            Node::And { left, right } => self.rank(state, left) > 0 && self.rank(state, right) > 0,
            Node::Or { left, right } => self.rank(state, left) > 0 || self.rank(state, right) > 0,
            Node::Diamond { action, to } => self.leads(state, action, to, true),
            Node::Square { action, to } => !self.leads(state, action, to, false),
        }
    }

    fn literal_holds(&self, state: u32, prop: u32, positive: bool) -> bool {
        if state >= self.structure.states() {
            return false;
        }
        match self.graph.props().get(prop as usize) {
            Some(name) => self.structure.has_label(state, name) == positive,
            None => false,
        }
    }

    /// Leads an edge of the action from the state to one at which the node is claimed, or isn't?
    fn leads(&self, state: u32, action: u32, to: u32, claimed: bool) -> bool {
        for place in number(&self.firsts, state)..number(&self.firsts, state.saturating_add(1)) {
            if number(&self.actions, place) == action {
                if let Some(edge) = self.structure.edges().get(place as usize) {
                    if (self.rank(edge.target, to) > 0) == claimed {
                        return true;
                    }
                }
            }
        }
        false
    }
}
