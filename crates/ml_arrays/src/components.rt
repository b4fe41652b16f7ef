// Strong components.
use crate::digraphs::Digraph;
use crate::lists::{NONE, flag, more_numbers, number, put, set_flag, small};
use ml_base::NoMemory;
use std::alloc::Global;

/// Strong components, numbered so that each leads to none above it.
///
/// Source: Tarjan, Depth-first search and linear graph algorithms (1972).
#[derive(Drop)]
pub struct Components {
    /// The component of each node; `NONE` of those that weren't reached.
    pub of: Vec<u32>,
    /// The nodes, component by component.
    pub nodes: Vec<u32>,
    /// How many nodes stand up to the end of each component.
    pub ends: Vec<u32>,
    /// When each node was met.
    order: Vec<u32>,
    /// The node met first that each node is known to reach, by when it was met.
    low: Vec<u32>,
    /// The nodes whose component isn't closed.
    waiting: Vec<u32>,
    /// The nodes that are walked from, each with the place of its next target.
    path: Vec<(u32, u32)>,
    next: u32,
}

impl Components {
    /// Without a node.
    ///
    /// Cost: constant.
    pub fn empty(alloc: Global) -> Components {
        Components {
            of: Vec::new(alloc),
            nodes: Vec::new(alloc),
            ends: Vec::new(alloc),
            order: Vec::new(alloc),
            low: Vec::new(alloc),
            waiting: Vec::new(alloc),
            path: Vec::new(alloc),
            next: 0,
        }
    }

    /// The components of a graph.
    ///
    /// # Errors
    /// `NoMemory` alone.
    ///
    /// Cost: linear in nodes and targets.
    pub fn of_graph(alloc: Global, graph: &Digraph) -> Result<Components, NoMemory> {
        let mut components = Components::empty(alloc);
        components.find(graph)?;
        Ok(components)
    }

    /// Finds the components of a graph.
    ///
    /// # Errors
    /// `NoMemory` alone.
    ///
    /// Cost: linear in nodes and targets.
    pub fn find(&mut self, graph: &Digraph) -> Result<(), NoMemory> {
        self.begin(graph)?;
        for n in 0..graph.size() {
            self.walk(graph, n)?;
        }
        Ok(())
    }

    /// Finds the components of what is reached from a root.
    ///
    /// # Errors
    /// `NoMemory` alone.
    ///
    /// Cost: linear in nodes and targets.
    pub fn find_from(&mut self, graph: &Digraph, root: u32) -> Result<(), NoMemory> {
        self.begin(graph)?;
        self.walk(graph, root)
    }

    fn begin(&mut self, graph: &Digraph) -> Result<(), NoMemory> {
        self.of.clear();
        self.nodes.clear();
        self.ends.clear();
        self.order.clear();
        self.low.clear();
        self.next = 0;
        let size = graph.size() as usize;
        more_numbers(&mut self.of, size, NONE)?;
        more_numbers(&mut self.order, size, NONE)?;
        more_numbers(&mut self.low, size, NONE)
    }

    /// Walks from a node, until no node is walked from.
    fn walk(&mut self, graph: &Digraph, root: u32) -> Result<(), NoMemory> {
        self.look(root, root)?;
        for _ in 0..u64::MAX {
            let Some((n, place)) = self.path.pop() else {
                break;
            };
            match graph.targets(n).get(place as usize) {
                Some(to) => {
                    self.path.push((n, place.saturating_add(1)))?;
                    self.look(n, *to)?;
                }
                None => self.leave(n)?,
            }
        }
        Ok(())
    }

    /// Looks along an edge; where it leads to a node that wasn't met, the walk goes on from there.
    fn look(&mut self, n: u32, to: u32) -> Result<(), NoMemory> {
        if to as usize >= self.order.len() {
            return Ok(());
        }
        let order = number(&self.order, to);
        if order == NONE {
            return self.enter(to);
        }
        if number(&self.of, to) == NONE {
            self.lower(n, order);
        }
        Ok(())
    }

    fn enter(&mut self, n: u32) -> Result<(), NoMemory> {
        put(&mut self.order, n, self.next);
        put(&mut self.low, n, self.next);
        self.next = self.next.saturating_add(1);
        self.waiting.push(n)?;
        self.path.push((n, 0))?;
        Ok(())
    }

    fn lower(&mut self, n: u32, low: u32) {
        if low < number(&self.low, n) {
            put(&mut self.low, n, low);
        }
    }

    /// Nothing is left to look at from a node.
    fn leave(&mut self, n: u32) -> Result<(), NoMemory> {
        let low = number(&self.low, n);
        if let Some((before, _)) = self.path.last().copied() {
            self.lower(before, low);
        }
        if low == number(&self.order, n) {
            self.close(n)?;
        }
        Ok(())
    }

    /// Takes the component that was entered at this node.
    fn close(&mut self, n: u32) -> Result<(), NoMemory> {
        let component = small(self.ends.len());
        for _ in 0..u64::MAX {
            let Some(m) = self.waiting.pop() else {
                break;
            };
            put(&mut self.of, m, component);
            self.nodes.push(m)?;
            if m == n {
                break;
            }
        }
        self.ends.push(small(self.nodes.len()))?;
        Ok(())
    }

    /// Does a node of the graph, whose components these are, lie on a closed walk?
    ///
    /// Cost: linear in its targets.
    pub fn is_on_cycle(&self, graph: &Digraph, n: u32) -> bool {
        let here = number(&self.of, n);
        for to in graph.targets(n) {
            if here != NONE && number(&self.of, *to) == here {
                return true;
            }
        }
        false
    }

    /// Flags all nodes of the graph, whose components these are, from which a flagged one is reached.
    ///
    /// Cost: linear in nodes and targets.
    pub fn flag_back(&self, graph: &Digraph, flags: &mut [bool]) {
        let mut first = 0;
        for end in &self.ends {
            if self.reaches(graph, flags, first, *end) {
                for place in first..*end {
                    set_flag(flags, number(&self.nodes, place), true);
                }
            }
            first = *end;
        }
    }

    /// Is a node at one of these places flagged, or does it lead to one that is?
    fn reaches(&self, graph: &Digraph, flags: &[bool], first: u32, end: u32) -> bool {
        for place in first..end {
            let n = number(&self.nodes, place);
            if flag(flags, n) {
                return true;
            }
            for to in graph.targets(n) {
                if flag(flags, *to) {
                    return true;
                }
            }
        }
        false
    }
}
