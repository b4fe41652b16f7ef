// Where bad traces can stay: components of an odd priority.
use crate::parts::{Part, references};
use ml_arrays::{NONE, flag, more_flags, more_numbers, number, put, set_flag, small};
use ml_base::NoMemory;
use ml_graph::{ModalGraph, Node};
use std::alloc::Global;

/// Where more than one node was found.
const MANY: u32 = u32::MAX - 1;

/// The thread components of a graph: for an odd priority d the strong components of what has priority d or more, where a
/// node has priority d and there is a closed walk.
#[derive(Drop)]
pub struct Threads {
    /// The component of each node, from 1; 0 for none.
    pub component: Vec<u32>,
    /// The odd priority of each component.
    pub odd: Vec<u32>,
    /// Of each component the one node at which it is entered, from outside or by a modal step.
    head: Vec<u32>,
    /// Each closed walk in a component passes its priority, and no node is in two.
    pub is_weak: bool,
    /// Some node of an odd priority lies on a closed walk without modal steps, through nodes of no lower priority.
    pub has_local_cycles: bool,
    keep: Vec<bool>,
    has: Vec<bool>,
    numbers: Vec<u32>,
}

impl Threads {
    /// Nothing is computed yet.
    pub(crate) fn empty(alloc: Global) -> Threads {
        Threads {
            component: Vec::new(alloc),
            odd: Vec::new(alloc),
            head: Vec::new(alloc),
            is_weak: true,
            has_local_cycles: false,
            keep: Vec::new(alloc),
            has: Vec::new(alloc),
            numbers: Vec::new(alloc),
        }
    }

    /// The components of a graph, whose nodes that are reached from the root have a rank.
    pub(crate) fn fill(
        &mut self,
        alloc: Global,
        graph: &ModalGraph,
        rank: &[u32],
    ) -> Result<(), NoMemory> {
        let size = graph.nodes().len();
        more_numbers(&mut self.component, size, 0)?;
        more_flags(&mut self.keep, size)?;
        self.odd.push(0)?;
        let mut part = Part::empty(alloc);
        self.search(graph, rank, &mut part)
    }

    fn search(
        &mut self,
        graph: &ModalGraph,
        rank: &[u32],
        part: &mut Part,
    ) -> Result<(), NoMemory> {
        let odds = graph.odd_priorities()?;
        for odd in &odds {
            self.search_one(graph, rank, part, *odd)?;
        }
        self.find_heads(graph)
    }

    /// The components of an odd priority.
    fn search_one(
        &mut self,
        graph: &ModalGraph,
        rank: &[u32],
        part: &mut Part,
        odd: u32,
    ) -> Result<(), NoMemory> {
        self.keep_reached(graph, rank, odd);
        part.take(graph, &self.keep, true)?;
        self.mark_components(graph, part, odd)?;
        self.number_components(graph, part, odd)?;
        for n in 0..graph.size() {
            let keeps = flag(&self.keep, n)
                && priority(graph, n) > odd
                && flag(&self.has, part.component(n));
            set_flag(&mut self.keep, n, keeps);
        }
        part.take(graph, &self.keep, true)?;
        for n in 0..graph.size() {
            if flag(&self.keep, n) && part.is_on_cycle(n) {
                self.is_weak = false;
            }
        }
        self.look_for_cycles(graph, rank, part, odd)
    }

    /// Keeps what is reached and has this priority or more.
    fn keep_reached(&mut self, graph: &ModalGraph, rank: &[u32], least: u32) {
        for n in 0..graph.size() {
            let keeps = number(rank, n) != NONE && priority(graph, n) >= least;
            set_flag(&mut self.keep, n, keeps);
        }
    }

    /// Marks components with a closed walk and a node of the priority.
    fn mark_components(
        &mut self,
        graph: &ModalGraph,
        part: &Part,
        odd: u32,
    ) -> Result<(), NoMemory> {
        self.has.clear();
        self.numbers.clear();
        more_flags(&mut self.has, part.count())?;
        more_numbers(&mut self.numbers, part.count(), 0)?;
        for n in 0..graph.size() {
            if flag(&self.keep, n) && priority(graph, n) == odd && part.is_on_cycle(n) {
                set_flag(&mut self.has, part.component(n), true);
            }
        }
        Ok(())
    }

    /// Numbers these components.
    fn number_components(
        &mut self,
        graph: &ModalGraph,
        part: &Part,
        odd: u32,
    ) -> Result<(), NoMemory> {
        for n in 0..graph.size() {
            let at = part.component(n);
            if flag(&self.keep, n) && flag(&self.has, at) {
                if number(&self.numbers, at) == 0 {
                    put(&mut self.numbers, at, small(self.odd.len()));
                    self.odd.push(odd)?;
                }
                if number(&self.component, n) != 0 {
                    self.is_weak = false;
                }
                put(&mut self.component, n, number(&self.numbers, at));
            }
        }
        Ok(())
    }

    /// Looks for closed walks without modal steps whose lowest priority is this one.
    fn look_for_cycles(
        &mut self,
        graph: &ModalGraph,
        rank: &[u32],
        part: &mut Part,
        odd: u32,
    ) -> Result<(), NoMemory> {
        self.keep_reached(graph, rank, odd);
        part.take(graph, &self.keep, false)?;
        for n in 0..graph.size() {
            if priority(graph, n) == odd && part.is_on_cycle(n) {
                self.has_local_cycles = true;
            }
        }
        Ok(())
    }

    /// The nodes at which components are entered.
    fn find_heads(&mut self, graph: &ModalGraph) -> Result<(), NoMemory> {
        more_numbers(&mut self.head, self.odd.len(), NONE)?;
        self.note_head(graph.root());
        for n in 0..graph.size() {
            if let Some(node) = graph.nodes().get(n as usize) {
                self.note_heads(n, *node);
            }
        }
        Ok(())
    }

    fn note_heads(&mut self, n: u32, node: Node) {
        let (left, right) = references(node, true);
        let is_modal = match node {
            Node::Diamond { .. } | Node::Square { .. } => true,
            _ => false,
        };
        let here = number(&self.component, n);
        if is_modal || number(&self.component, left) != here {
            self.note_head(left);
        }
        if number(&self.component, right) != here {
            self.note_head(right);
        }
    }

    fn note_head(&mut self, n: u32) {
        let component = number(&self.component, n);
        if component == 0 || component == NONE {
            return;
        }
        let known = number(&self.head, component);
        if known == NONE {
            put(&mut self.head, component, n);
        } else if known != n {
            put(&mut self.head, component, MANY);
        }
    }

    /// Is the node the only one at which its component is entered?
    pub fn is_simple(&self, n: u32) -> bool {
        let component = number(&self.component, n);
        component != 0 && component != NONE && number(&self.head, component) == n
    }
}

/// The priority of a node.
fn priority(graph: &ModalGraph, n: u32) -> u32 {
    match graph.priorities().get(n as usize) {
        Some(priority) => *priority,
        None => 0,
    }
}
