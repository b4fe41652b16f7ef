// Word automata by their states and letters; letters with the same arcs are one class.
use ml_arrays::{Components, Digraph, number, small};
use ml_base::NoMemory;
use std::alloc::Global;

/// An arc of a state under a letter.
#[derive(Clone, Copy, PartialEq, Eq)]
pub(crate) struct Arc {
    pub to: u32,
    pub accepting: bool,
}

/// A word automaton: it accepts a word if some run passes accepting arcs again and again.
#[derive(Drop)]
pub(crate) struct Automaton {
    pub states: usize,
    /// Where it starts; `NONE` where it accepts nothing.
    pub start: u32,
    /// The class of each letter.
    pub class_of: Vec<u32>,
    /// For each class and state its arcs, by ascending targets, each once.
    pub rows: Vec<Vec<Vec<Arc>>>,
}

/// Adds an arc to a list by ascending targets; of two with one target one stands there, accepting if one of them is.
pub(crate) fn add_arc(arcs: &mut Vec<Arc>, arc: Arc) -> Result<(), NoMemory> {
    match arcs.binary_search_by_key(&arc.to, |other| other.to) {
        Ok(place) => {
            if let Some(other) = arcs.get_mut(place) {
                other.accepting = other.accepting || arc.accepting;
            }
        }
        Err(place) => arcs.insert(place, arc)?,
    }
    Ok(())
}

/// Writes a signature of arcs: lists of arcs with one signature are equal.
pub(crate) fn write_signature(arcs: &[Arc], signature: &mut Vec<u32>) -> Result<(), NoMemory> {
    signature.push(small(arcs.len()))?;
    for arc in arcs {
        signature.push(arc.to)?;
        signature.push(u32::from(arc.accepting))?;
    }
    Ok(())
}

/// The arcs of a state in a row.
pub(crate) fn arcs_in(row: &[Vec<Arc>], state: usize) -> &[Arc] {
    match row.get(state) {
        Some(arcs) => arcs.as_slice(),
        None => &[],
    }
}

impl Automaton {
    /// The states, with where their arcs lead.
    pub(crate) fn digraph(&self, alloc: Global) -> Result<Digraph, NoMemory> {
        let mut digraph = Digraph::empty(alloc);
        self.write_targets(&mut digraph)?;
        Ok(digraph)
    }

    fn write_targets(&self, digraph: &mut Digraph) -> Result<(), NoMemory> {
        for state in 0..self.states {
            for row in &self.rows {
                for arc in arcs_in(row, state) {
                    digraph.push_target(arc.to)?;
                }
            }
            digraph.end_node()?;
        }
        Ok(())
    }

    /// The strong component of each state.
    pub(crate) fn components(&self, alloc: Global) -> Result<Vec<u32>, NoMemory> {
        let digraph = self.digraph(alloc)?;
        let components = Components::of_graph(alloc, &digraph)?;
        Ok(components.of)
    }

    /// Only arcs within components accept.
    pub(crate) fn accept_within(&mut self, component: &[u32]) {
        for row in self.rows.iter_mut() {
            for (state, arcs) in row.iter_mut().enumerate() {
                let here = number(component, small(state));
                for arc in arcs.iter_mut() {
                    let there = number(component, arc.to);
                    arc.accepting = arc.accepting && here == there;
                }
            }
        }
    }

    /// For each state, whether one of its arcs accepts.
    pub(crate) fn accepting(&self, alloc: Global) -> Result<Vec<bool>, NoMemory> {
        let mut accepting = vec![in alloc; false; self.states]?;
        for row in &self.rows {
            for (arcs, flag) in row.iter().zip(accepting.iter_mut()) {
                for arc in arcs {
                    *flag = *flag || arc.accepting;
                }
            }
        }
        Ok(accepting)
    }
}
