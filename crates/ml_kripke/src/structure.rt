// Kripke structures, and how one is built.
ghost use Rattle.std.specs.Prelude.{◌≡◌, ◌<◌, ◌↔◌, ◌==◌, ◌&&◌, ℕ, [], length, map, find, nat_le, Some, All, IfOk, IsErrOf, IsTrue, MatchOption, slice_get, slice_index_or};
ghost use Rattle.std.specs.List.{flat_map, range_with_len};
ghost use Rattle.std.specs.Str.{bytes_eq};
ghost use Rattle.ml_base.specs.Structure.{IsStructure, lists};
ghost use Rattle.ml_kripke.specs.Ordered.{IsOrdered};
ghost use Rattle.ml_kripke.specs.Built.{of_parts, IsBuiltFrom, first_bad_state, ends, labels_at};
ghost use Rattle.ml_kripke.specs.Total.{IsTotal, IsLeastDead};

use crate::ascending::ascend;
use ml_base::{Action, Edge, Name, NoMemory};
use std::alloc::Global;
use std::marker::Model;
use thiserror::Error;

/// Why labels and edges became no structure.
#[derive(Clone, Copy, Debug, PartialEq, Eq, Error)]
pub enum StructureRefusal {
    /// A structure has at least one state.
    #[error("no states")]
    NoStates,
    /// This state is not below the number of states.
    #[error("state {0} is out of range")]
    StateOutOfRange(u32),
    #[error("out of memory")]
    NoMemory,
}

impl From<NoMemory> for StructureRefusal {
    ghost use Rattle.ml_kripke.specs.declared.structure.StructureRefusal.TheVariants as refusal;

    ghost from_gives = { λ _ e. e ≡ refusal.NoMemory };

    fn from(_: NoMemory) -> StructureRefusal {
        StructureRefusal::NoMemory
    }
}

/// A Kripke structure: states from 0 on, the propositions of each state in ascending order, and edges in ascending
/// order by source, action bytes and target. Contracts see the definition's own record.
#[derive(Debug, Drop)]
pub struct Structure {
    states: u32,
    labels: Vec<Vec<Name>>,
    edges: Vec<Edge>,
}

impl Model for Structure {
    ghost use Rattle.std.specs.Prelude.{map};
    ghost use Rattle.ml_base.specs.Structure as kripke;
    ghost use Rattle.ml_kripke.specs.Ordered as ordered;

    ghost Value = { kripke.Structure };

    ghost view = { λ a. record { states = a.states; labels = map (λ row. row.items) a.labels.items; edges = a.edges.items } };

    ghost invariant = { λ a. let m : kripke.Structure = record { states = a.states; labels = map (λ row. row.items) a.labels.items; edges = a.edges.items } in kripke.IsStructure m × ordered.IsOrdered m };
}

impl Structure {
    /// The structure with this many states, these labels of states and these edges, in any order and with any repeats.
    ///
    /// # Errors
    /// `NoStates` exactly where `states` is 0. `StateOutOfRange` exactly where `states` isn't 0 and a label's or an
    /// edge's state isn't below it, with the first such number: labels before edges, an edge's source before its
    /// target, in the order of the lists as given. `NoMemory`.
    ///
    /// Cost: linear in the states, and `n log n` in the labels and the edges.
    pub fn build(
        alloc: Global,
        states: u32,
        mut labels: Vec<(u32, Name)>,
        mut edges: Vec<Edge>,
    ) -> Result<Structure, StructureRefusal>
        ensures built { IfOk result (IsBuiltFrom states labels.items edges.items) }
        ensures is_structure { IfOk result IsStructure }
        ensures is_ordered { IfOk result IsOrdered }
        ensures no_states { IsErrOf result StructureRefusal.NoStates ↔ (states ≡ 0) }
        ensures out_of_range { (state : ℕ) → IsErrOf result (StructureRefusal.StateOutOfRange state)
            ↔ ((0 < states) × (first_bad_state states labels.items edges.items ≡ Some state)) }
    {
        if states == 0 {
            return Err(StructureRefusal::NoStates);
        }
        if let Some(state) = first_out_of_range(states, &labels, &edges) {
            return Err(StructureRefusal::StateOutOfRange(state));
        }
        ascend(&mut labels);
        ascend(&mut edges);
        Ok(Structure {
            states,
            labels: rows(alloc, states, labels)?,
            edges,
        })
    }

    // the structure of these parts
    pub(crate) fn of_parts(states: u32, labels: Vec<Vec<Name>>, edges: Vec<Edge>) -> Structure
        requires is_structure { IsStructure (of_parts states (map (λ row. row.items) labels.items) edges.items) }
        requires is_ordered { IsOrdered (of_parts states (map (λ row. row.items) labels.items) edges.items) }
        ensures { result ≡ of_parts states (map (λ row. row.items) labels.items) edges.items }
    {
        Structure {
            states,
            labels,
            edges,
        }
    }

    /// What each value of the type keeps, for a proof that needs it: nothing is computed.
    #[inline(always)]
    pub fn keeps(&self)
        ensures is_structure { IsStructure self.now }
        ensures is_ordered { IsOrdered self.now }
    {
        let _labels = &self.labels;
    }

    /// How many states there are. Whoever asks also learns what the type keeps.
    pub fn states(&self) -> u32
        ensures value { result ≡ self.now.states }
        ensures is_structure { IsStructure self.now }
        ensures is_ordered { IsOrdered self.now }
    {
        self.states
    }

    /// The labels of a state, in ascending order.
    pub fn labels_of(&self, state: u32) -> &[Name]
        requires { state < self.now.states }
        ensures { result.now ≡ slice_index_or self.now.labels state [] }
    {
        &self.labels[state as usize]
    }

    /// Is the proposition true at the state?
    ///
    /// Cost: logarithmic in the labels of the state.
    pub fn has_label(&self, state: u32, name: &Name) -> bool
        requires { state < self.now.states }
        ensures { result ≡ lists self.now state name.now }
    {
        self.keeps();
        self.labels_of(state).binary_search(name).is_ok()
    }

    /// How many edges there are.
    pub fn edge_count(&self) -> usize
        ensures { result ≡ length self.now.edges }
    {
        self.edges.len()
    }

    /// The edge at a place of the ascending list.
    pub fn edge_at(&self, i: usize) -> &Edge
        requires { i < length self.now.edges }
        ensures { slice_get self.now.edges i ≡ Some result.now }
    {
        &self.edges[i]
    }

    /// The edges, in ascending order.
    pub fn edges(&self) -> &[Edge]
        ensures { result.now ≡ self.now.edges }
    {
        &self.edges
    }

    /// Does each state have an edge with the action?
    ///
    /// Cost: linear in the edges. It takes no memory.
    #[tactic(auto, using(crate::proofs::DeadStates::total_or_dead))]
    pub fn is_total(&self, action: &Action) -> bool
        ensures { IsTrue result ↔ IsTotal self.now action.now }
    {
        self.dead_state(action).is_none()
    }

    /// The least state that has no edge with the action; `None` exactly where each state has one.
    ///
    /// Cost: linear in the edges. It takes no memory.
    pub fn dead_state(&self, action: &Action) -> Option<u32>
        ensures { MatchOption result (IsTotal self.now action.now) (IsLeastDead self.now action.now) }
    {
        let states = self.states();
        // all states below this one have an edge with the action
        let mut state = 0;
        for edge in self.edges() {
            if edge.source > state {
                return Some(state);
            }
            if leaves(edge, action, state) {
                state += 1;
            }
        }
        if state < states { Some(state) } else { None }
    }

    // the labels, a row for each state
    pub(crate) fn rows(&self) -> &[Vec<Name>]
        ensures { map (λ row. row.items) result.now ≡ self.now.labels }
    {
        &self.labels
    }
}

// does the edge leave the state by the action?
fn leaves(edge: &Edge, action: &Action, state: u32) -> bool
    ensures { result ≡ ((edge.now.source == state) && bytes_eq edge.now.action action.now) }
{
    edge.source == state && edge.action.bytes() == action.bytes()
}

// the first state that isn't below the number of states
#[tactic(auto, using(crate::proofs::Range::first_bad_parts))]
fn first_out_of_range(states: u32, labels: &[(u32, Name)], edges: &[Edge]) -> Option<u32>
    ensures { result ≡ first_bad_state states labels.now edges.now }
{
    first_bad_label(states, labels).or_else(|| first_bad_end(states, edges))
}

fn first_bad_label(states: u32, labels: &[(u32, Name)]) -> Option<u32>
    ensures { result ≡ find (nat_le states) (map (λ label. label.0) labels.now) }
{
    labels
        .iter()
        .map(|label| label.0)
        .find(|state| *state >= states)
}

fn first_bad_end(states: u32, edges: &[Edge]) -> Option<u32>
    ensures { result ≡ find (nat_le states) (flat_map ends edges.now) }
{
    for edge in edges {
        if edge.source >= states {
            return Some(edge.source);
        }
        if edge.target >= states {
            return Some(edge.target);
        }
    }
    None
}

// a row for each state, of its labels in the order in which they stand
fn rows(alloc: Global, states: u32, labels: Vec<(u32, Name)>) -> Result<Vec<Vec<Name>>, NoMemory>
    requires { All (λ label. label.0 < states) labels.items }
    ensures { IfOk result (λ rows. map (λ row. row.items) rows.items ≡ map (labels_at labels.items) (range_with_len 0 states)) }
{
    let mut rows = Vec::with_capacity(alloc, states as usize)?;
    for _ in 0..states {
        rows.push(Vec::new(alloc))?;
    }
    for (state, label) in labels {
        rows[state as usize].push(label)?;
    }
    Ok(rows)
}
