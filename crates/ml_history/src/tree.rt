// Histories as trees: the form in which the literature draws them.
ghost use Rattle.std.specs.Prelude.{◌≡◌, ◌<◌, ◌^◌, ◌↔◌, IsTrue, IfOk, Some, map};
ghost use Rattle.ml_history.specs.History.{IsHistory, IsSmallHistory};
ghost use Rattle.ml_history.specs.HistoryStep.{start};
ghost use Rattle.ml_history.specs.HistoryStep.{live, stepped, step_mark};
ghost use Rattle.ml_history.specs.Stacks.{stacked};

mod drafts;
mod moves;
mod renewal;
mod vertices;
mod walk;

use crate::tree::moves::Moves;
use crate::tree::renewal::renew;
use crate::tree::vertices::{Vertex, above, push_places};
use crate::tree::walk::walk;
use ml_base::{IdSet, NoMemory};
use ml_trace::{Letter, Mark};
use std::alloc::Global;
use std::collections::HashSet;
use std::marker::Model;

/// A history: some states of the trace automaton, each with a stack of names. Contracts see the list of the states with
/// their stacks, by ascending states.
///
/// It is held as a tree: a vertex for each name, and the stack of a state is the way from the root down to the vertex at
/// which the state lies. The type keeps that siblings are disjoint, that some state lies at each vertex (so children lie
/// properly inside their parent), that a child is younger than its parent and younger siblings stand to the right, that
/// the names are 0 to one less than their count, and that states have numbers below 2^30. A history without states has
/// no root.
#[derive(Debug, Drop)]
pub struct TreeHistory {
    roots: Vec<Vertex>,
}

impl Model for TreeHistory {
    ghost use Rattle.std.specs.Prelude.{ℕ, List};
    ghost use Rattle.ml_trace.specs.Stack.{Item};

    ghost Value = { List (Item ℕ) };

    ghost use Rattle.ml_history.specs.private.Forest.{items};
    ghost use Rattle.ml_history.specs.private.Vertices.{joined, IsKept};

    ghost view = { λ h. items (joined h.roots.items) };

    ghost invariant = { λ h. IsKept (joined h.roots.items) };
}

impl TreeHistory {
    /// The history of one state, with the stack 0. The state has a number below 2^30. O(1).
    ///
    /// # Errors
    /// `NoMemory` alone.
    pub fn start(alloc: Global, state: u32) -> Result<TreeHistory, NoMemory>
        requires { state < 2 ^ 30 }
        ensures { IfOk result (λ h. h ≡ start state) }
    {
        let mut own = IdSet::new(alloc);
        own.insert(state)?;
        let mut roots = Vec::new(alloc);
        roots.push(Vertex {
            age: 0,
            own,
            children: Vec::new(alloc),
        })?;
        Ok(TreeHistory { roots })
    }

    /// The states with their stacks, the innermost name last, by ascending states.
    ///
    /// # Errors
    /// `NoMemory` alone.
    ///
    /// Cost: linear in the names of all stacks, and the sort of the states.
    pub fn stacks(&self) -> Result<Vec<(u32, Vec<u32>)>, NoMemory>
        ensures { IfOk result (λ all. map stacked all.items ≡ self.now) }
    {
        let alloc = *self.roots.allocator();
        let mut stacks = Vec::new(alloc);
        push_places(alloc, self.roots.as_slice(), &[], &mut stacks)?;
        stacks.sort_by_key(|a| a.0)?;
        Ok(stacks)
    }

    /// The number of names in use. It takes no memory, and is linear in them.
    pub fn live(&self) -> u32
        ensures value { result ≡ live self.now }
        ensures history { IsHistory self.now }
    {
        above(self.roots.as_slice()) as u32
    }

    /// What the type keeps: its states with their stacks are a history of the definition, and the states have numbers below
    /// 2^30. The call does nothing.
    pub fn keeps(&self)
        ensures { IsSmallHistory self.now }
    {
        let _roots = &self.roots;
    }

    /// The history after the step along the letter, and the mark of the step.
    ///
    /// The walk over the tree lists states in the order of offers: children first, older siblings before younger ones,
    /// and a vertex behind its children. So the first offer to a state is the best one, and no stacks are compared.
    ///
    /// # Errors
    /// `NoMemory` alone.
    ///
    /// Cost: a sort of the transitions of the letter and of the states behind the step; for each state a look for its
    /// transitions, logarithmic in their number; and linear in the names, and in the depth of the tree for each state.
    /// Source: the history trees of Schewe and the ages of Piterman.
    pub fn step(&self, letter: &Letter) -> Result<(TreeHistory, Mark), NoMemory>
        ensures history { IfOk result (λ r. r.0 ≡ stepped self.now letter.now) }
        ensures mark { IfOk result (λ r. r.1 ≡ step_mark self.now letter.now) }
    {
        let alloc = *self.roots.allocator();
        let used = self.live();
        let moves = Moves::of(alloc, letter.transitions())?;
        let mut seen = HashSet::new(alloc);
        let mut full = Vec::new(alloc);
        let drafts = walk(
            alloc,
            used,
            &moves,
            self.roots.as_slice(),
            &mut seen,
            &mut full,
        )?;
        let (roots, mark) = renew(alloc, used, drafts.as_slice(), full.as_slice())?;
        Ok((TreeHistory { roots }, mark))
    }
}
