// What the search for heights answers: heights, or an even cycle.

use crate::one_sided::graph::Arc;
use std::marker::Model;

/// Numbers for each vertex of a one-sided graph: one for each even priority from 0 to the top.
///
/// Contracts see the list of the rows. Only the contract of the call that made them says of which graph they are heights.
#[derive(Debug, Drop)]
pub struct Heights {
    /// For each vertex its numbers, for the priorities 0, 2 and so on.
    pub rows: Vec<Vec<u64>>,
}

impl Model for Heights {
    ghost use Rattle.std.specs.Prelude.{ℕ, List};
    ghost use Rattle.ml_parity.specs.HeightLists.{rows_of};

    ghost Value = { List (List ℕ) };

    ghost view = { λ a. rows_of a.rows };
}

/// A cycle whose lowest priority is even.
///
/// Contracts see the list of its arcs.
#[derive(Drop)]
pub struct EvenCycle {
    /// The arcs, each of which begins where the one before it ends; the last one ends where the first one begins.
    pub arcs: Vec<Arc>,
}

impl Model for EvenCycle {
    ghost use Rattle.std.specs.Prelude.{List};
    ghost use Rattle.ml_parity.specs.declared.one_sided.graph.Arc.{Arc};

    ghost Value = { List Arc };

    ghost view = { λ a. a.arcs.items };
}
