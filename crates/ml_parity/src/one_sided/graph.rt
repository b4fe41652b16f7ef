// One-sided graphs: finite graphs whose arcs have priorities.

ghost use Rattle.std.specs.Prelude.{◌≡◌};
ghost use Rattle.ml_parity.specs.OneSided.{IsOneSided};
ghost use Rattle.ml_parity.specs.HeightLists.{graph_of};

use std::marker::Model;

/// An arc of a one-sided graph.
#[derive(Clone, Copy, Debug, PartialEq, Eq)]
pub struct Arc {
    /// The vertex that the arc leaves.
    pub from: u64,
    /// The priority of the arc.
    pub priority: u32,
    /// The vertex that the arc leads to.
    pub to: u64,
}

/// A one-sided graph: vertices from 0 to `size` - 1, and arcs with priorities of at most `top`.
///
/// Contracts see the two numbers and the list of the arcs. `top` is even, and the ends of all arcs are vertices.
#[derive(Debug, Drop)]
pub struct OneSided {
    /// How many vertices.
    pub size: u64,
    /// The greatest priority that an arc may have: an even number.
    pub top: u32,
    /// The arcs, in any order. One may stand there twice.
    pub arcs: Vec<Arc>,
}

impl Model for OneSided {
    ghost use Rattle.ml_parity.specs.OneSided.{OneSidedGraph, IsOneSided};
    ghost use Rattle.ml_parity.specs.HeightLists.{graph_of};

    ghost Value = { OneSidedGraph };

    ghost view = { λ a. graph_of a.size a.top a.arcs };

    ghost invariant = { λ a. IsOneSided (graph_of a.size a.top a.arcs) };
}

impl OneSided {
    /// The graph with `size` vertices, the greatest priority `top` and these arcs.
    ///
    /// Wants what a one-sided graph is: `top` is even, each priority is at most `top`, and both ends of each arc are
    /// below `size`. Takes no memory and no time.
    pub fn build(size: u64, top: u32, arcs: Vec<Arc>) -> OneSided
        requires { IsOneSided (graph_of size top arcs) }
        ensures { result ≡ graph_of size top arcs }
    {
        OneSided { size, top, arcs }
    }
}
