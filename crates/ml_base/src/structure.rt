// The edges of a Kripke structure. The structure itself is a definition (`specs/Structure.antt`), which the
// meanings of all logics speak of; `ml_kripke` has the type of those that a program holds.
ghost use Rattle.std.specs.Prelude.{◌≡◌, ◌↔◌, IsTrue};
ghost use Rattle.std.specs.declared.cmp.Ordering.TheVariants.{Less};
ghost use Rattle.ml_base.specs.EdgeOrder.{edge_cmp};

use crate::Action;

/// An edge of a structure: from a state, by an action, to a state.
#[derive(Debug, PartialEq, Eq, PartialOrd, Ord, Drop)]
pub struct Edge {
    pub source: u32,
    pub action: Action,
    pub target: u32,
}

impl Edge {
    /// Does this edge stand before the other one where edges ascend: by source, then by the bytes of the action, then
    /// by target? It is the order of `Ord`.
    pub fn is_before(&self, other: &Edge) -> bool
        ensures { IsTrue result ↔ (edge_cmp self.now other.now ≡ Less) }
    {
        self < other
    }
}
