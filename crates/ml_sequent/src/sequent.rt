// Sequents: the sets of nodes that hold together at a state.
ghost use Rattle.std.specs.Prelude.{◌≡◌, [], IfOk, nat_eq};
ghost use Rattle.std.specs.Cmp.{partial_equiv_from_equiv};
ghost use Rattle.std.specs.Cmp.Lexicographic.{pointwise, nat_list_eq_equiv, bytes_decides};
ghost use Rattle.std.specs.Hash as fed;
ghost use Rattle.std.specs.Hash.{same_Alike};
ghost use Rattle.ml_lists.specs.Ascending.{IsAscending, ascending};

use crate::sets::ascending;
use ml_base::NoMemory;
use std::alloc::Global;
use std::hash::{Hash, Hasher};
use std::marker::Model;

/// A set of nodes. Contracts see the strictly ascending list of them.
#[derive(Debug, Drop)]
pub struct Sequent {
    nodes: Vec<u32>,
}

impl Model for Sequent {
    ghost use Rattle.std.specs.Prelude.{List, ℕ};
    ghost use Rattle.ml_lists.specs.Ascending.{IsAscending};

    ghost Value = { List ℕ };

    ghost view = { λ a. a.nodes.items };

    ghost invariant = { λ a. IsAscending a.nodes.items };
}

impl Sequent {
    /// The set of no nodes. It takes no memory.
    pub fn empty(alloc: Global) -> Sequent
        ensures { result ≡ [] }
    {
        Sequent {
            nodes: Vec::new(alloc),
        }
    }

    /// The set of the given nodes, in any order and with any repeats.
    ///
    /// # Errors
    /// `NoMemory` alone.
    ///
    /// Cost: `n log n` in the nodes.
    pub fn of(alloc: Global, nodes: &[u32]) -> Result<Sequent, NoMemory>
        ensures { IfOk result (λ sequent. sequent ≡ ascending nodes.now) }
    {
        Ok(Sequent::of_members(Vec::from_slice(alloc, nodes)?))
    }

    /// The set of the given nodes, in any order and with any repeats. It takes no memory.
    ///
    /// Cost: `n log n` in the nodes.
    pub fn of_members(nodes: Vec<u32>) -> Sequent
        ensures { result ≡ ascending nodes.items }
    {
        Sequent {
            nodes: ascending(nodes),
        }
    }

    /// The nodes, ascending, as a list of one's own.
    ///
    /// # Errors
    /// `NoMemory` alone.
    ///
    /// Cost: linear in the nodes.
    pub fn nodes(&self) -> Result<Vec<u32>, NoMemory>
        ensures { IfOk result (λ nodes. nodes.items ≡ self.now) }
    {
        Ok(Vec::from_slice(*self.nodes.allocator(), self.values())?)
    }

    /// The nodes, ascending.
    pub fn values(&self) -> &[u32]
        ensures value { result.now ≡ self.now }
        ensures ascends { IsAscending result.now }
    {
        self.nodes.as_slice()
    }

    /// An equal sequent.
    ///
    /// # Errors
    /// `NoMemory` alone.
    pub fn copy(&self) -> Result<Sequent, NoMemory>
        ensures { IfOk result (λ sequent. sequent ≡ self.now) }
    {
        Ok(Sequent {
            nodes: Vec::from_slice(*self.nodes.allocator(), self.values())?,
        })
    }
}

impl PartialEq for Sequent {
    ghost eq = { pointwise nat_eq };

    ghost laws = { partial_equiv_from_equiv nat_list_eq_equiv };

    fn eq(&self, other: &Sequent) -> bool {
        self.values() == other.values()
    }
}

impl Eq for Sequent {
    ghost laws = { nat_list_eq_equiv };
}

impl Hash for Sequent {
    ghost hash_input = { fed.slice fed.u32 };

    ghost respects_eq = { (same_Alike (fed.slice fed.u32) bytes_decides).fed };

    fn hash<H: Hasher>(&self, state: &mut H) {
        self.values().hash(state);
    }
}
