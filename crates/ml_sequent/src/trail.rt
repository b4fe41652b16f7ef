// The nodes that were reached, in the order in which they were reached: what came last is taken back at once.
//
// Source: Briggs and Torczon, An efficient representation for sparse sets, 1993.
ghost use Rattle.std.specs.Prelude.{◌≡◌, ◌<◌, ◌≤◌, ◌↔◌, [], ◌∷◌, IfOk, OnOk, IsTrue, length, get_or, take};
ghost use Rattle.ml_lists.specs.Ascending.{ascending};
ghost use Rattle.ml_lists.specs.Member.{IsMember};
ghost use Rattle.ml_sequent.specs.private.Trails.{IsJoined, IsGrown};

use crate::sets::ascending;
use ml_base::NoMemory;
use std::alloc::Global;
use std::marker::Model;

/// The nodes that were reached, each once, and for each of them its place among them; of other nodes the place may be
/// any. Contracts see how many nodes there are, and the list of those that were reached.
#[derive(Drop)]
pub(crate) struct Trail {
    nodes: Vec<u32>,
    places: Vec<usize>,
}

impl Model for Trail {
    ghost use Rattle.std.specs.Prelude.{length};
    ghost use Rattle.ml_sequent.specs.private.Trails.{TrailList, ArePlaced};

    ghost Value = { TrailList };

    ghost view = { λ a. record { room = length a.places.items; nodes = a.nodes.items } };

    ghost invariant = { λ a. ArePlaced a.places.items a.nodes.items };
}

impl Trail {
    /// Nothing is reached yet, of so many nodes.
    pub fn new(alloc: Global, size: u32) -> Result<Trail, NoMemory>
        ensures { IfOk result (λ trail. trail ≡ record { room = size; nodes = [] }) }
    {
        Ok(Trail {
            nodes: Vec::new(alloc),
            places: vec![in alloc; 0; size as usize]?,
        })
    }

    /// How many nodes were reached.
    pub fn len(&self) -> usize
        ensures value { result ≡ length self.now.nodes }
        ensures few { length self.now.nodes ≤ self.now.room }
    {
        self.nodes.len()
    }

    /// The node that was reached at this place.
    pub fn node(&self, place: usize) -> u32
        requires { place < length self.now.nodes }
        ensures value { result ≡ get_or self.now.nodes place 0 }
        ensures low { result < self.now.room }
    {
        self.nodes[place]
    }

    /// The nodes, ascending.
    ///
    /// Cost: `n log n` in them.
    pub fn sorted(&self, alloc: Global) -> Result<Vec<u32>, NoMemory>
        ensures { IfOk result (λ nodes. nodes.items ≡ ascending self.now.nodes) }
    {
        Ok(ascending(Vec::from_slice(alloc, &self.nodes)?))
    }

    /// Was the node reached? It may be any number.
    pub fn contains(&self, node: u32) -> bool
        ensures reached { IsTrue result ↔ IsMember node self.now.nodes }
        ensures low { IsTrue result → node < self.now.room }
    {
        if node as usize >= self.places.len() {
            return false;
        }
        stands_at(&self.nodes, self.places[node as usize], node)
    }

    /// Adds a node, if it is new.
    pub fn reach(&mut self, node: u32) -> Result<(), NoMemory>
        requires { node < self.old.room }
        ensures room { self.new.room ≡ self.old.room }
        ensures joined { OnOk result (IsJoined (node ∷ []) self.old.nodes self.new.nodes) }
        ensures grown { IsGrown self.old.nodes self.new.nodes }
    {
        if !self.contains(node) {
            let place = self.nodes.len();
            self.nodes.push(node)?;
            self.places[node as usize] = place;
        }
        Ok(())
    }

    /// Takes back all but the first so many nodes. It takes the same time for any number of them.
    pub fn back_to(&mut self, len: usize)
        ensures room { self.new.room ≡ self.old.room }
        ensures nodes { self.new.nodes ≡ take len self.old.nodes }
    {
        self.nodes.truncate(len);
    }
}

/// Does the node stand at this place?
fn stands_at(nodes: &[u32], place: usize, node: u32) -> bool
    ensures { IsTrue result ↔ ((place < length nodes.now) × (get_or nodes.now place 0 ≡ node)) }
{
    place < nodes.len() && nodes[place] == node
}
