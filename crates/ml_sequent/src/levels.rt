// The priorities of a graph, ranked.
ghost use Rattle.std.specs.Prelude.{◌≡◌, ◌<◌, ◌^◌, IfOk, length, get_or};
ghost use Rattle.ml_graph.specs.Graph.{size};
ghost use Rattle.ml_lists.specs.Ascending.{IsAscending, ascending};
ghost use Rattle.ml_lists.specs.Member.{IsMember};
ghost use Rattle.ml_sequent.specs.private.Reach.{IsRanked};

use crate::sets::ascending;
use ml_base::NoMemory;
use ml_graph::ModalGraph;
use std::alloc::Global;
use std::marker::Model;

/// The priorities of a graph, ascending, and for each node how many of them are lower than its own.
#[derive(Debug, Drop)]
pub(crate) struct Levels {
    priorities: Vec<u32>,
    ranks: Vec<u32>,
}

impl Model for Levels {
    ghost use Rattle.ml_sequent.specs.private.Reach.{LevelList};

    ghost Value = { LevelList };

    ghost view = { λ a. record { priorities = a.priorities.items; ranks = a.ranks.items } };
}

impl Levels {
    /// The ranked priorities of a graph.
    ///
    /// Cost: `n log n` in the nodes.
    pub fn of(alloc: Global, graph: &ModalGraph) -> Result<Levels, NoMemory>
        ensures ranked { IfOk result (IsRanked graph.now) }
        ensures few { IfOk result (λ levels. length levels.priorities < 2 ^ 32) }
    {
        ranked(alloc, graph, graph.size())
    }

    /// The rank of a node.
    pub fn rank(&self, node: u32) -> u32
        requires { node < length self.now.ranks }
        ensures { result ≡ get_or self.now.ranks node 0 }
    {
        self.ranks[node as usize]
    }

    /// The priority with a rank.
    pub fn priority(&self, rank: u32) -> u32
        requires { rank < length self.now.priorities }
        ensures { result ≡ get_or self.now.priorities rank 0 }
    {
        self.priorities[rank as usize]
    }

    /// How many priorities there are.
    pub fn width(&self) -> u32
        requires { length self.now.priorities < 2 ^ 32 }
        ensures { result ≡ length self.now.priorities }
    {
        self.priorities.len() as u32
    }
}

/// The ranked priorities of a graph with so many nodes.
fn ranked(alloc: Global, graph: &ModalGraph, nodes: u32) -> Result<Levels, NoMemory>
    requires size { nodes ≡ size graph.now }
    requires priorities { length graph.now.priorities ≡ nodes }
    ensures ranked { IfOk result (IsRanked graph.now) }
    ensures few { IfOk result (λ levels. length levels.priorities < 2 ^ 32) }
{
    let priorities = ascending(Vec::from_slice(alloc, graph.priorities())?);
    let mut ranks = Vec::with_capacity(alloc, nodes as usize)?;
    for priority in graph.priorities() {
        ranks.push(rank_in(&priorities, *priority))?;
    }
    Ok(Levels { priorities, ranks })
}

/// The place of a priority in the ascending list of all.
fn rank_in(priorities: &[u32], priority: u32) -> u32
    requires ascends { IsAscending priorities.now }
    requires few { length priorities.now < 2 ^ 32 }
    requires has { IsMember priority priorities.now }
    ensures low { result < length priorities.now }
    ensures at { get_or priorities.now result 0 ≡ priority }
{
    match priorities.binary_search(&priority) {
        Ok(place) => place as u32,
        Err(_) => 0,
    }
}
