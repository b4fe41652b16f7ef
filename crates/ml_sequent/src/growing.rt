// The search of a spread along the trail of a branch: each node is added by the first that leads to it.
ghost use Rattle.std.specs.Prelude.{◌≡◌, ◌<◌, ℕ, List, OnOk, All};
ghost use Rattle.ml_graph.specs.Graph.{size};
ghost use Rattle.ml_sequent.specs.LocalWalk.{children};
ghost use Rattle.ml_sequent.specs.private.Trails.{IsJoined, IsUnderway, IsGrown, HasSpread};

use crate::children::{LocalChildren, children};
use crate::choice::Choice;
use crate::trail::Trail;
use ml_base::NoMemory;
use ml_graph::ModalGraph;

/// Adds the local children of a node.
fn reach_children(
    graph: &ModalGraph,
    choice: &Choice,
    node: u32,
    trail: &mut Trail,
) -> Result<(), NoMemory>
    requires node { node < size graph.now }
    requires room { trail.old.room ≡ size graph.now }
    ensures room { trail.new.room ≡ trail.old.room }
    ensures joined { OnOk result (IsJoined (children graph.now choice.now node) trail.old.nodes trail.new.nodes) }
    ensures grown { IsGrown trail.old.nodes trail.new.nodes }
{
    match children(graph, choice, node) {
        LocalChildren::Leaf => Ok(()),
        LocalChildren::One(child) => trail.reach(child),
        LocalChildren::Two(left, right) => {
            trail.reach(left)?;
            trail.reach(right)
        }
    }
}

/// Adds these nodes.
pub(crate) fn reach_nodes(nodes: &[u32], trail: &mut Trail) -> Result<(), NoMemory>
    requires { All (λ n. n < trail.old.room) nodes.now }
    ensures room { trail.new.room ≡ trail.old.room }
    ensures joined { OnOk result (IsJoined nodes.now trail.old.nodes trail.new.nodes) }
{
    for node in nodes {
        trail.reach(*node)?;
    }
    Ok(())
}

/// Goes on from all nodes behind the first `done` ones, until none is new.
pub(crate) fn grow(
    graph: &ModalGraph,
    choice: &Choice,
    done: usize,
    trail: &mut Trail,
) -> Result<(), NoMemory>
    requires { trail.old.room ≡ size graph.now }
    ensures room { trail.new.room ≡ trail.old.room }
    ensures grown { IsGrown trail.old.nodes trail.new.nodes }
    ensures spread { OnOk result ((C : List ℕ) → IsUnderway graph.now choice.now C done trail.old.nodes
        → HasSpread graph.now choice.now C trail.new.nodes) }
{
    let mut i = done;
    while i < trail.len() {
        reach_children(graph, choice, trail.node(i), trail)?;
        i += 1;
    }
    Ok(())
}
