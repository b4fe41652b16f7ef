// To which nodes a node leads locally.
ghost use Rattle.std.specs.Prelude.{◌≡◌, ◌<◌, All};
ghost use Rattle.ml_graph.specs.Graph.{size};
ghost use Rattle.ml_sequent.specs.LocalWalk.{children};
ghost use Rattle.ml_sequent.specs.private.Children.{child_list};

use crate::choice::{Choice, Side};
use ml_graph::{ModalGraph, Node};

/// The local children of a node.
#[derive(Clone, Copy, PartialEq, Eq)]
pub(crate) enum LocalChildren {
    Leaf,
    One(u32),
    Two(u32, u32),
}

/// The local children of a node: both of an And, the chosen one of an Or.
pub(crate) fn children(graph: &ModalGraph, choice: &Choice, node: u32) -> LocalChildren
    requires { node < size graph.now }
    ensures value { child_list result ≡ children graph.now choice.now node }
    ensures low { All (λ n. n < size graph.now) (child_list result) }
{
    graph.keeps();
    match *graph.node(node) {
        Node::And { left, right } => LocalChildren::Two(left, right),
        Node::Or { left, right } => match choice.side(node) {
            None => LocalChildren::Leaf,
            Some(Side::Left) => LocalChildren::One(left),
            Some(Side::Right) => LocalChildren::One(right),
        },
        _ => LocalChildren::Leaf,
    }
}
