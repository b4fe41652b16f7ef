// The graphs that tests take.
ghost use Rattle.std.specs.Prelude.{◌≡◌, ◌<◌, length};

use ml_base::{Action, Name};
use ml_graph::{GraphRefusal, ModalGraph, Node};
use std::alloc::Global;
use std::test::Fail;

// The literals of p.
pub(crate) const P: Node = Node::Lit {
    prop: 0,
    positive: true,
};

pub(crate) const NOT_P: Node = Node::Lit {
    prop: 0,
    positive: false,
};

// What comes of these nodes and priorities, with the one proposition p and the one action `_`. The root is the first node.
fn built_of(
    alloc: Global,
    nodes: Vec<Node>,
    priorities: Vec<u32>,
) -> Result<Result<ModalGraph, GraphRefusal>, Fail>
    requires few { length nodes.items < 4294967296 }
    requires priorities { length priorities.items ≡ length nodes.items }
{
    let props = vec![in alloc; Name::new(alloc, b"p")?]?;
    let actions = vec![in alloc; Action::new(alloc, b"_")?]?;
    Ok(ModalGraph::build(nodes, priorities, 0, props, actions))
}

// The graph of these nodes and priorities, where there are as many, and few.
pub(crate) fn graph_of(
    alloc: Global,
    nodes: &[Node],
    priorities: &[u32],
) -> Result<ModalGraph, Fail> {
    if nodes.len() > 9 || priorities.len() != nodes.len() {
        return Err(Fail::new("other numbers of nodes and priorities"));
    }
    let nodes = Vec::from_slice(alloc, nodes)?;
    let priorities = Vec::from_slice(alloc, priorities)?;
    Ok(built_of(alloc, nodes, priorities)??)
}
