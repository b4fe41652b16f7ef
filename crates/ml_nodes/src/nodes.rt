// Nodes of a graph, by the occurrences of which they are.
ghost use Rattle.std.specs.Prelude.{◌≡◌, ◌+◌, ◌<◌};
ghost use Rattle.ml_graph.specs.declared.node.Node.TheVariants as graph_node;
ghost use Rattle.ml_nodes.specs.Nodes as nodes;

use ml_graph::Node;

/// The node of an occurrence. Of a program it is that of its diamond.
pub fn positive(at: u32) -> u32
    requires { at < 1000 + 1000 }
    ensures { result ≡ nodes.positive at }
{
    2 * at
}

/// The node of an occurrence's negation. Of a program it is that of its box.
pub fn negative(at: u32) -> u32
    requires { at < 1000 + 1000 }
    ensures { result ≡ nodes.negative at }
{
    2 * at + 1
}

/// A node that only leads on.
pub fn lead_to(to: u32) -> Node
    ensures { result ≡ nodes.lead_to to }
{
    Node::And {
        left: to,
        right: to,
    }
}

/// The node of a constant.
pub fn constant(value: bool) -> Node
    ensures { result ≡ nodes.constant value }
{
    if value { Node::True } else { Node::False }
}

/// The conjunction of two nodes.
pub fn and(left: u32, right: u32) -> Node
    ensures { result ≡ graph_node.And left right }
{
    Node::And { left, right }
}

/// The disjunction of two nodes.
pub fn or(left: u32, right: u32) -> Node
    ensures { result ≡ graph_node.Or left right }
{
    Node::Or { left, right }
}
