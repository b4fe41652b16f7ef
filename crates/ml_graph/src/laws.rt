// Laws about the definitions alone: empty functions, each of whose contract is a theorem.

ghost use Rattle.ml_graph.specs.Laws.{OneStepLaw};

/// Where a graph holds at a node of it is told by where it holds at the nodes to which the node refers, as the names of
/// the nodes say: at each state of a structure. Graphs and structures are of any size; all their numbers are in range.
///
/// Does nothing when called.
pub fn one_step()
    ensures law { OneStepLaw }
{}
