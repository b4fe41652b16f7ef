// Laws about the definitions alone: empty functions, each of whose contract is a theorem.

ghost use Rattle.ml_sequent.specs.LeastSpread.{LeastSpreadLaw};

/// The spread of a set of nodes is the least closed set that has them: it has them, it has the local children of its
/// nodes, and each closed set that has them has the spread. Graphs are of any size.
///
/// Does nothing when called.
pub fn spread_is_least()
    ensures law { LeastSpreadLaw }
{}
