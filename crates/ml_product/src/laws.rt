// Laws over the definition of the decision game. Each stands on a function that does nothing.
ghost use Rattle.ml_product.specs.Bound.{PositionBoundLaw};

/// No decision game has more positions than there are sets of nodes, choices, histories and priorities, as `bound` counts
/// them.
///
/// Does nothing when called.
pub fn positions_are_bounded()
    ensures law { PositionBoundLaw }
{}
