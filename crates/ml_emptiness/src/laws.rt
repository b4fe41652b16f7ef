// Laws over the definitions alone: no caller runs these functions, their contracts are the theorems.
ghost use Rattle.ml_emptiness.specs.Laws.{SomeLasso};

/// Of each system an automaton accepts a word along some lasso, or it accepts none.
///
/// Does nothing when called.
pub fn some_lasso()
    ensures { SomeLasso }
{}
