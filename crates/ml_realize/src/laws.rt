// Laws over the definitions alone: no caller runs these functions, their contracts are the theorems.
ghost use Rattle.ml_realize.specs.Laws.{FoundAreRight, NeverBoth, OneFails, OneGame, OneSize, SomeOutcome, ValuationsAreSets};

/// No task has both a machine that realizes it and an environment that defeats it.
///
/// Does nothing when called.
pub fn never_both()
    ensures { NeverBoth }
{}

/// Whatever machine and environment have the inputs and outputs of a task: some word of the machine doesn't satisfy the
/// task's formula, or some word of the environment does.
///
/// Does nothing when called.
pub fn one_fails()
    ensures { OneFails }
{}

/// A task is large exactly where the graph of its word automaton has more than the most nodes, and its game has as many
/// positions whatever the names and numbers of the automaton are.
///
/// Does nothing when called.
pub fn one_game()
    ensures size { OneSize }
    ensures one { OneGame }
{}

/// Each task is large, or its game has more than so many positions, or an outcome is found; and what is found of a task as it
/// is read is right.
///
/// Does nothing when called. It rests on the determinacy law of parity games.
pub fn some_outcome()
    ensures some { SomeOutcome }
    ensures right { FoundAreRight }
{}

/// The letter of a valuation has the names of its set of inputs and of its set of outputs.
///
/// Does nothing when called.
pub fn valuations_are_sets()
    ensures { ValuationsAreSets }
{}
