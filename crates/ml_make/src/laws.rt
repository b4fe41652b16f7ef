// Laws over the definitions alone: no caller runs these functions, their contracts are the theorems.
ghost use Rattle.ml_make.specs.Laws.{AnswersAreRight, NeverBoth, SomeAnswer};

/// Each task is large, or its game has more than so many positions, or it has an answer.
///
/// Does nothing when called. It rests on the determinacy law of parity games.
pub fn some_answer()
    ensures { SomeAnswer }
{}

/// Answers are right; so of a machine and an environment never both are answers to one task, whatever the limits are.
///
/// Does nothing when called.
pub fn one_side()
    ensures right { AnswersAreRight }
    ensures never_both { NeverBoth }
{}
