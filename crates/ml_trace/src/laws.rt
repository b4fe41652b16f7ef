// Laws over the definitions of this crate alone. Each stands on a function that does nothing.
ghost use Rattle.ml_trace.specs.AutomatonNumbers.{NumbersAreStates};
ghost use Rattle.ml_trace.specs.LabelledLoop.{OddLoopHasRun};
ghost use Rattle.ml_trace.specs.MarkOrder.{PrioritiesAgree};

/// Where the odd priorities ascend, the numbering is one-to-one: the state with the number of a state of the automaton is
/// that state, and the number of the state with a number is that number.
pub fn numbers_are_states()
    ensures { NumbersAreStates }
{}

/// Marks compare as their numbers: where the number of Neutral is even and above those of the other marks, the lowest
/// number is odd exactly if the lowest mark is.
pub fn priorities_agree()
    ensures { PrioritiesAgree }
{}

/// On a loop of marked steps that satisfy the condition on names, let each name in use stand in some item of the entry
/// where it begins. If its lowest mark is odd, some item there has an accepting run to its own state along the loop, one
/// or more times over.
///
/// This is the core of both the first cycle law of histories and the soundness of refutations: it asks nothing more of
/// how the steps and their marks were made.
pub fn odd_loop_has_run()
    ensures { OddLoopHasRun }
{}
