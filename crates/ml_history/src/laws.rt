// Laws over the definitions of the trace automaton and the history step. Each stands on a function that does nothing.
ghost use Rattle.std.specs.Prelude.{◌≡◌, ◌≢◌, true, []};
ghost use Rattle.ml_trace.specs.MarkOrder.{is_odd, lowest_mark};
ghost use Rattle.ml_history.specs.CycleLaws.{StepsAreHistories, StepsFollowLetters, StepsTraceNames, LettersAreSets, AcceptingCycle, OddMarkHasRun, RunHasOddMark};
ghost use Rattle.ml_history.specs.HistoryRuns.{after, marks_along};

use crate::flat::History;
use ml_trace::Letter;

/// The start is a history, and a step leads from a history to a history.
pub fn steps_are_histories()
    ensures { StepsAreHistories }
{}

/// Letters stand for sets: neither the order nor repeats of their transitions change a step or its mark.
pub fn letters_are_sets()
    ensures { LettersAreSets }
{}

/// Behind a step exactly those states have a stack to which a transition leads from a state that had one.
pub fn steps_follow_letters()
    ensures { StepsFollowLetters }
{}

/// Each step of a history satisfies the condition on names that a refutation is checked for.
pub fn steps_trace_names()
    ensures { StepsTraceNames }
{}

/// The first cycle law: for every history and every nonempty word whose steps lead from it back to it, if the lowest mark
/// of these steps is odd, some state with a stack in the history has an accepting run to itself along the word, one or
/// more times over.
pub fn odd_marks_have_runs()
    ensures { OddMarkHasRun }
{}

/// The second cycle law: if there is such a run, the lowest mark is odd.
pub fn runs_have_odd_marks()
    ensures { RunHasOddMark }
{}

/// The first cycle law for one history and one word.
pub fn odd_mark_has_run(start: &History, word: &[Letter])
    ensures { word.now ≢ [] → after start.now word.now ≡ start.now → is_odd (lowest_mark (marks_along start.now word.now)) ≡ true → AcceptingCycle start.now word.now }
{
    start.keeps();
}

/// The second cycle law for one history and one word.
pub fn run_has_odd_mark(start: &History, word: &[Letter])
    ensures { word.now ≢ [] → after start.now word.now ≡ start.now → AcceptingCycle start.now word.now → is_odd (lowest_mark (marks_along start.now word.now)) ≡ true }
{
    start.keeps();
}
