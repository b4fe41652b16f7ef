// Laws over the definitions alone: no caller runs these functions, their contracts are the theorems.
ghost use Rattle.ml_paths.specs.Laws.{OnePath, RunsHold, ShownAreRuns, SomePath};

/// Of the paths from a state of a structure something is found for each formula of LTL, and one thing at most, up to which path
/// is shown.
///
/// Does nothing when called.
pub fn one_path()
    ensures some { SomePath }
    ensures one { OnePath }
{}

/// The structure of a word that satisfies a formula, or its negation, is one of words, on whose first state the problem of LTL
/// on words holds, in that sense. The word of the labels along a path that is shown is such a word.
///
/// Does nothing when called.
pub fn runs_hold()
    ensures hold { RunsHold }
    ensures shown { ShownAreRuns }
{}
