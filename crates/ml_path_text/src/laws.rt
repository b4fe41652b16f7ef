// Laws over the definitions alone stand here: no caller runs these functions, and their contracts are the theorems.
ghost use Rattle.ml_path_text.specs.Laws.{FoundWhereItFails, FoundWhereItHolds, OneFinding, PathsAreConfirmed, SomeFinding, TextsAreConfirmed};

/// Of the paths of a document something is found for each text, and one thing at most, up to which path is shown. So `path_of`
/// answers each exactly where it is said to come, but for want of memory.
///
/// Does nothing when called.
pub fn one_finding()
    ensures some { SomeFinding }
    ensures one { OneFinding }
{}

/// Of each path of fewer than 2 ^ 32 places that shows what a text asks for, the document is one at whose start its problem
/// holds, as `ml_model_check::check_document` answers. So is the one behind the lines of what is told of a path in fewer than
/// 2 ^ 32 bytes.
///
/// Does nothing when called.
pub fn paths_are_confirmed()
    ensures paths { PathsAreConfirmed }
    ensures texts { TextsAreConfirmed }
{}

/// Where neither the word automaton nor the closure is too large, a path of a document is found exactly where checking the
/// document finds that its problem holds, if the document has the sense of its path problem: so for LTL, on structures and on
/// words, for `E f` in the plain sense, and for `A f` in the negated one. It is found exactly where checking finds that the
/// problem doesn't hold, if the document has the other sense: so for `A f` in the plain one, and for `E f` in the negated one.
///
/// Does nothing when called.
pub fn found_beside_checking()
    ensures holds { FoundWhereItHolds }
    ensures fails { FoundWhereItFails }
{}
