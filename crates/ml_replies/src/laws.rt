// Laws over answers: no caller runs these functions, their contracts are the theorems.
ghost use Rattle.ml_replies.specs.Laws.{ChecksAreEnough, ConflictsAreApart, FewerAreMet, MetIsMet, NeededOnesAre, NeverBoth};
ghost use Rattle.ml_replies.specs.Laws.{OneCheck, SomeCheck, SomeReplies, SomeReply, UnmetIsRefuted};

/// In all logics but LTL of paths a joined formula holds at a state of a structure exactly where each of its formulas does: so
/// it is enough to check these.
///
/// Does nothing when called.
pub fn checks_are_enough()
    ensures { ChecksAreEnough }
{}

/// Exactly one thing comes of checking a structure for requirements and a question.
///
/// Does nothing when called.
pub fn one_check()
    ensures some { SomeCheck }
    ensures one { OneCheck }
{}

/// What an answer says of requirements and structures: where it has a structure, the requirements can be met where the question
/// is asked; where it is a conflict, its requirements can't be, and without one beside which a structure stands the others can.
///
/// Does nothing when called.
pub fn answers_are_right()
    ensures met { MetIsMet }
    ensures unmet { UnmetIsRefuted }
    ensures needed { NeededOnesAre }
{}

/// Fewer requirements can be met wherever more of them can; so no question is answered by a structure and by a conflict, with
/// whichever limits.
///
/// Does nothing when called.
pub fn never_both()
    ensures fewer { FewerAreMet }
    ensures never_both { NeverBoth }
{}

/// No two conflicts that are told of all requirements have one in common: so whoever mends each of them and leaves the others
/// alone has removed them all.
///
/// Does nothing when called.
pub fn conflicts_are_apart()
    ensures { ConflictsAreApart }
{}

/// Each question has an answer, asked of whichever requirements, and each specification has answers, with each limit of 32
/// bits: so answers may always come, but for want of memory.
///
/// Does nothing when called.
pub fn some_reply()
    ensures one { SomeReply }
    ensures all { SomeReplies }
{}
