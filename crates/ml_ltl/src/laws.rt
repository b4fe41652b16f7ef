// What holds of problems by their definition alone: the function does nothing, its contract is the theorem. Those on texts
// are `ml_ctl`'s, which speak of both languages.
ghost use Rattle.ml_ltl.specs.Laws.{NegatedAsksForPaths, PlainAsksForPaths};

/// A problem of LTL holds at a state exactly where some path from there satisfies its formula, or where some path doesn't if
/// it is negated.
pub fn problems_ask_for_paths()
    ensures plain { PlainAsksForPaths }
    ensures negated { NegatedAsksForPaths }
{}
