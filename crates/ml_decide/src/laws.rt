// What holds of decisions and of decision games by their definitions alone: the functions do nothing, their contracts are
// the theorems.
ghost use Rattle.ml_decide.specs.Laws.{DecisionsAgree, DecisionsAreExact, FoundAsDecided, GraphsFit, OneDecision, OneFinding};
ghost use Rattle.ml_decide.specs.Laws.{SomeDecision, SomeFinding, SomeGame};

/// A decision is exact: it leaves a problem open only where the closure is too large or the game passes the limit, and else
/// tells whether the problem is satisfiable. By the whole game one answer is due; in whichever ways and up to whichever
/// limits, two decisions of a problem agree, unless one leaves it open; and what the whole game decides, a search may
/// decide.
pub fn decisions_are_exact()
    ensures exact { DecisionsAreExact }
    ensures one { OneDecision }
    ensures agree { DecisionsAgree }
    ensures found { FoundAsDecided }
{}

/// For each problem that the program holds and each limit of 32 bits there is an answer, in both ways: a structure that has a
/// text, a refutation, or a cause.
pub fn some_decision()
    ensures { SomeDecision }
{}

/// For each problem that the program holds and each limit of 32 bits exactly one thing is found.
pub fn one_finding()
    ensures some { SomeFinding }
    ensures one { OneFinding }
{}

/// The graph of each formula within the limits is small enough to be explored, whose closure isn't too large where its
/// logic has one: `fits` of `ml_product` is true of it.
pub fn graphs_fit()
    ensures { GraphsFit }
{}

/// The decision game of a graph, of whatever size, has at most so many positions, and then there is an arena of it; or it
/// has more.
pub fn some_game()
    ensures { SomeGame }
{}
