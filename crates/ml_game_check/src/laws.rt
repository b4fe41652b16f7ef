// Laws over the definitions alone: empty functions, each of whose contract is a theorem.
ghost use Rattle.ml_game_check.specs.Laws.{OneVerdict, RightAreWon, SolutionsAreRight, SomeVerdict};

/// Where claims are right, each vertex with a claim is won by the player that it names, and each strategy of that player which
/// makes the moves that are claimed wins from there.
///
/// Does nothing when called.
pub fn right_are_won()
    ensures law { RightAreWon }
{}

/// The claims of a solution of a game, with its moves where the owner is the winner, are right.
///
/// Does nothing when called.
pub fn solutions_are_right()
    ensures law { SolutionsAreRight }
{}

/// For claims about the vertices of a game there is a verdict, and two verdicts are the same, but that with the fourth rule
/// they may name two vertices. So `check` answers each exactly where it is said to come.
///
/// Does nothing when called.
pub fn one_verdict()
    ensures some { SomeVerdict }
    ensures one { OneVerdict }
{}
