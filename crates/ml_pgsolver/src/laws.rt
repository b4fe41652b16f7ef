// What holds of texts and answers by their definitions alone: the functions do nothing, their contracts are the theorems.
ghost use Rattle.std.specs.Prelude.{◌≡◌};
ghost use Rattle.ml_pgsolver.specs.Laws.{IsUnambiguous, OneAnswer, OneCheckedAnswer, OneFinding, SolutionOrFault, WrittenIsAccepted};
ghost use Rattle.ml_pgsolver.specs.Longest.{FrontIsLongest};
ghost use Rattle.ml_pgsolver.specs.declared.limits.TheConstants as limit;

/// A text stands for one game at most; it is read as a game or refused, never both, and but for want of memory it is
/// refused in one way at most. So `read` answers each exactly where it is said to come.
pub fn one_answer()
    ensures unambiguous { IsUnambiguous }
    ensures answer { OneAnswer }
{}

/// A game's text with a solution behind it stands for one game with one list of claims at most; it is read so or refused, never
/// both, and but for want of memory it is refused in one way at most. So `read_checked` answers each exactly where it is said
/// to come.
pub fn one_checked_answer()
    ensures { OneCheckedAnswer }
{}

/// Something is found of the claims of such a text, or it is refused, and never both. Two things that are found are the same,
/// but that with the fourth rule they may name two vertices. So `check_solution` answers each exactly where it is said to come.
pub fn one_finding()
    ensures { OneFinding }
{}

/// The token at the front of a text is the longest one of the grammar with which the text begins; a byte that begins none
/// is a token by itself, which the grammar has nowhere.
pub fn longest_token()
    ensures { FrontIsLongest }
{}

/// A game text has at most 200,000 vertices, 2,000,000 successors and numbers up to 4,294,967,294; programs take up to
/// 67,108,864 bytes, and 134,217,728 with a solution behind it.
pub fn limits()
    ensures vertices { limit.MOST_VERTICES ≡ 200000 }
    ensures successors { limit.MOST_SUCCESSORS ≡ 2000000 }
    ensures numbers { limit.GREATEST_NUMBER ≡ 4294967294 }
    ensures bytes { limit.LONGEST_GAME_TEXT ≡ 67108864 }
    ensures checked_bytes { limit.LONGEST_CHECKED_TEXT ≡ 134217728 }
{}

/// What is written for a solution of the game that a text stands for, put behind the text, is read as the claims of the
/// solution, and `check_solution` accepts it.
pub fn written_is_accepted()
    ensures { WrittenIsAccepted }
{}

/// Tokens behind the word `paritysol` are those of a solution and none of them is at fault, or they have a first fault.
pub fn solution_or_fault()
    ensures { SolutionOrFault }
{}
