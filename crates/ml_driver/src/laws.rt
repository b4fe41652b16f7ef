// What holds of what is due by its definition alone: the functions do nothing, their contracts are the theorems.
ghost use Rattle.std.specs.Prelude.{◌≡◌, ◌+◌, ◌^◌};
ghost use Rattle.ml_answers.specs.declared.finding.TheConstants.{LONGEST_ANSWERS, LONGEST_SPECIFICATION};
ghost use Rattle.ml_machine_check.specs.Checked as machines;
ghost use Rattle.ml_paths.specs.Paths as paths;
ghost use Rattle.ml_realize.specs.TaskGame.{most_nodes};
ghost use Rattle.ml_show_text.specs.declared.limits.TheConstants.{LONGEST_SHOWN};
ghost use Rattle.ml_translate.specs.Translation as translation;
ghost use Rattle.ml_task.specs.declared.limits.TheConstants.{LONGEST_TASK_TEXT};
ghost use Rattle.ml_driver.specs.declared.command.TheConstants.{DEFAULT_LIMIT, GREATEST_LIMIT, LONGEST_DOCUMENT, LONGEST_NUMBER, LONGEST_TEXT};
ghost use Rattle.ml_driver.specs.Laws.{AnswersAreExact, AskIsChecked, DecideIsChecked, DecidedAreChecked, FindIsChecked, FindsAsDecided, MakeIsChecked, MakesAsRealized, OneAutomatonDue};
ghost use Rattle.ml_driver.specs.Laws.{OneAutomatonWritten, OneCheckDue, OneDue, OneMeasure, OneQuotientDue, OneSolutionDue, OneUnlessOpen, ProveIsChecked, ProvesAsDecided};
ghost use Rattle.ml_driver.specs.Laws.{PathsShowWhatFails, PathsShowWhatHolds, QuotientsAreCheckedAlike, QuotientsAreRead, RealizeIsChecked, RefutedAreAccepted, RightIsAsked, SameWinners, SolutionsAreAccepted, SomeDue, SomeDueForWords};
ghost use Rattle.ml_driver.specs.Laws.{ValidIsChecked, WrittenAcceptsTheSame, WrittenHoldsTheSame, WrittenIsTranslated};

/// For each command but `find`, `prove`, `make` and `ask`, for words that are none, and for each input exactly one status is
/// due: some status with some output, and no other status. For these four some status is due too, and two that are due are the
/// same, or one of them is `Undecided`. Of the limit of a command only this is asked, that it fits 32 bits, as that of each
/// `Command` does; and of the number for which a formula is measured, that it is of its family's range. So some status is
/// due for each list of words and each input. For `gen` and `bench` one output is due.
pub fn one_due()
    ensures some { SomeDue }
    ensures words { SomeDueForWords }
    ensures one { OneDue }
    ensures agree { OneUnlessOpen }
    ensures output { OneMeasure }
{}

/// An answer to a question about a text that stands for a formula is exact: it says undecided only where the closure is too
/// large or the game passes the limit, and else it tells whether the problem is satisfiable. By the whole game it says
/// undecided exactly there; by a search always where the closure is too large.
pub fn answers_are_exact()
    ensures { AnswersAreExact }
{}

/// Whatever is due for `decide` is due for `find`. And whatever is due for `find`, but yes and no, is due for `decide`, with
/// the same output: what stays undecided, and texts that are refused. So it is for `prove` and `valid`, and for `make` and
/// `realize`.
pub fn searches_find_as_much()
    ensures finds { FindsAsDecided }
    ensures proves { ProvesAsDecided }
    ensures makes { MakesAsRealized }
{}

/// The documents that answer a question are right, of whatever length: one with a structure shows that its
/// problem holds, and the refutation of one with a refutation is accepted. So where they are no longer than the documents
/// that are read, `check-model` answers `holds`, and `check-refutation` answers `accepted`.
pub fn decided_are_checked()
    ensures satisfied { DecidedAreChecked }
    ensures refuted { RefutedAreAccepted }
    ensures decided { DecideIsChecked }
    ensures valid { ValidIsChecked }
    ensures found { FindIsChecked }
    ensures proved { ProveIsChecked }
{}

/// The documents that are due for `realize` and `make` are right, so where they are no longer than the documents that are
/// read, `check-machine` answers `holds`. For one with a machine this is always so. For one with an environment it is so
/// unless the word automaton of the task's formula has more nodes than `check-machine` takes, and then it says so. Of the
/// limit only this is asked, that it fits 32 bits.
pub fn made_are_checked()
    ensures realized { RealizeIsChecked }
    ensures made { MakeIsChecked }
{}

/// What is due for `ask files`, put behind its file of requirements, is answered `right` by `check-answers`, or with the first
/// line that is open; this comes always where `ask` itself leaves the file undecided. The file ends with an LF, and both
/// together are no longer than what `check-answers` takes. What is answered `right` is so due, with whichever limit.
pub fn answers_are_checked()
    ensures asked { AskIsChecked }
    ensures right { RightIsAsked }
{}

/// Where neither leaves it open, `path` finds a path of a document exactly where `check-model` answers `holds`, if the
/// document has the sense of its path problem: so for LTL, on structures and on words, for `E f` in the plain sense, and for
/// `A f` in the negated one. It finds one exactly where `check-model` answers `fails`, if the document has the other sense.
pub fn paths_beside_checking()
    ensures holds { PathsShowWhatHolds }
    ensures fails { PathsShowWhatFails }
{}

/// The text of a formula has at most 1,048,576 bytes, that of a task 2,097,152, a document at most 2^63 - 1, and one that is
/// shown 134,217,728. A game may have 50,000 positions, and a deterministic automaton as many states, where the words don't
/// say, and 200,000 at most; a number has at most six digits. The word automaton of a task is too large with more than 4,096 nodes,
/// one for `automaton`, `path` and `check-machine` with more than 65,536.
pub fn limits()
    ensures text { LONGEST_TEXT ≡ 1048576 }
    ensures task { LONGEST_TASK_TEXT ≡ 2097152 }
    ensures automaton { most_nodes ≡ 4096 }
    ensures translated { translation.most_nodes ≡ 65536 }
    ensures paths { paths.most_nodes ≡ 65536 }
    ensures machines { machines.most_nodes ≡ 65536 }
    ensures answers { LONGEST_ANSWERS ≡ 134217728 }
    ensures shown { LONGEST_SHOWN ≡ 134217728 }
    ensures specification { LONGEST_SPECIFICATION ≡ 1048576 }
    ensures document { LONGEST_DOCUMENT + 1 ≡ 2 ^ 63 }
    ensures usual { DEFAULT_LIMIT ≡ 50000 }
    ensures greatest { GREATEST_LIMIT ≡ 200000 }
    ensures digits { LONGEST_NUMBER ≡ 6 }
{}

/// Whichever engine solves the game of a text: the text stands for one game, and the winners are the same.
pub fn same_winners()
    ensures { SameWinners }
{}

/// For `solve-game measures` one status is due, with one output: the moves are those that progress first in the least progress
/// measures, of which each player has one.
pub fn one_solution()
    ensures { OneSolutionDue }
{}

/// For `check-game` one status is due, with one output, but for the vertex that is named with the fourth rule.
pub fn one_check_of_a_game()
    ensures { OneCheckDue }
{}

/// The solution that is due for `solve-game`, by any engine, put behind the text of the game, is one that `check-game`
/// accepts: both together are never longer than the texts that it reads.
pub fn solutions_are_accepted()
    ensures { SolutionsAreAccepted }
{}

/// For `quotient` one status is due, with one output. What is written is a document of the same problem with the quotient of
/// the structure; and where the problem's logic speaks of the structure, the problem holds at the start of the one exactly
/// where it holds at the start of the other. So `check-model` answers of what is written what it answers of what was read.
pub fn quotients_say_the_same()
    ensures due { OneQuotientDue }
    ensures read { QuotientsAreRead }
    ensures same { WrittenHoldsTheSame }
    ensures checked { QuotientsAreCheckedAlike }
{}

/// For `determinise` one status is due, with one output. Of a text one automaton is written at most, whatever the limit, and
/// it accepts exactly the ultimately periodic words of valuations that the automaton of the text accepts.
pub fn one_automaton()
    ensures due { OneAutomatonDue }
    ensures written { OneAutomatonWritten }
    ensures same_words { WrittenAcceptsTheSame }
{}

/// What is written for `automaton` stands, by the grammar of automaton texts, for an automaton that accepts exactly the
/// ultimately periodic words that satisfy the formula of the text; and it is read as this automaton, if it has no more states,
/// propositions and edges than one that is read may have.
pub fn written_is_translated()
    ensures { WrittenIsTranslated }
{}
