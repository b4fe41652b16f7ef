// What is true of documents of answers: no caller runs these functions, their contracts are the theorems.
ghost use Rattle.ml_answers.specs.Laws.{AnswersAreRight, FaultOrRead, OneFinding, OneReadFault, ReadNoFault, RightIsTrue, RulesRise, SomeFinding};

/// Of each text exactly one thing is found: so `check_answers` answers each exactly where it is said to come, but for want of
/// memory.
///
/// Does nothing when called.
pub fn one_finding()
    ensures some { SomeFinding }
    ensures once { OneFinding }
{}

/// A text in which a document of answers begins is a specification with a document behind it, or has one fault, never both: so
/// `read_answers` refuses exactly the others.
///
/// Does nothing when called.
pub fn one_reading()
    ensures some { FaultOrRead }
    ensures apart { ReadNoFault }
    ensures once { OneReadFault }
{}

/// Where a document is found right, its answers are those to the questions of its specification, whichever the limit: each line
/// says what is so, nothing is open, and each requirement behind `because` is needed.
///
/// Does nothing when called.
pub fn right_is_true()
    ensures { RightIsTrue }
{}

/// Whatever answers a specification has, with whichever limit, their document behind it is found right, or where some of them
/// are open the line of one is told. The specification ends with an LF, and has at most 1,048,576 bytes.
///
/// Does nothing when called.
pub fn answers_are_right()
    ensures { AnswersAreRight }
{}

/// The rules of a line rise by their numbers, so the one that is told is the lowest that is broken.
///
/// Does nothing when called.
pub fn rules_rise()
    ensures { RulesRise }
{}
