// What checking a document of answers finds.
ghost use Rattle.std.specs.Prelude.{◌≡◌};
ghost use Rattle.ml_answers.specs.Checked.{finding_of};

use ml_base::DocFault;
use ml_spec::SpecRule;

/// How many bytes the text of a specification has at most.
pub const LONGEST_SPECIFICATION: usize = 1_048_576;

/// How many bytes a specification has at most where a document of answers stands behind it, both together.
pub const LONGEST_ANSWERS: usize = 134_217_728;

/// What is found of a text: a specification, with a document of answers behind it.
#[derive(Clone, Copy, PartialEq, Eq)]
pub enum AnswersFinding {
    /// All answers are shown.
    Right,
    /// The answer in this line is open, or can't be checked; it is the first one that isn't shown, and none is wrong.
    OpenAt(u64),
    /// The answer in this line is wrong, the first such one.
    WrongAt(u64),
    /// The specification has more bytes than one may have.
    TooLong,
    /// No document begins in the text, which ends at this line and column.
    NoDocument {
        line: u64,
        column: u64,
    },
    /// The specification breaks this rule at this line and column.
    Refused {
        line: u64,
        column: u64,
        rule: SpecRule,
    },
    /// The document's first bad line, and the lowest rule that this line breaks.
    Unreadable(DocFault),
}

/// Why a text is no specification with a document of answers behind it.
#[derive(Clone, Copy, PartialEq, Eq)]
pub enum AnswersFault {
    /// The specification has more bytes than one may have.
    TooLong,
    /// No document begins in the text, which ends at this line and column.
    NoDocument {
        line: u64,
        column: u64,
    },
    /// The specification breaks this rule at this line and column.
    Refused {
        line: u64,
        column: u64,
        rule: SpecRule,
    },
    /// The document's first bad line, and the lowest rule that this line breaks.
    Unreadable(DocFault),
}

impl AnswersFault {
    /// What is found of such a text.
    pub fn finding(self) -> AnswersFinding
        ensures { result ≡ finding_of self }
    {
        match self {
            AnswersFault::TooLong => AnswersFinding::TooLong,
            AnswersFault::NoDocument { line, column } => {
                AnswersFinding::NoDocument { line, column }
            }
            AnswersFault::Refused { line, column, rule } => {
                AnswersFinding::Refused { line, column, rule }
            }
            AnswersFault::Unreadable(fault) => AnswersFinding::Unreadable(fault),
        }
    }
}
