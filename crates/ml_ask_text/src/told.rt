// What is told of a text.
use ml_spec::SpecRule;
use std::marker::Model;

/// In which form answers are told.
#[derive(Clone, Copy, Debug, PartialEq, Eq)]
pub enum Form {
    /// A line for each answer.
    Lines,
    /// The document of the answers, with what shows each of them behind its line.
    Files,
}

/// What the answers come to.
#[derive(Clone, Copy, Debug, PartialEq, Eq)]
pub enum Verdict {
    /// Each answer says yes: the requirements are consistent, what is asked for is possible, and what is claimed follows.
    AsMeant,
    /// Some answer says no.
    Against,
    /// None does, but some one stays open.
    Open,
}

/// Answers as they are written. Contracts see the bytes.
#[derive(Drop)]
pub struct WrittenAnswers {
    bytes: Vec<u8>,
}

impl Model for WrittenAnswers {
    ghost use Rattle.std.specs.Prelude.{ℕ, List};

    ghost Value = { List ℕ };

    ghost view = { λ w. w.bytes.items };
}

impl WrittenAnswers {
    ghost use Rattle.std.specs.Prelude.{◌≡◌};

    // the answers with these bytes
    pub(crate) fn new(bytes: Vec<u8>) -> WrittenAnswers
        ensures { result ≡ bytes.items }
    {
        WrittenAnswers { bytes }
    }

    /// Their bytes.
    ///
    /// Cost: constant.
    pub fn into_bytes(self) -> Vec<u8>
        ensures { result.items ≡ self }
    {
        self.bytes
    }
}

/// What is told of a text.
#[derive(Drop)]
pub enum Told {
    /// The answers to its questions, and what they come to.
    Answered(Verdict, WrittenAnswers),
    /// It is no specification: it breaks this rule at this line and column, both counted from 1.
    Refused {
        line: u64,
        column: u64,
        rule: SpecRule,
    },
}
