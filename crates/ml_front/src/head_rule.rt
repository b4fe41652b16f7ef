// The rules of the head of a document.
ghost use Rattle.std.specs.Prelude.{◌≡◌};
ghost use Rattle.ml_front.specs.RuleNumbers.{rule_number};

/// A rule that a line of the head of a document keeps.
#[derive(Clone, Copy, PartialEq, Eq)]
pub enum HeadRule {
    /// The line is there and of the kind that stands there.
    OfKind,
    /// The formula's text is parsed.
    Parses,
    /// The answer is the one that is wanted.
    Answers,
}

impl HeadRule {
    /// The number that a refusal has of this rule, from 1 to 3.
    pub fn number(self) -> u32
        ensures { result ≡ rule_number self }
    {
        match self {
            HeadRule::OfKind => 1,
            HeadRule::Parses => 2,
            HeadRule::Answers => 3,
        }
    }
}
