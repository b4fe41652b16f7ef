// The rules of the lines of answers.
ghost use Rattle.std.specs.Prelude.{◌≡◌};
ghost use Rattle.ml_answers.specs.RuleNumbers.{rule_number};

/// A rule that a line of a document of answers keeps, beside those of its bodies.
#[derive(Clone, Copy, Debug, PartialEq, Eq)]
pub enum AnswersRule {
    /// The line is there and of the kind that stands there.
    OfKind,
    /// The names behind `because` are those of requirements of which the question is asked, in their order, and each stands
    /// there once; where it is asked whether they are consistent, there is one.
    Names,
}

impl AnswersRule {
    /// The number that a refusal has of this rule, 71 or 72.
    pub fn number(self) -> u32
        ensures { result ≡ rule_number self }
    {
        match self {
            AnswersRule::OfKind => 71,
            AnswersRule::Names => 72,
        }
    }
}
