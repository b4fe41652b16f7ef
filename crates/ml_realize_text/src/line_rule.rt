// A line of a document may break one of these rules.
ghost use Rattle.std.specs.Prelude.{◌≡◌};
ghost use Rattle.ml_realize_text.specs.RealizeRules.{rule_number};

/// A rule that a line of a document keeps, where it is none of the task's three lines.
#[derive(Clone, Copy, PartialEq, Eq)]
pub enum LineRule {
    /// The first line is `mlsolver realize 1`, and the second one tells an answer.
    OfHead,
    /// The answer is a machine or an environment.
    Decided,
    /// A line of the body is there and of the kind that stands there; nothing follows `end`.
    OfKind,
    /// Its number is spelt as numbers are, and fits 32 bits.
    Numbers,
    /// There is at least one state.
    HasStates,
    /// A `state` line has the next number.
    NextState,
    /// A set is `-`, or names of its line of the task in their order.
    Sets,
    /// The state behind `goto` is one of the states.
    InRange,
}

impl LineRule {
    /// The number that a refusal has of this rule: 1, 3, or one from 51 to 56.
    pub fn number(self) -> u32
        ensures { result ≡ rule_number self }
    {
        match self {
            LineRule::OfHead => 1,
            LineRule::Decided => 3,
            LineRule::OfKind => 51,
            LineRule::Numbers => 52,
            LineRule::HasStates => 53,
            LineRule::NextState => 54,
            LineRule::Sets => 55,
            LineRule::InRange => 56,
        }
    }
}
