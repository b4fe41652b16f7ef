// The rules of the body of an undecided document.
ghost use Rattle.std.specs.Prelude.{◌≡◌};
ghost use Rattle.ml_show_text.specs.UndecidedBodies.{rule_number};

/// A rule that a line of the body of an undecided document keeps.
#[derive(Clone, Copy, PartialEq, Eq)]
pub enum CauseRule {
    /// The line is there and of the kind that stands there; nothing follows `end`.
    OfKind,
    /// Its number is spelt as numbers are, and fits 32 bits.
    Numbers,
}

impl CauseRule {
    /// The number that a refusal has of this rule, 11 or 12.
    pub fn number(self) -> u32
        ensures { result ≡ rule_number self }
    {
        match self {
            CauseRule::OfKind => 11,
            CauseRule::Numbers => 12,
        }
    }
}
