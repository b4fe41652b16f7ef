// The rules of the text of a task.
ghost use Rattle.std.specs.Prelude.{◌≡◌};
ghost use Rattle.ml_task.specs.TaskText.{rule_number};

/// A rule that a line of a task keeps.
#[derive(Clone, Copy, PartialEq, Eq)]
pub enum TaskRule {
    /// The line is there and of the kind that stands there; nothing follows the third.
    OfKind,
    /// Each word is a proposition of LTL of at most 64 bytes.
    Named,
    /// No name stood before.
    New,
    /// No more than eight names stood up to here.
    Few,
    /// The formula's text is parsed.
    Parses,
    /// The formula speaks of the inputs and outputs alone.
    Known,
}

impl TaskRule {
    /// The number that a refusal has of this rule, from 41 to 46.
    pub fn number(self) -> u32
        ensures { result ≡ rule_number self }
    {
        match self {
            TaskRule::OfKind => 41,
            TaskRule::Named => 42,
            TaskRule::New => 43,
            TaskRule::Few => 44,
            TaskRule::Parses => 45,
            TaskRule::Known => 46,
        }
    }
}
