// The rules of the body of a satisfiable document.
ghost use Rattle.std.specs.Prelude.{◌≡◌};
ghost use Rattle.ml_kripke.specs.RuleNumbers.{rule_number};

/// A rule that a line of the body of a satisfiable document keeps.
#[derive(Clone, Copy, PartialEq, Eq)]
pub enum BodyRule {
    /// The line is there and of the kind that stands there.
    OfKind,
    /// Its numbers are spelt as numbers are.
    Numbers,
    /// There is at least one state.
    HasStates,
    /// The start is below the number of states.
    StartInRange,
    /// The `state` line has the next number.
    NextState,
    /// The labels are names in strictly ascending order.
    Labels,
    /// The edge joins states by an action, and is above the one before it.
    Edges,
}

impl BodyRule {
    /// The number that a refusal has of this rule, from 11 to 17.
    pub fn number(self) -> u32
        ensures { result ≡ rule_number self }
    {
        match self {
            BodyRule::OfKind => 11,
            BodyRule::Numbers => 12,
            BodyRule::HasStates => 13,
            BodyRule::StartInRange => 14,
            BodyRule::NextState => 15,
            BodyRule::Labels => 16,
            BodyRule::Edges => 17,
        }
    }
}
