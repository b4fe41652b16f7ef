// What the check of claims answers.

ghost use Rattle.std.specs.Prelude.{◌≡◌};
ghost use Rattle.ml_game_check.specs.Verdicts.{number_of};

/// The rules that right claims keep.
#[derive(Clone, Copy, Debug, PartialEq, Eq)]
pub enum Rule {
    /// 1: where the winner owns the vertex, a move stands.
    HasMove,
    /// 2: where the winner owns it, the move is a successor.
    MovesAlong,
    /// 3: each way leads to a vertex that is claimed for the same player.
    StaysClaimed,
    /// 4: the vertex lies on no cycle of ways whose lowest priority is bad for the winner and is its own.
    NoBadCycle,
}

impl Rule {
    /// The number of the rule, from 1 to 4.
    pub fn number(self) -> u64
        ensures { result ≡ number_of self }
    {
        match self {
            Rule::HasMove => 1,
            Rule::MovesAlong => 2,
            Rule::StaysClaimed => 3,
            Rule::NoBadCycle => 4,
        }
    }
}

/// Whether claims are right.
#[derive(Clone, Copy, Debug, PartialEq, Eq)]
pub enum Verdict {
    /// No claim breaks a rule.
    Right,
    /// The claim of this vertex breaks this rule.
    Broken { vertex: u64, rule: Rule },
}
