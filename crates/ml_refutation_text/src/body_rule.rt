// The rules of the body of an unsatisfiable document.
ghost use Rattle.std.specs.Prelude.{◌≡◌};
ghost use Rattle.ml_refutation_text.specs.RuleNumbers.{rule_number};

/// A rule that a line of the body of an unsatisfiable document keeps.
#[derive(Clone, Copy, PartialEq, Eq)]
pub enum BodyRule {
    /// The line is there and of a kind that stands there.
    OfKind,
    /// Its numbers are spelt as numbers are.
    Numbers,
    /// There is at least one entry.
    HasEntries,
    /// The `entry` line has the next number.
    NextEntry,
    /// The nodes of a sequent strictly ascend.
    SequentAscends,
    /// No more names are in use than there are.
    LiveWithin,
    /// Items and the names of a stack strictly ascend, and the names are in use.
    ItemsAscend,
    /// There is a height for each even priority.
    HeightForEach,
    /// A `go` leads to an entry, and its name is one of the names.
    GoInRange,
    /// A split doesn't stand inside too many others.
    Nesting,
    /// Numbers of sequents and stacks are those of lines of their tables.
    InTables,
}

impl BodyRule {
    /// The number that a refusal has of this rule, from 21 to 31.
    pub fn number(self) -> u32
        ensures { result ≡ rule_number self }
    {
        match self {
            BodyRule::OfKind => 21,
            BodyRule::Numbers => 22,
            BodyRule::HasEntries => 23,
            BodyRule::NextEntry => 24,
            BodyRule::SequentAscends => 25,
            BodyRule::LiveWithin => 26,
            BodyRule::ItemsAscend => 27,
            BodyRule::HeightForEach => 28,
            BodyRule::GoInRange => 29,
            BodyRule::Nesting => 30,
            BodyRule::InTables => 31,
        }
    }
}
