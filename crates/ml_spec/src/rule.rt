// The rules of specification texts.
ghost use Rattle.std.specs.Prelude.{◌≡◌};
ghost use Rattle.ml_spec.specs.RuleNumbers.{rule_number};

/// What may be wrong with a text that is no specification.
#[derive(Clone, Copy, Debug, PartialEq, Eq)]
pub enum SpecRule {
    /// No formula's text goes on like this, or the text ends too soon.
    Syntax,
    /// A variable of a formula without a binder around it.
    Unbound,
    /// A variable that isn't positive in its binder.
    NotPositive,
    /// A formula with more occurrences than the limit.
    TooMany,
    /// More parentheses open at a time than the limit.
    TooNested,
    /// A name in a formula of more bytes than the limit.
    NameTooLong,
    /// The text doesn't begin with an item that tells its logic, or an item tells another one.
    NoLogic,
    /// An item that begins with the word of no kind that may stand in the logic.
    NoKind,
    /// No name stands behind an item's kind, or a word among its signals or values may be none.
    NoName,
    /// No colon stands behind an item's name.
    NoColon,
    /// An item before has this name, or the proposition is declared already.
    NameTaken,
    /// More items than the limit.
    TooManyItems,
    /// A formula that has more occurrences than the limit with definitions and bounds written out.
    TooLarge,
    /// A proposition that isn't declared, where signals stand.
    Undeclared,
    /// A definition of a proposition that stands in a formula before, or in its own.
    DefinedLate,
}

impl SpecRule {
    /// The number by which a refusal tells this rule: 1 to 6, or 61 to 69.
    pub fn number(self) -> u32
        ensures { result ≡ rule_number self }
    {
        match self {
            SpecRule::Syntax => 1,
            SpecRule::Unbound => 2,
            SpecRule::NotPositive => 3,
            SpecRule::TooMany => 4,
            SpecRule::TooNested => 5,
            SpecRule::NameTooLong => 6,
            SpecRule::NoLogic => 61,
            SpecRule::NoKind => 62,
            SpecRule::NoName => 63,
            SpecRule::NoColon => 64,
            SpecRule::NameTaken => 65,
            SpecRule::TooManyItems => 66,
            SpecRule::TooLarge => 67,
            SpecRule::Undeclared => 68,
            SpecRule::DefinedLate => 69,
        }
    }
}
