// The kinds of items.
ghost use Rattle.std.specs.Prelude.{◌≡◌, ◌≢◌, true, MatchOption};
ghost use Rattle.ml_spec.specs.Kinds.{has_formula, is_requirement, item_word, kind_word, may_stand, takes_name};

use ml_front::Logic;

/// What an item of a specification is.
#[derive(Clone, Copy, Debug, PartialEq, Eq)]
pub enum Kind {
    /// A requirement, which is to be met.
    Require,
    /// The question whether something can happen where all requirements are met.
    Possible,
    /// The question whether something follows from the requirements.
    Follows,
}

impl Kind {
    /// The word with which an item of this kind begins.
    pub fn word(self) -> &'static [u8]
        ensures { result.now ≡ kind_word self }
    {
        match self {
            Kind::Require => b"require",
            Kind::Possible => b"possible",
            Kind::Follows => b"follows",
        }
    }

    /// Is it the kind of the requirements?
    pub fn is_requirement(self) -> bool
        ensures { result ≡ is_requirement self }
    {
        matches!(self, Kind::Require)
    }
}

/// The kind that a word names; `None` where it names none.
pub fn kind_named(word: &[u8]) -> Option<Kind>
    ensures { MatchOption result ((k : Kind) → word.now ≢ kind_word k) (λ k. word.now ≡ kind_word k) }
{
    if word == Kind::Require.word() {
        Some(Kind::Require)
    } else if word == Kind::Possible.word() {
        Some(Kind::Possible)
    } else if word == Kind::Follows.word() {
        Some(Kind::Follows)
    } else {
        None
    }
}

/// What an item of a text is, behind the first one.
#[derive(Clone, Copy, Debug, PartialEq, Eq)]
pub enum ItemKind {
    /// The logic once more, so that files may be put together.
    Logics,
    /// Propositions that are declared.
    Signals,
    /// A proposition for each value of something, of which one is true at each moment.
    Enumeration,
    /// A proposition that stands for a formula.
    Definition,
    /// An item of the specification.
    Stated(Kind),
}

impl ItemKind {
    /// May items of this kind stand in a text of a logic?
    pub fn may_stand(self, logic: Logic) -> bool
        ensures { result ≡ may_stand logic self }
    {
        match self {
            ItemKind::Enumeration => match logic {
                Logic::Ctl | Logic::Ltl | Logic::Word => true,
                Logic::Mu | Logic::Pdl => false,
            },
            ItemKind::Logics | ItemKind::Signals | ItemKind::Definition | ItemKind::Stated(_) =>
                true,
        }
    }

    /// Does a name with a colon stand in them, behind their word?
    pub fn takes_name(self) -> bool
        ensures { result ≡ takes_name self }
    {
        !matches!(self, ItemKind::Logics | ItemKind::Signals)
    }

    /// Does the text of a formula stand behind the colon?
    pub fn has_formula(self) -> bool
        ensures { result ≡ has_formula self }
    {
        matches!(self, ItemKind::Definition | ItemKind::Stated(_))
    }
}

/// The kind of items that a word names; `None` where it names none.
pub fn item_kind_named(word: &[u8]) -> Option<ItemKind>
    ensures { MatchOption result ((k : ItemKind) → word.now ≢ item_word k) (λ k. word.now ≡ item_word k) }
{
    if word == b"logic".as_slice() {
        Some(ItemKind::Logics)
    } else if word == b"signals".as_slice() {
        Some(ItemKind::Signals)
    } else if word == b"enum".as_slice() {
        Some(ItemKind::Enumeration)
    } else if word == b"define".as_slice() {
        Some(ItemKind::Definition)
    } else {
        Some(ItemKind::Stated(kind_named(word)?))
    }
}
