// The signs of PDL texts: what PDL adds to those that all logics have.
ghost use Rattle.std.specs.Prelude.{◌≡◌, ℕ, ◌≤◌, List};
ghost use Rattle.ml_text.specs.SignKinds.{named};
ghost use Rattle.ml_pdl.specs.Marks.{mark_of, with_mark};
ghost use Rattle.ml_pdl.specs.Text.{begins_modality, weight_of};

use crate::Modality;
use ml_base::Name;
use ml_text::{Bracket, OwnSign};

/// Of an opening parenthesis: is its partner directly followed by `?`?
#[derive(Clone, Copy)]
pub enum Mark {
    Marked,
    Unmarked,
}

/// A sign that PDL adds.
#[derive(Clone, Copy, Drop)]
pub enum Own {
    /// `(` with its mark; no token by itself is one.
    Paren(Mark),
    /// `<` or `[`
    Begins(Modality),
    /// `>` or `]`
    Ends(Modality),
    /// `repeat`
    Repeats,
    Plus,
    Semicolon,
    Star,
    Question,
    Blank,
}

impl OwnSign for Own {
    ghost use Rattle.ml_pdl.specs.Signs.{own};

    ghost own = { own };

    #[inline(always)]
    fn of_word(word: &[u8]) -> Option<Own> {
        if word == b"repeat".as_slice() {
            Some(Own::Repeats)
        } else {
            None
        }
    }

    #[inline(always)]
    fn of_byte(byte: u8) -> Option<Own> {
        match byte {
            b'<' => Some(Own::Begins(Modality::Diamond)),
            b'>' => Some(Own::Ends(Modality::Diamond)),
            b'[' => Some(Own::Begins(Modality::Square)),
            b']' => Some(Own::Ends(Modality::Square)),
            b'+' => Some(Own::Plus),
            b';' => Some(Own::Semicolon),
            b'*' => Some(Own::Star),
            b'?' => Some(Own::Question),
            b'_' => Some(Own::Blank),
            _ => None,
        }
    }

    #[inline(always)]
    fn bracket(self) -> Bracket {
        match self {
            Own::Paren(_) => Bracket::Opening,
            _ => Bracket::Neither,
        }
    }
}

// what a token is, without its name
pub(crate) type Kind = ml_text::Sign<(), Own>;

// a token with its name
pub(crate) type Sign = ml_text::Sign<Name, Own>;

/// The mark of a parenthesis, by whether a test stands in it.
pub(crate) fn mark_for(is_test: bool) -> Mark
    ensures { result ≡ mark_of is_test }
{
    if is_test {
        Mark::Marked
    } else {
        Mark::Unmarked
    }
}

/// A token's kind, where an opening parenthesis has this mark.
pub(crate) fn marked(is_test: bool, kind: Kind) -> Kind
    ensures { (word : List ℕ) → named result word ≡ with_mark is_test (named kind word) }
{
    match kind {
        Kind::Open => Kind::Added(Own::Paren(mark_for(is_test))),
        _ => kind,
    }
}

/// Is this `<` or `[`?
pub(crate) fn begins_modality(kind: Kind) -> bool
    ensures { (word : List ℕ) → result ≡ begins_modality (named kind word) }
{
    matches!(kind, Kind::Added(Own::Begins(_)))
}

/// As how many occurrences a token counts, by whether it stands directly behind `<` or `[`: the end of a modality
/// without a program counts as the action that it has.
pub(crate) fn weight(is_first: bool, kind: Kind) -> u32
    ensures weight { (word : List ℕ) → result ≡ weight_of is_first (named kind word) }
    ensures small { result ≤ 3 }
{
    match kind {
        Kind::Connective(operator) => operator.weight(),
        Kind::Added(Own::Ends(_)) => u32::from(is_first),
        Kind::Added(Own::Paren(_)) | Kind::Open | Kind::Close | Kind::Unknown => 0,
        _ => 1,
    }
}
