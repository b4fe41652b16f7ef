// The signs of CTL* and LTL texts: what they add to those that all logics have.
ghost use Rattle.std.specs.Prelude.{◌≡◌, ℕ, ◌≤◌, List};
ghost use Rattle.ml_text.specs.SignKinds.{named};
ghost use Rattle.ml_ctl.specs.Text.{weight_of};

use crate::{Pairing, Quantifier, Tense};
use ml_base::Name;
use ml_text::{Bracket, OwnSign};

/// A sign that CTL* and LTL add.
#[derive(Clone, Copy, Drop)]
pub enum Own {
    /// `X`, `F` or `G`
    Tensed(Tense),
    /// `U`, `R` or `W`
    Pairs(Pairing),
    /// `E` or `A`
    Quantifies(Quantifier),
}

impl OwnSign for Own {
    ghost use Rattle.ml_ctl.specs.Signs.{own};

    ghost own = { own };

    #[inline(always)]
    fn of_word(_word: &[u8]) -> Option<Own> {
        None
    }

    #[inline(always)]
    fn of_byte(byte: u8) -> Option<Own> {
        match byte {
            b'X' => Some(Own::Tensed(Tense::Next)),
            b'F' => Some(Own::Tensed(Tense::Finally)),
            b'G' => Some(Own::Tensed(Tense::Globally)),
            b'U' => Some(Own::Pairs(Pairing::Until)),
            b'R' => Some(Own::Pairs(Pairing::Release)),
            b'W' => Some(Own::Pairs(Pairing::Weak)),
            b'E' => Some(Own::Quantifies(Quantifier::Exists)),
            b'A' => Some(Own::Quantifies(Quantifier::Forall)),
            _ => None,
        }
    }

    #[inline(always)]
    fn bracket(self) -> Bracket {
        Bracket::Neither
    }
}

// what a token is, without its name
pub(crate) type Kind = ml_text::Sign<(), Own>;

// a token with its name
pub(crate) type Sign = ml_text::Sign<Name, Own>;

/// As how many occurrences a token counts.
pub(crate) fn weight(kind: Kind) -> u32
    ensures weight { (word : List ℕ) → result ≡ weight_of (named kind word) }
    ensures small { result ≤ 3 }
{
    match kind {
        Kind::Connective(operator) => operator.weight(),
        Kind::Open | Kind::Close | Kind::Unknown => 0,
        _ => 1,
    }
}
