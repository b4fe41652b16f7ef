// The signs of texts of LTL with bounds: what they add to those that all logics have.
ghost use Rattle.std.specs.Prelude.{◌≡◌, ℕ, ◌≤◌, List, drop, length};
ghost use Rattle.ml_text.specs.SignKinds.{named};
ghost use Rattle.ml_bounded.specs.Numbers.{begins_number, number_at};
ghost use Rattle.ml_bounded.specs.Signs.{numbered};
ghost use Rattle.ml_bounded.specs.Text.{weight_of};

use crate::numbers::{begins_number, number};
use ml_base::Name;
use ml_ctl::{Pairing, Tense};
use ml_text::{Bracket, OwnSign};

/// A sign that LTL with bounds adds.
#[derive(Clone, Copy, Drop)]
pub enum Own {
    /// `X`, `F` or `G`
    Tensed(Tense),
    /// `U`, `R` or `W`
    Pairs(Pairing),
    /// `[`
    Opening,
    /// `]`
    Closing,
    /// `:` or `,`
    Between,
    /// The first digit of this number; no token by itself is one.
    Number(u16),
    /// Another digit.
    Digit,
}

impl OwnSign for Own {
    ghost use Rattle.ml_bounded.specs.Signs.{own};

    ghost own = { own };

    #[inline(always)]
    fn of_word(_word: &[u8]) -> Option<Own> {
        None
    }

    #[inline(always)]
    fn of_byte(byte: u8) -> Option<Own> {
        match byte {
            b'X' => Some(Own::Tensed(Tense::Next)),
            b'F' => Some(Own::Tensed(Tense::Finally)),
            b'G' => Some(Own::Tensed(Tense::Globally)),
            b'U' => Some(Own::Pairs(Pairing::Until)),
            b'R' => Some(Own::Pairs(Pairing::Release)),
            b'W' => Some(Own::Pairs(Pairing::Weak)),
            b'[' => Some(Own::Opening),
            b']' => Some(Own::Closing),
            b':' | b',' => Some(Own::Between),
            b'0' | b'1' | b'2' | b'3' | b'4' | b'5' | b'6' | b'7' | b'8' | b'9' => Some(Own::Digit),
            _ => None,
        }
    }

    #[inline(always)]
    fn bracket(self) -> Bracket {
        Bracket::Neither
    }
}

// what a token is, without its name
pub(crate) type Kind = ml_text::Sign<(), Own>;

// a token with its name
pub(crate) type Sign = ml_text::Sign<Name, Own>;

/// The kind of the token at this byte, where a digit stands with the number that begins there.
pub(crate) fn numbered(kind: Kind, text: &[u8], at: usize) -> Kind
    requires { at ≤ length text.now }
    ensures { (word : List ℕ) → named result word
        ≡ numbered (begins_number text.now at) (number_at (drop at text.now)) (named kind word) }
{
    match kind {
        Kind::Added(Own::Digit) if begins_number(text, at) => {
            Kind::Added(Own::Number(number(&text[at..])))
        }
        _ => kind,
    }
}

/// As how many occurrences a token counts.
pub(crate) fn weight(kind: Kind) -> u32
    ensures weight { (word : List ℕ) → result ≡ weight_of (named kind word) }
    ensures small { result ≤ 3 }
{
    match kind {
        Kind::Connective(operator) => operator.weight(),
        Kind::Not | Kind::Const(_) | Kind::Lower(()) | Kind::Upper(()) => 1,
        Kind::Added(Own::Tensed(_) | Own::Pairs(_)) => 1,
        _ => 0,
    }
}
