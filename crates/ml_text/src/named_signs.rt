// Signs: the tokens of a text as a grammar sees them, those that all logics have and those that a logic adds.
ghost use Rattle.std.specs.Prelude.{◌≡◌, false, IfOk, List, ℕ};
ghost use Rattle.ml_text.specs.Signs as signs;
ghost use Rattle.ml_text.specs.Signs.{OwnSigns, bracket_of, byte_in, byte_sign, is_reserved, name_sign, word_in, word_sign};
ghost use Rattle.ml_text.specs.SignKinds.{HasShortName, named};
ghost use Rattle.ml_text.specs.Spelling.{Spells};
ghost use Rattle.ml_text.specs.Words.{IsWordOf};

use crate::bytes::is_lower;
use crate::limits::Bracket;
use crate::token::{Operator, Token};
use crate::words::constant_of;
use ml_base::{Name, NoMemory};
use std::alloc::Global;

/// A token as a grammar sees it, where N is what is held of a name, and X has the signs that the logic adds.
#[derive(Clone, Copy, Drop)]
pub enum Sign<N, X> {
    Not,
    Connective(Operator),
    Const(bool),
    Open,
    Close,
    /// A name that begins with a lower-case letter.
    Lower(N),
    /// A name that begins with an upper-case letter.
    Upper(N),
    /// A sign that the logic adds.
    Added(X),
    /// In no text of any grammar.
    Unknown,
}

/// The signs that a logic adds. The ghost member `own` is their table.
pub trait OwnSign: Copy {
    ghost own: { OwnSigns Self };

    /// The sign of a word that the logic reserves.
    fn of_word(word: &[u8]) -> Option<Self>
        ensures { result ≡ word_in own.words word.now };

    /// The sign of a byte that is a token by itself.
    fn of_byte(byte: u8) -> Option<Self>
        ensures { result ≡ byte_in own.bytes byte };

    /// Which parenthesis it is.
    fn bracket(self) -> Bracket
        ensures { result ≡ own.bracket self };
}

// a word that isn't reserved, by its first letter
#[tactic(auto, using(crate::proofs::NamedSigns::name_of_lower, crate::proofs::NamedSigns::name_of_upper))]
fn name_kind<X: OwnSign>(word: &[u8]) -> Sign<(), X>
    requires word { IsWordOf X.own.starts word.now }
    requires free { is_reserved X.own word.now ≡ false }
    ensures { named result word.now ≡ name_sign X.own word.now }
{
    if is_lower(word[0]) {
        Sign::Lower(())
    } else {
        Sign::Upper(())
    }
}

#[tactic(auto, using(crate::proofs::NamedSigns::free_word))]
fn word_kind<X: OwnSign>(word: &[u8]) -> Sign<(), X>
    requires { IsWordOf X.own.starts word.now }
    ensures { named result word.now ≡ word_sign X.own word.now }
{
    if let Some(value) = constant_of(word) {
        return Sign::Const(value);
    }
    match X::of_word(word) {
        Some(sign) => Sign::Added(sign),
        None => name_kind(word),
    }
}

fn byte_kind<X: OwnSign>(byte: u8) -> Sign<(), X>
    ensures { (word : List ℕ) → named result word ≡ byte_sign X.own byte }
{
    match byte {
        b'(' => Sign::Open,
        b')' => Sign::Close,
        _ => match X::of_byte(byte) {
            Some(sign) => Sign::Added(sign),
            None => Sign::Unknown,
        },
    }
}

/// What a token with these bytes is, without its name.
///
/// Cost: linear in the bytes of a word.
pub fn kind_of<X: OwnSign>(token: Token, bytes: &[u8]) -> Sign<(), X>
    requires { Spells X.own.starts bytes.now token }
    ensures { named result bytes.now ≡ signs.sign_of X.own token bytes.now }
{
    match token {
        Token::Not => Sign::Not,
        Token::Operator(operator) => Sign::Connective(operator),
        Token::Word => word_kind(bytes),
        Token::Byte(byte) => byte_kind(byte),
    }
}

/// The sign of a kind, whose name, if it has one, has these bytes.
///
/// # Errors
/// `NoMemory` alone.
pub fn sign_of<X: OwnSign>(
    alloc: Global,
    kind: Sign<(), X>,
    bytes: &[u8],
) -> Result<Sign<Name, X>, NoMemory>
    requires { HasShortName (named kind bytes.now) }
    ensures { IfOk result (λ sign. sign ≡ named kind bytes.now) }
{
    Ok(match kind {
        Sign::Not => Sign::Not,
        Sign::Connective(operator) => Sign::Connective(operator),
        Sign::Const(value) => Sign::Const(value),
        Sign::Open => Sign::Open,
        Sign::Close => Sign::Close,
        Sign::Lower(()) => Sign::Lower(Name::from_bytes(alloc, bytes)?),
        Sign::Upper(()) => Sign::Upper(Name::from_bytes(alloc, bytes)?),
        Sign::Added(sign) => Sign::Added(sign),
        Sign::Unknown => Sign::Unknown,
    })
}

/// Which parenthesis a token is.
pub fn bracket_of<X: OwnSign>(kind: Sign<(), X>) -> Bracket
    ensures { result ≡ signs.bracket_of X.own kind }
{
    match kind {
        Sign::Open => Bracket::Opening,
        Sign::Close => Bracket::Closing,
        Sign::Added(sign) => sign.bracket(),
        _ => Bracket::Neither,
    }
}
