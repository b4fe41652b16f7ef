// The tokens of a text, and the scanner.
ghost use Rattle.std.specs.Prelude.{◌≡◌, ◌<◌, ◌≤◌, ◌∷◌, [], length, IfSome, MatchOption};
ghost use Rattle.std.specs.List.{take_while};
ghost use Rattle.ml_text.specs.Bytes.{is_blank, is_word_byte};
ghost use Rattle.ml_text.specs.Operators.{weight};
ghost use Rattle.ml_text.specs.Tokens.{begins_word, front_token, longest_sign, signs, tokens_from};

use crate::bytes::{is_blank, is_letter, is_lower, is_word_byte};

/// A binary operator that all logics have, from the loosest to the tightest.
#[derive(Clone, Copy, Debug, PartialEq, Eq)]
pub enum Operator {
    Iff,
    Implies,
    Or,
    And,
}

impl Operator {
    /// As how many occurrences the connective counts.
    pub fn weight(self) -> u32
        ensures { result ≡ weight self }
    {
        match self {
            Operator::Iff => 3,
            Operator::Implies | Operator::Or | Operator::And => 1,
        }
    }
}

/// What stands at a place of a text.
#[derive(Clone, Copy, PartialEq, Eq)]
pub enum Token {
    /// `!` or `~`
    Not,
    /// A binary operator, in any of its spellings.
    Operator(Operator),
    /// A letter that begins a word, with the letters, digits and `_` behind it.
    Word,
    /// Any other byte: a bracket or a sign of one logic, or a byte that begins no token of any.
    Byte(u8),
}

/// Which letters begin a word; a letter that begins none is a token by itself.
#[derive(Clone, Copy, PartialEq, Eq)]
pub enum WordStart {
    AnyLetter,
    LowerCase,
}

// Does this byte begin a word?
fn begins_word(words: WordStart, byte: u8) -> bool
    ensures { result ≡ begins_word words byte }
{
    match words {
        WordStart::AnyLetter => is_letter(byte),
        WordStart::LowerCase => is_lower(byte),
    }
}

/// A token with the place of its first byte and the place behind its last one.
#[derive(Clone, Copy, PartialEq, Eq)]
pub struct Placed {
    pub token: Token,
    pub start: usize,
    pub end: usize,
}

// The longest sign at the front of a text, with its length; `rest` is what stands behind the first byte.
#[tactic(auto, unfolding(crate::specs::Tokens::longest_sign, crate::specs::Tokens::signs))]
fn front_sign(first: u8, rest: &[u8]) -> Option<(Token, usize)>
    ensures { result ≡ longest_sign signs (first ∷ rest.now) }
{
    match first {
        b'!' | b'~' => Some((Token::Not, 1)),
        b'&' if rest.starts_with(b"&") => Some((Token::Operator(Operator::And), 2)),
        b'&' => Some((Token::Operator(Operator::And), 1)),
        b'/' if rest.starts_with(b"\\") => Some((Token::Operator(Operator::And), 2)),
        b'|' if rest.starts_with(b"|") => Some((Token::Operator(Operator::Or), 2)),
        b'|' => Some((Token::Operator(Operator::Or), 1)),
        b'\\' if rest.starts_with(b"/") => Some((Token::Operator(Operator::Or), 2)),
        b'-' if rest.starts_with(b">") => Some((Token::Operator(Operator::Implies), 2)),
        b'=' if rest.starts_with(b"=>") => Some((Token::Operator(Operator::Implies), 3)),
        b'=' if rest.starts_with(b">") => Some((Token::Operator(Operator::Implies), 2)),
        b'<' if rest.starts_with(b"==>") => Some((Token::Operator(Operator::Iff), 4)),
        b'<' if rest.starts_with(b"=>") || rest.starts_with(b"->") => Some((
            Token::Operator(Operator::Iff),
            3,
        )),
        _ => None,
    }
}

// How many blanks stand at the front.
fn blank_length(text: &[u8]) -> usize
    ensures { result ≡ length (take_while is_blank text.now) }
{
    text.iter().take_while(|byte| is_blank(**byte)).count()
}

// How many bytes at the front may stand in a word.
fn word_length(text: &[u8]) -> usize
    ensures { result ≡ length (take_while is_word_byte text.now) }
{
    text.iter().take_while(|byte| is_word_byte(**byte)).count()
}

// The longest token at the front of a text whose first byte is no blank, with its length.
#[tactic(auto, unfolding(crate::specs::Tokens::front_token))]
fn front_token(first: u8, rest: &[u8], words: WordStart) -> (Token, usize)
    ensures { result ≡ front_token words first rest.now }
{
    if begins_word(words, first) {
        return (Token::Word, 1 + word_length(rest));
    }
    front_sign(first, rest).unwrap_or((Token::Byte(first), 1))
}

/// The first token of the text at or behind the byte `from`, or `None` where only blanks are left.
///
/// `from` is an offset in bytes, at most the text's length. To read a whole text, begin at 0 and go on at the
/// `end` of each token. The longest token is taken, so a place within a token may begin another one.
/// No memory is taken. Cost: linear in the bytes from `from` to the token's end.
///
/// In `p <-> _q` the tokens are a word from 0 to 1, an `Iff` from 2 to 5, the byte `_` and a word from 7 to 8.
pub fn next_token(text: &[u8], words: WordStart, from: usize) -> Option<Placed>
    requires { from ≤ length text.now }
    ensures tokens { MatchOption result
        (tokens_from words text.now from ≡ [])
        (λ placed. tokens_from words text.now from ≡ placed ∷ tokens_from words text.now placed.end) }
    ensures place { IfSome result (λ placed.
        (from ≤ placed.start) × (placed.start < placed.end) × (placed.end ≤ length text.now)) }
{
    let start = from + blank_length(&text[from..]);
    if start == text.len() {
        return None;
    }
    let (token, length) = front_token(text[start], &text[start + 1..], words);
    Some(Placed {
        token,
        start,
        end: start + length,
    })
}
