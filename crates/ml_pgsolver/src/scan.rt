// The tokens of a text, as far as the reader has to know them, and the scanner.
ghost use Rattle.std.specs.Prelude.{◌≡◌, ◌<◌, ◌≤◌, ◌∷◌, [], ◌+◌, length, IfSome, MatchOption};
ghost use Rattle.std.specs.List.{take_while};
ghost use Rattle.ml_text.specs.Bytes.{is_blank, is_digit};
ghost use Rattle.ml_pgsolver.specs.Tokens.{is_inner, quoted, spelling};
ghost use Rattle.ml_pgsolver.specs.Tokens as token;
ghost use Rattle.ml_pgsolver.specs.private.Signs.{sign_of, fitting, owner_named, signs_from, capped_value, token_at};

use crate::limits::GREATEST_NUMBER;
use ml_parity::Player;
use ml_text::{is_blank, is_digit};

// a number of a text
#[derive(Clone, Copy, Debug)]
pub(crate) struct Numeral {
    // None where it is greater than any that may stand in a text
    pub value: Option<u32>,
    // the player that it names where it stands for an owner
    pub owner: Option<Player>,
}

// what a token is to the reader
#[derive(Clone, Copy, Debug)]
pub(crate) enum Sign {
    Number(Numeral),
    Name,
    Parity,
    Comma,
    Semicolon,
    // a byte that begins no token
    Stray,
}

// a sign with the place of its first byte and the place behind its last one
#[derive(Clone, Copy)]
pub(crate) struct PlacedSign {
    pub sign: Sign,
    pub start: usize,
    pub end: usize,
}

// how many blanks stand at the front
fn blank_length(text: &[u8]) -> usize
    ensures { result ≡ length (take_while is_blank text.now) }
{
    text.iter().take_while(|byte| is_blank(**byte)).count()
}

// may this byte stand between the quotes of a name?
fn is_inner(byte: u8) -> bool
    ensures { result ≡ is_inner byte }
{
    byte != b'"' && byte != b'\n'
}

// how many bytes stand between the quotes of a name
fn inner_length(text: &[u8]) -> usize
    ensures { result ≡ length (take_while is_inner text.now) }
{
    text.iter().take_while(|byte| is_inner(**byte)).count()
}

// more than any number that may stand in a text
const CAP: u64 = 4_294_967_295;

// the number that the digits at the front are, or the cap where it is greater, and how many they are
fn digits_value(text: &[u8]) -> (u64, usize)
    ensures value { result.0 ≡ capped_value (take_while is_digit text.now) }
    ensures length { result.1 ≡ length (take_while is_digit text.now) }
{
    let mut value = 0;
    let mut end = 0;
    while end < text.len() {
        let byte = text[end];
        if is_digit(byte) {
            value = (10 * value + u64::from(byte.saturating_sub(b'0'))).min(CAP);
            end += 1;
        } else {
            return (value, end);
        }
    }
    (value, end)
}

fn owner_named(digits: &[u8]) -> Option<Player>
    ensures { result ≡ owner_named digits.now }
{
    match digits {
        [b'0'] => Some(Player::Even),
        [b'1'] => Some(Player::Odd),
        _ => None,
    }
}

// the number, where it may stand in a text
fn fitting(value: u64) -> Option<u32>
    ensures { result ≡ fitting value }
{
    if value <= u64::from(GREATEST_NUMBER) {
        Some(value as u32)
    } else {
        None
    }
}

// the token that begins with a `"`, by what stands behind it, and its length
pub(crate) fn quoted(rest: &[u8]) -> (Sign, usize)
    ensures sign { result.0 ≡ sign_of (quoted rest.now) }
    ensures length { result.1 ≡ length (spelling (quoted rest.now)) }
{
    let inner = inner_length(rest);
    if rest[inner..].starts_with(b"\"") {
        (Sign::Name, inner + 2)
    } else {
        (Sign::Stray, 1)
    }
}

// the number at the front of a text whose first byte is a digit, and its length
fn front_number(text: &[u8]) -> (Sign, usize)
    ensures sign { result.0 ≡ sign_of (token.Number (take_while is_digit text.now)) }
    ensures length { result.1 ≡ length (take_while is_digit text.now) }
{
    let (value, end) = digits_value(text);
    let numeral = Numeral {
        value: fitting(value),
        owner: owner_named(&text[..end]),
    };
    (Sign::Number(numeral), end)
}

// the longest token at the front of a text whose first byte, at `start`, is no blank, with its length
fn front_sign(text: &[u8], start: usize) -> (Sign, usize)
    requires { start < length text.now }
    ensures sign { result.0 ≡ sign_of (token_at text.now start) }
    ensures length { result.1 ≡ length (spelling (token_at text.now start)) }
{
    let text = &text[start..];
    let first = text[0];
    if is_digit(first) {
        return front_number(text);
    }
    match first {
        b'"' => quoted(&text[1..]),
        b',' => (Sign::Comma, 1),
        b';' => (Sign::Semicolon, 1),
        _ if text.starts_with(b"parity") => (Sign::Parity, 6),
        _ => (Sign::Stray, 1),
    }
}

// the first token of the text at or behind the byte `from`, or `None` where only blanks are left
pub(crate) fn next_sign(text: &[u8], from: usize) -> Option<PlacedSign>
    requires { from ≤ length text.now }
    ensures signs { MatchOption result
        (signs_from text.now from ≡ [])
        (λ p. signs_from text.now from ≡ (p.sign, p.start) ∷ signs_from text.now p.end) }
    ensures place { IfSome result (λ p. (from ≤ p.start) × (p.start < p.end) × (p.end ≤ length text.now)) }
{
    let start = from + blank_length(&text[from..]);
    if start == text.len() {
        return None;
    }
    let (sign, length) = front_sign(text, start);
    Some(PlacedSign {
        sign,
        start,
        end: start + length,
    })
}
