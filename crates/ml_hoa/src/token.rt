// The tokens of a text, and the scanner.
ghost use Rattle.std.specs.Prelude.{◌≡◌, ◌<◌, ◌≤◌, ◌+◌, length, get_or, drop, None, true, false, IfSome, not, ◌&&◌, ◌==◌};
ghost use Rattle.std.specs.List.{take_while};
ghost use Rattle.ml_hoa.specs.Tokens as tokens;
ghost use Rattle.ml_hoa.specs.Tokens.{byte_mark, closing_comment, closing_quote, commented, is_word_part, known_name, marked, name_mark, number_piece, other_name, quoted, word_mark, worded};
ghost use Rattle.ml_hoa.specs.private.Views.{piece_of, piece_at};
ghost use Rattle.ml_text.specs.Bytes.{is_digit};

use ml_text::{is_blank, is_digit, is_letter, is_lower, is_word_byte};

/// What a token is that is neither a number nor a string.
#[derive(Clone, Copy, Debug, PartialEq, Eq)]
pub enum Mark {
    /// The words `v1`, `Inf`, `t`, `f`, and any other one.
    Version,
    Inf,
    Truth,
    Falsity,
    Word,
    /// The header names `HOA:`, `States:`, `Start:`, `AP:`, `Acceptance:`, `State:`; any other one that begins with a
    /// lower-case letter; and any other one.
    Hoa,
    States,
    Start,
    Props,
    Acceptance,
    State,
    Ignored,
    Foreign,
    /// `--BODY--` and `--END--`.
    Body,
    End,
    LeftBrace,
    RightBrace,
    LeftBracket,
    RightBracket,
    LeftParen,
    RightParen,
    Not,
    And,
    Or,
    /// A byte that begins no token.
    Stray,
    /// A comment that is not closed, with all that follows.
    Unclosed,
}

/// A token.
#[derive(Clone, Copy)]
pub(crate) enum Token<'t> {
    /// The digits of a number, and the byte at which it begins.
    Number(&'t [u8], u64),
    /// The bytes between the quotes of a string.
    Text(&'t [u8]),
    Plain(Mark),
}

/// What stands at a place of a text: a token, or a blank or a comment; and its length.
#[derive(Clone, Copy)]
pub(crate) struct Piece<'t> {
    pub token: Option<Token<'t>>,
    pub size: usize,
}

fn gap<'t>(size: usize) -> Piece<'t>
    ensures { piece_of result ≡ tokens.gap size }
{
    Piece { token: None, size }
}

fn plain<'t>(mark: Mark, size: usize) -> Piece<'t>
    ensures { piece_of result ≡ tokens.piece (tokens.Plain mark) size }
{
    Piece {
        token: Some(Token::Plain(mark)),
        size,
    }
}

// may this byte stand in a word behind its first letter?
fn is_word_part(byte: u8) -> bool
    ensures { result ≡ is_word_part byte }
{
    is_word_byte(byte) || byte == b'-'
}

// how many bytes of a word stand at the front
fn word_length(text: &[u8]) -> usize
    ensures { result ≡ length (take_while is_word_part text.now) }
{
    text.iter().take_while(|byte| is_word_part(**byte)).count()
}

fn digits_length(text: &[u8]) -> usize
    ensures { result ≡ length (take_while is_digit text.now) }
{
    text.iter().take_while(|byte| is_digit(**byte)).count()
}

fn word_mark(word: &[u8]) -> Mark
    ensures { result ≡ word_mark word.now }
{
    match word {
        b"v1" => Mark::Version,
        b"Inf" => Mark::Inf,
        b"t" => Mark::Truth,
        b"f" => Mark::Falsity,
        _ => Mark::Word,
    }
}

fn other_name(name: &[u8]) -> Mark
    ensures { result ≡ other_name name.now }
{
    match name {
        [first, ..] if is_lower(*first) => Mark::Ignored,
        _ => Mark::Foreign,
    }
}

fn known_name(name: &[u8]) -> Option<Mark>
    ensures { result ≡ known_name name.now }
{
    if name == b"HOA".as_slice() {
        Some(Mark::Hoa)
    } else if name == b"States".as_slice() {
        Some(Mark::States)
    } else if name == b"Start".as_slice() {
        Some(Mark::Start)
    } else if name == b"AP".as_slice() {
        Some(Mark::Props)
    } else if name == b"Acceptance".as_slice() {
        Some(Mark::Acceptance)
    } else if name == b"State".as_slice() {
        Some(Mark::State)
    } else {
        None
    }
}

fn name_mark(name: &[u8]) -> Mark
    ensures { result ≡ name_mark name.now }
{
    match known_name(name) {
        Some(mark) => mark,
        None => other_name(name),
    }
}

fn byte_mark(byte: u8) -> Mark
    ensures { result ≡ byte_mark byte }
{
    match byte {
        b'{' => Mark::LeftBrace,
        b'}' => Mark::RightBrace,
        b'[' => Mark::LeftBracket,
        b']' => Mark::RightBracket,
        b'(' => Mark::LeftParen,
        b')' => Mark::RightParen,
        b'!' => Mark::Not,
        b'&' => Mark::And,
        b'|' => Mark::Or,
        _ => Mark::Stray,
    }
}

// is this the `"` that closes a string? Not where a `\` takes it
fn closes(taken: bool, byte: u8) -> bool
    ensures { result ≡ (not taken && (byte == 34)) }
{
    !taken && byte == b'"'
}

// is this a `\` that takes the next byte?
fn takes(taken: bool, byte: u8) -> bool
    ensures { result ≡ (not taken && (byte == 92)) }
{
    !taken && byte == b'\\'
}

// how many bytes stand before the `"` that closes a string, if one does
fn closing_quote(text: &[u8]) -> Option<usize>
    ensures value { result ≡ closing_quote false 0 text.now }
    ensures within { IfSome result (λ n. n < length text.now) }
{
    let mut taken = false;
    for at in 0..text.len() {
        let byte = text[at];
        if closes(taken, byte) {
            return Some(at);
        }
        taken = takes(taken, byte);
    }
    None
}

fn is_pair(pair: (u8, u8), first: u8, second: u8) -> bool
    ensures { result ≡ ((pair.0 == first) && (pair.1 == second)) }
{
    pair.0 == first && pair.1 == second
}

// how many bytes close a comment, if they do
fn closing_comment(text: &[u8]) -> Option<usize>
    ensures value { result ≡ closing_comment 0 0 text.now }
    ensures within { IfSome result (λ n. n ≤ length text.now) }
{
    // how many comments are open inside of this one
    let mut open: usize = 0;
    let mut at = 0;
    while at + 1 < text.len() {
        let pair = (text[at], text[at + 1]);
        if is_pair(pair, b'*', b'/') {
            if open == 0 {
                return Some(at + 2);
            }
            open -= 1;
            at += 2;
            continue;
        }
        if is_pair(pair, b'/', b'*') {
            open += 1;
            at += 2;
            continue;
        }
        at += 1;
    }
    None
}

fn number_piece<'t>(text: &'t [u8], at: u64) -> Piece<'t>
    ensures { piece_of result ≡ number_piece at (take_while is_digit text.now) }
{
    let size = digits_length(text);
    Piece {
        token: Some(Token::Number(&text[..size], at)),
        size,
    }
}

// what begins with a letter
fn worded<'t>(text: &'t [u8]) -> Piece<'t>
    ensures { piece_of result ≡ worded text.now }
{
    let size = word_length(text);
    if text[size..].starts_with(b":") {
        plain(name_mark(&text[..size]), size + 1)
    } else {
        plain(word_mark(&text[..size]), size)
    }
}

// what begins with a `"`, by what stands behind it
fn quoted<'t>(rest: &'t [u8]) -> Piece<'t>
    ensures { piece_of result ≡ quoted rest.now (closing_quote false 0 rest.now) }
{
    match closing_quote(rest) {
        Some(size) => Piece {
            token: Some(Token::Text(&rest[..size])),
            size: size + 2,
        },
        None => plain(Mark::Stray, 1),
    }
}

// what begins with `/*`
fn commented<'t>(text: &'t [u8]) -> Piece<'t>
    requires { 2 ≤ length text.now }
    ensures { piece_of result ≡ commented (length text.now) (closing_comment 0 0 (drop 2 text.now)) }
{
    match closing_comment(&text[2..]) {
        Some(size) => gap(size + 2),
        None => plain(Mark::Unclosed, text.len()),
    }
}

fn marked<'t>(first: u8, text: &'t [u8]) -> Piece<'t>
    ensures { piece_of result ≡ marked first text.now }
{
    if text.starts_with(b"--BODY--") {
        plain(Mark::Body, 8)
    } else if text.starts_with(b"--END--") {
        plain(Mark::End, 7)
    } else {
        plain(byte_mark(first), 1)
    }
}

// the piece that begins at this byte, where `is_open` says that no `"` from here on is closed
pub(crate) fn front_piece<'t>(text: &'t [u8], at: usize, is_open: bool) -> Piece<'t>
    requires within { at < length text.now }
    requires open { is_open ≡ true → get_or text.now at 0 ≡ 34 → closing_quote false 0 (drop (at + 1) text.now) ≡ None }
    ensures { piece_of result ≡ piece_at text.now at }
{
    let rest = &text[at..];
    let first = rest[0];
    if is_blank(first) {
        gap(1)
    } else if is_digit(first) {
        number_piece(rest, at as u64)
    } else if is_letter(first) {
        worded(rest)
    } else if first == b'"' {
        if is_open {
            plain(Mark::Stray, 1)
        } else {
            quoted(&rest[1..])
        }
    } else if rest.starts_with(b"/*") {
        commented(rest)
    } else {
        marked(first, rest)
    }
}
