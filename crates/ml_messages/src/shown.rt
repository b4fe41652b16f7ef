// Parts of inputs, shown.

use ml_lines::split_line;
use std::alloc::{AllocError, Global};

/// How many bytes of an input are shown at most.
const LONGEST_SHOWN: usize = 60;

/// The bytes between backquotes, or as numbers where they aren't printable.
pub(crate) fn shown(alloc: Global, bytes: &[u8]) -> Result<String, AllocError> {
    match bytes {
        [byte] if !is_printable(*byte) => return format!(in alloc; "the byte {byte}"),
        _ => {}
    }
    let text = cut(alloc, bytes, LONGEST_SHOWN)?;
    format!(in alloc; "`{text}`")
}

/// The bytes as a text, up to so many of them, with ` ..` behind it where there are more.
pub(crate) fn cut(alloc: Global, bytes: &[u8], most: usize) -> Result<String, AllocError> {
    let front = match bytes.get(..most) {
        Some(front) => front,
        None => bytes,
    };
    let more = if front.len() < bytes.len() { " .." } else { "" };
    let escaped = escaped(alloc, front)?;
    let text = String::from_utf8_lossy(alloc, &escaped)?;
    format!(in alloc; "{text}{more}")
}

// The bytes with those that control a terminal spelt out, and a byte order mark.
fn escaped(alloc: Global, bytes: &[u8]) -> Result<Vec<u8>, AllocError> {
    let mut text = Vec::new(alloc);
    let rest = match bytes.strip_prefix(b"\xef\xbb\xbf") {
        Some(rest) => {
            text.extend_from_slice(b"(byte order mark)")?;
            rest
        }
        None => bytes,
    };
    for byte in rest {
        add_escaped(alloc, &mut text, *byte)?;
    }
    Ok(text)
}

fn add_escaped(alloc: Global, text: &mut Vec<u8>, byte: u8) -> Result<(), AllocError> {
    match byte {
        b'\r' => text.extend_from_slice(b"\\r")?,
        b'\t' => text.extend_from_slice(b"\\t")?,
        0..=31 | 127 => {
            let code = format!(in alloc; "\\x{byte:02x}")?;
            text.extend_from_slice(code.as_bytes())?;
        }
        _ => text.push(byte)?,
    }
    Ok(())
}

fn is_printable(byte: u8) -> bool {
    matches!(byte, b' '..=b'~')
}

/// The line with this number, counted from 1, without its end; `None` where the text has no such line or it has no end.
pub(crate) fn line_of(text: &[u8], number: usize) -> Option<&[u8]> {
    let mut rest = text;
    for _ in 1..number {
        (_, rest) = split_line(rest)?;
    }
    let (line, _) = split_line(rest)?;
    Some(line)
}

/// The line with this number, if it is the last one and has no end.
pub(crate) fn last_line(text: &[u8], number: usize) -> Option<&[u8]> {
    let mut rest = text;
    for _ in 1..number {
        (_, rest) = split_line(rest)?;
    }
    match split_line(rest) {
        None if !rest.is_empty() => Some(rest),
        _ => None,
    }
}

/// What stands behind this front of a line.
pub(crate) fn behind<'a>(line: &'a [u8], front: &[u8]) -> Option<&'a [u8]> {
    line.strip_prefix(front)
}

/// The token of a formula, a game or an automaton that begins at the front of the text: a run of letters, digits and `_`, or of
/// signs.
pub(crate) fn token(text: &[u8], has_letters_alone: bool) -> &[u8] {
    let Some(first) = text.first() else {
        return text;
    };
    let length = if is_in_word(*first) {
        if has_letters_alone && matches!(*first, b'A'..=b'Z') {
            1
        } else {
            text.iter().take_while(|byte| is_in_word(**byte)).count()
        }
    } else {
        sign_length(text)
    };
    match text.get(..length) {
        Some(token) => token,
        None => text,
    }
}

fn is_in_word(byte: u8) -> bool {
    matches!(byte, b'a'..=b'z' | b'A'..=b'Z' | b'0'..=b'9' | b'_')
}

// the signs of more than one byte, the longest ones first
const SIGNS: [&[u8]; 10] = [
    b"<==>", b"==>", b"<=>", b"<->", b"->", b"=>", b"&&", b"||", b"/\\", b"\\/",
];

// of a sign, or of a character that is none
fn sign_length(text: &[u8]) -> usize {
    for sign in SIGNS {
        if text.starts_with(sign) {
            return sign.len();
        }
    }
    let more = match text.split_first() {
        Some((_, rest)) => rest
            .iter()
            .take_while(|byte| matches!(**byte, 128..=191))
            .count(),
        None => 0,
    };
    match text.first() {
        // a character of UTF-8 that isn't one of ASCII
        Some(192..=255) => more.min(3).saturating_add(1),
        _ => 1,
    }
}
