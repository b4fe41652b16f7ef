// Where a text is cut.
ghost use Rattle.std.specs.Prelude.{◌≡◌, ◌+◌, ◌≤◌, ◌++◌, length, position, IfSome};
ghost use Rattle.std.specs.Str.{bytes_eq};
ghost use Rattle.ml_answers.specs.Texts as texts;
ghost use Rattle.ml_lines.specs.Reading as reading;

use memchr::memchr;

/// Where the first LF stands.
pub(crate) fn line_end(text: &[u8]) -> Option<usize>
    ensures { result ≡ position reading.is_line_end text.now }
{
    memchr(b'\n', text)
}

/// Where the first line begins that is this one, without its LF, a byte counted from 0; `None` where the text has no such line
/// with its LF.
///
/// Cost: linear in the bytes up to there.
pub(crate) fn first_line(text: &[u8], line: &[u8]) -> Option<usize>
    ensures found { result ≡ texts.first_line line.now text.now }
    ensures within { IfSome result (λ at. at + length line.now + 1 ≤ length text.now) }
{
    let mut from = 0;
    let mut rest = text;
    loop {
        match line_end(rest) {
            Some(end) => {
                if is_same(&rest[..end], line) {
                    return Some(from);
                }
                from += end + 1;
                rest = &rest[end + 1..];
            }
            None => return None,
        }
    }
}

fn is_same(one: &[u8], other: &[u8]) -> bool
    ensures { result ≡ bytes_eq one.now other.now }
{
    one == other
}

/// A text up to and with its first line `end`, and what stands behind it; all of it where no line is `end`.
///
/// Cost: linear in the bytes of the first part.
pub(crate) fn split_end(text: &[u8]) -> (&[u8], &[u8])
    ensures front { result.0.now ≡ texts.up_to_end text.now }
    ensures both { text.now ≡ result.0.now ++ result.1.now }
{
    match first_line(text, b"end") {
        Some(at) => text.split_at(at + 4),
        None => text.split_at(text.len()),
    }
}

/// How many lines the text has.
pub(crate) fn line_count(text: &[u8]) -> u64
    ensures { result ≡ texts.line_count text.now }
{
    let mut count = 0;
    for byte in text {
        if *byte == b'\n' {
            count += 1;
        }
    }
    count
}
