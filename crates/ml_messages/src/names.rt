// Names in the formulas of tasks.

use crate::shown::{line_of, token};
use ml_lines::split_word;

/// The first proposition of a task's formula that is neither in the line of the inputs nor in that of the outputs, which come
/// before the formula's line.
pub(crate) fn unknown_name<'a>(input: &[u8], line: usize, formula: &'a [u8]) -> Option<&'a [u8]> {
    let inputs = line_of(input, line.checked_sub(2)?)?;
    let outputs = line_of(input, line.checked_sub(1)?)?;
    let (_, behind) = split_word(formula);
    let mut rest = behind?;
    for _ in 0..formula.len() {
        let found = token(rest, true);
        if is_proposition(found) && !has_word(inputs, found) && !has_word(outputs, found) {
            return Some(found);
        }
        rest = rest.get(found.len().max(1)..)?;
    }
    None
}

fn is_proposition(token: &[u8]) -> bool {
    match token.first() {
        Some(first) => first.is_ascii_lowercase() && !is_constant(token),
        None => false,
    }
}

fn is_constant(token: &[u8]) -> bool {
    let constants: [&[u8]; 4] = [b"tt", b"ff", b"true", b"false"];
    constants.iter().any(|constant| *constant == token)
}

// is this one of the words of the line, behind the first?
fn has_word(line: &[u8], word: &[u8]) -> bool {
    let (_, mut rest) = split_word(line);
    for _ in 0..line.len() {
        let Some(words) = rest else {
            return false;
        };
        let (found, more) = split_word(words);
        if found == word {
            return true;
        }
        rest = more;
    }
    false
}
