// Spellings of other tools, told where they are met.

use crate::grammar::Grammar;
use ml_front::Logic;

const BOUNDS: &str =
    "operators have bounds in files of requirements alone: write `X X p` for `X[2] p` (docs/FORMULAS.md)";

const NO_BOUNDS: &str =
    "only `X`, `F` and `G` have bounds, and those of `F` and `G` are two: `F[0:2] p` (docs/REQUIREMENTS.md)";

const ORDER: &str = "the second number is at least the first, and each has one to three digits";

const NUMBERS: &str =
    "there are no numbers to compare: take a proposition like `mode_3` for `mode = 3` (docs/FORMULAS.md)";

/// What is told of a variable that may be meant as a proposition.
pub(crate) const LOWER_CASE: &str =
    "a proposition begins with a lower-case letter (docs/FORMULAS.md)";

/// What is told where the parser expects no such text behind the front, if it looks like a spelling of another tool. Whether a
/// proposition may follow is known.
pub(crate) fn hint(
    grammar: Grammar,
    front: &[u8],
    rest: &[u8],
    may_be_proposition: bool,
) -> Option<&'static str> {
    let is_of_paths = matches!(grammar.logic, Logic::Ctl | Logic::Ltl | Logic::Word);
    if grammar.has_bounds() {
        if let Some(note) = of_bounds(front, rest) {
            return Some(note);
        }
    } else if is_of_paths && rest.starts_with(b"[") && ends_with_operator(front) {
        return Some(BOUNDS);
    }
    if is_comparison(rest, is_of_paths) {
        return Some(NUMBERS);
    }
    if may_be_proposition && is_upper_case(rest) {
        return Some(LOWER_CASE);
    }
    None
}

// where operators may have bounds
fn of_bounds(front: &[u8], rest: &[u8]) -> Option<&'static str> {
    if rest.starts_with(b"[") && ends_with_operator(front) {
        return Some(NO_BOUNDS);
    }
    let is_number = rest.first().is_some_and(|first| first.is_ascii_digit());
    let is_in_bound = matches!(
        front.trim_ascii_end().last(),
        Some(b'0'..=b'9' | b':' | b',')
    );
    if is_number && is_in_bound {
        return Some(ORDER);
    }
    None
}

fn ends_with_operator(front: &[u8]) -> bool {
    match front.trim_ascii_end().last() {
        Some(last) => matches!(*last, b'X' | b'F' | b'G' | b'U' | b'R' | b'W'),
        None => false,
    }
}

// in the other logics `<` and `>` stand around actions
fn is_comparison(rest: &[u8], is_of_paths: bool) -> bool {
    match rest.first() {
        Some(b'=') => true,
        Some(b'!') => rest.starts_with(b"!="),
        Some(b'<' | b'>') => is_of_paths,
        _ => false,
    }
}

// a letter that is an operator of no logic of paths, or a longer word
fn is_upper_case(rest: &[u8]) -> bool {
    match rest.first() {
        Some(b'X' | b'F' | b'G' | b'U' | b'R' | b'W' | b'E' | b'A') => is_capitalised(rest),
        Some(first) => first.is_ascii_uppercase(),
        None => false,
    }
}

/// Does a word of more than one letter begin here, with an upper-case letter?
pub(crate) fn is_capitalised(rest: &[u8]) -> bool {
    match rest {
        [first, second, ..] => {
            first.is_ascii_uppercase() && (second.is_ascii_alphanumeric() || *second == b'_')
        }
        _ => false,
    }
}
