// Why the text of a formula is refused.

use crate::expected::{expected, may_be_proposition};
use crate::grammar::Grammar;
use crate::hints::{LOWER_CASE, hint, is_capitalised};
use crate::shown::{shown, token};
use ml_base::ParseRefusal;
use ml_front::Logic;
use std::alloc::{AllocError, Global};

/// Past so many bytes it isn't told what may follow.
const LONGEST_FRONT: usize = 20_000;

/// Why the text is refused by this rule at this byte, without the place.
pub(crate) fn formula_fault(
    alloc: Global,
    grammar: Grammar,
    text: &[u8],
    rule: u32,
    at: usize,
) -> Result<String, AllocError> {
    let (front, rest) = match text.split_at_checked(at) {
        Some(parts) => parts,
        None => (text, text.get(text.len()..).unwrap_or(text)),
    };
    let found = token(
        rest,
        matches!(grammar.logic, Logic::Ctl | Logic::Ltl | Logic::Word),
    );
    let name = shown(alloc, found)?;
    match rule {
        1 => syntax_fault(alloc, grammar, front, rest, found),
        2 => {
            let cause = format!(in alloc; "the variable {name} has no `mu` or `nu` around it")?;
            let note = if is_capitalised(rest) { LOWER_CASE } else { "" };
            with_more(alloc, cause, note)
        }
        3 => format!(in alloc;
            "between the variable {name} and its `mu` or `nu` there is a `<->`, or an odd number of negations (the left side of `->` counts as one)"
        ),
        4 => String::from_str(
            alloc,
            "here the formula passes 1,000 occurrences of operators and names (`<->` counts as three)",
        ),
        5 => String::from_str(alloc, "here more than 1,000 parentheses are open"),
        _ => String::from_str(alloc, "this name has more than 64 bytes"),
    }
}

fn syntax_fault(
    alloc: Global,
    grammar: Grammar,
    front: &[u8],
    rest: &[u8],
    found: &[u8],
) -> Result<String, AllocError> {
    let cause = if found.is_empty() {
        String::from_str(alloc, "the formula ends too soon")?
    } else {
        let name = shown(alloc, found)?;
        format!(in alloc; "{name} isn't expected here")?
    };
    if front.len() > LONGEST_FRONT {
        return Ok(cause);
    }
    let list = expected(alloc, grammar, front, found)?;
    let note = hint(
        grammar,
        front,
        rest,
        may_be_proposition(alloc, grammar, front)?,
    );
    let cause = if list.is_empty() {
        cause
    } else {
        format!(in alloc; "{cause}; expected: {list}")?
    };
    with_more(alloc, cause, note.unwrap_or(""))
}

// the sentence with another one behind it, if there is one
fn with_more(alloc: Global, sentence: String, more: &str) -> Result<String, AllocError> {
    if more.is_empty() {
        return Ok(sentence);
    }
    format!(in alloc; "{sentence}; {more}")
}

/// The rule and the byte by which the parser refuses the text, if it does.
pub(crate) fn refusal_of(
    alloc: Global,
    logic: Logic,
    text: &[u8],
) -> Result<Option<(u32, usize)>, AllocError> {
    let Some(refusal) = Grammar::of_commands(logic).refusal(alloc, text) else {
        return Ok(None);
    };
    Ok(Some(match refusal {
        ParseRefusal::Syntax { at } => (1, at as usize),
        ParseRefusal::Unbound { at } => (2, at as usize),
        ParseRefusal::NotPositive { at } => (3, at as usize),
        ParseRefusal::TooMany { at } => (4, at as usize),
        ParseRefusal::TooNested { at } => (5, at as usize),
        ParseRefusal::NameTooLong { at } => (6, at as usize),
        ParseRefusal::NoMemory => return Err(AllocError),
    }))
}
