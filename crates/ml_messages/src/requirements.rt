// Where files of requirements are at fault.

use crate::formulas::formula_fault;
use crate::grammar::Grammar;
use crate::rules::of_requirements;
use crate::shown::{last_line, line_of, shown};
use ml_front::Logic;
use ml_lines::split_line;
use ml_spec::{behind_colon, item_kind_named, next_item, split_name, split_word, uncommented};
use std::alloc::{AllocError, Global};

/// The last rule of formulas.
const LAST_OF_FORMULAS: u32 = 6;

/// The rule of the first item.
const FIRST_ITEM: u32 = 61;

/// The last rule of what stands in front of a formula.
const LAST_OF_HEADS: u32 = 64;

/// The rules of names, values and propositions that are or aren't declared.
const NAME_TAKEN: u32 = 65;

const UNDECLARED: u32 = 68;

const DEFINED_LATE: u32 = 69;

/// Why a file of requirements is refused by this rule at this line and column.
pub(crate) fn requirements_fault(
    alloc: Global,
    input: &[u8],
    line: usize,
    column: usize,
    rule: u32,
) -> Result<String, AllocError> {
    let cause = requirements_cause(alloc, input, line, column, rule)?;
    format!(in alloc; "line {line}, column {column}: {cause}")
}

fn requirements_cause(
    alloc: Global,
    input: &[u8],
    line: usize,
    column: usize,
    rule: u32,
) -> Result<String, AllocError> {
    if rule > LAST_OF_HEADS {
        return name_cause(alloc, input, line, column, rule);
    }
    let text = uncommented(alloc, input).map_err(|_| AllocError)?;
    if let Some(indented) = indented_item(&text, line, rule) {
        return format!(in alloc;
            "an item begins in column 1; line {indented} begins with a blank, so it continues the item before it"
        );
    }
    if rule <= LAST_OF_FORMULAS {
        if let Some(place) = place_in_formula(&text, line, column) {
            let grammar = Grammar::of_files(place.logic);
            return formula_fault(alloc, grammar, place.formula, rule, place.at);
        }
    }
    String::from_str(alloc, of_requirements(rule))
}

// The cause that a name is: of a rule on what is declared, or on how many items there are, which names none.
fn name_cause(
    alloc: Global,
    input: &[u8],
    line: usize,
    column: usize,
    rule: u32,
) -> Result<String, AllocError> {
    let cause = of_requirements(rule);
    let is_of_name = matches!(rule, NAME_TAKEN | UNDECLARED | DEFINED_LATE);
    match name_at(input, line, column) {
        Some(name) if is_of_name => {
            let name = shown(alloc, name)?;
            format!(in alloc; "{name} {cause}")
        }
        _ => String::from_str(alloc, cause),
    }
}

// the word that begins in this column
fn name_at(input: &[u8], line: usize, column: usize) -> Option<&[u8]> {
    let line = line_of(input, line).or(last_line(input, line))?;
    let rest = line.get(column.checked_sub(1)?..)?;
    let (name, _) = split_name(rest);
    if name.is_empty() { None } else { Some(name) }
}

// The line that looks like an item, but for the blanks in front of it: that of the fault, or the one behind it, where the first
// item is at fault, which begins with `logic`.
fn indented_item(text: &[u8], line: usize, rule: u32) -> Option<usize> {
    if looks_like_item(text, line) {
        return Some(line);
    }
    let next = line.checked_add(1)?;
    if rule == FIRST_ITEM && looks_like_item(text, next) {
        return Some(next);
    }
    None
}

// Does the line begin with blanks, and then with a kind, a name and a colon, with `signals`, or with `logic` and the word of a
// logic?
fn looks_like_item(text: &[u8], line: usize) -> bool {
    let Some(line) = line_of(text, line).or(last_line(text, line)) else {
        return false;
    };
    let item = line.trim_ascii();
    if line.len() == item.len() || line.starts_with(item) {
        return false;
    }
    let (word, behind_word) = split_word(item);
    if word == b"logic".as_slice() {
        return Logic::named(behind_word).is_some();
    }
    let (_, behind_name) = split_name(behind_word);
    match item_kind_named(word) {
        Some(kind) => !kind.takes_name() || behind_colon(behind_name).is_some(),
        None => false,
    }
}

/// A byte of the formula of an item.
#[derive(Clone, Copy)]
struct Place<'a> {
    logic: Logic,
    formula: &'a [u8],
    at: usize,
}

fn place_in_formula(text: &[u8], line: usize, column: usize) -> Option<Place<'_>> {
    let (first, _) = next_item(text, 0)?;
    let (_, word) = split_word(first.bytes);
    let logic = Logic::named(word)?;
    let (item, rest) = item_before(text, line)?;
    let (item_text, _) = next_item(item, 0)?;
    let (_, behind_word) = split_word(item_text.bytes);
    let (_, behind_name) = split_name(behind_word);
    let formula = behind_colon(behind_name)?;
    let before = item.len().checked_sub(rest.len())?.checked_add(column)?;
    let front = item_text.bytes.len().checked_sub(formula.len())?;
    let at = before.checked_sub(front)?.checked_sub(1)?;
    Some(Place { logic, formula, at })
}

// the text from the last line up to this one that begins with no blank, and the text from this line on
fn item_before(text: &[u8], line: usize) -> Option<(&[u8], &[u8])> {
    let (mut item, mut rest) = (text, text);
    for _ in 1..line {
        (_, rest) = split_line(rest)?;
        if begins_item(rest) {
            item = rest;
        }
    }
    Some((item, rest))
}

fn begins_item(text: &[u8]) -> bool {
    match text.first() {
        Some(first) => !matches!(*first, b' ' | b'\t' | b'\r' | b'\n'),
        None => false,
    }
}
