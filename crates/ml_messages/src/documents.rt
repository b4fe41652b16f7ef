// Where documents and tasks are at fault, and of which formula they speak.

use crate::formulas::{formula_fault, refusal_of};
use crate::grammar::Grammar;
use crate::names::unknown_name;
use crate::rules::{Shape, is_of_task, of_acceptance, of_document};
use crate::shown::{behind, cut, last_line, line_of, shown};
use ml_front::Logic;
use std::alloc::{AllocError, Global};

/// How many bytes of a formula are shown at most.
const LONGEST_FORMULA: usize = 200;

/// Why a document or a task is refused at this line.
pub(crate) fn document_fault(
    alloc: Global,
    shape: Shape,
    input: &[u8],
    line: usize,
    rule: u32,
) -> Result<String, AllocError> {
    let Some(text) = line_read(shape, input, line) else {
        let cause = of_document(shape, kind_of_line(shape, line), rule);
        return format!(in alloc; "line {line} is missing, or has no line end: {cause}");
    };
    if matches!(rule, 2 | 45) {
        if let Some(formula) = behind(text, b"formula ") {
            return formula_line_fault(alloc, logic_of(shape, input), formula, line);
        }
    }
    if rule == 46 {
        if let Some(name) = unknown_name(input, line, text) {
            return unknown_fault(alloc, line, name);
        }
    }
    let cause = of_document(shape, kind_of_line(shape, line), rule);
    if text.is_empty() {
        return format!(in alloc; "line {line} is empty: {cause}");
    }
    let found = shown(alloc, text)?;
    format!(in alloc; "line {line}: {found}: {cause}")
}

// the last line of a task may be without its end
fn line_read(shape: Shape, input: &[u8], line: usize) -> Option<&[u8]> {
    match shape {
        Shape::Task => line_of(input, line).or(last_line(input, line)),
        Shape::Model
        | Shape::Refutation
        | Shape::Undecided
        | Shape::UndecidedTask
        | Shape::Machine
        | Shape::Answers => line_of(input, line),
    }
}

fn unknown_fault(alloc: Global, line: usize, name: &[u8]) -> Result<String, AllocError> {
    let name = shown(alloc, name)?;
    format!(in alloc;
        "line {line}: the formula has the proposition {name}, which is neither an input nor an output"
    )
}

// the three lines of a task come behind two others in a document
fn kind_of_line(shape: Shape, line: usize) -> usize {
    if is_of_task(shape) && line > 2 {
        line.saturating_sub(2)
    } else {
        line
    }
}

fn logic_of(shape: Shape, input: &[u8]) -> Logic {
    match shape {
        Shape::Task | Shape::Machine | Shape::UndecidedTask => Logic::Ltl,
        Shape::Model | Shape::Refutation | Shape::Undecided | Shape::Answers => {
            told_logic(input).unwrap_or(Logic::Mu)
        }
    }
}

fn told_logic(input: &[u8]) -> Option<Logic> {
    Logic::named(behind(line_of(input, 3)?, b"logic ")?)
}

// the formula stands behind 8 bytes of its line
fn formula_line_fault(
    alloc: Global,
    logic: Logic,
    formula: &[u8],
    line: usize,
) -> Result<String, AllocError> {
    let Some((rule, at)) = refusal_of(alloc, logic, formula)? else {
        return format!(in alloc; "line {line}: the formula is refused");
    };
    let cause = formula_fault(alloc, Grammar::of_commands(logic), formula, rule, at)?;
    let column = at.saturating_add(9);
    format!(in alloc; "line {line}, column {column}: {cause}")
}

/// Why a refutation is rejected at this line.
pub(crate) fn rejection(
    alloc: Global,
    input: &[u8],
    line: usize,
    rule: u32,
) -> Result<String, AllocError> {
    let cause = of_acceptance(rule);
    match line_of(input, line) {
        Some(text) => {
            let found = shown(alloc, text)?;
            format!(in alloc; "line {line}: {found}: {cause}")
        }
        None => format!(in alloc; "line {line}: {cause}"),
    }
}

/// Of which problem the document speaks that was checked.
pub(crate) fn checked_problem(
    alloc: Global,
    finding: &str,
    input: &[u8],
) -> Result<Option<String>, AllocError> {
    let (Some(logic), Some(sense), Some(formula)) = (
        line_of(input, 3).and_then(|line| behind(line, b"logic ")),
        line_of(input, 4),
        line_of(input, 5).and_then(|line| behind(line, b"formula ")),
    ) else {
        return Ok(None);
    };
    let logic = String::from_utf8_lossy(alloc, logic)?;
    let formula = cut(alloc, formula, LONGEST_FORMULA)?;
    let negation = if sense == b"sense negated".as_slice() {
        "the negation of "
    } else {
        ""
    };
    Ok(Some(format!(in alloc; "{finding}: {negation}{formula}, logic {logic}")?))
}
