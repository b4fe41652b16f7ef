// The sentence about an answer.

use crate::answers::{open_answer, wrong_answer};
use crate::documents::{checked_problem, document_fault, rejection};
use crate::formulas::formula_fault;
use crate::grammar::Grammar;
use crate::requirements::requirements_fault;
use crate::rules::{Shape, of_automaton, of_game, of_solution};
use crate::shown::{shown, token};
use ml_driver::{Command, Said, TextKind};
use ml_front::{Answer, Logic};
use ml_show_text::{Kind, ReadAs, read_as};
use ml_spec::line_and_column;
use std::alloc::{AllocError, Global};

/// The rule that a file of requirements breaks that has no answers behind it.
const NO_ANSWERS: u32 = 71;

/// What people are told of the answer to a command on this input, in one line without its end: where the input is at fault
/// and why, or which problem a document was checked for; `None` where nothing is to be told.
///
/// # Errors
/// `AllocError` alone.
///
/// Cost: linear in the input, and a few dozen parses of a formula's text up to the byte at which it is refused.
pub fn explanation(
    alloc: Global,
    command: Command,
    said: Said,
    input: &[u8],
) -> Result<Option<String>, AllocError> {
    Ok(Some(match said {
        Said::RefusedText { kind, rule, at } => {
            text_fault(alloc, command, kind, input, rule, at as usize)?
        }
        Said::RefusedDocument(fault) => {
            let line = fault.line as usize;
            document_fault(alloc, shape_of(command, input), input, line, fault.rule)?
        }
        Said::RefusedRequirements { line, column, rule } => {
            requirements_fault(alloc, input, line as usize, column as usize, rule.number())?
        }
        Said::NoAnswers { line, column } => {
            requirements_fault(alloc, input, line as usize, column as usize, NO_ANSWERS)?
        }
        Said::WrongLine(line) => wrong_answer(alloc, input, line as usize)?,
        Said::OpenLine(line) => open_answer(alloc, input, line as usize)?,
        Said::RejectedLine { line, rule } => rejection(alloc, input, line as usize, rule)?,
        Said::RejectedVertex { rule, .. } => String::from_str(alloc, of_solution(rule))?,
        Said::TooLong => String::from_str(alloc, "the input is longer than this command reads")?,
        Said::NotTotal(_) => String::from_str(
            alloc,
            "in CTL* and LTL each state needs an edge with the action `_`",
        )?,
        Said::NotAWord(_) => String::from_str(
            alloc,
            "on words each state needs exactly one edge with the action `_`",
        )?,
        Said::Holds | Said::Fails | Said::Accepted => {
            return match finding_of(command, said) {
                Some(finding) => checked_problem(alloc, finding, input),
                None => Ok(None),
            };
        }
        Said::NoCommand | Said::NoPath | Said::Right | Said::Undecided { .. } => return Ok(None),
    }))
}

fn text_fault(
    alloc: Global,
    command: Command,
    kind: TextKind,
    input: &[u8],
    rule: u32,
    at: usize,
) -> Result<String, AllocError> {
    match kind {
        TextKind::Formula => {
            let grammar = Grammar::of_commands(logic_of(command));
            let cause = formula_fault(alloc, grammar, input, rule, at)?;
            placed(alloc, input, at, &cause)
        }
        TextKind::Game => token_fault(alloc, input, at, of_game(rule)),
        TextKind::Automaton => token_fault(alloc, input, at, of_automaton(rule)),
    }
}

// that of the formula that the command reads; `automaton` reads one of LTL
fn logic_of(command: Command) -> Logic {
    match command {
        Command::Decide { logic, .. }
        | Command::Valid { logic, .. }
        | Command::Find { logic, .. }
        | Command::Prove { logic, .. } => logic,
        _ => Logic::Ltl,
    }
}

// what the command reads whose document is refused
fn shape_of(command: Command, input: &[u8]) -> Shape {
    match command {
        Command::Show => shape_shown(read_as(input)),
        Command::CheckRefutation | Command::Migrate => Shape::Refutation,
        Command::Realize { .. } | Command::Make { .. } => Shape::Task,
        Command::CheckMachine => Shape::Machine,
        Command::CheckAnswers => Shape::Answers,
        _ => Shape::Model,
    }
}

fn shape_shown(read_as: ReadAs) -> Shape {
    match read_as {
        ReadAs::Answers => Shape::Answers,
        ReadAs::Document(Kind::Realizability) => Shape::Machine,
        ReadAs::Document(Kind::UndecidedTask) => Shape::UndecidedTask,
        ReadAs::Document(Kind::Decision(Answer::Satisfiable)) => Shape::Model,
        ReadAs::Document(Kind::Decision(Answer::Unsatisfiable)) => Shape::Refutation,
        ReadAs::Document(Kind::Decision(Answer::Undecided)) => Shape::Undecided,
    }
}

// what is said of the problem of a document that was checked
fn finding_of(command: Command, said: Said) -> Option<&'static str> {
    match (command, said) {
        (Command::CheckRefutation, Said::Accepted) => Some("refuted"),
        (Command::CheckModel, Said::Holds) => Some("holds"),
        (Command::CheckModel, Said::Fails) => Some("fails"),
        _ => None,
    }
}

fn placed(alloc: Global, input: &[u8], at: usize, cause: &str) -> Result<String, AllocError> {
    let (line, column) = line_and_column(input, at);
    format!(in alloc; "line {line}, column {column}: {cause}")
}

// of a game or an automaton
fn token_fault(alloc: Global, input: &[u8], at: usize, cause: &str) -> Result<String, AllocError> {
    let found = match input.get(at..) {
        Some(rest) => token(rest, false),
        None => b"",
    };
    if found.is_empty() {
        return placed(alloc, input, at, "the text ends too soon");
    }
    let found = shown(alloc, found)?;
    let cause = format!(in alloc; "{found} {cause}")?;
    placed(alloc, input, at, &cause)
}
