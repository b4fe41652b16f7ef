// The words that ask for commands.
//
// `clap` takes the words apart as those of one simple command: three positional words and an option (`taken_apart`). Which of
// these are a command is said by the table in `table.rt`: what stands behind the first word is read from `row` on, a function
// for each number of words. Numbers are read digit by digit, and refused above their limit.
ghost use Rattle.std.specs.Prelude.{◌≡◌, ◌≢◌, ◌≤◌, true, None, Some, [], map, option_map, IfOk, IfSome, MatchOption};
ghost use Rattle.std.specs.String.{string_bytes};
ghost use Rattle.clap.specs.Words.{app_of, found_of, kind_of, rows_of};
ghost use Rattle.ml_gen.specs.FamilyRanges.{is_in_range};
ghost use Rattle.ml_driver.specs.declared.command.TheConstants.{GREATEST_LIMIT};
ghost use Rattle.ml_driver.specs.Verbs.{shape_of};
ghost use Rattle.ml_driver.specs.Words as command_line;
ghost use Rattle.ml_driver.specs.Words.{cli, command_by, faults_of, parts_in, row_of, rows_in};
ghost use Rattle.ml_driver.specs.private.Refused.{is_refusal};
ghost use Rattle.ml_driver.specs.UsualNumbers.{HasUsualNumbers};

use crate::command::{DEFAULT_LIMIT, GREATEST_LIMIT, LONGEST_NUMBER};
use crate::{Command, Engine, Verb};
use clap::error::ErrorKind;
use clap::{Arg, ArgMatches, Error};
use ml_ask_text::Form;
use ml_base::NoMemory;
use ml_front::Logic;
use ml_gen::Family;
use std::alloc::{AllocError, Global};

/// The command that the words are, without the program's name, or `None` where they are none: `clap` takes them apart, and
/// the table says which parts are a command.
///
/// # Errors
/// `NoMemory` alone.
///
/// Cost: linear in the words.
pub fn command_of(alloc: Global, words: &[String]) -> Result<Option<Command>, NoMemory>
    ensures command { IfOk result (λ c. c ≡ command_line.command_of (map string_bytes words.now)) }
    ensures usual { IfOk result (λ c. IfSome c HasUsualNumbers) }
{
    match taken_apart(alloc, words)? {
        Some(matches) => Ok(command_in(&matches)),
        None => Ok(None),
    }
}

// what `clap` finds in the words, or `None` where it refuses them
fn taken_apart<'a>(alloc: Global, words: &'a [String]) -> Result<Option<ArgMatches<'a>>, NoMemory>
    ensures { IfOk result (λ found. MatchOption found
        (faults_of (map string_bytes words.entry.now) ≢ [])
        (λ m. (faults_of (map string_bytes words.entry.now) ≡ [])
        × (rows_of (found_of m) ≡ rows_in (map string_bytes words.entry.now)))) }
{
    let cli = match cli(alloc) {
        Ok(cli) => cli,
        Err(AllocError) => return Err(NoMemory),
    };
    match cli.try_get_matches_from(words) {
        Ok(matches) => Ok(Some(matches)),
        Err(error) => match refused(&error) {
            true => Ok(None),
            false => Err(NoMemory),
        },
    }
}

fn cli<'a>(alloc: Global) -> Result<clap::Command<'a>, AllocError>
    ensures { IfOk result (λ c. app_of c ≡ cli) }
{
    clap::Command::new(alloc, "mlsolver")
        .no_binary_name(true)
        .disable_help_flag(true)
        .arg(Arg::new(alloc, "command").required(true))?
        .arg(Arg::new(alloc, "subject"))?
        .arg(Arg::new(alloc, "count"))?
        .arg(Arg::new(alloc, "limit").long("limit"))
}

// the words are at fault, and memory isn't
fn refused(error: &Error) -> bool
    ensures { result ≡ is_refusal (kind_of error.now) }
{
    !matches!(error.kind(), ErrorKind::OutOfMemory)
}

// ---- the further words

fn command_in(matches: &ArgMatches<'_>) -> Option<Command>
    ensures command { result ≡ command_line.row (parts_in (rows_of (found_of matches.now))) }
    ensures usual { IfSome result HasUsualNumbers }
{
    row(
        matches.get_str("command"),
        matches.get_str("subject"),
        matches.get_str("count"),
        matches.get_str("limit"),
    )
}

fn row(
    command: Option<&str>,
    subject: Option<&str>,
    count: Option<&str>,
    limit: Option<&str>,
) -> Option<Command>
    ensures command { result ≡ row_of (option_map (λ s. s.now) command.entry) (option_map (λ s. s.now) subject.entry)
        (option_map (λ s. s.now) count.entry) (option_map (λ s. s.now) limit.entry) }
    ensures usual { IfSome result HasUsualNumbers }
{
    let verb = Verb::named(command?)?;
    behind(verb, subject, count, limit)
}

// with these words behind the first one
fn behind(
    verb: Verb,
    subject: Option<&str>,
    count: Option<&str>,
    limit: Option<&str>,
) -> Option<Command>
    ensures command { result ≡ command_by (shape_of verb) (option_map (λ s. s.now) subject.entry)
        (option_map (λ s. s.now) count.entry) (option_map (λ s. s.now) limit.entry) }
    ensures usual { IfSome result HasUsualNumbers }
{
    match (subject, count) {
        (None, None) => alone(verb, limit),
        (Some(subject), None) => about(verb, subject, limit),
        (Some(subject), Some(count)) => counted(verb, subject, count, limit),
        (None, Some(_)) => None,
    }
}

// with no word behind the first one
fn alone(verb: Verb, limit: Option<&str>) -> Option<Command>
    ensures command { result ≡ command_by (shape_of verb) None None (option_map (λ s. s.now) limit.entry) }
    ensures usual { IfSome result HasUsualNumbers }
{
    match verb {
        Verb::Ask => {
            let limit = limit_named(limit)?;
            Some(Command::Ask {
                form: Form::Lines,
                limit,
            })
        }
        Verb::Determinise => {
            let limit = limit_named(limit)?;
            Some(Command::Determinise { limit })
        }
        Verb::Automaton => {
            let limit = limit_named(limit)?;
            Some(Command::Automaton { limit })
        }
        Verb::Make => {
            let limit = limit_named(limit)?;
            Some(Command::Make { limit })
        }
        Verb::Realize => {
            let limit = limit_named(limit)?;
            Some(Command::Realize { limit })
        }
        Verb::CheckAnswers => unlimited(Command::CheckAnswers, limit),
        Verb::CheckModel => unlimited(Command::CheckModel, limit),
        Verb::CheckRefutation => unlimited(Command::CheckRefutation, limit),
        Verb::Path => unlimited(Command::Path, limit),
        Verb::Show => unlimited(Command::Show, limit),
        Verb::Migrate => unlimited(Command::Migrate, limit),
        Verb::Quotient => unlimited(Command::Quotient, limit),
        Verb::CheckGame => unlimited(Command::CheckGame, limit),
        Verb::CheckMachine => unlimited(Command::CheckMachine, limit),
        Verb::Find
        | Verb::Prove
        | Verb::Decide
        | Verb::Valid
        | Verb::SolveGame
        | Verb::Gen
        | Verb::Bench => None,
    }
}

// the command, if there is no limit
fn unlimited(command: Command, limit: Option<&str>) -> Option<Command>
    requires { HasUsualNumbers command }
    ensures command { result ≡ command_by (command_line.alone command) None None (option_map (λ s. s.now) limit.entry) }
    ensures usual { IfSome result HasUsualNumbers }
{
    match limit {
        None => Some(command),
        Some(_) => None,
    }
}

// with one word behind the first one
fn about(verb: Verb, subject: &str, limit: Option<&str>) -> Option<Command>
    ensures command { result ≡ command_by (shape_of verb) (Some subject.now) None (option_map (λ s. s.now) limit.entry) }
    ensures usual { IfSome result HasUsualNumbers }
{
    match verb {
        Verb::Find => {
            let logic = Logic::named(subject.as_bytes())?;
            let limit = limit_named(limit)?;
            Some(Command::Find { logic, limit })
        }
        Verb::Prove => {
            let logic = Logic::named(subject.as_bytes())?;
            let limit = limit_named(limit)?;
            Some(Command::Prove { logic, limit })
        }
        Verb::Decide => {
            let logic = Logic::named(subject.as_bytes())?;
            let limit = limit_named(limit)?;
            Some(Command::Decide { logic, limit })
        }
        Verb::Valid => {
            let logic = Logic::named(subject.as_bytes())?;
            let limit = limit_named(limit)?;
            Some(Command::Valid { logic, limit })
        }
        Verb::Ask => with_files(subject, limit),
        Verb::SolveGame => by_engine(subject, limit),
        Verb::CheckAnswers
        | Verb::CheckModel
        | Verb::CheckRefutation
        | Verb::Path
        | Verb::Show
        | Verb::Migrate
        | Verb::Quotient
        | Verb::CheckGame
        | Verb::Determinise
        | Verb::Automaton
        | Verb::Make
        | Verb::Realize
        | Verb::CheckMachine
        | Verb::Gen
        | Verb::Bench => None,
    }
}

// `ask files`
fn with_files(subject: &str, limit: Option<&str>) -> Option<Command>
    ensures command { result ≡ command_by (shape_of Verb.Ask) (Some subject.now) None (option_map (λ s. s.now) limit.entry) }
    ensures usual { IfSome result HasUsualNumbers }
{
    if subject != "files" {
        return None;
    }
    let limit = limit_named(limit)?;
    Some(Command::Ask {
        form: Form::Files,
        limit,
    })
}

fn by_engine(subject: &str, limit: Option<&str>) -> Option<Command>
    ensures command { result ≡ command_by (shape_of Verb.SolveGame) (Some subject.now) None (option_map (λ s. s.now) limit.entry) }
    ensures usual { IfSome result HasUsualNumbers }
{
    match limit {
        None => {
            let engine = Engine::named(subject.as_bytes())?;
            Some(Command::SolveGame { engine })
        }
        Some(_) => None,
    }
}

// with two words behind the first one
fn counted(verb: Verb, subject: &str, count: &str, limit: Option<&str>) -> Option<Command>
    ensures command { result ≡ command_by (shape_of verb) (Some subject.now) (Some count.now)
        (option_map (λ s. s.now) limit.entry) }
    ensures usual { IfSome result HasUsualNumbers }
{
    match (verb, limit) {
        (Verb::Gen, None) => {
            let family = Family::named(subject.as_bytes())?;
            let n = count_named(family, count)?;
            Some(Command::Gen { family, n })
        }
        (Verb::Bench, None) => {
            let family = Family::named(subject.as_bytes())?;
            let n = count_named(family, count)?;
            Some(Command::Bench { family, n })
        }
        _ => None,
    }
}

// ---- numbers

fn limit_named(word: Option<&str>) -> Option<u32>
    ensures limit { result ≡ command_line.limit_named (option_map (λ s. s.now) word.entry) }
    ensures some { IfSome result (λ limit. 1 ≤ limit) }
{
    let Some(word) = word else {
        return Some(DEFAULT_LIMIT);
    };
    match number_named(word) {
        Some(0) | None => None,
        Some(limit) => Some(limit),
    }
}

// a number of the family's range
fn count_named(family: Family, word: &str) -> Option<u32>
    ensures count { result ≡ command_line.count_named family word.now }
    ensures range { IfSome result (λ n. is_in_range family n ≡ true) }
{
    let n = number_named(word)?;
    if family.has(n) { Some(n) } else { None }
}

fn number_named(word: &str) -> Option<u32>
    ensures { result ≡ command_line.number_named word.now }
{
    if word.is_empty() || word.len() > LONGEST_NUMBER {
        return None;
    }
    value_from(0, word.as_bytes())
}

// the value of digits behind a number that was read
fn value_from(read: u32, digits: &[u8]) -> Option<u32>
    requires { read ≤ GREATEST_LIMIT }
    ensures { result ≡ command_line.value_from read digits.now }
{
    match digits.split_first() {
        None => Some(read),
        Some((digit, rest)) => {
            let read = digit_on(read, *digit)?;
            value_from(read, rest)
        }
    }
}

// the number with a digit more
fn digit_on(read: u32, digit: u8) -> Option<u32>
    requires { read ≤ GREATEST_LIMIT }
    ensures value { result ≡ command_line.digit_on read digit }
    ensures bound { IfSome result (λ value. value ≤ GREATEST_LIMIT) }
{
    if !digit.is_ascii_digit() {
        return None;
    }
    let value = read * 10 + u32::from(digit - b'0');
    if value <= GREATEST_LIMIT {
        Some(value)
    } else {
        None
    }
}
