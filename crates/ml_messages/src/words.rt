// Why words are no command.

use crate::shown::{cut, shown};
use ml_driver::{Engine, Further, GREATEST_LIMIT, LONGEST_NUMBER, Verb};
use ml_front::Logic;
use ml_gen::Family;
use std::alloc::{AllocError, Global};

/// How many bytes of the name of a file are shown at most.
const LONGEST_FILE: usize = 200;

/// The words of a call: those that are no option in their order, and what stands behind `--limit`.
#[derive(Clone, Copy, Default)]
struct Parts<'a> {
    command: Option<&'a str>,
    subject: Option<&'a str>,
    count: Option<&'a str>,
    more: Option<&'a str>,
    limit: Option<&'a str>,
    /// `--limit` is the last word.
    lacks_limit: bool,
    has_two_limits: bool,
    /// The first option that is none.
    unknown: Option<&'a str>,
}

impl<'a> Parts<'a> {
    fn of(words: &'a [String]) -> Parts<'a> {
        let mut parts = Parts::default();
        for word in words {
            parts.add(word.as_str());
        }
        parts
    }

    fn add(&mut self, word: &'a str) {
        if self.lacks_limit {
            self.lacks_limit = false;
            self.add_limit(word);
        } else if word == "--limit" {
            self.lacks_limit = true;
        } else if let Some(limit) = word.strip_prefix("--limit=") {
            self.add_limit(limit);
        } else if word.starts_with('-') {
            self.unknown = self.unknown.or(Some(word));
        } else if self.command.is_none() {
            self.command = Some(word);
        } else if self.subject.is_none() {
            self.subject = Some(word);
        } else if self.count.is_none() {
            self.count = Some(word);
        } else {
            self.more = self.more.or(Some(word));
        }
    }

    fn add_limit(&mut self, limit: &'a str) {
        self.has_two_limits = self.limit.is_some();
        self.limit = Some(limit);
    }
}

/// Why these words, which come without the program's name, are no command, in one line without its end; `None` where that isn't
/// known, or where they ask for help.
///
/// # Errors
/// `AllocError` alone.
///
/// Cost: linear in the words.
pub fn words_fault(alloc: Global, words: &[String]) -> Result<Option<String>, AllocError> {
    let parts = Parts::of(words);
    if let Some(option) = parts.unknown {
        return option_fault(alloc, option);
    }
    let Some(command) = parts.command else {
        return told(alloc, "a command is missing");
    };
    // words that are no texts are one empty word
    if command.is_empty() {
        return Ok(None);
    }
    let Some(verb) = Verb::named(command) else {
        let word = shown(alloc, command.as_bytes())?;
        return Ok(Some(format!(in alloc; "{word} is no command")?));
    };
    let further = verb.further();
    match further_fault(alloc, command, further, parts)? {
        Some(fault) => Ok(Some(fault)),
        None => limit_fault(alloc, command, further, parts),
    }
}

fn told(alloc: Global, sentence: &str) -> Result<Option<String>, AllocError> {
    Ok(Some(String::from_str(alloc, sentence)?))
}

fn option_fault(alloc: Global, option: &str) -> Result<Option<String>, AllocError> {
    if matches!(option, "-h" | "--help" | "-V" | "--version") {
        return Ok(None);
    }
    let word = shown(alloc, option.as_bytes())?;
    Ok(Some(format!(in alloc; "{word} is no option; the only one is `--limit N`")?))
}

fn further_fault(
    alloc: Global,
    command: &str,
    further: Further,
    parts: Parts<'_>,
) -> Result<Option<String>, AllocError> {
    match (further, parts.subject) {
        (Further::Nothing | Further::Limit, subject) => file_fault(alloc, command, subject),
        (Further::Files, Some("files")) => file_fault(alloc, "ask files", parts.count),
        (Further::Files, subject) => file_fault(alloc, "ask", subject),
        (Further::Logic, Some(word)) if Logic::named(word.as_bytes()).is_some() => {
            called_fault(alloc, command, word, parts.count)
        }
        (Further::Logic, word) => {
            word_fault(
                alloc,
                command,
                word,
                "logic: `mu`, `pdl`, `ctl`, `ltl` or `word`",
            )
        }
        (Further::Engine, Some(word)) if Engine::named(word.as_bytes()).is_some() => {
            called_fault(alloc, command, word, parts.count)
        }
        (Further::Engine, word) => {
            word_fault(
                alloc,
                command,
                word,
                "engine: `recursive`, `measures` or `tangles`",
            )
        }
        (Further::Family, word) => family_fault(alloc, command, word, parts),
    }
}

// a command that has all its words has a file behind them
fn file_fault(alloc: Global, call: &str, file: Option<&str>) -> Result<Option<String>, AllocError> {
    let Some(file) = file else {
        return Ok(None);
    };
    let file = cut(alloc, file.as_bytes(), LONGEST_FILE)?;
    Ok(Some(format!(in alloc;
        "`{file}` is a word too many; the input is read from standard input: `mlsolver {call} < {file}`"
    )?))
}

fn called_fault(
    alloc: Global,
    command: &str,
    word: &str,
    file: Option<&str>,
) -> Result<Option<String>, AllocError> {
    let call = format!(in alloc; "{command} {word}")?;
    file_fault(alloc, call.as_str(), file)
}

// a word of these is missing, or is another one
fn word_fault(
    alloc: Global,
    command: &str,
    word: Option<&str>,
    wanted: &str,
) -> Result<Option<String>, AllocError> {
    Ok(Some(match word {
        Some(word) => {
            let word = shown(alloc, word.as_bytes())?;
            format!(in alloc; "{word} is no {wanted}")?
        }
        None => format!(in alloc; "`{command}` lacks its {wanted}")?,
    }))
}

fn family_fault(
    alloc: Global,
    command: &str,
    word: Option<&str>,
    parts: Parts<'_>,
) -> Result<Option<String>, AllocError> {
    let Some(family) = word.and_then(|word| Family::named(word.as_bytes())) else {
        return word_fault(
            alloc,
            command,
            word,
            "family: `and`, `or`, `step`, `fair` or `loop`",
        );
    };
    let greatest = greatest_of(family);
    let family = word.unwrap_or("");
    match parts.count {
        None => Ok(Some(format!(in alloc;
            "`{command} {family}` lacks its number, from 1 to {greatest}"
        )?)),
        Some(count) if !is_number(count, greatest) => {
            let count = shown(alloc, count.as_bytes())?;
            Ok(Some(format!(in alloc;
                "{count} is no number of the family `{family}`, which has those from 1 to {greatest}"
            )?))
        }
        Some(_) => match parts.more {
            Some(more) => {
                let more = shown(alloc, more.as_bytes())?;
                Ok(Some(format!(in alloc; "{more} is a word too many")?))
            }
            None => Ok(None),
        },
    }
}

// the greatest number of the family, which has all those from 1 on up to it
fn greatest_of(family: Family) -> u32 {
    let mut greatest = 0;
    for number in 1..=GREATEST_LIMIT {
        if !family.has(number) {
            return greatest;
        }
        greatest = number;
    }
    greatest
}

// is this one from 1 to the greatest?
fn is_number(word: &str, greatest: u32) -> bool {
    if word.len() > LONGEST_NUMBER || !word.as_bytes().iter().all(|byte| byte.is_ascii_digit()) {
        return false;
    }
    match word.parse::<u32>() {
        Ok(number) => 1 <= number && number <= greatest,
        Err(_) => false,
    }
}

fn limit_fault(
    alloc: Global,
    command: &str,
    further: Further,
    parts: Parts<'_>,
) -> Result<Option<String>, AllocError> {
    if parts.lacks_limit {
        return told(alloc, "`--limit` lacks its number");
    }
    let Some(limit) = parts.limit else {
        return Ok(None);
    };
    if !matches!(further, Further::Limit | Further::Logic | Further::Files) {
        return Ok(Some(format!(in alloc; "`{command}` has no limit")?));
    }
    if parts.has_two_limits {
        return told(alloc, "`--limit` may stand only once");
    }
    if is_number(limit, GREATEST_LIMIT) {
        return Ok(None);
    }
    let limit = shown(alloc, limit.as_bytes())?;
    Ok(Some(format!(in alloc;
        "{limit} is no limit, which is a number from 1 to 200000 with at most six digits"
    )?))
}
