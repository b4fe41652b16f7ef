// The manual page: it has a paragraph for each command and for each status.
//
// A paragraph of the manual begins with a line `.B` and the command or the number, where `\-` is written for `-`.

use crate::failure::Failure;
use ml_driver::{Status, TABLE};
use std::alloc::AllocGlobal;
use std::fs;
use std::io::Print;
use std::rt::Files;

const STATUSES: [Status; 8] = [
    Status::Yes,
    Status::No,
    Status::Undecided,
    Status::Words,
    Status::Text,
    Status::ReadFault,
    Status::WriteFault,
    Status::NoMemory,
];

/// Prints how many commands and statuses have a paragraph in the manual, and each one that has none.
pub(crate) fn read_manual<R: Files + Print + AllocGlobal>(rt: &R) -> Result<(), Failure> {
    let text = fs::read_to_string(rt, "docs/mlsolver.1")?;
    let text = text.as_str().replace(rt.alloc(), "\\-", "-")?;
    let mut commands: u32 = 0;
    for (command, _) in TABLE {
        commands = commands.saturating_add(found(rt, text.as_str(), command)?);
    }
    let mut statuses: u32 = 0;
    for status in STATUSES {
        let code = status.code();
        let code = format!(in rt.alloc(); "{code}")?;
        statuses = statuses.saturating_add(found(rt, text.as_str(), code.as_str())?);
    }
    println!(rt; "manual: {commands} commands, {statuses} statuses")?;
    Ok(())
}

// 1 if the word has a paragraph; else 0, and it is printed
fn found<R: Print>(rt: &R, text: &str, word: &str) -> Result<u32, Failure> {
    if text.lines().any(|line| begins(line, word)) {
        return Ok(1);
    }
    println!(rt; "the manual has no paragraph on {word}")?;
    Ok(0)
}

// does the line begin the paragraph of this word?
fn begins(line: &str, word: &str) -> bool {
    let mut words = line.split_whitespace();
    words.next() == Some(".B") && words.next() == Some(word)
}
