// A row, its lines, and whether the answer is as it says.
//
// A line of a file of rows is empty, or begins with one of these words and a blank. A row has its input first, then what is
// wanted; it ends where the next one's words or input begin.
//
//   #       a comment
//   run     the words of the rows from here on
//   text    of the input, as it stands
//   <       a line of the input, with its end
//   times   a number, and what stands so often in the input
//   lines   a number, and a line that stands so often in the input
//   line    a number, and what this line of the input is instead
//   first   how many lines of the input are kept
//   byte    a byte of the input, as a number
//   file    the file whose bytes are in the input
//   status  the status that is wanted
//   >       a line of the output; if there is one, no other lines are
//   has     a line that the output has

use crate::answers::{Answer, answer_to, checking};
use crate::failure::Failure;
use ml_base::NoMemory;
use std::alloc::{AllocError, AllocGlobal, Global};
use std::fs;
use std::io::Print;
use std::rt::Files;

/// The status of an answer past a limit.
const UNDECIDED: u8 = 2;

/// How a document of answers begins.
const ANSWERS: &[u8] = b"mlsolver answers 1\n";

/// What a file has so far.
#[derive(Clone, Copy, Default)]
pub(crate) struct Counts {
    pub(crate) lines: u32,
    pub(crate) rows: u32,
    pub(crate) documents: u32,
}

/// What the program is given, and what it has to answer.
#[derive(Drop)]
pub(crate) struct Row {
    alloc: Global,
    words: String,
    input: Vec<u8>,
    status: Option<u8>,
    output: Vec<u8>,
    /// Lines that the output has.
    parts: Vec<String>,
    is_answered: bool,
}

impl Row {
    /// No row yet.
    pub(crate) fn new(alloc: Global) -> Row {
        Row {
            alloc,
            words: String::new(alloc),
            input: Vec::new(alloc),
            status: None,
            output: Vec::new(alloc),
            parts: Vec::new(alloc),
            is_answered: false,
        }
    }

    /// Only the words are kept for the next row.
    fn clear(&mut self) {
        self.input.clear();
        self.status = None;
        self.output.clear();
        self.parts.clear();
        self.is_answered = false;
    }

    /// Is the answer as the row says?
    fn is_met_by(&self, found: &Answer) -> bool {
        if self.status.is_some() && self.status != Some(found.status) {
            return false;
        }
        if !self.output.is_empty() && self.output.as_slice() != found.output.as_slice() {
            return false;
        }
        has_lines(&found.output, &self.parts)
    }
}

/// Is this one of the lines of the output?
fn has_line(output: &str, line: &str) -> bool {
    for found in output.lines() {
        if found == line {
            return true;
        }
    }
    false
}

/// Does the output have all these lines?
fn has_lines(output: &[u8], parts: &[String]) -> bool {
    let Ok(output) = str::from_utf8(output) else {
        return false;
    };
    for part in parts {
        if !has_line(output, part.as_str()) {
            return false;
        }
    }
    true
}

/// The first word of a line, and what stands behind its blank.
fn cut(line: &str) -> (&str, &str) {
    match line.split_once(' ') {
        Some(parts) => parts,
        None => (line, ""),
    }
}

/// A line with its end.
pub(crate) fn push_line(to: &mut Vec<u8>, line: &str) -> Result<(), AllocError> {
    to.extend_from_slice(line.as_bytes())?;
    to.push(b'\n')?;
    Ok(())
}

/// Is it a document with an environment? The word automaton of its formula may be too large for the check.
fn may_be_large(document: &[u8]) -> bool {
    document.starts_with(b"mlsolver realize 1\nanswer unrealizable\n")
}

/// Are the answers that were written found right behind their file, and can they be shown? Some may be open.
fn are_right(alloc: Global, file: &[u8], answers: &[u8]) -> Result<bool, Failure> {
    let mut both = Vec::from_slice(alloc, file)?;
    both.extend_from_slice(answers)?;
    let status = answer_to(alloc, "check-answers", &both)?.status;
    let is_open = answers
        .split(|byte| *byte == b'\n')
        .any(|line| is_open_answer(line));
    let is_right = status == if is_open { UNDECIDED } else { 0 };
    Ok(is_right && answer_to(alloc, "show", &both)?.status == 0)
}

/// Is it the line of an answer that is open, or of which some of it is?
fn is_open_answer(line: &[u8]) -> bool {
    let is_answer = line.starts_with(b"consistent ")
        || line.starts_with(b"rest ")
        || line.starts_with(b"possible ")
        || line.starts_with(b"follows ");
    let has_perhaps = line
        .split(|byte| *byte == b' ')
        .any(|word| word == b"perhaps:".as_slice());
    is_answer && (line.ends_with(b" open") || has_perhaps)
}

/// Is the document that was written found good, if it has an answer, and can it be shown? One that is written of another
/// document has to be found as that one is.
fn is_checked(
    alloc: Global,
    row: &Row,
    found: &Answer,
    counts: &mut Counts,
) -> Result<bool, Failure> {
    if found.output.starts_with(ANSWERS) {
        counts.documents = counts.documents.saturating_add(1);
        return are_right(alloc, &row.input, &found.output);
    }
    match checking(&found.output) {
        None => Ok(true),
        Some((command, document)) => {
            counts.documents = counts.documents.saturating_add(1);
            let wanted = if matches!(row.words.as_str(), "migrate" | "quotient") {
                answer_to(alloc, command, &row.input)?.status
            } else {
                0
            };
            let status = answer_to(alloc, command, document)?.status;
            let is_right = status == wanted || status == UNDECIDED && may_be_large(document);
            Ok(is_right && answer_to(alloc, "show", document)?.status == 0)
        }
    }
}

/// Runs the row, if it has an answer, and prints it if the answer is another.
pub(crate) fn finish<R: Print + AllocGlobal>(
    rt: &R,
    name: &str,
    row: &mut Row,
    counts: &mut Counts,
) -> Result<(), Failure> {
    if row.is_answered {
        counts.rows = counts.rows.saturating_add(1);
        let found = answer_to(rt.alloc(), row.words.as_str(), &row.input)?;
        let is_checked = is_checked(rt.alloc(), row, &found, counts)?;
        if !is_checked || !row.is_met_by(&found) {
            print_other(rt, name, counts.lines, &found, is_checked)?;
        }
        row.clear();
    }
    Ok(())
}

/// Prints an answer to the row before a line that isn't the one that is wanted.
fn print_other<R: Print + AllocGlobal>(
    rt: &R,
    name: &str,
    line: u32,
    found: &Answer,
    is_checked: bool,
) -> Result<(), Failure> {
    let status = found.status;
    let output = String::from_utf8_lossy(rt.alloc(), &found.output)?;
    println!(rt; "{name}.rows, row before line {line}: status {status}, checked is {is_checked}")?;
    println!(rt; "{output}")?;
    Ok(())
}

/// A line of an answer: what the status or the output has to be.
fn read_answer(row: &mut Row, word: &str, rest: &str) -> Result<(), Failure> {
    row.is_answered = true;
    match word {
        "status" => row.status = Some(rest.parse().map_err(|_| Failure::Line)?),
        ">" => push_line(&mut row.output, rest)?,
        "has" => {
            let line = String::from_str(row.alloc, rest)?;
            row.parts.push(line).map_err(NoMemory::from)?;
        }
        _ => return Err(Failure::Line),
    }
    Ok(())
}

/// A number, and what stands behind its blank.
fn number_and_text(rest: &str) -> Result<(u32, &str), Failure> {
    let (number, text) = rest.split_once(' ').ok_or(Failure::Line)?;
    let number = number.parse().map_err(|_| Failure::Line)?;
    Ok((number, text))
}

/// The input with another line at a place, counted from 1.
fn edited(alloc: Global, input: &[u8], place: u32, line: &str) -> Result<Vec<u8>, Failure> {
    let text = str::from_utf8(input).map_err(|_| Failure::Line)?;
    let mut out = Vec::new(alloc);
    let mut at: u32 = 0;
    for old in text.lines() {
        at = at.saturating_add(1);
        push_line(&mut out, if at == place { line } else { old })?;
    }
    Ok(out)
}

/// The first lines of the input.
fn first_lines(alloc: Global, input: &[u8], count: u32) -> Result<Vec<u8>, Failure> {
    let text = str::from_utf8(input).map_err(|_| Failure::Line)?;
    let mut out = Vec::new(alloc);
    for line in text.lines().take(count as usize) {
        push_line(&mut out, line)?;
    }
    Ok(out)
}

/// A line of an input.
fn read_input<R: Files + AllocGlobal>(
    rt: &R,
    row: &mut Row,
    word: &str,
    rest: &str,
) -> Result<(), Failure> {
    match word {
        "text" => row.input.extend_from_slice(rest.as_bytes())?,
        "<" => push_line(&mut row.input, rest)?,
        "line" => {
            let (place, line) = number_and_text(rest)?;
            row.input = edited(rt.alloc(), &row.input, place, line)?;
        }
        "first" => {
            let count = rest.parse().map_err(|_| Failure::Line)?;
            row.input = first_lines(rt.alloc(), &row.input, count)?;
        }
        "times" => {
            let (times, text) = number_and_text(rest)?;
            for _ in 0..times {
                row.input.extend_from_slice(text.as_bytes())?;
            }
        }
        "lines" => {
            let (times, line) = number_and_text(rest)?;
            for _ in 0..times {
                push_line(&mut row.input, line)?;
            }
        }
        "byte" => {
            let byte = rest.parse().map_err(|_| Failure::Line)?;
            row.input.push(byte).map_err(NoMemory::from)?;
        }
        "file" => row.input.extend_from_slice(&fs::read(rt, rest)?)?,
        _ => return Err(Failure::Line),
    }
    Ok(())
}

/// The next line of a file of rows.
pub(crate) fn read_line<R: Files + Print + AllocGlobal>(
    rt: &R,
    name: &str,
    row: &mut Row,
    counts: &mut Counts,
    line: &str,
) -> Result<(), Failure> {
    counts.lines = counts.lines.saturating_add(1);
    let (word, rest) = cut(line);
    match word {
        "" | "#" => {}
        "run" => {
            finish(rt, name, row, counts)?;
            row.words = String::from_str(rt.alloc(), rest)?;
        }
        "status" | ">" | "has" => read_answer(row, word, rest)?,
        _ => {
            finish(rt, name, row, counts)?;
            read_input(rt, row, word, rest)?;
        }
    }
    Ok(())
}
