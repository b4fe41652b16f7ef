// A command line of a page, taken apart. It is one of
//
//     [printf 'TEXT' |] mlsolver WORDS [< FILE] [> FILE] [; echo $?]
//     cat FILE FILE | mlsolver WORDS [> FILE] [; echo $?]
//     cat FILE
//
// where WORDS and FILE have none but signs that a shell takes as they are, and TEXT knows `\n` and `%%` alone.

use ml_base::NoMemory;
use std::alloc::Global;

/// What a command line does.
#[derive(Clone, Copy)]
pub(crate) enum CommandLine<'a> {
    /// `cat FILE`
    Show(&'a str),
    /// One that calls the program.
    Call(Call<'a>),
}

/// A call of the program.
#[derive(Clone, Copy)]
pub(crate) struct Call<'a> {
    pub(crate) input: Input<'a>,
    pub(crate) words: &'a str,
    /// The file that takes the output.
    pub(crate) into: Option<&'a str>,
    pub(crate) is_status_shown: bool,
}

/// What the program reads.
#[derive(Clone, Copy)]
pub(crate) enum Input<'a> {
    Nothing,
    /// What `printf` is given.
    Text(&'a str),
    File(&'a str),
    /// What `cat` writes of two files.
    Files(&'a str, &'a str),
}

/// The command line, taken apart, or `None` where it is of another form.
pub(crate) fn taken_apart(line: &str) -> Option<CommandLine<'_>> {
    match line.strip_prefix("cat ") {
        Some(names) => shown_or_read(names),
        None => {
            let (text, line) = text_before(line)?;
            Some(CommandLine::Call(call_in(line, text.map(Input::Text))?))
        }
    }
}

// one file, or two and the call that reads them
fn shown_or_read(names: &str) -> Option<CommandLine<'_>> {
    match names.split_once(" | ") {
        None => Some(CommandLine::Show(plain(names)?)),
        Some((names, line)) => {
            let (first, second) = names.split_once(' ')?;
            let input = Input::Files(plain(first)?, plain(second)?);
            Some(CommandLine::Call(call_in(line, Some(input))?))
        }
    }
}

// the call that reads this, if it is given what is before it
fn call_in<'a>(line: &'a str, before: Option<Input<'a>>) -> Option<Call<'a>> {
    let (line, is_status_shown) = match line.strip_suffix("; echo $?") {
        Some(line) => (line, true),
        None => (line, false),
    };
    let (line, into) = file_behind(line.strip_prefix("mlsolver")?, " > ")?;
    let (words, from) = file_behind(line, " < ")?;
    let input = match (before, from) {
        (None, None) => Input::Nothing,
        (Some(input), None) => input,
        (None, Some(name)) => Input::File(name),
        (Some(_), Some(_)) => return None,
    };
    if !are_words(words) {
        return None;
    }
    Some(Call {
        input,
        words,
        into,
        is_status_shown,
    })
}

// what `printf` is given, and the call behind it
fn text_before(line: &str) -> Option<(Option<&str>, &str)> {
    match line.strip_prefix("printf '") {
        Some(rest) => {
            let (text, line) = rest.split_once("' | ")?;
            Some((Some(text), line))
        }
        None => Some((None, line)),
    }
}

// what stands before the sign, and the name of the file behind it
fn file_behind<'a>(line: &'a str, sign: &str) -> Option<(&'a str, Option<&'a str>)> {
    match line.split_once(sign) {
        Some((line, name)) => Some((line, Some(plain(name)?))),
        None => Some((line, None)),
    }
}

// words, each with a blank before it
fn are_words(words: &str) -> bool {
    match words.strip_prefix(' ') {
        Some(words) => words.split(' ').all(|word| plain(word).is_some()),
        None => words.is_empty(),
    }
}

// a word or name whose signs all stand for themselves
fn plain(word: &str) -> Option<&str> {
    let is_plain = word.bytes().all(|byte| byte.is_ascii_alphanumeric()
        || matches!(byte, b'_' | b'-' | b'=' | b'.' | b'/'));
    if is_plain && !word.is_empty() {
        Some(word)
    } else {
        None
    }
}

/// What `printf` writes of a text, or `None` where it has more than is known here.
///
/// # Errors
/// `NoMemory` alone.
pub(crate) fn printed(alloc: Global, text: &str) -> Result<Option<Vec<u8>>, NoMemory> {
    let mut out = Vec::new(alloc);
    let mut sign = None;
    for byte in text.bytes() {
        match (sign, byte) {
            (None, b'\\' | b'%') => sign = Some(byte),
            (None, b'\'') => return Ok(None),
            (None, _) => out.push(byte)?,
            (Some(b'\\'), b'n') => {
                out.push(b'\n')?;
                sign = None;
            }
            (Some(b'%'), b'%') => {
                out.push(b'%')?;
                sign = None;
            }
            _ => return Ok(None),
        }
    }
    Ok(if sign.is_none() { Some(out) } else { None })
}
