// Pages with command lines, run as they stand there.
//
// A line of four blanks, `$ ` and a command line begins a piece of a session. The lines of four blanks behind it, up to the
// next command line or the block's end, are what it prints. Files of `examples/` are those of the data folder; the others are
// those that an earlier command of the page wrote, and they stay in memory.

use crate::answers::{Answer, answer_to};
use crate::command_line::{Call, CommandLine, Input, printed, taken_apart};
use crate::failure::Failure;
use crate::row::push_line;
use ml_base::NoMemory;
use std::alloc::{AllocGlobal, Global};
use std::fs;
use std::io::Print;
use std::rt::Files;

/// A file that a command wrote.
#[derive(Drop)]
struct Written {
    name: String,
    bytes: Vec<u8>,
}

/// The session of a page: its name, the files that were written so far, and how many commands were run.
#[derive(Drop)]
struct Session<'a> {
    page: &'a str,
    files: Vec<Written>,
    commands: u32,
}

/// A command line, and what it has to print.
#[derive(Drop)]
struct Piece<'a> {
    line: &'a str,
    wanted: Vec<u8>,
}

/// Runs the command lines of a page, prints those that print something else than the page says, and how many they are.
pub(crate) fn run_page<R: Files + Print + AllocGlobal>(rt: &R, page: &str) -> Result<(), Failure> {
    let path = format!(in rt.alloc(); "docs/{page}.md")?;
    let text = fs::read_to_string(rt, path.as_str())?;
    let commands = run_lines(rt, page, text.as_str())?;
    println!(rt; "{page}: {commands} commands")?;
    Ok(())
}

// runs the command lines among these lines, and counts them
fn run_lines<'a, R: Files + Print + AllocGlobal>(
    rt: &R,
    page: &'a str,
    text: &'a str,
) -> Result<u32, Failure> {
    let mut session = Session {
        page,
        files: Vec::new(rt.alloc()),
        commands: 0,
    };
    let mut piece = None;
    for line in text.lines() {
        piece = read_line(rt, &mut session, piece, line)?;
    }
    finish(rt, &mut session, piece)?;
    Ok(session.commands)
}

// the next line of a page
fn read_line<'a, R: Files + Print + AllocGlobal>(
    rt: &R,
    session: &mut Session<'_>,
    piece: Option<Piece<'a>>,
    line: &'a str,
) -> Result<Option<Piece<'a>>, Failure> {
    let Some(line) = line.strip_prefix("    ") else {
        finish(rt, session, piece)?;
        return Ok(None);
    };
    let Some(line) = line.strip_prefix("$ ") else {
        return Ok(with_line(piece, line)?);
    };
    finish(rt, session, piece)?;
    Ok(Some(Piece {
        line,
        wanted: Vec::new(rt.alloc()),
    }))
}

// the piece, if there is one, with a line more that is wanted
fn with_line<'a>(piece: Option<Piece<'a>>, line: &str) -> Result<Option<Piece<'a>>, NoMemory> {
    match piece {
        None => Ok(None),
        Some(mut piece) => {
            push_line(&mut piece.wanted, line)?;
            Ok(Some(piece))
        }
    }
}

// runs the piece, if there is one, and prints it where it prints something else than is wanted
fn finish<R: Files + Print + AllocGlobal>(
    rt: &R,
    session: &mut Session<'_>,
    piece: Option<Piece<'_>>,
) -> Result<(), Failure> {
    let Some(piece) = piece else {
        return Ok(());
    };
    session.commands = session.commands.saturating_add(1);
    let found = output_of(rt, session, piece.line)?;
    print_other(rt, session.page, &piece, found)
}

// prints the piece where it can't be run, or this isn't what is wanted
fn print_other<R: Print + AllocGlobal>(
    rt: &R,
    page: &str,
    piece: &Piece<'_>,
    found: Option<Vec<u8>>,
) -> Result<(), Failure> {
    let line = piece.line;
    match found {
        None => println!(rt; "{page}: can't be run: {line}")?,
        Some(output) if output.as_slice() != piece.wanted.as_slice() => {
            let output = String::from_utf8_lossy(rt.alloc(), &output)?;
            println!(rt; "{page}: {line}")?;
            println!(rt; "{output}")?;
        }
        Some(_) => {}
    }
    Ok(())
}

// what a command line prints, or `None` where it is none, or wants a file that isn't there
fn output_of<R: Files + AllocGlobal>(
    rt: &R,
    session: &mut Session<'_>,
    line: &str,
) -> Result<Option<Vec<u8>>, Failure> {
    match taken_apart(line) {
        None => Ok(None),
        Some(CommandLine::Show(name)) => bytes_of(rt, session, name),
        Some(CommandLine::Call(call)) => match input_of(rt, session, &call)? {
            None => Ok(None),
            Some(input) => called(rt.alloc(), session, &call, &input),
        },
    }
}

// what the program reads
fn input_of<R: Files + AllocGlobal>(
    rt: &R,
    session: &Session<'_>,
    call: &Call<'_>,
) -> Result<Option<Vec<u8>>, Failure> {
    match call.input {
        Input::Nothing => Ok(Some(Vec::new(rt.alloc()))),
        Input::Text(text) => Ok(printed(rt.alloc(), text)?),
        Input::File(name) => bytes_of(rt, session, name),
        Input::Files(first, second) => both_of(rt, session, first, second),
    }
}

// the bytes of two files, one behind the other
fn both_of<R: Files + AllocGlobal>(
    rt: &R,
    session: &Session<'_>,
    first: &str,
    second: &str,
) -> Result<Option<Vec<u8>>, Failure> {
    let (Some(mut bytes), Some(more)) = (
        bytes_of(rt, session, first)?,
        bytes_of(rt, session, second)?,
    ) else {
        return Ok(None);
    };
    bytes.extend_from_slice(&more)?;
    Ok(Some(bytes))
}

// the bytes of a file of examples/, or of one that was written
fn bytes_of<R: Files + AllocGlobal>(
    rt: &R,
    session: &Session<'_>,
    name: &str,
) -> Result<Option<Vec<u8>>, Failure> {
    if let Some(example) = name.strip_prefix("examples/") {
        return Ok(fs::read(rt, example).ok());
    }
    match session
        .files
        .iter()
        .rev()
        .find(|file| file.name.as_str() == name)
    {
        Some(file) => Ok(Some(file.bytes.clone()?)),
        None => Ok(None),
    }
}

// what the program writes on the terminal
fn called(
    alloc: Global,
    session: &mut Session<'_>,
    call: &Call<'_>,
    input: &[u8],
) -> Result<Option<Vec<u8>>, Failure> {
    let Answer { status, output } = answer_to(alloc, call.words, input)?;
    let mut shown = match call.into {
        None => output,
        Some(name) => {
            keep(alloc, session, name, output)?;
            Vec::new(alloc)
        }
    };
    if call.is_status_shown {
        push_status(alloc, &mut shown, status)?;
    }
    Ok(Some(shown))
}

fn push_status(alloc: Global, shown: &mut Vec<u8>, status: u8) -> Result<(), NoMemory> {
    let status = format!(in alloc; "{status}")?;
    Ok(push_line(shown, status.as_str())?)
}

fn keep(
    alloc: Global,
    session: &mut Session<'_>,
    name: &str,
    bytes: Vec<u8>,
) -> Result<(), NoMemory> {
    let name = String::from_str(alloc, name)?;
    session.files.push(Written { name, bytes })?;
    Ok(())
}
