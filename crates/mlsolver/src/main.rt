// The program: the words of the command line, standard input and standard output, and the exit status.
//
// Everything that it answers is the one call `ml_driver::call`, whose status is that of `ml_driver::run`: the contract says
// what is due. Standard error tells people where an input is at fault, of which problem a checked document speaks, and, where
// the words are no command, which commands there are; no contract speaks of that.
#![tactic(auto)]

mod usage;

use crate::usage::explain;
use ml_base::{StdSink, StdSource};
use ml_driver::{Command, Ending, Said, Status, call};
use ml_messages::{explanation, warnings};
use std::alloc::AllocError;
use std::env::{self, Env};
use std::io;
use std::process::ExitCode;

fn main(rt: HostRuntime) -> ExitCode {
    let Ok(words) = words(&rt) else {
        return ExitCode::from(Status::NoMemory.code());
    };
    let mut source = StdSource::new(rt.stdin());
    let mut sink = StdSink::new(rt.stdout());
    let ending = call(rt.alloc(), &words, &mut source, &mut sink);
    // what can't be told there changes nothing
    let _ = tell(&rt, &words, &ending);
    ExitCode::from(ending.status.code())
}

// What is told on standard error.
fn tell(rt: &(impl Eprint + AllocGlobal), words: &[String], ending: &Ending) -> io::Result<()> {
    match ending.status {
        Status::Words => explain(rt, words),
        Status::Yes | Status::No | Status::Undecided | Status::Text => {
            match (ending.command, ending.said) {
                (Some(command), Some(said)) => tell_of_input(rt, command, said, &ending.input),
                (Some(command), None) => warn(rt, command, &ending.input),
                _ => Ok(()),
            }
        }
        Status::ReadFault => eprintln!(rt; "mlsolver: standard input can't be read"),
        Status::WriteFault => eprintln!(rt; "mlsolver: standard output can't be written"),
        Status::NoMemory => eprintln!(rt; "mlsolver: out of memory"),
    }
}

fn tell_of_input(
    rt: &(impl Eprint + AllocGlobal),
    command: Command,
    said: Said,
    input: &[u8],
) -> io::Result<()> {
    match explanation(rt.alloc(), command, said, input) {
        Ok(Some(sentence)) => eprintln!(rt; "mlsolver: {sentence}"),
        Ok(None) | Err(AllocError) => Ok(()),
    }
}

// What may be spelt wrongly in an input that was answered.
fn warn(rt: &(impl Eprint + AllocGlobal), command: Command, input: &[u8]) -> io::Result<()> {
    let Ok(sentences) = warnings(rt.alloc(), command, input) else {
        return Ok(());
    };
    for sentence in sentences.iter() {
        eprintln!(rt; "mlsolver: {sentence}")?;
    }
    Ok(())
}

// The words without the program's name. Where they can't be had as texts they are one empty word, which no command is.
fn words(rt: &(impl Env + AllocGlobal)) -> Result<Vec<String>, AllocError> {
    let mut words = Vec::new(rt.alloc());
    match env::args(rt) {
        Ok(all) => {
            for word in all.skip(1) {
                words.push(word)?;
            }
        }
        Err(error) if error.kind() == io::ErrorKind::OutOfMemory => return Err(AllocError),
        Err(_) => words.push(String::new(rt.alloc()))?,
    }
    Ok(words)
}
