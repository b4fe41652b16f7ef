// What the program answers, and how a document is checked that it wrote.

use ml_base::{MemSink, MemSource, NoMemory};
use ml_driver::run;
use ml_lines::split_line;
use std::alloc::Global;

const ROOM: u64 = 10_000_000;

/// What the program answered: its status and its output.
#[derive(Drop)]
pub(crate) struct Answer {
    pub(crate) status: u8,
    pub(crate) output: Vec<u8>,
}

fn words_of(alloc: Global, line: &str) -> Result<Vec<String>, NoMemory> {
    let mut words = Vec::new(alloc);
    for word in line.split_whitespace() {
        words.push(String::from_str(alloc, word)?)?;
    }
    Ok(words)
}

/// What the program answers to these words over a source and a sink.
pub(crate) fn answer_over(
    alloc: Global,
    words: &str,
    source: &mut MemSource,
    sink: &mut MemSink,
) -> Result<Answer, NoMemory> {
    let words = words_of(alloc, words)?;
    let status = run(alloc, &words, source, sink).code();
    let output = Vec::from_slice(alloc, sink.taken())?;
    Ok(Answer { status, output })
}

/// What the program answers to these words on an input.
pub(crate) fn answer_to(alloc: Global, words: &str, input: &[u8]) -> Result<Answer, NoMemory> {
    let mut source = MemSource::new(Vec::from_slice(alloc, input)?, 4096, Vec::new(alloc));
    let mut sink = MemSink::new(alloc, 4096, Vec::new(alloc), ROOM)?;
    answer_over(alloc, words, &mut source, &mut sink)
}

/// The document with an answer that was written, and the command that checks it.
pub(crate) fn checking(output: &[u8]) -> Option<(&'static str, &[u8])> {
    let document = document_in(output)?;
    if document.starts_with(b"mlsolver 2\nanswer satisfiable\n") {
        Some(("check-model", document))
    } else if document.starts_with(b"mlsolver 2\nanswer unsatisfiable\n") {
        Some(("check-refutation", document))
    } else if document.starts_with(b"mlsolver realize 1\nanswer realizable\n")
        || document.starts_with(b"mlsolver realize 1\nanswer unrealizable\n")
    {
        Some(("check-machine", document))
    } else {
        None
    }
}

// behind the two lines of a path, or the line `fails`
fn document_in(output: &[u8]) -> Option<&[u8]> {
    let (line, rest) = split_line(output)?;
    if line == b"fails".as_slice() {
        Some(rest)
    } else if line.starts_with(b"path ") {
        let (_, rest) = split_line(rest)?;
        Some(rest)
    } else {
        Some(output)
    }
}
