// A call whose reads and writes fail in turn: `decide mu` on a text, over a source and a sink that move one byte in a call.

use crate::answers::{Answer, answer_over};
use crate::failure::Failure;
use ml_base::{MemSink, MemSource, NoMemory};
use std::alloc::{AllocGlobal, Global};
use std::io::Print;

const TEXT: &[u8] = b"p & !q";

const DOCUMENT: &[u8] =
    b"mlsolver 2\nanswer satisfiable\nlogic mu\nsense plain\nformula (p & !q)\nstates 1\nstart 0\nstate 0 p\nend\n";

/// How often the source is read: once for each byte, and once for the end.
const READS: u64 = 7;

/// How often the sink is written to: once for each byte of the document.
const WRITES: u64 = 99;

const YES: u8 = 0;

const READ_FAULT: u8 = 5;

const WRITE_FAULT: u8 = 6;

/// The answer where these calls of the source and of the sink fail, counted from 1.
fn answer_where(alloc: Global, reads: &[u64], writes: &[u64]) -> Result<Answer, NoMemory> {
    let reads = Vec::from_slice(alloc, reads)?;
    let mut source = MemSource::new(Vec::from_slice(alloc, TEXT)?, 1, reads);
    let mut sink = MemSink::new(alloc, 1, Vec::from_slice(alloc, writes)?, 4096)?;
    answer_over(alloc, "decide mu", &mut source, &mut sink)
}

fn is_whole(answer: &Answer) -> bool {
    answer.status == YES && answer.output.as_slice() == DOCUMENT
}

/// Is nothing written where this read fails, and all where there is no such read?
fn is_right_read(alloc: Global, call: u64) -> Result<bool, NoMemory> {
    let answer = answer_where(alloc, &[call], &[])?;
    Ok(if call <= READS {
        answer.status == READ_FAULT && answer.output.is_empty()
    } else {
        is_whole(&answer)
    })
}

/// Is what comes before it written where this write fails, and all where there is no such write?
fn is_right_write(alloc: Global, call: u64) -> Result<bool, NoMemory> {
    let answer = answer_where(alloc, &[], &[call])?;
    Ok(if call <= WRITES {
        answer.status == WRITE_FAULT
            && answer.output.len() as u64 == call.saturating_sub(1)
            && DOCUMENT.starts_with(&answer.output)
    } else {
        is_whole(&answer)
    })
}

/// Has each call fail in turn, prints each after which something else is answered, and how many calls there are.
pub(crate) fn run_faults<R: Print + AllocGlobal>(rt: &R) -> Result<(), Failure> {
    for call in 1..=READS + 1 {
        if !is_right_read(rt.alloc(), call)? {
            println!(rt; "read {call} fails: another answer")?;
        }
    }
    for call in 1..=WRITES + 1 {
        if !is_right_write(rt.alloc(), call)? {
            println!(rt; "write {call} fails: another answer")?;
        }
    }
    println!(rt; "failing calls: {READS} reads, {WRITES} writes")?;
    Ok(())
}
