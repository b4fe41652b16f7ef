// What is told of answers to files of requirements that are wrong, or stay open.

use crate::rules::of_wrong_answer;
use crate::shown::{line_of, shown};
use std::alloc::{AllocError, Global};

/// Why the answer in this line is wrong.
pub(crate) fn wrong_answer(alloc: Global, input: &[u8], line: usize) -> Result<String, AllocError> {
    let answer = line_of(input, line).unwrap_or(b"");
    told(alloc, answer, line, of_wrong_answer(has_refutation(answer)))
}

/// Why the answer in this line stays open.
pub(crate) fn open_answer(alloc: Global, input: &[u8], line: usize) -> Result<String, AllocError> {
    let answer = line_of(input, line).unwrap_or(b"");
    told(alloc, answer, line, of_open_answer(answer))
}

fn of_open_answer(answer: &[u8]) -> &'static str {
    if answer.ends_with(b" open") && !has_refutation(answer) {
        "it is left open"
    } else if answer
        .split(|byte| *byte == b' ')
        .any(|word| word == b"perhaps:".as_slice())
    {
        "whether the requirements behind `perhaps:` are needed is left open"
    } else {
        "it can't be checked, since a closure has more than 4,096 nodes or a joined formula more than 1,000 occurrences"
    }
}

fn told(alloc: Global, answer: &[u8], line: usize, cause: &str) -> Result<String, AllocError> {
    let answer = shown(alloc, answer)?;
    format!(in alloc; "line {line}: {answer}: {cause}")
}

// questions and requirements may be called `because` and `no`: so it is the word right behind the answer
fn has_refutation(answer: &[u8]) -> bool {
    let mut is_behind = false;
    for word in answer.split(|byte| *byte == b' ') {
        if is_behind && word == b"because".as_slice() {
            return true;
        }
        is_behind = word == b"yes".as_slice() || word == b"no".as_slice();
    }
    false
}
