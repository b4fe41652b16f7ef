// Specifications with a document of answers behind them, read.
ghost use Rattle.std.specs.Prelude.{◌≡◌, ◌+◌, ◌<◌, ◌^◌, length, IfErr, IfOk};
ghost use Rattle.ml_answers.specs.Checked.{IsReadAs, IsReadBehind, IsRefusedAs, has_answers};
ghost use Rattle.ml_answers.specs.Documents.{title_line};
ghost use Rattle.ml_answers.specs.Stated.{lines_of, replies_of};
ghost use Rattle.ml_answers.specs.Texts.{IsLine, IsThen};
ghost use Rattle.ml_answers.specs.private.Reads.{IsRefusedIn};

use crate::cut::{first_line, line_count};
use crate::document::read_document;
use crate::finding::{AnswersFault, LONGEST_SPECIFICATION};
use crate::rest::Rest;
use crate::stated::Stated;
use ml_base::{DocRefusal, NoMemory};
use ml_spec::{SpecRefusal, Specification, line_and_column, read};
use std::alloc::Global;

/// A specification, and what is said in answer to its questions behind it, in the order of the lines.
#[derive(Drop)]
pub struct AnsweredSpecification {
    pub specification: Specification,
    pub answers: Vec<Stated>,
}

/// Why nothing is read.
pub enum AnswersRefusal {
    /// The text is no specification with a document of answers behind it.
    Fault(AnswersFault),
    NoMemory,
}

impl From<NoMemory> for AnswersRefusal {
    fn from(_: NoMemory) -> AnswersRefusal
        ensures { result ≡ AnswersRefusal.NoMemory }
    {
        AnswersRefusal::NoMemory
    }
}

/// Does a document of answers begin in this text? Its first line is `mlsolver answers 1`.
///
/// Cost: linear in the bytes.
pub fn has_answers(bytes: &[u8]) -> bool
    ensures { result ≡ has_answers bytes.now }
{
    match first_line(bytes, b"mlsolver answers 1") {
        Some(_) => true,
        None => false,
    }
}

/// A specification with a document of answers behind it, which begins with the first line that is `mlsolver answers 1`. Whether
/// the answers are right isn't asked.
///
/// # Errors
/// `Fault` exactly where `check_answers` finds this of the text. `NoMemory`.
///
/// Cost: linear in the bytes, and in the items times the lines with names.
pub fn read_answers(alloc: Global, bytes: &[u8]) -> Result<AnsweredSpecification, AnswersRefusal>
    ensures read { IfOk result (λ a. IsReadAs bytes.now a.specification.logic a.specification.items.items
        (replies_of a.answers.items) (lines_of a.answers.items)) }
    ensures refused { IfErr result (IsRefusedAs bytes.now) }
{
    match first_line(bytes, b"mlsolver answers 1") {
        Some(at) => read_behind(alloc, &bytes[..at], &bytes[at..]),
        None => {
            let (line, column) = line_and_column(bytes, bytes.len());
            Err(AnswersRefusal::Fault(AnswersFault::NoDocument { line, column }))
        }
    }
}

// what is read where the first text is that of the specification, and the document stands behind it
fn read_behind(
    alloc: Global,
    text: &[u8],
    document: &[u8],
) -> Result<AnsweredSpecification, AnswersRefusal>
    requires title { IsThen (IsLine title_line) (λ t. Unit {0}) document.now }
    requires room { length text.now + length document.now < 2 ^ 63 }
    ensures read { IfOk result (λ a. IsReadBehind text.now document.now a.specification.logic a.specification.items.items
        (replies_of a.answers.items) (lines_of a.answers.items)) }
    ensures refused { IfErr result (IsRefusedIn text.now document.now) }
{
    if text.len() > LONGEST_SPECIFICATION {
        return Err(AnswersRefusal::Fault(AnswersFault::TooLong));
    }
    let specification = match read(alloc, text) {
        Ok(specification) => specification,
        Err(SpecRefusal::Refused { line, column, rule }) => {
            return Err(AnswersRefusal::Fault(AnswersFault::Refused { line, column, rule }));
        }
        Err(SpecRefusal::NoMemory) => return Err(AnswersRefusal::NoMemory),
    };
    let at = Rest {
        text: document,
        line: 1 + line_count(text),
    };
    match read_document(alloc, &specification.items, at) {
        Ok(answers) => Ok(AnsweredSpecification {
            specification,
            answers,
        }),
        Err(DocRefusal::Fault(fault)) => {
            Err(AnswersRefusal::Fault(AnswersFault::Unreadable(fault)))
        }
        Err(DocRefusal::NoMemory) => Err(AnswersRefusal::NoMemory),
    }
}
