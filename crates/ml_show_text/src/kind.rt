// The kinds of documents.
ghost use Rattle.std.specs.Prelude.{◌≡◌};
ghost use Rattle.ml_show_text.specs.Kinds as kinds;

use ml_front::Answer;
use ml_lines::split_line;

/// What kind of document a text is read as.
#[derive(Clone, Copy, PartialEq, Eq)]
pub enum Kind {
    /// That of a task with a machine or an environment.
    Realizability,
    /// That of a task that stays undecided.
    UndecidedTask,
    /// That of a problem, with this answer.
    Decision(Answer),
}

// the first line of a text, or no bytes where it has none
pub(crate) fn first_line(text: &[u8]) -> &[u8]
    ensures { result.now ≡ kinds.line_at text.now 0 }
{
    match split_line(text) {
        Some((line, _)) => line,
        None => b"",
    }
}

// the second one
fn second_line(text: &[u8]) -> &[u8]
    ensures { result.now ≡ kinds.line_at text.now 1 }
{
    match split_line(text) {
        Some((_, rest)) => first_line(rest),
        None => b"",
    }
}

// the answer that a line tells; `satisfiable` where it tells none
fn answer_in(line: &[u8]) -> Answer
    ensures { result ≡ kinds.answer_in line.now }
{
    if line == b"answer unsatisfiable".as_slice() {
        Answer::Unsatisfiable
    } else if line == b"answer undecided".as_slice() {
        Answer::Undecided
    } else {
        Answer::Satisfiable
    }
}

// the kind of a document of a task that has this second line
fn told_of_task(line: &[u8]) -> Kind
    ensures { result ≡ kinds.told_of_task line.now }
{
    if line == b"answer undecided".as_slice() {
        Kind::UndecidedTask
    } else {
        Kind::Realizability
    }
}

/// What kind of document a text is read as that has no answers, by its first two lines.
///
/// Cost: linear in these lines.
pub fn kind_of(text: &[u8]) -> Kind
    ensures { result ≡ kinds.kind_of text.now }
{
    if first_line(text) == b"mlsolver realize 1".as_slice() {
        told_of_task(second_line(text))
    } else {
        Kind::Decision(answer_in(second_line(text)))
    }
}
