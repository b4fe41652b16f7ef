// Checking a specification with a document of answers behind it.
ghost use Rattle.std.specs.Prelude.{IfOk};
ghost use Rattle.ml_replies.specs.Laws.{OneCheck};
ghost use Rattle.ml_answers.specs.Checked.{IsFound, IsReadAs};
ghost use Rattle.ml_answers.specs.Stated.{lines_of, replies_of};

use crate::answered::{AnswersRefusal, read_answers};
use crate::checking::verdict;
use crate::document::flags;
use crate::finding::AnswersFinding;
use crate::stated::Stated;
use ml_base::NoMemory;
use ml_replies::laws::one_check;
use ml_spec::Specification;
use std::alloc::Global;

/// Are the answers to the questions of a specification right, as anyone can tell from their document alone?
///
/// The text is a specification, and behind it the document of its answers, which begins with the first line that is
/// `mlsolver answers 1`. It may have any length, and nothing is asked of who wrote it.
///
/// - `NoDocument` exactly where there is no such line, with the line and the column behind the last byte;
/// - else `TooLong` exactly where more than 1,048,576 bytes stand before it;
/// - else `Refused` exactly where these are no specification, with the first line and column at which they break a rule, and
///   the lowest such rule, as `ml_spec::read` tells;
/// - else `Unreadable` exactly where the document is none of answers to its questions, with the first bad line, counted from
///   the first one of the text, and the lowest rule that it breaks: 71 where a line is missing or not of the kind that stands
///   there, or something follows the last `end`; 72 where names aren't those of requirements of which the question is asked,
///   each once and in their order, or one is wanting; 11 to 17 in a body of a structure, as `ml_kripke::read_model` says; 21 to
///   31 in one of a refutation, as `ml_refutation_text::read` says;
/// - else `WrongAt` exactly where something of an answer that can be checked fails: the logic doesn't speak of its structure,
///   that doesn't meet the requirements where the question is asked, or its refutation breaks a rule; with the line of the
///   first such answer;
/// - else `OpenAt` exactly where some answer is open or has `perhaps:`, or can't be checked, as a formula has more than 1,000
///   occurrences or a closure more than 4,096 nodes; with the line of the first such answer;
/// - else `Right`: then each line says what is so, and each requirement behind `because` is needed.
///
/// # Errors
/// `NoMemory` alone.
///
/// Cost: to read them linear in the bytes, and in the items times the lines with names; then that of the checks of all
/// structures and refutations.
pub fn check_answers(alloc: Global, bytes: &[u8]) -> Result<AnswersFinding, NoMemory>
    ensures { IfOk result (IsFound bytes.now) }
{
    one_check();
    match read_answers(alloc, bytes) {
        Ok(answered) => judge_all(alloc, bytes, &answered.specification, &answered.answers),
        Err(AnswersRefusal::Fault(fault)) => Ok(fault.finding()),
        Err(AnswersRefusal::NoMemory) => Err(NoMemory),
    }
}

// what is found of the answers that were read of a text
fn judge_all(
    alloc: Global,
    _bytes: &[u8],
    specification: &Specification,
    stated: &[Stated],
) -> Result<AnswersFinding, NoMemory>
    requires read { IsReadAs _bytes.now specification.now.logic specification.now.items.items (replies_of stated.now)
        (lines_of stated.now) }
    requires one { OneCheck }
    ensures { IfOk result (IsFound _bytes.now) }
{
    let all = flags(alloc, specification.items.len())?;
    verdict(alloc, specification, &all, stated)
}
