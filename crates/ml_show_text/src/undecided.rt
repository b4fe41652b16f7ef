// The bodies of undecided documents.
ghost use Rattle.std.specs.Prelude.{◌≡◌, ◌∷◌, [], codes, IfErr, MatchOption, OnOk};
ghost use Rattle.ml_front.specs.Documents.{first_body_line};
ghost use Rattle.ml_lines.specs.Faults.{IsFault};
ghost use Rattle.ml_lines.specs.Reading.{AreWords, words_of};
ghost use Rattle.ml_show_text.specs.UndecidedBodies as bodies;
ghost use Rattle.ml_show_text.specs.UndecidedBodies.{AtCause, AtEnd, AtNothing, IsFaultOf, IsPositionsLine, IsReadableBody, rule_number};
ghost use Rattle.ml_show_text.specs.private.CauseLines.{Breaks, IsCause, IsReadableAt};

use crate::cause_rule::CauseRule;
use ml_base::DocFault;
use ml_lines::{are_words, more_words, read_number, split_line, two_words};
use ml_show::Cause;

// the numbers of the lines
const CAUSE_LINE: u64 = 6;

const END_LINE: u64 = 7;

const LINE_BEHIND: u64 = 8;

fn fault(line: u64, rule: CauseRule) -> DocFault
    ensures line { result.line ≡ line }
    ensures rule { result.rule ≡ rule_number rule }
{
    DocFault {
        line,
        rule: rule.number(),
    }
}

// the third word of a line `cause positions N`; `None` for any other line
fn limit_in(line: &[u8]) -> Option<&[u8]>
    ensures { MatchOption result (¬ (IsPositionsLine (words_of line.now)))
        (λ limit. AreWords (words_of line.now)
        × (words_of line.now ≡ codes "cause" ∷ codes "positions" ∷ limit.now ∷ [])) }
{
    let (first, rest) = more_words(line)?;
    let (second, limit) = two_words(rest)?;
    if first == b"cause".as_slice() && second == b"positions".as_slice() && are_words(line) {
        Some(limit)
    } else {
        None
    }
}

// the cause that a line tells
fn cause_in(line: &[u8]) -> Result<Cause, CauseRule>
    ensures read { OnOk result (IsCause (words_of line.now)) }
    ensures refused { IfErr result (Breaks AtCause (words_of line.now)) }
{
    if line == b"cause closure 4096".as_slice() {
        return Ok(Cause::Closure);
    }
    match limit_in(line) {
        Some(limit) => match read_number(limit) {
            Some(positions) => Ok(Cause::Positions(positions)),
            None => Err(CauseRule::Numbers),
        },
        None => Err(CauseRule::OfKind),
    }
}

// nothing stands behind `end`
fn read_nothing(text: &[u8]) -> Result<(), DocFault>
    ensures read { OnOk result (IsReadableAt AtNothing text.now) }
    ensures refused { IfErr result (IsFault bodies.body 8 AtNothing text.now) }
{
    if text.is_empty() {
        Ok(())
    } else {
        Err(fault(LINE_BEHIND, CauseRule::OfKind))
    }
}

// the line `end`, and nothing behind it
fn read_end(text: &[u8]) -> Result<(), DocFault>
    ensures read { OnOk result (IsReadableAt AtEnd text.now) }
    ensures refused { IfErr result (IsFault bodies.body 7 AtEnd text.now) }
{
    match split_line(text) {
        Some((line, rest)) => {
            if line == b"end".as_slice() {
                read_nothing(rest)
            } else {
                Err(fault(END_LINE, CauseRule::OfKind))
            }
        }
        None => Err(fault(END_LINE, CauseRule::OfKind)),
    }
}

// The cause that the body of an undecided document tells, or its first bad line.
//
// Cost: linear in the text.
pub(crate) fn read_undecided(text: &[u8]) -> Result<Cause, DocFault>
    ensures read { OnOk result (IsReadableBody text.now) }
    ensures refused { IfErr result (IsFaultOf text.now first_body_line) }
{
    match split_line(text) {
        Some((line, rest)) => match cause_in(line) {
            Ok(cause) => match read_end(rest) {
                Ok(()) => Ok(cause),
                Err(fault) => Err(fault),
            },
            Err(rule) => Err(fault(CAUSE_LINE, rule)),
        },
        None => Err(fault(CAUSE_LINE, CauseRule::OfKind)),
    }
}
