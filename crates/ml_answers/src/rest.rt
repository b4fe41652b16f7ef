// What is left of a text, and how a refused line of it is told.
ghost use Rattle.std.specs.Prelude.{◌≡◌, [], MatchOption};
ghost use Rattle.ml_answers.specs.RuleNumbers.{rule_number};
ghost use Rattle.ml_answers.specs.Texts as texts;
ghost use Rattle.ml_answers.specs.private.Reads.{HasRoom, IsNext, Takes};

use crate::cut::{line_count, line_end, split_end};
use crate::rule::AnswersRule;
use ml_base::{DocFault, DocRefusal};

/// What is left of a text, and the number of the line with which it begins.
#[derive(Clone, Copy)]
pub(crate) struct Rest<'a> {
    pub(crate) text: &'a [u8],
    pub(crate) line: u64,
}

pub(crate) fn fault(line: u64, rule: AnswersRule) -> DocRefusal
    ensures { result ≡ DocRefusal.Fault (record { line = line; rule = rule_number rule }) }
{
    DocRefusal::Fault(DocFault {
        line,
        rule: rule.number(),
    })
}

/// The next line, and what stands behind it.
pub(crate) fn next_line(at: Rest) -> Option<(&[u8], Rest)>
    requires { HasRoom at }
    ensures { MatchOption result (texts.next_line at.entry.text.now ≡ []) (λ r. IsNext at.entry r.0.now r.1) }
{
    match line_end(at.text) {
        Some(end) => Some((
            &at.text[..end],
            Rest {
                text: &at.text[end + 1..],
                line: at.line + 1,
            },
        )),
        None => None,
    }
}

/// The body that begins here, and what stands behind it.
pub(crate) fn next_body(at: Rest) -> (&[u8], Rest)
    requires { HasRoom at }
    ensures body { result.0.now ≡ texts.up_to_end at.entry.text.now }
    ensures takes { Takes (λ t. t ≡ result.0.now) at.entry result.1 }
{
    let (body, text) = split_end(at.text);
    let line = at.line + line_count(body);
    (body, Rest { text, line })
}
