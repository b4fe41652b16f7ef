// What is left of a text, and how a refused line of it is told.
ghost use Rattle.std.specs.Prelude.{◌≡◌, IfOk, IfErr};
ghost use Rattle.ml_base.specs.declared.version.Version.{Version};
ghost use Rattle.ml_lines.specs.Reading.{words_of};
ghost use Rattle.ml_refutation_text.specs.BodyRules.{Place};
ghost use Rattle.ml_refutation_text.specs.RuleNumbers.{rule_number};
ghost use Rattle.ml_refutation_text.specs.private.Reads as reads;
ghost use Rattle.ml_refutation_text.specs.private.Reads.{HasRoom, IsNext, IsUsual, TellsFault};

use crate::body_rule::BodyRule;
use ml_base::{DocFault, DocRefusal};
use ml_lines::{LineRefusal, split_line};

/// What is left of a text, and the number of the line with which it begins.
#[derive(Clone, Copy)]
pub(crate) struct Rest<'a> {
    pub(crate) text: &'a [u8],
    pub(crate) line: u64,
}

// the next line, and what stands behind it
pub(crate) fn next_line(at: Rest) -> Result<(&[u8], Rest), DocRefusal>
    requires { HasRoom at }
    ensures read { IfOk result (λ r. IsNext at.entry (words_of r.0.now) r.1) }
    ensures missing { IfErr result (λ e. (v : Version) (p : Place) → IsUsual p → TellsFault v p at.entry e) }
{
    match split_line(at.text) {
        Some((line, text)) => Ok((
            line,
            Rest {
                text,
                line: at.line + 1,
            },
        )),
        None => Err(fault(at.line, BodyRule::OfKind)),
    }
}

pub(crate) fn fault(line: u64, rule: BodyRule) -> DocRefusal
    ensures { result ≡ DocRefusal.Fault (record { line = line; rule = rule_number rule }) }
{
    DocRefusal::Fault(DocFault {
        line,
        rule: rule.number(),
    })
}

pub(crate) fn at_line(line: u64, refusal: LineRefusal<BodyRule>) -> DocRefusal
    ensures { result ≡ reads.at_line line refusal }
{
    match refusal {
        LineRefusal::Breaks(rule) => fault(line, rule),
        LineRefusal::NoMemory => DocRefusal::NoMemory,
    }
}
