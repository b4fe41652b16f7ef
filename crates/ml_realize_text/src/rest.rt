// A reader knows what is left of a text, and tells a refused line by its number.
ghost use Rattle.std.specs.Prelude.{◌≡◌, ◌∷◌, [], IfErr, IfOk, MatchOption};
ghost use Rattle.ml_lines.specs.Reading.{lines_of, words_of};
ghost use Rattle.ml_realize_text.specs.RealizeRules.{AtNothing, rule_number};
ghost use Rattle.ml_realize_text.specs.private.Reads.{Goes, HasRoom, TellsFault};

use crate::line_rule::LineRule;
use ml_base::{DocFault, DocRefusal};
use ml_lines::split_line;

/// What is left of a text, and the number of the line with which it begins.
#[derive(Clone, Copy)]
pub(crate) struct Rest<'a> {
    pub(crate) text: &'a [u8],
    pub(crate) line: u64,
}

// the next line, and what stands behind it; `None` where none is left
pub(crate) fn next_line(at: Rest) -> Option<(&[u8], Rest)>
    requires { HasRoom at }
    ensures { MatchOption result (lines_of at.entry.text.now ≡ []) (λ r. Goes at.entry (words_of r.0.now ∷ []) r.1) }
{
    match split_line(at.text) {
        Some((line, text)) => Some((
            line,
            Rest {
                text,
                line: at.line + 1,
            },
        )),
        None => None,
    }
}

pub(crate) fn fault(line: u64, rule: LineRule) -> DocRefusal
    ensures { result ≡ DocRefusal.Fault (record { line = line; rule = rule_number rule }) }
{
    DocRefusal::Fault(DocFault {
        line,
        rule: rule.number(),
    })
}

// where nothing is left
pub(crate) fn ended(rest: Rest) -> Result<(), DocRefusal>
    ensures nothing { IfOk result (λ none. rest.entry.text.now ≡ []) }
    ensures refused { IfErr result (TellsFault AtNothing rest.entry) }
{
    if rest.text.is_empty() {
        Ok(())
    } else {
        Err(fault(rest.line, LineRule::OfKind))
    }
}
