// Reading the head of a document.
//
// Each of its five lines has a function that reads it and answers the rest of the text, or the rule that it breaks:
// title, answer, logic, sense, formula. `read_lines` calls them in order and counts the lines. The formula's line is cut out
// first, and then read by the parser of the logic.
ghost use Rattle.std.specs.Prelude.{◌≡◌, ℕ, List, [], ◌∷◌, IfOk, IfErr, IsErrOf, MatchOption};
ghost use Rattle.ml_base.specs.declared.doc_fault.DocFault.{DocFault};
ghost use Rattle.ml_base.specs.declared.version.Version.{Version};
ghost use Rattle.ml_lines.specs.private.Fronts.{GoesOn};
ghost use Rattle.ml_front.specs.Head.{title_line, answer_line, logic_line, sense_line};
ghost use Rattle.ml_front.specs.HeadRules.{IsHead, IsHeadFault, AtTitle, AtAnswer, AtLogic, AtSense};
ghost use Rattle.ml_front.specs.RuleNumbers.{rule_number};
ghost use Rattle.ml_front.specs.private.HeadParts as parts;
ghost use Rattle.ml_front.specs.private.HeadParts.{first_line, IsPair, Breaks, IsFormulaRead, TellsHead, TellsFormula};

use crate::answer::{Answer, answer_of};
use crate::head_rule::HeadRule;
use crate::logic::Logic;
use crate::problem::{AnyFormula, Problem, parse};
use crate::title::version_of;
use ml_base::{DocFault, DocRefusal, ParseRefusal, Version};
use ml_lines::{LineRefusal, split_line, text_behind, two_words};
use std::alloc::Global;

/// What a head says, in which version; and what stands behind it.
#[derive(Drop)]
pub struct Head<'a> {
    pub problem: Problem,
    pub version: Version,
    pub rest: &'a [u8],
}

/// The head with which a document begins, where this answer is wanted: its first five lines, in either version.
///
/// # Errors
/// `Fault` exactly where the text begins with no such head, with the first bad line, counted from 1, and the lowest rule
/// that is broken there: 1 where a line is missing or not of the kind that stands there; 2 where the formula is refused
/// by its parser; 3 where the answer is another one. `NoMemory`.
///
/// Cost: linear in the lines of the head, and that of the logic's parser.
pub fn read_head(alloc: Global, text: &[u8], wanted: Answer) -> Result<Head, DocRefusal>
    ensures read { IfOk result (λ h. IsHead wanted text.now h.version h.problem h.rest.now) }
    ensures refused { (fault : DocFault) → IsErrOf result (DocRefusal.Fault fault) → IsHeadFault wanted text.now fault }
    ensures no_head { (fault : DocFault) → IsErrOf result (DocRefusal.Fault fault)
        → (v : Version) (p : Problem) (rest : List ℕ) → ¬ (IsHead wanted text.now v p rest) }
{
    read_lines(alloc, text, wanted)
}

fn read_lines(alloc: Global, text: &[u8], wanted: Answer) -> Result<Head, DocRefusal>
    ensures read { IfOk result (λ h. IsHead wanted text.now h.version h.problem h.rest.now) }
    ensures refused { IfErr result (TellsHead wanted text.now) }
{
    let (version, answer) = match read_title(text) {
        Ok(title) => title,
        Err(rule) => return Err(fault(1, rule)),
    };
    let logic = match read_answer(answer, wanted) {
        Ok(rest) => rest,
        Err(rule) => return Err(fault(2, rule)),
    };
    let (logic, sense) = match read_logic(logic) {
        Ok(told) => told,
        Err(rule) => return Err(fault(3, rule)),
    };
    let (negated, formula) = match read_sense(sense) {
        Ok(read) => read,
        Err(rule) => return Err(fault(4, rule)),
    };
    match read_formula(alloc, logic, formula) {
        Ok((formula, rest)) => Ok(Head {
            problem: Problem { formula, negated },
            version,
            rest,
        }),
        Err(LineRefusal::Breaks(rule)) => Err(fault(5, rule)),
        Err(LineRefusal::NoMemory) => Err(DocRefusal::NoMemory),
    }
}

fn fault(line: u64, rule: HeadRule) -> DocRefusal
    ensures { result ≡ DocRefusal.Fault (record { line = line; rule = rule_number rule }) }
{
    DocRefusal::Fault(DocFault {
        line,
        rule: rule.number(),
    })
}

// the version, and what stands behind the title
fn read_title(text: &[u8]) -> Result<(Version, &[u8]), HeadRule>
    ensures read { IfOk result (λ r. GoesOn text.now (title_line r.0 ∷ []) r.1.now) }
    ensures refused { IfErr result (λ rule. (a : Answer) → Breaks a AtTitle (first_line text.now) rule) }
{
    match pair(text, b"mlsolver") {
        Some((word, rest)) => match version_of(word) {
            Some(version) => Ok((version, rest)),
            None => Err(HeadRule::OfKind),
        },
        None => Err(HeadRule::OfKind),
    }
}

// what stands behind the line of the answer
fn read_answer(text: &[u8], wanted: Answer) -> Result<&[u8], HeadRule>
    ensures read { IfOk result (λ rest. GoesOn text.now (answer_line wanted ∷ []) rest.now) }
    ensures refused { IfErr result (λ rule. Breaks wanted AtAnswer (first_line text.now) rule) }
{
    match pair(text, b"answer") {
        Some((word, rest)) => match answer_of(word) {
            Some(answer) => {
                if answer == wanted {
                    Ok(rest)
                } else {
                    Err(HeadRule::Answers)
                }
            }
            None => Err(HeadRule::OfKind),
        },
        None => Err(HeadRule::OfKind),
    }
}

// the logic, and what stands behind its line
fn read_logic(text: &[u8]) -> Result<(Logic, &[u8]), HeadRule>
    ensures read { IfOk result (λ r. GoesOn text.now (logic_line r.0 ∷ []) r.1.now) }
    ensures refused { IfErr result (λ rule. (a : Answer) → Breaks a AtLogic (first_line text.now) rule) }
{
    match pair(text, b"logic") {
        Some((word, rest)) => match Logic::named(word) {
            Some(logic) => Ok((logic, rest)),
            None => Err(HeadRule::OfKind),
        },
        None => Err(HeadRule::OfKind),
    }
}

// is the sense negated? and what stands behind its line
fn read_sense(text: &[u8]) -> Result<(bool, &[u8]), HeadRule>
    ensures read { IfOk result (λ r. GoesOn text.now (sense_line r.0 ∷ []) r.1.now) }
    ensures refused { IfErr result (λ rule. (a : Answer) (l : Logic) → Breaks a (AtSense l) (first_line text.now) rule) }
{
    match pair(text, b"sense") {
        Some((sense, rest)) => {
            if sense == b"plain".as_slice() {
                Ok((false, rest))
            } else if sense == b"negated".as_slice() {
                Ok((true, rest))
            } else {
                Err(HeadRule::OfKind)
            }
        }
        None => Err(HeadRule::OfKind),
    }
}

// the formula of the line, and what stands behind the line
fn read_formula(
    alloc: Global,
    logic: Logic,
    text: &[u8],
) -> Result<(AnyFormula, &[u8]), LineRefusal<HeadRule>>
    ensures read { IfOk result (λ r. IsFormulaRead logic text.now r.0 r.1.now) }
    ensures refused { IfErr result (λ e. (a : Answer) → TellsFormula a logic text.now e) }
{
    match split_line(text) {
        Some((line, rest)) => match text_behind(line, b"formula") {
            Some(given) => match parse(alloc, logic, given) {
                Ok(formula) => Ok((formula, rest)),
                Err(refusal) => Err(formula_refusal(refusal)),
            },
            None => Err(LineRefusal::Breaks(HeadRule::OfKind)),
        },
        None => Err(LineRefusal::Breaks(HeadRule::OfKind)),
    }
}

// the refusal of a line whose text the parser refuses
fn formula_refusal(refusal: ParseRefusal) -> LineRefusal<HeadRule>
    ensures { result ≡ parts.formula_refusal refusal }
{
    match refusal {
        ParseRefusal::NoMemory => LineRefusal::NoMemory,
        ParseRefusal::Syntax { .. }
        | ParseRefusal::Unbound { .. }
        | ParseRefusal::NotPositive { .. }
        | ParseRefusal::TooMany { .. }
        | ParseRefusal::TooNested { .. }
        | ParseRefusal::NameTooLong { .. } => LineRefusal::Breaks(HeadRule::Parses),
    }
}

// the second word of a line of two, of which this is the first, and what stands behind the line
fn pair<'a>(text: &'a [u8], first: &[u8]) -> Option<(&'a [u8], &'a [u8])>
    ensures { MatchOption result (¬ (IsPair first.now (first_line text.now)))
        (λ p. GoesOn text.now ((first.now ∷ p.0.now ∷ []) ∷ []) p.1.now) }
{
    match split_line(text) {
        Some((line, rest)) => match two_words(line) {
            Some((word, second)) => {
                if word == first {
                    Some((second, rest))
                } else {
                    None
                }
            }
            None => None,
        },
        None => None,
    }
}
