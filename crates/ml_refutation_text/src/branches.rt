// Reading the decision of an entry.
ghost use Rattle.std.specs.Prelude.{◌≡◌, ◌<◌, ◌+◌, ◌++◌, ◌^◌, ℕ, List, [], ◌∷◌, false, IfOk, IfErr, IsTrue, MatchOption, codes, length};
ghost use Rattle.ml_lines.specs.Lines.{number};
ghost use Rattle.ml_base.specs.declared.version.Version.{Version};
ghost use Rattle.ml_lines.specs.Reading.{words_of, AreWords};
ghost use Rattle.ml_refutation.specs.Refutation.{Entry, FitsCause, IsMarkOf};
ghost use Rattle.ml_refutation.specs.Refutation as plain;
ghost use Rattle.ml_refutation.specs.Views.{decision_of};
ghost use Rattle.ml_refutation.specs.Acceptance.{branches};
ghost use Rattle.ml_refutation_text.specs.RefutationText.{cause_words, mark_words};
ghost use Rattle.ml_refutation_text.specs.BodyRules as text;
ghost use Rattle.ml_refutation_text.specs.BodyRules.{Begun, AtDecision, at_entry, whole};
ghost use Rattle.ml_refutation_text.specs.private.Reads.{HasRoom, Goes, TellsFault};
ghost use Rattle.ml_refutation_text.specs.private.ItemReads.{knows};
ghost use Rattle.ml_refutation_text.specs.private.BranchReads.{IsClosed, IsBranch, BreaksBranch, FitsMark, LacksNumbers, LacksCause, LacksMark, LacksGo};

use crate::body_rule::BodyRule;
use crate::rest::{Rest, fault, next_line};
use ml_base::{DocRefusal, NoMemory};
use ml_lines::{are_words, more_words, one_word, read_number, split_word, two_words};
use ml_refutation::{Decision, NESTING_LIMIT};
use ml_sequent::ClashCause;
use ml_trace::Mark;
use std::alloc::Global;

/// A split around a line of a decision: with the right part still to come, or with the left one read.
#[derive(Drop)]
pub(crate) enum Around {
    InLeft(u32),
    InRight(u32, Decision),
}

/// A line of a decision.
#[derive(Drop)]
pub(crate) enum DecisionLine {
    Split(u32),
    /// A clash or a go.
    Leaf(Decision),
}

// the decision of an entry
pub(crate) fn read_decision<'a>(
    alloc: Global,
    at: Rest<'a>,
    names: u32,
    wanted: u32,
) -> Result<(Decision, Rest<'a>), DocRefusal>
    requires { HasRoom at }
    ensures read { IfOk result (λ r. (v : Version) (F : text.Form) (es : List Entry) (b : Begun)
        → Goes v (AtDecision (knows names F wanted) es b []) at.entry (at_entry (knows names F wanted) (es ++ whole b (decision_of r.0) ∷ [])) r.1) }
    ensures counted { IfOk result (λ r. r.1.line ≡ at.entry.line + length (branches [] (decision_of r.0))) }
    ensures refused { IfErr result (λ e. (v : Version) (F : text.Form) (es : List Entry) (b : Begun)
        → TellsFault v (AtDecision (knows names F wanted) es b []) at.entry e) }
{
    let mut around = Vec::new(alloc);
    let mut rest = at;
    loop {
        let (line, behind) = match next_line(rest) {
            Ok(next) => next,
            Err(refusal) => return Err(refusal),
        };
        let branch = match branch_of(line, names, wanted, around.len()) {
            Ok(branch) => branch,
            Err(rule) => return Err(fault(rest.line, rule)),
        };
        match branch {
            DecisionLine::Split(node) => around.push(Around::InLeft(node))?,
            DecisionLine::Leaf(leaf) => {
                if let Some(decision) = close(alloc, &mut around, leaf)? {
                    return Ok((decision, behind));
                }
            }
        }
        rest = behind;
    }
}

// the decision, with the splits that it completes; `None` where the right part of one is still to come
fn close(
    alloc: Global,
    around: &mut Vec<Around>,
    leaf: Decision,
) -> Result<Option<Decision>, NoMemory>
    ensures { IfOk result (IsClosed around.old.items (decision_of leaf) around.new.items) }
{
    let mut decision = leaf;
    while let Some(split) = around.pop() {
        match split {
            Around::InLeft(node) => {
                around.push(Around::InRight(node, decision))?;
                return Ok(None);
            }
            Around::InRight(node, left) => {
                decision = split_at(alloc, node, left, decision)?;
            }
        }
    }
    Ok(Some(decision))
}

fn split_at(alloc: Global, node: u32, left: Decision, right: Decision) -> Result<Decision, NoMemory>
    ensures { IfOk result (λ d. decision_of d ≡ plain.Split node (decision_of left) (decision_of right)) }
{
    let left = Box::new(alloc, left)?;
    let right = Box::new(alloc, right)?;
    Ok(Decision::Split { node, left, right })
}

// the branch that a line tells, inside so many splits
fn branch_of(line: &[u8], names: u32, wanted: u32, depth: usize) -> Result<DecisionLine, BodyRule>
    ensures read { IfOk result (IsBranch names wanted depth (words_of line.now)) }
    ensures refused { IfErr result (BreaksBranch names wanted depth (words_of line.now)) }
{
    let (first, behind) = split_word(line);
    let rest = match behind {
        Some(rest) => rest,
        None => return Err(BodyRule::OfKind),
    };
    if !are_words(line) {
        return Err(BodyRule::OfKind);
    }
    if first == b"split".as_slice() {
        split_of(line, rest, depth)
    } else if first == b"clash".as_slice() {
        clash_of(line, rest)
    } else if first == b"go".as_slice() {
        go_of(line, rest, names, wanted)
    } else {
        Err(BodyRule::OfKind)
    }
}

// the split that a line tells, which begins with `split`
fn split_of(line: &[u8], rest: &[u8], depth: usize) -> Result<DecisionLine, BodyRule>
    requires are_words { AreWords (words_of line.now) }
    requires begins { words_of line.now ≡ codes "split" ∷ words_of rest.now }
    ensures read { IfOk result (λ b. (names wanted : ℕ) → IsBranch names wanted depth (words_of line.now) b) }
    ensures refused { IfErr result (λ rule. (names wanted : ℕ) → BreaksBranch names wanted depth (words_of line.now) rule) }
{
    match one_number(rest) {
        Ok(node) => {
            if depth < NESTING_LIMIT as usize {
                Ok(DecisionLine::Split(node))
            } else {
                Err(BodyRule::Nesting)
            }
        }
        Err(rule) => Err(rule),
    }
}

// the clash that a line tells, which begins with `clash`
fn clash_of(line: &[u8], rest: &[u8]) -> Result<DecisionLine, BodyRule>
    requires are_words { AreWords (words_of line.now) }
    requires begins { words_of line.now ≡ codes "clash" ∷ words_of rest.now }
    ensures read { IfOk result (λ b. (names wanted depth : ℕ) → IsBranch names wanted depth (words_of line.now) b) }
    ensures refused { IfErr result (λ rule. (names wanted depth : ℕ) → BreaksBranch names wanted depth (words_of line.now) rule) }
{
    match cause_of(rest) {
        Ok(cause) => Ok(DecisionLine::Leaf(Decision::Clash(cause))),
        Err(rule) => Err(rule),
    }
}

// the cause of a clash that these words tell
fn cause_of(words: &[u8]) -> Result<ClashCause, BodyRule>
    ensures read { IfOk result (λ x. (words_of words.now ≡ cause_words x) × FitsCause x) }
    ensures refused { IfErr result (LacksCause (words_of words.now)) }
{
    let (kind, behind) = split_word(words);
    let rest = match behind {
        Some(rest) => rest,
        None => return Err(BodyRule::OfKind),
    };
    if kind == b"false".as_slice() {
        match one_number(rest) {
            Ok(node) => Ok(ClashCause::False(node)),
            Err(rule) => Err(rule),
        }
    } else if kind == b"pair".as_slice() {
        match two_numbers(rest) {
            Ok((positive, negative)) => Ok(ClashCause::Pair(positive, negative)),
            Err(rule) => Err(rule),
        }
    } else if kind == b"cycle".as_slice() {
        match one_number(rest) {
            Ok(node) => Ok(ClashCause::Cycle(node)),
            Err(rule) => Err(rule),
        }
    } else {
        Err(BodyRule::OfKind)
    }
}

// the go that a line tells, which begins with `go`
fn go_of(line: &[u8], rest: &[u8], names: u32, wanted: u32) -> Result<DecisionLine, BodyRule>
    requires are_words { AreWords (words_of line.now) }
    requires begins { words_of line.now ≡ codes "go" ∷ words_of rest.now }
    ensures read { IfOk result (λ b. (depth : ℕ) → IsBranch names wanted depth (words_of line.now) b) }
    ensures refused { IfErr result (λ rule. (depth : ℕ) → BreaksBranch names wanted depth (words_of line.now) rule) }
{
    match go_words(rest) {
        Ok((diamond, entry, mark)) => {
            if entry < wanted && is_mark(mark, names) {
                Ok(DecisionLine::Leaf(Decision::Go {
                    diamond,
                    entry,
                    mark,
                }))
            } else {
                Err(BodyRule::GoInRange)
            }
        }
        Err(rule) => Err(rule),
    }
}

// the diamond, the entry and the mark that these words tell
fn go_words(words: &[u8]) -> Result<(u32, u32, Mark), BodyRule>
    ensures read { IfOk result (λ g. (words_of words.now ≡ number g.0 ∷ number g.1 ∷ mark_words g.2) × (g.0 < 2 ^ 32) × (g.1 < 2 ^ 32) × FitsMark g.2) }
    ensures refused { IfErr result (LacksGo (words_of words.now)) }
{
    let (diamond, rest) = match more_words(words) {
        Some(split) => split,
        None => return Err(BodyRule::OfKind),
    };
    let (entry, rest) = match more_words(rest) {
        Some(split) => split,
        None => return Err(BodyRule::OfKind),
    };
    match mark_of(rest) {
        Ok(mark) => match read_number(diamond) {
            Some(diamond) => match read_number(entry) {
                Some(entry) => Ok((diamond, entry, mark)),
                None => Err(BodyRule::Numbers),
            },
            None => Err(BodyRule::Numbers),
        },
        Err(rule) => Err(rule),
    }
}

// the mark that these words tell
fn mark_of(words: &[u8]) -> Result<Mark, BodyRule>
    ensures read { IfOk result (λ m. (words_of words.now ≡ mark_words m) × FitsMark m) }
    ensures refused { IfErr result (LacksMark (words_of words.now)) }
{
    let (color, behind) = split_word(words);
    match behind {
        Some(rest) => {
            if color == b"red".as_slice() {
                match one_number(rest) {
                    Ok(name) => Ok(Mark::Red(name)),
                    Err(rule) => Err(rule),
                }
            } else if color == b"green".as_slice() {
                match one_number(rest) {
                    Ok(name) => Ok(Mark::Green(name)),
                    Err(rule) => Err(rule),
                }
            } else {
                Err(BodyRule::OfKind)
            }
        }
        None => {
            if color == b"neutral".as_slice() {
                Ok(Mark::Neutral)
            } else {
                Err(BodyRule::OfKind)
            }
        }
    }
}

// is the mark's name one of so many?
fn is_mark(mark: Mark, names: u32) -> bool
    ensures yes { IsTrue result → IsMarkOf names mark }
    ensures otherwise { result ≡ false → ¬ (IsMarkOf names mark) }
{
    match mark {
        Mark::Red(name) | Mark::Green(name) => name < names,
        Mark::Neutral => true,
    }
}

// the number that these words are, if they are one
fn one_number(words: &[u8]) -> Result<u32, BodyRule>
    ensures read { IfOk result (λ n. (words_of words.now ≡ number n ∷ []) × (n < 2 ^ 32)) }
    ensures refused { IfErr result (LacksNumbers 1 (words_of words.now)) }
{
    match one_word(words) {
        Some(word) => match read_number(word) {
            Some(n) => Ok(n),
            None => Err(BodyRule::Numbers),
        },
        None => Err(BodyRule::OfKind),
    }
}

// the numbers that these words are, if they are two
fn two_numbers(words: &[u8]) -> Result<(u32, u32), BodyRule>
    ensures read { IfOk result (λ p. (words_of words.now ≡ number p.0 ∷ number p.1 ∷ []) × (p.0 < 2 ^ 32) × (p.1 < 2 ^ 32)) }
    ensures refused { IfErr result (LacksNumbers 2 (words_of words.now)) }
{
    match two_words(words) {
        Some((first, second)) => match read_number(first) {
            Some(first) => match read_number(second) {
                Some(second) => Ok((first, second)),
                None => Err(BodyRule::Numbers),
            },
            None => Err(BodyRule::Numbers),
        },
        None => Err(BodyRule::OfKind),
    }
}
