// The three lines of a task, each with the rules that it may break.
ghost use Rattle.std.specs.Prelude.{◌≡◌, ◌∷◌, [], IfOk, IfErr, IsTrue, MatchOption, ◌++◌, length};
ghost use Rattle.std.specs.Option.{option_copied};
ghost use Rattle.ml_lines.specs.Lines.{Word, Line};
ghost use Rattle.ml_lines.specs.Reading.{words_of, words_behind, AreWords};
ghost use Rattle.ml_task.specs.TaskText.{IsNamesLine, names_rules, rules, task_lines, AtFormula};
ghost use Rattle.ml_task.specs.private.Stages as stages;
ghost use Rattle.ml_task.specs.private.Stages.{first_of, Tells, AreNamesRead, IsFormulaRead};

use crate::task::MOST_NAMES;
use crate::task_rule::TaskRule;
use crate::words::{add_names, knows, names_behind};
use indexmap::IndexSet;
use ml_base::{Name, ParseRefusal};
use ml_lines::{LineRefusal, are_words, split_line, split_word, text_behind};
use ml_ltl::{Formula, parse};
use std::alloc::Global;

// The first line of a text, without its LF, and what stands behind it; `None` where the text is empty. The last line may
// lack its LF.
pub(crate) fn next_line(text: &[u8]) -> Option<(&[u8], &[u8])>
    ensures { MatchOption result (task_lines text.now ≡ [])
        (λ p. task_lines text.now ≡ words_of p.0.now ∷ task_lines p.1.now) }
{
    match split_line(text) {
        Some(split) => Some(split),
        None => {
            if text.is_empty() {
                None
            } else {
                Some((text, &[]))
            }
        }
    }
}

// what stands behind the first word, where this is the fixed one and all are words
fn behind_word<'a>(line: &'a [u8], fixed: &[u8]) -> Option<Option<&'a [u8]>>
    ensures { MatchOption result (¬ (IsNamesLine fixed.now (words_of line.now)))
        (λ rest. (words_of line.now ≡ fixed.now ∷ words_behind (option_copied rest)) × AreWords (words_of line.now)) }
{
    let (first, rest) = split_word(line);
    if first == fixed && are_words(line) {
        Some(rest)
    } else {
        None
    }
}

// The names of a line that begins with a fixed word, and what stands behind the line. They are added to those that were
// seen.
pub(crate) fn names_line<'a>(
    alloc: Global,
    text: &'a [u8],
    fixed: &[u8],
    seen: &mut IndexSet<Name>,
) -> Result<(Vec<Name>, &'a [u8]), LineRefusal<TaskRule>>
    ensures read { IfOk result (λ r. AreNamesRead fixed.now seen.old.keys (task_lines text.now) r.0.items (task_lines r.1.now)) }
    ensures seen { IfOk result (λ r. seen.new.keys ≡ seen.old.keys ++ r.0.items) }
    ensures refused { IfErr result (Tells (names_rules fixed.now seen.old.keys) (first_of (task_lines text.now))) }
{
    match next_line(text) {
        Some((line, rest)) => Ok((names_of(alloc, line, fixed, seen)?, rest)),
        None => Err(LineRefusal::Breaks(TaskRule::OfKind)),
    }
}

// the names of a line
fn names_of(
    alloc: Global,
    line: &[u8],
    fixed: &[u8],
    seen: &mut IndexSet<Name>,
) -> Result<Vec<Name>, LineRefusal<TaskRule>>
    ensures read { IfOk result (λ names. AreNamesRead fixed.now seen.old.keys (words_of line.now ∷ []) names.items []) }
    ensures seen { IfOk result (λ names. seen.new.keys ≡ seen.old.keys ++ names.items) }
    ensures refused { IfErr result (Tells (names_rules fixed.now seen.old.keys) (words_of line.now)) }
{
    let Some(behind) = behind_word(line, fixed) else {
        return Err(LineRefusal::Breaks(TaskRule::OfKind));
    };
    let Some(names) = names_behind(alloc, behind)? else {
        return Err(LineRefusal::Breaks(TaskRule::Named));
    };
    if !add_names(seen, &names)? {
        return Err(LineRefusal::Breaks(TaskRule::New));
    }
    if seen.len() > MOST_NAMES {
        return Err(LineRefusal::Breaks(TaskRule::Few));
    }
    Ok(names)
}

// The formula of the line, which has names that were seen alone, and what stands behind the line.
pub(crate) fn formula_line<'a>(
    alloc: Global,
    text: &'a [u8],
    seen: &IndexSet<Name>,
) -> Result<(Formula, &'a [u8]), LineRefusal<TaskRule>>
    ensures read { IfOk result (λ r. IsFormulaRead seen.now.keys (task_lines text.now) r.0 (task_lines r.1.now)) }
    ensures refused { IfErr result (Tells (rules (AtFormula seen.now.keys)) (first_of (task_lines text.now))) }
{
    match next_line(text) {
        Some((line, rest)) => Ok((formula_of_line(alloc, line, seen)?, rest)),
        None => Err(LineRefusal::Breaks(TaskRule::OfKind)),
    }
}

// the formula of a line
fn formula_of_line(
    alloc: Global,
    line: &[u8],
    seen: &IndexSet<Name>,
) -> Result<Formula, LineRefusal<TaskRule>>
    ensures read { IfOk result (λ f. IsFormulaRead seen.now.keys (words_of line.now ∷ []) f []) }
    ensures refused { IfErr result (Tells (rules (AtFormula seen.now.keys)) (words_of line.now)) }
{
    let Some(given) = text_behind(line, b"formula") else {
        return Err(LineRefusal::Breaks(TaskRule::OfKind));
    };
    match parse(alloc, given) {
        Ok(formula) => {
            if knows(seen, formula.root()) {
                Ok(formula)
            } else {
                Err(LineRefusal::Breaks(TaskRule::Known))
            }
        }
        Err(refusal) => Err(formula_refusal(refusal)),
    }
}

// the refusal of a line whose text the parser refuses
fn formula_refusal(refusal: ParseRefusal) -> LineRefusal<TaskRule>
    ensures { result ≡ stages.formula_refusal refusal }
{
    match refusal {
        ParseRefusal::NoMemory => LineRefusal::NoMemory,
        ParseRefusal::Syntax { .. }
        | ParseRefusal::Unbound { .. }
        | ParseRefusal::NotPositive { .. }
        | ParseRefusal::TooMany { .. }
        | ParseRefusal::TooNested { .. }
        | ParseRefusal::NameTooLong { .. } => LineRefusal::Breaks(TaskRule::Parses),
    }
}
