// Formulas joined: those of some requirements, and what a question asks for.
//
// A formula that is joined to others counts one more than its occurrences, for the AND in front of it; so does the first, which
// has none, and formulas that are joined have one occurrence less than that. So it is known whether they are too long before
// any of them is copied.
ghost use Rattle.std.specs.Prelude.{◌≡◌, ◌≤◌, ◌<◌, ◌+◌, [], ◌∷◌, ◌++◌, false, length, IfOk, IfSome, MatchOption};
ghost use Rattle.ml_text.specs.Limits.{most_occurrences};
ghost use Rattle.ml_front.specs.Connectives as connectives;
ghost use Rattle.ml_front.specs.Logics.{IsWellFormed};
ghost use Rattle.ml_spec.specs.Joined as spec;
ghost use Rattle.ml_spec.specs.Joined.{requirements};
ghost use Rattle.ml_spec.specs.Questions.{asked_by, chosen, is_in, joined_of, parts_of, IsQuestion};
ghost use Rattle.ml_spec.specs.Specification.{IsSpecified};
ghost use Rattle.ml_spec.specs.private.Sizes.{total};

use crate::kind::Kind;
use crate::question::Question;
use crate::specification::{Item, MOST_ITEMS, Specification};
use ml_base::NoMemory;
use ml_front::{AnyFormula, Problem, copy_formula, keeps, negation, occurrences};
use ml_text::MOST_OCCURRENCES;
use std::alloc::Global;

/// The plain problem of the joined formula of some requirements and a question: the formulas of the requirements, in the order
/// of the specification and grouped to the left by AND, and behind them the question's formula, for `follows` its negation.
/// Where nothing is joined it is `tt`. `None` exactly where it has more than 1,000 occurrences.
///
/// `taken` tells of each item whether it is among the requirements; at other items it says nothing.
///
/// # Errors
/// `NoMemory` alone.
///
/// Cost: linear in the items and the occurrences of their formulas; where the problem comes, also in its occurrences times the
/// requirements in it.
pub fn joined(
    alloc: Global,
    specification: &Specification,
    taken: &[bool],
    question: Question,
) -> Result<Option<Problem>, NoMemory>
    requires specified { IsSpecified specification.now.logic specification.now.items.items }
    requires taken { length taken.now ≡ length specification.now.items.items }
    requires question { IsQuestion specification.now.items.items question }
    ensures formula { IfOk result (λ made. MatchOption made
        (most_occurrences < connectives.occurrences
        (joined_of specification.now.logic (is_in taken.now) specification.now.items.items question))
        (λ p. p.formula ≡ joined_of specification.now.logic (is_in taken.now) specification.now.items.items question)) }
    ensures plain { IfOk result (λ made. IfSome made (λ p. p.negated ≡ false)) }
    ensures well_formed { IfOk result (λ made. IfSome made (λ p. IsWellFormed p.formula)) }
{
    let total = total_of(&specification.items, taken, question);
    if total > MOST_OCCURRENCES + 1 {
        return Ok(None);
    }
    let parts = parts_of(alloc, &specification.items, taken, question)?;
    match ml_front::joined(alloc, specification.logic, parts)? {
        Some(formula) => Ok(Some(plain(formula))),
        None => Ok(None),
    }
}

// the plain problem of a formula
fn plain(formula: AnyFormula) -> Problem
    ensures formula { result.formula ≡ formula }
    ensures plain { result.negated ≡ false }
    ensures well_formed { IsWellFormed formula }
{
    keeps(&formula);
    Problem {
        formula,
        negated: false,
    }
}

// ---- how long formulas are that are joined

// how many occurrences what the item asks for has
fn asked_occurrences(item: &Item) -> u32
    ensures number { result ≡ connectives.occurrences (spec.asked item.now) }
    ensures most { result ≤ MOST_OCCURRENCES + 1 }
{
    match item.kind {
        Kind::Require | Kind::Possible => occurrences(&item.formula),
        Kind::Follows => occurrences(&item.formula) + 1,
    }
}

// what the question adds to requirements
fn added_by(items: &[Item], question: Question) -> u32
    requires { IsQuestion items.now question }
    ensures number { result ≡ total (asked_by items.now question) }
    ensures most { result ≤ MOST_OCCURRENCES + 2 }
{
    match question {
        Question::Consistent | Question::Rest => 0,
        Question::Asks(number) => asked_occurrences(&items[number]) + 1,
    }
}

// the sum of all that is joined
fn total_of(items: &[Item], taken: &[bool], question: Question) -> u32
    requires few { length items.now ≤ MOST_ITEMS }
    requires taken { length taken.now ≡ length items.now }
    requires question { IsQuestion items.now question }
    ensures { result ≡ total (parts_of (is_in taken.now) items.now question) }
{
    let mut sum = added_by(items, question);
    for number in 0..items.len() {
        let item = &items[number];
        if taken[number] && item.kind.is_requirement() {
            sum += occurrences(&item.formula) + 1;
        }
    }
    sum
}

// ---- the formulas that are joined

// the formulas that are joined, which aren't too long
fn parts_of(
    alloc: Global,
    items: &[Item],
    taken: &[bool],
    question: Question,
) -> Result<Vec<AnyFormula>, NoMemory>
    requires taken { length taken.now ≡ length items.now }
    requires question { IsQuestion items.now question }
    requires fits { total (parts_of (is_in taken.now) items.now question) ≤ most_occurrences + 1 }
    ensures { IfOk result (λ parts. parts.items ≡ parts_of (is_in taken.now) items.now question) }
{
    let parts = requirements_of(alloc, items, taken)?;
    match question {
        Question::Consistent | Question::Rest => Ok(parts),
        Question::Asks(number) => with_asked(alloc, parts, &items[number]),
    }
}

// these, and behind them what an item asks for
fn with_asked(
    alloc: Global,
    parts: Vec<AnyFormula>,
    item: &Item,
) -> Result<Vec<AnyFormula>, NoMemory>
    requires { connectives.occurrences (spec.asked item.now) ≤ most_occurrences }
    ensures { IfOk result (λ all. all.items ≡ parts.items ++ spec.asked item.now ∷ []) }
{
    match asked_by_item(alloc, item)? {
        Some(asked) => with_one(parts, asked),
        None => unreachable!(),
    }
}

fn with_one(mut parts: Vec<AnyFormula>, more: AnyFormula) -> Result<Vec<AnyFormula>, NoMemory>
    ensures { IfOk result (λ all. all.items ≡ parts.items ++ more ∷ []) }
{
    parts.push(more)?;
    Ok(parts)
}

// the formulas of the requirements that are taken
fn requirements_of(
    alloc: Global,
    items: &[Item],
    taken: &[bool],
) -> Result<Vec<AnyFormula>, NoMemory>
    requires taken { length taken.now ≡ length items.now }
    ensures { IfOk result (λ parts. parts.items ≡ requirements (chosen (is_in taken.now) items.now)) }
{
    let mut parts = Vec::new(alloc);
    for number in 0..items.len() {
        let item = &items[number];
        if taken[number] && item.kind.is_requirement() {
            parts.push(copy_formula(alloc, &item.formula)?)?;
        }
    }
    Ok(parts)
}

// what an item asks for; `None` where that is too long
fn asked_by_item(alloc: Global, item: &Item) -> Result<Option<AnyFormula>, NoMemory>
    ensures { IfOk result (λ made. MatchOption made
        (most_occurrences < connectives.occurrences (spec.asked item.now)) (λ f. f ≡ spec.asked item.now)) }
{
    let formula = copy_formula(alloc, &item.formula)?;
    match item.kind {
        Kind::Require | Kind::Possible => Ok(Some(formula)),
        Kind::Follows => negation(alloc, formula),
    }
}
