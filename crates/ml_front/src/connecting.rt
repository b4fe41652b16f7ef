// Formulas of any logic, made of others.
ghost use Rattle.std.specs.Prelude.{◌≡◌, ◌<◌, ◌≤◌, IfOk, MatchOption};
ghost use Rattle.ml_text.specs.Limits.{most_occurrences};
ghost use Rattle.ml_front.specs.Connectives as connectives;
ghost use Rattle.ml_front.specs.Connectives.{both, AreOf};
ghost use Rattle.ml_front.specs.Logics.{logic_of};
ghost use Rattle.ml_front.specs.WellFormed.{IsWellFormed};
ghost use Rattle.ml_front.specs.private.JoinedSoFar.{IsWith};

use crate::{AnyFormula, Logic};
use ml_base::NoMemory;
use ml_text::MOST_OCCURRENCES;
use std::alloc::Global;

/// How many occurrences a formula has in its logic, at most 1,000.
///
/// Cost: linear in them. No call is nested deeper than the formula.
pub fn occurrences(formula: &AnyFormula) -> u32
    ensures number { result ≡ connectives.occurrences formula.now }
    ensures most { result ≤ MOST_OCCURRENCES }
{
    match formula {
        AnyFormula::Mu(formula) => ml_mu::occurrences(formula),
        AnyFormula::Pdl(formula) => ml_pdl::occurrences(formula),
        AnyFormula::Ctl(formula) => ml_ctl::occurrences(formula),
        AnyFormula::Ltl(formula) => ml_ltl::occurrences(formula),
        AnyFormula::Word(formula) => ml_ltl::occurrences(formula),
    }
}

/// What the types of formulas keep: each formula that the program holds is well formed. Does nothing when called.
pub fn keeps(formula: &AnyFormula)
    ensures { IsWellFormed formula.now }
{
    match formula {
        AnyFormula::Mu(formula) => {
            let _root = formula.root();
        }
        AnyFormula::Pdl(formula) => {
            let _root = formula.root();
        }
        AnyFormula::Ctl(formula) => {
            let _root = formula.root();
        }
        AnyFormula::Ltl(formula) | AnyFormula::Word(formula) => {
            let _root = formula.root();
        }
    }
}

/// `tt` in a logic.
pub fn truth(logic: Logic) -> AnyFormula
    ensures { result ≡ connectives.truth logic }
{
    match logic {
        Logic::Mu => AnyFormula::Mu(ml_mu::truth()),
        Logic::Pdl => AnyFormula::Pdl(ml_pdl::truth()),
        Logic::Ctl => AnyFormula::Ctl(ml_ctl::truth()),
        Logic::Ltl => AnyFormula::Ltl(ml_ctl::truth()),
        Logic::Word => AnyFormula::Word(ml_ctl::truth()),
    }
}

/// The negation of a formula; `None` exactly where it has more than 1,000 occurrences.
///
/// # Errors
/// `NoMemory` alone.
///
/// Cost: linear in the occurrences.
pub fn negation(alloc: Global, operand: AnyFormula) -> Result<Option<AnyFormula>, NoMemory>
    ensures { IfOk result (λ made. MatchOption made
        (most_occurrences < connectives.occurrences (connectives.negation operand))
        (λ f. f ≡ connectives.negation operand)) }
{
    match operand {
        AnyFormula::Mu(operand) => Ok(ml_mu::negation(alloc, operand)?.map(AnyFormula::Mu)),
        AnyFormula::Pdl(operand) => Ok(ml_pdl::negation(alloc, operand)?.map(AnyFormula::Pdl)),
        AnyFormula::Ctl(operand) => Ok(ml_ctl::negation(alloc, operand)?.map(AnyFormula::Ctl)),
        AnyFormula::Ltl(operand) => Ok(ml_ctl::negation(alloc, operand)?.map(AnyFormula::Ltl)),
        AnyFormula::Word(operand) => Ok(ml_ctl::negation(alloc, operand)?.map(AnyFormula::Word)),
    }
}

/// The conjunction of two formulas of one logic; `None` exactly where it has more than 1,000 occurrences.
///
/// # Errors
/// `NoMemory` alone.
///
/// Cost: linear in the occurrences.
pub fn conjunction(
    alloc: Global,
    left: AnyFormula,
    right: AnyFormula,
) -> Result<Option<AnyFormula>, NoMemory>
    requires { logic_of left ≡ logic_of right }
    ensures { IfOk result (λ made. MatchOption made
        (most_occurrences < connectives.occurrences (both left right))
        (λ f. f ≡ both left right)) }
{
    match (left, right) {
        (AnyFormula::Mu(left), AnyFormula::Mu(right)) => {
            Ok(ml_mu::conjunction(alloc, left, right)?.map(AnyFormula::Mu))
        }
        (AnyFormula::Pdl(left), AnyFormula::Pdl(right)) => {
            Ok(ml_pdl::conjunction(alloc, left, right)?.map(AnyFormula::Pdl))
        }
        (AnyFormula::Ctl(left), AnyFormula::Ctl(right)) => {
            Ok(ml_ctl::conjunction(alloc, left, right)?.map(AnyFormula::Ctl))
        }
        (AnyFormula::Ltl(left), AnyFormula::Ltl(right)) => {
            Ok(ml_ctl::conjunction(alloc, left, right)?.map(AnyFormula::Ltl))
        }
        (AnyFormula::Word(left), AnyFormula::Word(right)) => {
            Ok(ml_ctl::conjunction(alloc, left, right)?.map(AnyFormula::Word))
        }
        _ => unreachable!(),
    }
}

// what was joined so far, with one more behind it
fn with(
    alloc: Global,
    before: Option<AnyFormula>,
    part: AnyFormula,
) -> Result<Option<AnyFormula>, NoMemory>
    requires { MatchOption before (Unit {0}) (λ f. logic_of f ≡ logic_of part) }
    ensures { IfOk result (IsWith before part) }
{
    match before {
        Some(before) => conjunction(alloc, before, part),
        None => Ok(Some(part)),
    }
}

/// Formulas of one logic, grouped to the left by AND, and `tt` where there is none; `None` exactly where that has more than
/// 1,000 occurrences.
///
/// # Errors
/// `NoMemory` alone.
///
/// Cost: linear in the occurrences of the formulas times their number.
pub fn joined(
    alloc: Global,
    logic: Logic,
    parts: Vec<AnyFormula>,
) -> Result<Option<AnyFormula>, NoMemory>
    requires { AreOf logic parts.items }
    ensures { IfOk result (λ made. MatchOption made
        (most_occurrences < connectives.occurrences (connectives.joined logic parts.items))
        (λ f. f ≡ connectives.joined logic parts.items)) }
{
    let mut joined = None;
    for part in parts {
        match with(alloc, joined, part)? {
            Some(more) => joined = Some(more),
            None => return Ok(None),
        }
    }
    match joined {
        Some(joined) => Ok(Some(joined)),
        None => Ok(Some(truth(logic))),
    }
}
