// Formulas made of formulas: negations and conjunctions.
ghost use Rattle.std.specs.Prelude.{◌≡◌, ◌<◌, true, IfOk, MatchOption};
ghost use Rattle.ml_text.specs.Limits.{most_occurrences};
ghost use Rattle.ml_text.specs.declared.token.Operator.TheVariants.{And};
ghost use Rattle.ml_pdl.specs.Formula as plain;
ghost use Rattle.ml_pdl.specs.Formula.{occurrences};

use crate::copying::occurrences;
use crate::{Formula, Term};
use ml_base::NoMemory;
use ml_text::{MOST_OCCURRENCES, Operator};
use std::alloc::Global;

/// `tt`.
pub fn truth() -> Formula
    ensures { result ≡ plain.Const true }
{
    Formula::new(Term::Const(true))
}

/// The negation of a formula; `None` exactly where it has more than 1,000 occurrences.
///
/// # Errors
/// `NoMemory` alone.
///
/// Cost: linear in the occurrences.
#[tactic(auto, using(crate::proofs::Connected::negation_is_held))]
pub fn negation(alloc: Global, operand: Formula) -> Result<Option<Formula>, NoMemory>
    ensures { IfOk result (λ made. MatchOption made
        (most_occurrences < occurrences (plain.Not operand))
        (λ f. f ≡ plain.Not operand)) }
{
    if occurrences(&operand) == MOST_OCCURRENCES {
        return Ok(None);
    }
    let operand = Box::new(alloc, operand.into_root())?;
    Ok(Some(Formula::new(Term::Not(operand))))
}

/// The conjunction of two formulas; `None` exactly where it has more than 1,000 occurrences.
///
/// # Errors
/// `NoMemory` alone.
///
/// Cost: linear in the occurrences.
#[tactic(auto, using(crate::proofs::Connected::conjunction_is_held))]
pub fn conjunction(
    alloc: Global,
    left: Formula,
    right: Formula,
) -> Result<Option<Formula>, NoMemory>
    ensures { IfOk result (λ made. MatchOption made
        (most_occurrences < occurrences (plain.Binary And left right))
        (λ f. f ≡ plain.Binary And left right)) }
{
    if occurrences(&left) + occurrences(&right) >= MOST_OCCURRENCES {
        return Ok(None);
    }
    let left = Box::new(alloc, left.into_root())?;
    let right = Box::new(alloc, right.into_root())?;
    Ok(Some(Formula::new(Term::Binary(Operator::And, left, right))))
}
