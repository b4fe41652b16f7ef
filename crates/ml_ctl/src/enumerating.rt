// Formulas that say that exactly one of some propositions is true.
ghost use Rattle.std.specs.Prelude.{◌≡◌, ◌<◌, false, IfOk, MatchOption};
ghost use Rattle.ml_text.specs.Limits.{most_occurrences};
ghost use Rattle.ml_ctl.specs.Enumerations as enumerations;
ghost use Rattle.ml_ctl.specs.Enumerations.{enumeration, first_half, second_half, ArePropositions};
ghost use Rattle.ml_ctl.specs.Formula as plain;
ghost use Rattle.ml_ctl.specs.Formula.{occurrences};
ghost use Rattle.ml_ctl.specs.private.HeldAs.{IsHeldAs};

use crate::connecting::{always, connected, negation, proposition, truth};
use crate::{FormulaOf, Term, Words};
use ml_base::{Name, NoMemory};
use ml_text::Operator;
use std::alloc::Global;

/// That exactly one of some propositions is true at each moment; `None` exactly where that has more than 1,000 occurrences.
///
/// It is made by halves, so that about 50 propositions have room.
///
/// # Errors
/// `NoMemory` alone.
///
/// Cost: linear in the lengths of the names, times the logarithm of their number, to which calls are nested.
pub fn enumeration<W: Words>(
    alloc: Global,
    names: &[Name],
) -> Result<Option<FormulaOf<W>>, NoMemory>
    requires propositions { ArePropositions names.now }
    ensures { IfOk result (λ made. MatchOption made
        (most_occurrences < occurrences (enumeration W.language names.now))
        (λ f. f ≡ enumeration W.language names.now)) }
{
    match one(alloc, names)? {
        Some(one) => always(alloc, one),
        None => Ok(None),
    }
}

// a list in two halves
fn halves(names: &[Name]) -> (&[Name], &[Name])
    ensures first { result.0.now ≡ first_half names.now }
    ensures second { result.1.now ≡ second_half names.now }
{
    names.split_at(names.len().div_ceil(2))
}

// a connective between what two formulas were made to, where all of them are small enough
fn between<W: Words>(
    alloc: Global,
    operator: Operator,
    left: Option<FormulaOf<W>>,
    right: Option<FormulaOf<W>>,
) -> Result<Option<FormulaOf<W>>, NoMemory>
    ensures { (f g : plain.Formula) → IsHeldAs f left → IsHeldAs g right
        → IfOk result (IsHeldAs (plain.Binary operator f g)) }
{
    match (left, right) {
        (Some(left), Some(right)) => connected(alloc, operator, left, right),
        _ => Ok(None),
    }
}

// none of the propositions is true
fn none<W: Words>(alloc: Global, names: &[Name]) -> Result<Option<FormulaOf<W>>, NoMemory>
    requires propositions { ArePropositions names.now }
    ensures { IfOk result (IsHeldAs (enumerations.none names.now)) }
{
    match names {
        [] => Ok(Some(truth())),
        [name] => negation(alloc, proposition(name)?),
        _ => {
            let (first, second) = halves(names);
            let first = none(alloc, first)?;
            let second = none(alloc, second)?;
            between(alloc, Operator::And, first, second)
        }
    }
}

// exactly one of the propositions is true
fn one<W: Words>(alloc: Global, names: &[Name]) -> Result<Option<FormulaOf<W>>, NoMemory>
    requires propositions { ArePropositions names.now }
    ensures { IfOk result (IsHeldAs (enumerations.one names.now)) }
{
    match names {
        [] => Ok(Some(FormulaOf::new(Term::Const(false)))),
        [name] => Ok(Some(proposition(name)?)),
        _ => {
            let (first, second) = halves(names);
            let in_first = between(
                alloc,
                Operator::And,
                one(alloc, first)?,
                none(alloc, second)?,
            )?;
            let in_second = between(
                alloc,
                Operator::And,
                none(alloc, first)?,
                one(alloc, second)?,
            )?;
            between(alloc, Operator::Or, in_first, in_second)
        }
    }
}
