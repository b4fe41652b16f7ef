// Formulas made of formulas: negations, connectives, what holds at each moment, and the operand of the quantifier with which
// one begins.
ghost use Rattle.std.specs.Prelude.{◌≡◌, ◌<◌, ◌+◌, ◌≤◌, true, IfOk, MatchOption};
ghost use Rattle.ml_text.specs.Limits.{most_occurrences};
ghost use Rattle.ml_text.specs.declared.token.Operator.TheVariants.{And};
ghost use Rattle.ml_ctl.specs.Enumerations.{always};
ghost use Rattle.ml_ctl.specs.Formula as plain;
ghost use Rattle.ml_ctl.specs.Formula.{occurrences};
ghost use Rattle.ml_ctl.specs.Quantifiers.{Quantifies, QuantifiesNone};
ghost use Rattle.ml_ctl.specs.Sorts.{is_linear};
ghost use Rattle.ml_ctl.specs.Spelling.{is_proposition};
ghost use Rattle.ml_ctl.specs.Term.{formula_of};
ghost use Rattle.ml_ctl.specs.WellFormed.{IsWellFormed};

use crate::copying::{copy_term, occurrences};
use crate::{Formula, FormulaOf, Language, Ltl, Quantifier, Tense, Term, Words};
use ml_base::{Name, NoMemory};
use ml_text::{MOST_OCCURRENCES, Operator};
use std::alloc::Global;

/// `tt`.
pub fn truth<W: Words>() -> FormulaOf<W>
    ensures { result ≡ plain.Const true }
{
    FormulaOf::new(Term::Const(true))
}

/// The negation of a formula; `None` exactly where it has more than 1,000 occurrences.
///
/// # Errors
/// `NoMemory` alone.
///
/// Cost: linear in the occurrences.
#[tactic(auto, using(crate::proofs::Connected::negation_is_held))]
pub fn negation<W: Words>(
    alloc: Global,
    operand: FormulaOf<W>,
) -> Result<Option<FormulaOf<W>>, NoMemory>
    ensures { IfOk result (λ made. MatchOption made
        (most_occurrences < occurrences (plain.Not operand))
        (λ f. f ≡ plain.Not operand)) }
{
    if occurrences(&operand) == MOST_OCCURRENCES {
        return Ok(None);
    }
    let operand = Box::new(alloc, operand.into_root())?;
    Ok(Some(FormulaOf::new(Term::Not(operand))))
}

/// The conjunction of two formulas; `None` exactly where it has more than 1,000 occurrences.
///
/// # Errors
/// `NoMemory` alone.
///
/// Cost: linear in the occurrences.
pub fn conjunction<W: Words>(
    alloc: Global,
    left: FormulaOf<W>,
    right: FormulaOf<W>,
) -> Result<Option<FormulaOf<W>>, NoMemory>
    ensures { IfOk result (λ made. MatchOption made
        (most_occurrences < occurrences (plain.Binary And left right))
        (λ f. f ≡ plain.Binary And left right)) }
{
    connected(alloc, Operator::And, left, right)
}

/// Two formulas with a connective between them; `None` exactly where that has more than 1,000 occurrences.
#[tactic(auto, using(crate::proofs::Connected::connective_is_held))]
pub(crate) fn connected<W: Words>(
    alloc: Global,
    operator: Operator,
    left: FormulaOf<W>,
    right: FormulaOf<W>,
) -> Result<Option<FormulaOf<W>>, NoMemory>
    ensures { IfOk result (λ made. MatchOption made
        (most_occurrences < occurrences (plain.Binary operator left right))
        (λ f. f ≡ plain.Binary operator left right)) }
{
    if operator.weight() + occurrences(&left) + occurrences(&right) > MOST_OCCURRENCES {
        return Ok(None);
    }
    let left = Box::new(alloc, left.into_root())?;
    let right = Box::new(alloc, right.into_root())?;
    Ok(Some(FormulaOf::new(Term::Binary(operator, left, right))))
}

/// A proposition.
///
/// # Errors
/// `NoMemory` alone.
///
/// Cost: linear in the name's length.
#[tactic(auto, using(crate::proofs::Connected::proposition_is_held))]
pub fn proposition<W: Words>(name: &Name) -> Result<FormulaOf<W>, NoMemory>
    requires { is_proposition name.now ≡ true }
    ensures { IfOk result (λ f. f ≡ plain.Prop name.now) }
{
    let _is_name = name.bytes();
    Ok(FormulaOf::new(Term::Prop(name.copy()?)))
}

/// That a formula holds at each moment: `G f` in LTL, `A G f` in CTL*; `None` exactly where that has more than 1,000
/// occurrences.
///
/// # Errors
/// `NoMemory` alone.
///
/// Cost: linear in the occurrences.
#[tactic(auto, using(crate::proofs::Connected::always_is_held))]
pub fn always<W: Words>(
    alloc: Global,
    operand: FormulaOf<W>,
) -> Result<Option<FormulaOf<W>>, NoMemory>
    ensures { IfOk result (λ made. MatchOption made
        (most_occurrences < occurrences (always W.language operand))
        (λ f. f ≡ always W.language operand)) }
{
    let language = W::which();
    if always_weight(language) + occurrences(&operand) > MOST_OCCURRENCES {
        return Ok(None);
    }
    let root = always_term(alloc, language, operand.into_root())?;
    Ok(Some(FormulaOf::new(root)))
}

// how many occurrences the operators are that say "at each moment"
fn always_weight(language: Language) -> u32
    ensures weight { (f : plain.Formula) → occurrences (always language f) ≡ result + occurrences f }
    ensures most { result ≤ 2 }
{
    match language {
        Language::Ctl => 2,
        Language::Ltl => 1,
    }
}

// the tree under the operators that say "at each moment"
fn always_term(alloc: Global, language: Language, operand: Term) -> Result<Term, NoMemory>
    ensures { IfOk result (λ made. formula_of made ≡ always language (formula_of operand)) }
{
    let globally = Term::Temporal(Tense::Globally, Box::new(alloc, operand)?);
    match language {
        Language::Ctl => Ok(Term::Quantified(Quantifier::Forall, Box::new(alloc, globally)?)),
        Language::Ltl => Ok(globally),
    }
}

// has the tree no quantifier?
fn is_linear(term: &Term) -> bool
    ensures { result ≡ is_linear (formula_of term.now) }
{
    match term {
        Term::Const(_) | Term::Prop(_) => true,
        Term::Not(operand) | Term::Temporal(_, operand) => is_linear(operand),
        Term::Binary(_, left, right) | Term::Paired(_, left, right) => {
            is_linear(left) && is_linear(right)
        }
        Term::Quantified(_, _) => false,
    }
}

// the operand of a quantifier as a formula of LTL
#[tactic(auto, using(crate::proofs::Connected::operand_is_held))]
fn linear(
    alloc: Global,
    operand: &Term,
    _quantifier: Quantifier,
) -> Result<FormulaOf<Ltl>, NoMemory>
    requires held { IsWellFormed Language.Ctl (plain.Quantified _quantifier (formula_of operand.now)) }
    requires linear { is_linear (formula_of operand.now) ≡ true }
    ensures { IfOk result (λ f. f ≡ formula_of operand.now) }
{
    let root = copy_term(alloc, operand)?;
    Ok(FormulaOf::new(root))
}

/// The quantifier with which a formula of CTL* begins, and its operand as a formula of LTL; `None` exactly where the formula
/// doesn't begin with a quantifier, or its operand has one.
///
/// # Errors
/// `NoMemory` alone.
///
/// Cost: that of `copy`.
pub fn quantified(
    alloc: Global,
    formula: &Formula,
) -> Result<Option<(Quantifier, FormulaOf<Ltl>)>, NoMemory>
    ensures { IfOk result (λ found. MatchOption found
        (QuantifiesNone formula.now)
        (λ x. Quantifies formula.now x.0 x.1)) }
{
    match formula.root() {
        Term::Quantified(quantifier, operand) => {
            if is_linear(operand) {
                Ok(Some((*quantifier, linear(alloc, operand, *quantifier)?)))
            } else {
                Ok(None)
            }
        }
        Term::Const(_)
        | Term::Prop(_)
        | Term::Not(_)
        | Term::Binary(_, _, _)
        | Term::Temporal(_, _)
        | Term::Paired(_, _, _) => Ok(None),
    }
}
