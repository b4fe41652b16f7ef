// Formulas copied, and their occurrences counted.
ghost use Rattle.std.specs.Prelude.{◌≡◌, ◌≤◌, IfOk};
ghost use Rattle.ml_ctl.specs.Formula.{occurrences};
ghost use Rattle.ml_ctl.specs.Term.{formula_of};

use crate::{FormulaOf, Term, Words};
use ml_base::NoMemory;
use ml_text::{MOST_OCCURRENCES, Operator};
use std::alloc::Global;

/// An equal formula.
///
/// # Errors
/// `NoMemory` alone.
///
/// Cost: linear in the occurrences and the lengths of the names. No call is nested deeper than the formula.
pub fn copy<W: Words>(alloc: Global, formula: &FormulaOf<W>) -> Result<FormulaOf<W>, NoMemory>
    ensures { IfOk result (λ copied. copied ≡ formula.now) }
{
    let root = copy_term(alloc, formula.root())?;
    Ok(FormulaOf::new(root))
}

// an equal tree
#[cycle(copier)]
pub(crate) fn copy_term(alloc: Global, term: &Term) -> Result<Term, NoMemory>
    ensures { IfOk result (λ copied. formula_of copied ≡ formula_of term.now) }
{
    match term {
        Term::Const(value) => Ok(Term::Const(*value)),
        Term::Prop(name) => Ok(Term::Prop(name.copy()?)),
        Term::Not(operand) => Ok(Term::Not(copy_operand(alloc, operand)?)),
        Term::Binary(operator, left, right) => {
            let (left, right) = copy_operands(alloc, left, right)?;
            Ok(Term::Binary(*operator, left, right))
        }
        Term::Temporal(tense, operand) => Ok(Term::Temporal(*tense, copy_operand(alloc, operand)?)),
        Term::Paired(pairing, left, right) => {
            let (left, right) = copy_operands(alloc, left, right)?;
            Ok(Term::Paired(*pairing, left, right))
        }
        Term::Quantified(quantifier, operand) => {
            Ok(Term::Quantified(*quantifier, copy_operand(alloc, operand)?))
        }
    }
}

#[cycle(copier)]
fn copy_operand(alloc: Global, operand: &Term) -> Result<Box<Term>, NoMemory>
    ensures { IfOk result (λ copied. formula_of copied.value ≡ formula_of operand.now) }
{
    let copied = copy_term(alloc, operand)?;
    Ok(Box::new(alloc, copied)?)
}

#[cycle(copier)]
fn copy_operands(
    alloc: Global,
    left: &Term,
    right: &Term,
) -> Result<(Box<Term>, Box<Term>), NoMemory>
    ensures left { IfOk result (λ copied. formula_of copied.0.value ≡ formula_of left.now) }
    ensures right { IfOk result (λ copied. formula_of copied.1.value ≡ formula_of right.now) }
{
    let left = copy_operand(alloc, left)?;
    let right = copy_operand(alloc, right)?;
    Ok((left, right))
}

/// How many occurrences a formula has, from 1 to 1,000: constants, propositions, operators and quantifiers, where an iff
/// counts as three.
///
/// Cost: linear in them. No call is nested deeper than the formula.
pub fn occurrences<W: Words>(formula: &FormulaOf<W>) -> u32
    ensures number { result ≡ occurrences formula.now }
    ensures range { (1 ≤ result) × (result ≤ MOST_OCCURRENCES) }
{
    count_term(formula.root())
}

/// How many occurrences a tree has, where they are at most 1,000.
///
/// Cost: linear in them. No call is nested deeper than the tree.
pub fn count_term(term: &Term) -> u32
    requires { occurrences (formula_of term.now) ≤ MOST_OCCURRENCES }
    ensures number { result ≡ occurrences (formula_of term.now) }
    ensures some { 1 ≤ result }
{
    match term {
        Term::Const(_) | Term::Prop(_) => 1,
        Term::Not(operand) | Term::Temporal(_, operand) | Term::Quantified(_, operand) => {
            1 + count_term(operand)
        }
        Term::Binary(Operator::Iff, left, right) => 3 + count_term(left) + count_term(right),
        Term::Binary(_, left, right) | Term::Paired(_, left, right) => {
            1 + count_term(left) + count_term(right)
        }
    }
}
