// Formulas copied, and their occurrences counted.
ghost use Rattle.std.specs.Prelude.{◌≡◌, ◌≤◌, IfOk};
ghost use Rattle.ml_mu.specs.Formula.{occurrences};
ghost use Rattle.ml_mu.specs.Term.{formula_of};

use crate::{Formula, Term};
use ml_base::NoMemory;
use ml_text::{MOST_OCCURRENCES, Operator};
use std::alloc::Global;

/// An equal formula.
///
/// # Errors
/// `NoMemory` alone.
///
/// Cost: linear in the occurrences and the lengths of the names. No call is nested deeper than the formula.
pub fn copy(alloc: Global, formula: &Formula) -> Result<Formula, NoMemory>
    ensures { IfOk result (λ copied. copied ≡ formula.now) }
{
    let root = copy_term(alloc, formula.root())?;
    Ok(Formula::new(root))
}

// an equal tree
#[cycle(copier)]
pub(crate) fn copy_term(alloc: Global, term: &Term) -> Result<Term, NoMemory>
    ensures { IfOk result (λ copied. formula_of copied ≡ formula_of term.now) }
{
    match term {
        Term::Const(value) => Ok(Term::Const(*value)),
        Term::Prop(name) => Ok(Term::Prop(name.copy()?)),
        Term::Var(name) => Ok(Term::Var(name.copy()?)),
        Term::Not(operand) => Ok(Term::Not(copy_operand(alloc, operand)?)),
        Term::Binary(operator, left, right) => {
            let left = copy_operand(alloc, left)?;
            let right = copy_operand(alloc, right)?;
            Ok(Term::Binary(*operator, left, right))
        }
        Term::Modal(modality, action, operand) => {
            let operand = copy_operand(alloc, operand)?;
            Ok(Term::Modal(*modality, action.copy()?, operand))
        }
        Term::Binder(fixpoint, name, body) => {
            let body = copy_operand(alloc, body)?;
            Ok(Term::Binder(*fixpoint, name.copy()?, body))
        }
    }
}

#[cycle(copier)]
fn copy_operand(alloc: Global, operand: &Term) -> Result<Box<Term>, NoMemory>
    ensures { IfOk result (λ copied. formula_of copied.value ≡ formula_of operand.now) }
{
    let copied = copy_term(alloc, operand)?;
    Ok(Box::new(alloc, copied)?)
}

/// How many occurrences a formula has, from 1 to 1,000: constants, propositions, variables, operators, modalities and
/// binders, where an iff counts as three.
///
/// Cost: linear in them. No call is nested deeper than the formula.
pub fn occurrences(formula: &Formula) -> u32
    ensures number { result ≡ occurrences formula.now }
    ensures range { (1 ≤ result) × (result ≤ MOST_OCCURRENCES) }
{
    count(formula.root())
}

fn count(term: &Term) -> u32
    requires { occurrences (formula_of term.now) ≤ MOST_OCCURRENCES }
    ensures number { result ≡ occurrences (formula_of term.now) }
    ensures some { 1 ≤ result }
{
    match term {
        Term::Const(_) | Term::Prop(_) | Term::Var(_) => 1,
        Term::Not(operand) | Term::Modal(_, _, operand) => 1 + count(operand),
        Term::Binder(_, _, body) => 1 + count(body),
        Term::Binary(Operator::Iff, left, right) => 3 + count(left) + count(right),
        Term::Binary(_, left, right) => 1 + count(left) + count(right),
    }
}
