// Formulas written out.
ghost use Rattle.std.specs.Prelude.{◌≡◌, ◌<◌, ◌≤◌, IfOk, MatchOption};
ghost use Rattle.ml_text.specs.Limits.{most_occurrences};
ghost use Rattle.ml_ctl.specs.Formula as ltl;
ghost use Rattle.ml_ctl.specs.Term as ltl_term;
ghost use Rattle.ml_bounded.specs.Term.{formula_of};
ghost use Rattle.ml_bounded.specs.WrittenOut.{connective, meant, nexts, within, written_out};

use crate::{Bound, BoundedFormula, Reach, Term};
use ml_base::NoMemory;
use ml_ctl::{FormulaOf, Ltl, Tense};
use ml_text::{MOST_OCCURRENCES, Operator};
use std::alloc::Global;

/// The formula of LTL that a formula with bounded operators stands for; `None` exactly where it has more than 1,000
/// occurrences.
///
/// # Errors
/// `NoMemory` alone.
///
/// Cost: linear in the occurrences of the formula and of the one that is written out. The size is found first, and where it
/// is too large nothing is written. No call is nested deeper than three times the formula.
///
/// `F[1:2] p` is written out as `X (p | X p)`.
#[tactic(auto, using(crate::proofs::WrittenOut::written_well))]
pub fn written_out(
    alloc: Global,
    formula: &BoundedFormula,
) -> Result<Option<FormulaOf<Ltl>>, NoMemory>
    ensures { IfOk result (λ made. MatchOption made
        (most_occurrences < ltl.occurrences (written_out formula.now))
        (λ f. f ≡ written_out formula.now)) }
{
    if written_size(formula.root()).is_none() {
        return Ok(None);
    }
    let root = write_term(alloc, formula.root())?;
    Ok(Some(FormulaOf::new(root)))
}

// ---- sizes

// a size, if it is within the limit
fn within_limit(size: u32) -> Option<u32>
    ensures { MatchOption result (most_occurrences < size) (λ n. (n ≡ size) × (n ≤ most_occurrences)) }
{
    if size <= MOST_OCCURRENCES {
        Some(size)
    } else {
        None
    }
}

// how many occurrences a bounded operator has, written out with an operand of this size
fn bounded_size(bound: Bound, operand: u32) -> u32
    requires { operand ≤ most_occurrences }
    ensures { (f : ltl.Formula) → ltl.occurrences f ≡ operand → result ≡ ltl.occurrences (meant bound f) }
{
    match bound {
        Bound::Next(count) => u32::from(count) + operand,
        Bound::Within(_, first, last) => {
            let more = u32::from(last.saturating_sub(first));
            u32::from(first) + operand + more * (operand + 2)
        }
    }
}

// how many occurrences a formula has, written out, if they are within the limit
#[tactic(auto, using(crate::proofs::WrittenOut::meant_grows))]
fn written_size(term: &Term) -> Option<u32>
    ensures { let size = ltl.occurrences (written_out (formula_of term.now)) in
        MatchOption result (most_occurrences < size) (λ n. (n ≡ size) × (n ≤ most_occurrences)) }
{
    match term {
        Term::Const(_) | Term::Prop(_) => Some(1),
        Term::Not(operand) | Term::Temporal(_, operand) => {
            within_limit(1 + written_size(operand)?)
        }
        Term::Binary(operator, left, right) => {
            within_limit(operator.weight() + written_size(left)? + written_size(right)?)
        }
        Term::Paired(_, left, right) => within_limit(
            1 + written_size(left)? + written_size(right)?,
        ),
        Term::Bounded(bound, operand) => {
            within_limit(bounded_size(*bound, written_size(operand)?))
        }
    }
}

// ---- trees

// a tree behind so many times X
#[tactic(auto, using(crate::proofs::WrittenOut::one_next))]
fn write_nexts(alloc: Global, count: u16, term: ml_ctl::Term) -> Result<ml_ctl::Term, NoMemory>
    ensures { IfOk result (λ made. ltl_term.formula_of made ≡ nexts count (ltl_term.formula_of term)) }
{
    let mut made = term;
    let mut done = 0;
    while done < count {
        made = ml_ctl::Term::Temporal(Tense::Next, Box::new(alloc, made)?);
        done += 1;
    }
    Ok(made)
}

fn connective(reach: Reach) -> Operator
    ensures { result ≡ connective reach }
{
    match reach {
        Reach::Eventually => Operator::Or,
        Reach::Always => Operator::And,
    }
}

// Each operand is written as often as it stands in what is made, so no tree is written in vain.
#[cycle(writer)]
fn write_term(alloc: Global, term: &Term) -> Result<ml_ctl::Term, NoMemory>
    ensures { IfOk result (λ made. ltl_term.formula_of made ≡ written_out (formula_of term.now)) }
{
    match term {
        Term::Const(value) => Ok(ml_ctl::Term::Const(*value)),
        Term::Prop(name) => Ok(ml_ctl::Term::Prop(name.copy()?)),
        Term::Not(operand) => Ok(ml_ctl::Term::Not(write_boxed(alloc, operand)?)),
        Term::Binary(operator, left, right) => {
            let left = write_boxed(alloc, left)?;
            let right = write_boxed(alloc, right)?;
            Ok(ml_ctl::Term::Binary(*operator, left, right))
        }
        Term::Temporal(tense, operand) => {
            Ok(ml_ctl::Term::Temporal(*tense, write_boxed(alloc, operand)?))
        }
        Term::Paired(pairing, left, right) => {
            let left = write_boxed(alloc, left)?;
            let right = write_boxed(alloc, right)?;
            Ok(ml_ctl::Term::Paired(*pairing, left, right))
        }
        Term::Bounded(bound, operand) => write_bounded(alloc, *bound, operand),
    }
}

#[cycle(writer)]
fn write_boxed(alloc: Global, operand: &Term) -> Result<Box<ml_ctl::Term>, NoMemory>
    ensures { IfOk result (λ made. ltl_term.formula_of made.value ≡ written_out (formula_of operand.now)) }
{
    let made = write_term(alloc, operand)?;
    Ok(Box::new(alloc, made)?)
}

#[cycle(writer)]
fn write_bounded(alloc: Global, bound: Bound, operand: &Term) -> Result<ml_ctl::Term, NoMemory>
    ensures { IfOk result (λ made. ltl_term.formula_of made ≡ meant bound (written_out (formula_of operand.now))) }
{
    match bound {
        Bound::Next(count) => {
            let term = write_term(alloc, operand)?;
            write_nexts(alloc, count, term)
        }
        Bound::Within(reach, first, last) => {
            let term = write_within(alloc, reach, last.saturating_sub(first), operand)?;
            write_nexts(alloc, first, term)
        }
    }
}

// an operand at some or at all of the places from here on to the one so many places ahead
#[cycle(writer)]
#[tactic(auto, using(crate::proofs::WrittenOut::one_place))]
fn write_within(
    alloc: Global,
    reach: Reach,
    ahead: u16,
    operand: &Term,
) -> Result<ml_ctl::Term, NoMemory>
    ensures { IfOk result (λ made.
        ltl_term.formula_of made ≡ within reach ahead (written_out (formula_of operand.now))) }
{
    let mut made = write_term(alloc, operand)?;
    let mut done = 0;
    while done < ahead {
        let here = write_boxed(alloc, operand)?;
        let later = Box::new(
            alloc,
            ml_ctl::Term::Temporal(Tense::Next, Box::new(alloc, made)?),
        )?;
        made = ml_ctl::Term::Binary(connective(reach), here, later);
        done += 1;
    }
    Ok(made)
}
