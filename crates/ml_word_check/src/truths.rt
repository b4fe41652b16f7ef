// The truth of a formula at the places of a word, operands first.
ghost use Rattle.std.specs.Prelude.{ℕ, ◌≡◌, ◌<◌, ◌+◌, not, length, map, All, IfOk};
ghost use Rattle.ml_base.specs.Structure.{lists};
ghost use Rattle.ml_ctl.specs.Term.{formula_of};
ghost use Rattle.ml_word_graph.proofs.Values.{connective_value};
ghost use Rattle.ml_word_check.specs.private.Truths.{AreTruths, at, next_in, paired_in, tense_in};
ghost use Rattle.ml_word_check.specs.private.Walked.{lasso_from};

use crate::cycles::{Cycle, around};
use crate::word::Word;
use ml_base::{Name, NoMemory};
use ml_ctl::{Pairing, Tense, Term};
use ml_kripke::Structure;
use ml_text::Operator;
use std::alloc::Global;

// is the proposition true at each of the states?
fn labelled(
    alloc: Global,
    name: &Name,
    structure: &Structure,
    states: &[u32],
) -> Result<Vec<bool>, NoMemory>
    requires { All (λ s. s < structure.now.states) states.now }
    ensures { IfOk result (λ truths. truths.items ≡ map (λ s. lists structure.now s name.now) states.now) }
{
    let mut truths = Vec::with_capacity(alloc, states.len())?;
    for state in states {
        truths.push(structure.has_label(*state, name))?;
    }
    Ok(truths)
}

fn negate(truths: &mut [bool])
    ensures each_place { length truths.new ≡ length truths.old }
    ensures values { (i : ℕ) → i < length truths.old → at truths.new i ≡ not (at truths.old i) }
{
    for i in 0..truths.len() {
        truths[i] = !truths[i];
    }
}

fn joined(operator: Operator, left: bool, right: bool) -> bool
    ensures { result ≡ connective_value operator left right }
{
    match operator {
        Operator::And => left && right,
        Operator::Or => left || right,
        Operator::Implies => !left || right,
        Operator::Iff => (!left || right) && (!right || left),
    }
}

fn join(operator: Operator, left: &mut [bool], right: &[bool])
    requires same { length left.old ≡ length right.now }
    ensures each_place { length left.new ≡ length left.old }
    ensures values { (i : ℕ) → i < length left.old → at left.new i ≡ connective_value operator (at left.old i) (at right.now i) }
{
    for i in 0..left.len() {
        left[i] = joined(operator, left[i], right[i]);
    }
}

// each place has the value of the next one
fn shift(truths: &mut [bool], start: usize)
    requires start { start < length truths.old }
    ensures each_place { length truths.new ≡ length truths.old }
    ensures values { (i : ℕ) → i < length truths.old → at truths.new i ≡ at truths.old (next_in (length truths.old) start i) }
{
    let closing = truths[start];
    let last = truths.len() - 1;
    for i in 0..last {
        truths[i] = truths[i + 1];
    }
    truths[last] = closing;
}

// an operator with one operand
fn along(alloc: Global, tense: Tense, truths: &mut [bool], start: usize) -> Result<(), NoMemory>
    requires start { start < length truths.old }
    ensures each_place { IfOk result (λ _. length truths.new ≡ length truths.old) }
    ensures values { IfOk result (λ _. (i : ℕ) → i < length truths.old
        → at truths.new i ≡ tense_in tense (length truths.old) start (at truths.old) i) }
{
    match tense {
        Tense::Next => shift(truths, start),
        Tense::Finally => {
            let always = vec![in alloc; true; truths.len()]?;
            around(Cycle::Until, always.as_slice(), truths, start);
        }
        Tense::Globally => {
            let never = vec![in alloc; false; truths.len()]?;
            around(Cycle::Release, never.as_slice(), truths, start);
        }
    }
    Ok(())
}

// an operator with two operands
fn paired(pairing: Pairing, mut left: Vec<bool>, mut right: Vec<bool>, start: usize) -> Vec<bool>
    requires same { length left.items ≡ length right.items }
    requires start { start < length right.items }
    ensures each_place { length result.items ≡ length right.items }
    ensures values { (i : ℕ) → i < length right.items
        → at result.items i ≡ paired_in pairing (length right.items) start (at left.items) (at right.items) i }
{
    match pairing {
        Pairing::Until => {
            around(Cycle::Until, left.as_slice(), right.as_mut_slice(), start);
            right
        }
        Pairing::Release => {
            around(Cycle::Release, left.as_slice(), right.as_mut_slice(), start);
            right
        }
        Pairing::Weak => {
            join(Operator::Or, left.as_mut_slice(), right.as_slice());
            around(Cycle::Release, right.as_slice(), left.as_mut_slice(), start);
            left
        }
    }
}

/// The truth of a formula at each place of a word.
///
/// # Errors
/// `NoMemory` alone.
///
/// Cost: linear in the places for each occurrence, and a look among the labels of each state for each proposition. Calls are
/// nested as deep as the formula, and each holds the values of one operand.
pub(crate) fn truths(
    alloc: Global,
    term: &Term,
    structure: &Structure,
    word: &Word,
) -> Result<Vec<bool>, NoMemory>
    requires inside { All (λ s. s < structure.now.states) word.now.states.items }
    requires start { word.now.start < length word.now.states.items }
    ensures { IfOk result (λ truths. AreTruths structure.now (lasso_from word.now.states.items word.now.start)
        (formula_of term.now) truths.items) }
{
    match term {
        Term::Const(value) => Ok(vec![in alloc; *value; word.states.len()]?),
        Term::Prop(name) => labelled(alloc, name, structure, word.states.as_slice()),
        Term::Not(operand) => {
            let mut values = truths(alloc, operand, structure, word)?;
            negate(values.as_mut_slice());
            Ok(values)
        }
        Term::Binary(operator, left, right) => {
            let mut values = truths(alloc, left, structure, word)?;
            let others = truths(alloc, right, structure, word)?;
            join(*operator, values.as_mut_slice(), others.as_slice());
            Ok(values)
        }
        Term::Temporal(tense, operand) => {
            let mut values = truths(alloc, operand, structure, word)?;
            along(alloc, *tense, values.as_mut_slice(), word.start)?;
            Ok(values)
        }
        Term::Paired(pairing, left, right) => {
            let values = truths(alloc, left, structure, word)?;
            let others = truths(alloc, right, structure, word)?;
            Ok(paired(*pairing, values, others, word.start))
        }
        Term::Quantified(_, _) => Ok(vec![in alloc; false; word.states.len()]?),
    }
}
