// Formulas copied, and their occurrences counted.
ghost use Rattle.std.specs.Prelude.{◌≡◌, ◌≤◌, IfOk};
ghost use Rattle.ml_pdl.specs.Formula.{occurrences, program_occurrences};
ghost use Rattle.ml_pdl.specs.Term.{formula_of, program_of};

use crate::{Formula, Program, Term};
use ml_base::NoMemory;
use ml_text::MOST_OCCURRENCES;
use std::alloc::Global;

/// An equal formula.
///
/// # Errors
/// `NoMemory` alone.
///
/// Cost: linear in the occurrences and the lengths of the names. No call is nested deeper than the formula.
pub fn copy(alloc: Global, formula: &Formula) -> Result<Formula, NoMemory>
    ensures { IfOk result (λ copied. copied ≡ formula.now) }
{
    let root = copy_term(alloc, formula.root())?;
    Ok(Formula::new(root))
}

// an equal tree
#[cycle(copier)]
pub(crate) fn copy_term(alloc: Global, term: &Term) -> Result<Term, NoMemory>
    ensures { IfOk result (λ copied. formula_of copied ≡ formula_of term.now) }
{
    match term {
        Term::Const(value) => Ok(Term::Const(*value)),
        Term::Prop(name) => Ok(Term::Prop(name.copy()?)),
        Term::Not(operand) => Ok(Term::Not(copy_operand(alloc, operand)?)),
        Term::Binary(operator, left, right) => {
            let left = copy_operand(alloc, left)?;
            Ok(Term::Binary(*operator, left, copy_operand(alloc, right)?))
        }
        Term::Modal(modality, program, operand) => {
            let program = copy_program(alloc, program)?;
            Ok(Term::Modal(*modality, program, copy_operand(alloc, operand)?))
        }
        Term::Repeat(program) => Ok(Term::Repeat(copy_program(alloc, program)?)),
    }
}

#[cycle(copier)]
fn copy_operand(alloc: Global, operand: &Term) -> Result<Box<Term>, NoMemory>
    ensures { IfOk result (λ copied. formula_of copied.value ≡ formula_of operand.now) }
{
    let copied = copy_term(alloc, operand)?;
    Ok(Box::new(alloc, copied)?)
}

#[cycle(copier)]
fn copy_program(alloc: Global, program: &Program) -> Result<Program, NoMemory>
    ensures { IfOk result (λ copied. program_of copied ≡ program_of program.now) }
{
    match program {
        Program::Act(action) => Ok(Program::Act(action.copy()?)),
        Program::Seq(left, right) => {
            let left = copy_part(alloc, left)?;
            Ok(Program::Seq(left, copy_part(alloc, right)?))
        }
        Program::Alt(left, right) => {
            let left = copy_part(alloc, left)?;
            Ok(Program::Alt(left, copy_part(alloc, right)?))
        }
        Program::Star(operand) => Ok(Program::Star(copy_part(alloc, operand)?)),
        Program::Test(formula) => Ok(Program::Test(copy_operand(alloc, formula)?)),
    }
}

#[cycle(copier)]
fn copy_part(alloc: Global, part: &Program) -> Result<Box<Program>, NoMemory>
    ensures { IfOk result (λ copied. program_of copied.value ≡ program_of part.now) }
{
    let copied = copy_program(alloc, part)?;
    Ok(Box::new(alloc, copied)?)
}

/// How many occurrences a formula has, from 1 to 1,000: constants, propositions, operators, modalities, repetitions, and
/// in programs actions, `;`, `+`, stars and tests, where an iff counts as three.
///
/// Cost: linear in them. No call is nested deeper than the formula.
pub fn occurrences(formula: &Formula) -> u32
    ensures number { result ≡ occurrences formula.now }
    ensures range { (1 ≤ result) × (result ≤ MOST_OCCURRENCES) }
{
    count(formula.root())
}

#[cycle(counter)]
fn count(term: &Term) -> u32
    requires { occurrences (formula_of term.now) ≤ MOST_OCCURRENCES }
    ensures number { result ≡ occurrences (formula_of term.now) }
    ensures some { 1 ≤ result }
{
    match term {
        Term::Const(_) | Term::Prop(_) => 1,
        Term::Not(operand) => 1 + count(operand),
        Term::Binary(operator, left, right) => { operator.weight() + count(left) + count(right) }
        Term::Modal(_, program, operand) => 1 + count_program(program) + count(operand),
        Term::Repeat(program) => 1 + count_program(program),
    }
}

#[cycle(counter)]
fn count_program(program: &Program) -> u32
    requires { program_occurrences (program_of program.now) ≤ MOST_OCCURRENCES }
    ensures number { result ≡ program_occurrences (program_of program.now) }
    ensures some { 1 ≤ result }
{
    match program {
        Program::Act(_) => 1,
        Program::Seq(left, right) | Program::Alt(left, right) => {
            1 + count_program(left) + count_program(right)
        }
        Program::Star(operand) => 1 + count_program(operand),
        Program::Test(formula) => 1 + count(formula),
    }
}
