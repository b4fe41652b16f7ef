// How many occurrences the parts of a term have, counted once.
ghost use Rattle.std.specs.Prelude.{◌≡◌, ◌+◌, ◌≤◌, ◌++◌, ◌∷◌, reverse, IfOk, OnOk};
ghost use Rattle.ml_text.specs.Operators as operators;
ghost use Rattle.ml_pdl.specs.Formula.{occurrences, program_occurrences};
ghost use Rattle.ml_pdl.specs.Term.{formula_of, program_of};
ghost use Rattle.ml_pdl_graph.specs.private.Sizes as listed;

use ml_pdl::{Program, Term};
use ml_text::{MOST_OCCURRENCES, Operator};
use std::alloc::{AllocError, Global};

// puts a size behind those so far
fn put(sizes: &mut Vec<u32>, size: u32) -> Result<u32, AllocError>
    ensures same { IfOk result (λ put. put ≡ size) }
    ensures sizes { OnOk result (reverse sizes.new.items ≡ size ∷ reverse sizes.old.items) }
{
    sizes.push(size)?;
    Ok(size)
}

// puts the size of a connective whose operands have so many occurrences, once for each that it counts
fn put_connective(
    sizes: &mut Vec<u32>,
    operator: Operator,
    operands: u32,
) -> Result<u32, AllocError>
    requires { operators.weight operator + operands ≤ MOST_OCCURRENCES }
    ensures whole { IfOk result (λ size. size ≡ operators.weight operator + operands) }
    ensures sizes { OnOk result (reverse sizes.new.items
        ≡ listed.operator_sizes operator (operators.weight operator + operands) ++ reverse sizes.old.items) }
{
    let size = operator.weight() + operands;
    match operator {
        Operator::Iff => {
            put(sizes, size)?;
            put(sizes, size)?;
            put(sizes, size)
        }
        Operator::Implies | Operator::Or | Operator::And => put(sizes, size),
    }
}

// puts the sizes of a term's parts, the last one first; the term's own comes back
#[cycle(measuring)]
fn measure(sizes: &mut Vec<u32>, term: &Term) -> Result<u32, AllocError>
    requires { occurrences (formula_of term.now) ≤ MOST_OCCURRENCES }
    ensures whole { IfOk result (λ size. size ≡ occurrences (formula_of term.now)) }
    ensures parts { OnOk result (reverse sizes.new.items
        ≡ listed.sizes_of (formula_of term.now) ++ reverse sizes.old.items) }
{
    match term {
        Term::Const(_) | Term::Prop(_) => put(sizes, 1),
        Term::Not(operand) => {
            let inner = measure(sizes, operand)?;
            put(sizes, 1 + inner)
        }
        Term::Binary(operator, left, right) => {
            let second = measure(sizes, right)?;
            let first = measure(sizes, left)?;
            put_connective(sizes, *operator, first + second)
        }
        Term::Modal(_, program, operand) => {
            let second = measure(sizes, operand)?;
            let first = measure_program(sizes, program)?;
            put(sizes, 1 + first + second)
        }
        Term::Repeat(program) => {
            let inner = measure_program(sizes, program)?;
            put(sizes, 1 + inner)
        }
    }
}

// the same of a program
#[cycle(measuring)]
fn measure_program(sizes: &mut Vec<u32>, program: &Program) -> Result<u32, AllocError>
    requires { program_occurrences (program_of program.now) ≤ MOST_OCCURRENCES }
    ensures whole { IfOk result (λ size. size ≡ program_occurrences (program_of program.now)) }
    ensures parts { OnOk result (reverse sizes.new.items
        ≡ listed.program_sizes (program_of program.now) ++ reverse sizes.old.items) }
{
    match program {
        Program::Act(_) => put(sizes, 1),
        Program::Seq(left, right) | Program::Alt(left, right) => {
            let second = measure_program(sizes, right)?;
            let first = measure_program(sizes, left)?;
            put(sizes, 1 + first + second)
        }
        Program::Star(operand) => {
            let inner = measure_program(sizes, operand)?;
            put(sizes, 1 + inner)
        }
        Program::Test(formula) => {
            let inner = measure(sizes, formula)?;
            put(sizes, 1 + inner)
        }
    }
}

// the sizes of a term's parts, in preorder
pub(crate) fn sizes_of(alloc: Global, term: &Term) -> Result<Vec<u32>, AllocError>
    requires { occurrences (formula_of term.now) ≤ MOST_OCCURRENCES }
    ensures { IfOk result (λ sizes. sizes.items ≡ listed.sizes_of (formula_of term.now)) }
{
    let mut sizes = Vec::new(alloc);
    measure(&mut sizes, term)?;
    sizes.reverse();
    Ok(sizes)
}
