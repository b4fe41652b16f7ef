// The canonical text of a formula.
ghost use Rattle.std.specs.Prelude.{◌≡◌, ◌++◌, ℕ, List, [], if◌then◌else◌, take, IfOk, OnOk, OnErr, codes, vec_len};
ghost use Rattle.ml_pdl.specs.Canonical.{canonical_text, modality_text, program_text, whole_program};
ghost use Rattle.ml_pdl.specs.Parsing.{IsParsedAs};
ghost use Rattle.ml_pdl.specs.Term.{formula_of, program_of};
ghost use Rattle.ml_pdl.specs.WellFormed.{IsWellFormed};

use crate::{Formula, Modality, Program, Term};
use ml_base::NoMemory;
use ml_lines::whole_or_none;
use ml_text::infix;
use std::alloc::{AllocError, Global};

/// The canonical text of a formula, which is read back as the same formula.
///
/// # Errors
/// `NoMemory` alone.
///
/// Cost: linear in the text. No call is nested deeper than twice the formula.
pub fn print(alloc: Global, formula: &Formula) -> Result<Vec<u8>, NoMemory>
    ensures text { IfOk result (λ text. text.items ≡ canonical_text formula.now) }
    ensures reads_back { IfOk result (λ text. IsParsedAs text.items formula.now) }
{
    let mut text = Vec::new(alloc);
    append_text(&mut text, formula)?;
    Ok(text)
}

/// Appends the canonical text of a formula, as `print` gives it. Whoever asks also learns what the type keeps.
///
/// # Errors
/// `NoMemory` alone, and then `out` is as before.
///
/// Cost: linear in the text, over many calls.
pub fn append_text(out: &mut Vec<u8>, formula: &Formula) -> Result<(), NoMemory>
    ensures text { OnOk result (out.new.items ≡ out.old.items ++ canonical_text formula.now) }
    ensures well_formed { IsWellFormed formula.now }
    ensures kept { OnErr result (out.new.items ≡ out.old.items) }
{
    let end = out.len();
    let written = write_term(out, formula.root());
    Ok(whole_or_none(out, end, written)?)
}

// Each function from here on leaves what stood in `text`, also where memory is wanting and a part stands behind it.
#[cycle(printer)]
fn write_term(text: &mut Vec<u8>, term: &Term) -> Result<(), AllocError>
    ensures text { OnOk result (text.new.items ≡ text.old.items ++ canonical_text (formula_of term.now)) }
    ensures front { take (vec_len text.old) text.new.items ≡ text.old.items }
{
    match term {
        Term::Const(true) => text.extend_from_slice(b"tt"),
        Term::Const(false) => text.extend_from_slice(b"ff"),
        Term::Prop(name) => text.extend_from_slice(name.bytes()),
        Term::Not(operand) => {
            text.extend_from_slice(b"!")?;
            write_term(text, operand)
        }
        Term::Binary(operator, left, right) => {
            text.extend_from_slice(b"(")?;
            write_term(text, left)?;
            text.extend_from_slice(infix(*operator))?;
            write_term(text, right)?;
            text.extend_from_slice(b")")
        }
        Term::Modal(modality, program, operand) => {
            write_modality(text, *modality, program)?;
            write_term(text, operand)
        }
        Term::Repeat(program) => {
            text.extend_from_slice(b"repeat(")?;
            write_program(text, program)?;
            text.extend_from_slice(b")")
        }
    }
}

// a modality with its program, without the operand
#[cycle(printer)]
fn write_modality(
    text: &mut Vec<u8>,
    modality: Modality,
    program: &Program,
) -> Result<(), AllocError>
    ensures text { OnOk result (text.new.items ≡ text.old.items
        ++ modality_text modality (whole_program (program_of program.now) (program_text (program_of program.now)))) }
    ensures front { take (vec_len text.old) text.new.items ≡ text.old.items }
{
    let (begins, ends) = brackets(modality);
    text.extend_from_slice(begins)?;
    write_whole(text, program)?;
    text.extend_from_slice(ends)
}

// the two signs of a modality
fn brackets(modality: Modality) -> (&'static [u8], &'static [u8])
    ensures { (text : List ℕ) → result.0.now ++ text ++ result.1.now ≡ modality_text modality text }
{
    match modality {
        Modality::Diamond => (b"<", b">"),
        Modality::Square => (b"[", b"]"),
    }
}

// the program between the signs of a modality, unless it is `_`
#[cycle(printer)]
fn write_whole(text: &mut Vec<u8>, program: &Program) -> Result<(), AllocError>
    ensures text { OnOk result (text.new.items ≡
        text.old.items ++ whole_program (program_of program.now) (program_text (program_of program.now))) }
    ensures front { take (vec_len text.old) text.new.items ≡ text.old.items }
{
    if is_blank(program) {
        return Ok(());
    }
    write_program(text, program)
}

// is it the action `_`?
fn is_blank(program: &Program) -> bool
    ensures { whole_program (program_of program.now) (program_text (program_of program.now))
        ≡ (if result then [] else program_text (program_of program.now)) }
{
    match program {
        Program::Act(action) => action.bytes() == b"_".as_slice(),
        _ => false,
    }
}

#[cycle(printer)]
fn write_program(text: &mut Vec<u8>, program: &Program) -> Result<(), AllocError>
    ensures text { OnOk result (text.new.items ≡ text.old.items ++ program_text (program_of program.now)) }
    ensures front { take (vec_len text.old) text.new.items ≡ text.old.items }
{
    match program {
        Program::Act(action) => text.extend_from_slice(action.bytes()),
        Program::Seq(left, right) => write_joined(text, left, b";", right),
        Program::Alt(left, right) => write_joined(text, left, b"+", right),
        Program::Star(operand) => {
            write_program(text, operand)?;
            text.extend_from_slice(b"*")
        }
        Program::Test(formula) => {
            text.extend_from_slice(b"(")?;
            write_term(text, formula)?;
            text.extend_from_slice(b")?")
        }
    }
}

// `(left sign right)`
#[cycle(printer)]
fn write_joined(
    text: &mut Vec<u8>,
    left: &Program,
    sign: &[u8],
    right: &Program,
) -> Result<(), AllocError>
    ensures text { OnOk result (text.new.items ≡
        text.old.items ++ (codes "(" ++ program_text (program_of left.now) ++ sign.now
        ++ program_text (program_of right.now) ++ codes ")")) }
    ensures front { take (vec_len text.old) text.new.items ≡ text.old.items }
{
    text.extend_from_slice(b"(")?;
    write_program(text, left)?;
    text.extend_from_slice(sign)?;
    write_program(text, right)?;
    text.extend_from_slice(b")")
}
