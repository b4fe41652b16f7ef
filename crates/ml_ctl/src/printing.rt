// The canonical text of a formula.
ghost use Rattle.std.specs.Prelude.{◌≡◌, ◌++◌, ◌∷◌, take, IfOk, OnOk, OnErr, codes, vec_len};
ghost use Rattle.ml_ctl.specs.Canonical.{canonical_text, pairing_letter, quantifier_letter, tense_letter};
ghost use Rattle.ml_ctl.specs.Parsing.{IsParsedAs};
ghost use Rattle.ml_ctl.specs.Term.{formula_of};
ghost use Rattle.ml_ctl.specs.WellFormed.{IsWellFormed};

use crate::{FormulaOf, Pairing, Quantifier, Tense, Term, Words};
use ml_base::NoMemory;
use ml_lines::whole_or_none;
use ml_text::infix;
use std::alloc::{AllocError, Global};

/// The canonical text of a formula, which is read back as the same formula.
///
/// # Errors
/// `NoMemory` alone.
///
/// Cost: linear in the text. No call is nested deeper than twice the formula.
pub fn print<W: Words>(alloc: Global, formula: &FormulaOf<W>) -> Result<Vec<u8>, NoMemory>
    ensures text { IfOk result (λ text. text.items ≡ canonical_text formula.now) }
    ensures reads_back { IfOk result (λ text. IsParsedAs W.language text.items formula.now) }
{
    let mut text = Vec::new(alloc);
    append_text(&mut text, formula)?;
    Ok(text)
}

/// Appends the canonical text of a formula, as `print` gives it. Whoever asks also learns what the type keeps.
///
/// # Errors
/// `NoMemory` alone, and then `out` is as before.
///
/// Cost: linear in the text, over many calls.
pub fn append_text<W: Words>(out: &mut Vec<u8>, formula: &FormulaOf<W>) -> Result<(), NoMemory>
    ensures text { OnOk result (out.new.items ≡ out.old.items ++ canonical_text formula.now) }
    ensures well_formed { IsWellFormed W.language formula.now }
    ensures kept { OnErr result (out.new.items ≡ out.old.items) }
{
    let end = out.len();
    let written = write_term(out, formula.root());
    Ok(whole_or_none(out, end, written)?)
}

// U, R or W with its blanks
fn pairing_sign(pairing: Pairing) -> &'static [u8]
    ensures { result.now ≡ codes " " ++ pairing_letter pairing ∷ codes " " }
{
    match pairing {
        Pairing::Until => b" U ",
        Pairing::Release => b" R ",
        Pairing::Weak => b" W ",
    }
}

// X, F or G with its blank
fn tense_sign(tense: Tense) -> &'static [u8]
    ensures { result.now ≡ tense_letter tense ∷ codes " " }
{
    match tense {
        Tense::Next => b"X ",
        Tense::Finally => b"F ",
        Tense::Globally => b"G ",
    }
}

// E or A with its blank
fn quantifier_sign(quantifier: Quantifier) -> &'static [u8]
    ensures { result.now ≡ quantifier_letter quantifier ∷ codes " " }
{
    match quantifier {
        Quantifier::Exists => b"E ",
        Quantifier::Forall => b"A ",
    }
}

// Each function from here on leaves what stood in `text`, also where memory is wanting and a part stands behind it.
#[cycle(printer)]
fn write_term(text: &mut Vec<u8>, term: &Term) -> Result<(), AllocError>
    ensures text { OnOk result (text.new.items ≡ text.old.items ++ canonical_text (formula_of term.now)) }
    ensures front { take (vec_len text.old) text.new.items ≡ text.old.items }
{
    match term {
        Term::Const(true) => text.extend_from_slice(b"tt"),
        Term::Const(false) => text.extend_from_slice(b"ff"),
        Term::Prop(name) => text.extend_from_slice(name.bytes()),
        Term::Not(operand) => write_prefix(text, b"!", operand),
        Term::Binary(operator, left, right) => { write_binary(text, left, infix(*operator), right) }
        Term::Temporal(tense, operand) => write_prefix(text, tense_sign(*tense), operand),
        Term::Paired(pairing, left, right) => {
            write_binary(text, left, pairing_sign(*pairing), right)
        }
        Term::Quantified(quantifier, operand) => {
            write_prefix(text, quantifier_sign(*quantifier), operand)
        }
    }
}

// a sign and its operand; the sign has its blank
#[cycle(printer)]
fn write_prefix(text: &mut Vec<u8>, sign: &[u8], operand: &Term) -> Result<(), AllocError>
    ensures text { OnOk result (text.new.items ≡
        text.old.items ++ (sign.now ++ canonical_text (formula_of operand.now))) }
    ensures front { take (vec_len text.old) text.new.items ≡ text.old.items }
{
    text.extend_from_slice(sign)?;
    write_term(text, operand)
}

// `(left sign right)`; the sign has its blanks
#[cycle(printer)]
fn write_binary(
    text: &mut Vec<u8>,
    left: &Term,
    sign: &[u8],
    right: &Term,
) -> Result<(), AllocError>
    ensures text { OnOk result (text.new.items ≡
        text.old.items ++ (codes "(" ++ canonical_text (formula_of left.now) ++ sign.now
        ++ canonical_text (formula_of right.now) ++ codes ")")) }
    ensures front { take (vec_len text.old) text.new.items ≡ text.old.items }
{
    text.extend_from_slice(b"(")?;
    write_term(text, left)?;
    text.extend_from_slice(sign)?;
    write_term(text, right)?;
    text.extend_from_slice(b")")
}
