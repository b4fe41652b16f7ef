// The canonical text of a formula.
ghost use Rattle.std.specs.Prelude.{◌≡◌, ◌++◌, List, ℕ, take, IfOk, OnOk, OnErr, codes, vec_len};
ghost use Rattle.ml_mu.specs.Canonical.{action_text, canonical_text, fixpoint_word, modality_text};
ghost use Rattle.ml_mu.specs.Parsing.{IsParsedAs};
ghost use Rattle.ml_mu.specs.Term.{formula_of};
ghost use Rattle.ml_mu.specs.WellFormed.{IsWellFormed};

use crate::{Fixpoint, Formula, Modality, Term};
use ml_base::{Action, Name, NoMemory};
use ml_lines::whole_or_none;
use ml_text::infix;
use std::alloc::{AllocError, Global};

/// The canonical text of a formula, which is read back as the same formula.
///
/// # Errors
/// `NoMemory` alone.
///
/// Cost: linear in the text.
pub fn print(alloc: Global, formula: &Formula) -> Result<Vec<u8>, NoMemory>
    ensures text { IfOk result (λ text. text.items ≡ canonical_text formula.now) }
    ensures reads_back { IfOk result (λ text. IsParsedAs text.items formula.now) }
{
    let mut text = Vec::new(alloc);
    append_text(&mut text, formula)?;
    Ok(text)
}

/// Appends the canonical text of a formula, as `print` gives it. Whoever asks also learns what the type keeps.
///
/// # Errors
/// `NoMemory` alone, and then `out` is as before.
///
/// Cost: linear in the text, over many calls.
pub fn append_text(out: &mut Vec<u8>, formula: &Formula) -> Result<(), NoMemory>
    ensures text { OnOk result (out.new.items ≡ out.old.items ++ canonical_text formula.now) }
    ensures well_formed { IsWellFormed formula.now }
    ensures kept { OnErr result (out.new.items ≡ out.old.items) }
{
    let end = out.len();
    let written = write_term(out, formula.root());
    Ok(whole_or_none(out, end, written)?)
}

// Each function from here on leaves what stood in `text`, also where memory is wanting and a part stands behind it.
#[cycle(printer)]
fn write_term(text: &mut Vec<u8>, term: &Term) -> Result<(), AllocError>
    ensures text { OnOk result (text.new.items ≡ text.old.items ++ canonical_text (formula_of term.now)) }
    ensures front { take (vec_len text.old) text.new.items ≡ text.old.items }
{
    match term {
        Term::Const(true) => text.extend_from_slice(b"tt"),
        Term::Const(false) => text.extend_from_slice(b"ff"),
        Term::Prop(name) | Term::Var(name) => text.extend_from_slice(name.bytes()),
        Term::Not(operand) => {
            text.extend_from_slice(b"!")?;
            write_term(text, operand)
        }
        Term::Binary(operator, left, right) => {
            text.extend_from_slice(b"(")?;
            write_term(text, left)?;
            text.extend_from_slice(infix(*operator))?;
            write_term(text, right)?;
            text.extend_from_slice(b")")
        }
        Term::Modal(modality, action, operand) => {
            write_modality(text, *modality, action)?;
            write_term(text, operand)
        }
        Term::Binder(fixpoint, variable, body) => {
            text.extend_from_slice(prefix(*fixpoint))?;
            text.extend_from_slice(variable.bytes())?;
            text.extend_from_slice(b". ")?;
            write_term(text, body)?;
            text.extend_from_slice(b")")
        }
    }
}

// a binder in front of its variable, with its parenthesis and its blank
fn prefix(fixpoint: Fixpoint) -> &'static [u8]
    ensures { result.now ≡ codes "(" ++ fixpoint_word fixpoint ++ codes " " }
{
    match fixpoint {
        Fixpoint::Least => b"(mu ",
        Fixpoint::Greatest => b"(nu ",
    }
}

// the two signs of a modality, between which the action stands unless it is `_`
fn write_modality(text: &mut Vec<u8>, modality: Modality, action: &Action) -> Result<(), AllocError>
    ensures text { OnOk result (text.new.items ≡ text.old.items ++ modality_text modality action.now) }
    ensures front { take (vec_len text.old) text.new.items ≡ text.old.items }
{
    let (opens, closes) = match modality {
        Modality::Diamond => (b'<', b'>'),
        Modality::Square => (b'[', b']'),
    };
    text.push(opens)?;
    write_action(text, action)?;
    Ok(text.push(closes)?)
}

// the action between the signs of a modality, unless it is `_`
fn write_action(text: &mut Vec<u8>, action: &Action) -> Result<(), AllocError>
    ensures text { OnOk result (text.new.items ≡ text.old.items ++ action_text action.now) }
    ensures front { take (vec_len text.old) text.new.items ≡ text.old.items }
{
    if action.bytes() == b"_".as_slice() {
        return Ok(());
    }
    text.extend_from_slice(action.bytes())
}
