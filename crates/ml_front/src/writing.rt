// Writing the head of a document.
ghost use Rattle.std.specs.Prelude.{◌≡◌, ◌++◌, [], ◌∷◌, codes, take, IfOk, OnOk, OnErr, vec_len};
ghost use Rattle.ml_base.specs.declared.version.Version.TheVariants as version;
ghost use Rattle.ml_lines.specs.Lines.{line_text, text_of};
ghost use Rattle.ml_front.specs.Head.{head_lines, sense_word};
ghost use Rattle.ml_front.specs.Logics.{canonical_text, logic_of};

use crate::answer::Answer;
use crate::logic::Logic;
use crate::problem::{AnyFormula, Problem};
use crate::title::version_word;
use ml_base::{NoMemory, Version};
use ml_lines::{end_line, whole_or_none, write_next_word, write_word};
use std::alloc::Global;

/// The five lines of the head of a document with this answer, in version 2.
///
/// # Errors
/// `NoMemory` alone.
///
/// Cost: linear in the text.
pub fn write_head(alloc: Global, problem: &Problem, answer: Answer) -> Result<Vec<u8>, NoMemory>
    ensures { IfOk result (λ text. text.items ≡ text_of (head_lines version.Two answer problem.now)) }
{
    let mut text = Vec::new(alloc);
    append_head(&mut text, problem, answer)?;
    Ok(text)
}

/// Appends the head of a document, as `write_head` gives it.
///
/// # Errors
/// `NoMemory` alone, and then `out` is as before.
///
/// Cost: linear in the text.
pub fn append_head(out: &mut Vec<u8>, problem: &Problem, answer: Answer) -> Result<(), NoMemory>
    ensures text { OnOk result (out.new.items ≡ out.old.items ++ text_of (head_lines version.Two answer problem.now)) }
    ensures kept { OnErr result (out.new.items ≡ out.old.items) }
{
    let end = out.len();
    let written = append_lines(out, problem, answer);
    whole_or_none(out, end, written)
}

// Where memory is wanting, what stood in `out` is left, and a part may stand behind it.
fn append_lines(out: &mut Vec<u8>, problem: &Problem, answer: Answer) -> Result<(), NoMemory>
    ensures text { OnOk result (out.new.items ≡ out.old.items ++ text_of (head_lines version.Two answer problem.now)) }
    ensures front { take (vec_len out.old) out.new.items ≡ out.old.items }
{
    append_pair(out, b"mlsolver", version_word(Version::Two))?;
    append_pair(out, b"answer", answer.word())?;
    append_pair(out, b"logic", logic(&problem.formula).word())?;
    append_pair(out, b"sense", sense_word(problem.negated))?;
    append_formula(out, &problem.formula)
}

fn logic(formula: &AnyFormula) -> Logic
    ensures { result ≡ logic_of formula.now }
{
    match formula {
        AnyFormula::Mu(_) => Logic::Mu,
        AnyFormula::Pdl(_) => Logic::Pdl,
        AnyFormula::Ctl(_) => Logic::Ctl,
        AnyFormula::Ltl(_) => Logic::Ltl,
        AnyFormula::Word(_) => Logic::Word,
    }
}

fn sense_word(negated: bool) -> &'static [u8]
    ensures { result.now ≡ sense_word negated }
{
    if negated { b"negated" } else { b"plain" }
}

fn append_pair(out: &mut Vec<u8>, first: &[u8], second: &[u8]) -> Result<(), NoMemory>
    ensures text { OnOk result (out.new.items ≡ out.old.items ++ line_text (first.now ∷ second.now ∷ [])) }
    ensures front { take (vec_len out.old) out.new.items ≡ out.old.items }
{
    write_word(out, first)?;
    write_next_word(out, second)?;
    end_line(out)
}

fn append_formula(out: &mut Vec<u8>, formula: &AnyFormula) -> Result<(), NoMemory>
    ensures text { OnOk result (out.new.items ≡ out.old.items ++ line_text (codes "formula" ∷ canonical_text formula.now ∷ [])) }
    ensures front { take (vec_len out.old) out.new.items ≡ out.old.items }
{
    write_word(out, b"formula ")?;
    append_text(out, formula)?;
    end_line(out)
}

fn append_text(out: &mut Vec<u8>, formula: &AnyFormula) -> Result<(), NoMemory>
    ensures text { OnOk result (out.new.items ≡ out.old.items ++ canonical_text formula.now) }
    ensures kept { OnErr result (out.new.items ≡ out.old.items) }
{
    match formula {
        AnyFormula::Mu(formula) => ml_mu::append_text(out, formula),
        AnyFormula::Pdl(formula) => ml_pdl::append_text(out, formula),
        AnyFormula::Ctl(formula) => ml_ctl::append_text(out, formula),
        AnyFormula::Ltl(formula) => ml_ltl::append_text(out, formula),
        AnyFormula::Word(formula) => ml_ltl::append_text(out, formula),
    }
}
