// Formulas and their negations as people read them: a negation stands as far inside as it is clear there, and what is long is
// written by its name.
use crate::names::Names;
use ml_base::{Action, NoMemory};
use ml_ctl::{Pairing, Quantifier, Tense};
use ml_lines::write_word;
use ml_mu::{Fixpoint, Modality};
use ml_pdl::Program;
use ml_text::Operator;

// the sign between two operands, and whether each stands there plain or negated
fn connective(operator: Operator, positive: bool) -> (&'static [u8], bool, bool) {
    match (operator, positive) {
        (Operator::And, true) => (b" & ", true, true),
        (Operator::And, false) => (b" | ", false, false),
        (Operator::Or, true) => (b" | ", true, true),
        (Operator::Or, false) => (b" & ", false, false),
        (Operator::Implies, true) => (b" -> ", true, true),
        (Operator::Implies, false) => (b" & ", true, false),
        (Operator::Iff, true) => (b" <-> ", true, true),
        (Operator::Iff, false) => (b" <-> ", true, false),
    }
}

fn pairing_sign(pairing: Pairing) -> &'static [u8] {
    match pairing {
        Pairing::Until => b" U ",
        Pairing::Release => b" R ",
        Pairing::Weak => b" W ",
    }
}

// the tense that is said: not some time is always not
fn tense_sign(tense: Tense, positive: bool) -> &'static [u8] {
    match (tense, positive) {
        (Tense::Next, _) => b"X ",
        (Tense::Finally, true) | (Tense::Globally, false) => b"F ",
        (Tense::Globally, true) | (Tense::Finally, false) => b"G ",
    }
}

fn quantifier_sign(quantifier: Quantifier, positive: bool) -> &'static [u8] {
    match (quantifier, positive) {
        (Quantifier::Exists, true) | (Quantifier::Forall, false) => b"E ",
        (Quantifier::Forall, true) | (Quantifier::Exists, false) => b"A ",
    }
}

pub(crate) fn negation(positive: bool) -> &'static [u8] {
    if positive { b"" } else { b"!" }
}

fn constant(value: bool) -> &'static [u8] {
    if value { b"tt" } else { b"ff" }
}

// Appends a formula of CTL* or LTL, or its negation.
pub(crate) fn write_path(
    names: &mut Names,
    text: &mut Vec<u8>,
    term: &ml_ctl::Term,
    positive: bool,
) -> Result<(), NoMemory> {
    let start = text.len();
    match term {
        ml_ctl::Term::Const(value) => return write_word(text, constant(*value == positive)),
        ml_ctl::Term::Prop(name) => {
            write_word(text, negation(positive))?;
            return write_word(text, name.bytes());
        }
        ml_ctl::Term::Not(operand) => return write_path(names, text, operand, !positive),
        ml_ctl::Term::Binary(operator, left, right) => {
            let (sign, first, second) = connective(*operator, positive);
            write_word(text, b"(")?;
            write_path(names, text, left, first)?;
            write_word(text, sign)?;
            write_path(names, text, right, second)?;
            write_word(text, b")")?;
        }
        ml_ctl::Term::Temporal(tense, operand) => {
            write_word(text, tense_sign(*tense, positive))?;
            write_path(names, text, operand, positive)?;
        }
        ml_ctl::Term::Paired(pairing, left, right) => {
            write_word(
                text,
                if positive {
                    b"(".as_slice()
                } else {
                    b"!(".as_slice()
                },
            )?;
            write_path(names, text, left, true)?;
            write_word(text, pairing_sign(*pairing))?;
            write_path(names, text, right, true)?;
            write_word(text, b")")?;
        }
        ml_ctl::Term::Quantified(quantifier, operand) => {
            write_word(text, quantifier_sign(*quantifier, positive))?;
            write_path(names, text, operand, positive)?;
        }
    }
    names.shorten(text, start)
}

// the two signs of a modality, and the action between them unless it is `_`
fn write_modality(
    text: &mut Vec<u8>,
    modality: Modality,
    action: &Action,
    positive: bool,
) -> Result<(), NoMemory> {
    let is_diamond = matches!(modality, Modality::Diamond) == positive;
    write_word(text, if is_diamond { b"<" } else { b"[" })?;
    if action.bytes() != b"_".as_slice() {
        write_word(text, action.bytes())?;
    }
    write_word(text, if is_diamond { b">" } else { b"]" })
}

// Appends a formula of the mu-calculus, or its negation, in which a variable stands for the negation of its binder's formula.
pub(crate) fn write_mu(
    names: &mut Names,
    text: &mut Vec<u8>,
    term: &ml_mu::Term,
    positive: bool,
) -> Result<(), NoMemory> {
    let start = text.len();
    match term {
        ml_mu::Term::Const(value) => return write_word(text, constant(*value == positive)),
        ml_mu::Term::Prop(name) => {
            write_word(text, negation(positive))?;
            return write_word(text, name.bytes());
        }
        ml_mu::Term::Var(name) => return write_word(text, name.bytes()),
        ml_mu::Term::Not(operand) => return write_mu(names, text, operand, !positive),
        ml_mu::Term::Binary(operator, left, right) => {
            let (sign, first, second) = connective(*operator, positive);
            write_word(text, b"(")?;
            write_mu(names, text, left, first)?;
            write_word(text, sign)?;
            write_mu(names, text, right, second)?;
            write_word(text, b")")?;
        }
        ml_mu::Term::Modal(modality, action, operand) => {
            write_modality(text, *modality, action, positive)?;
            write_mu(names, text, operand, positive)?;
        }
        ml_mu::Term::Binder(fixpoint, variable, body) => {
            let is_least = matches!(fixpoint, Fixpoint::Least) == positive;
            write_word(text, if is_least { b"(mu " } else { b"(nu " })?;
            write_word(text, variable.bytes())?;
            write_word(text, b". ")?;
            write_mu(names, text, body, positive)?;
            write_word(text, b")")?;
        }
    }
    names.shorten(text, start)
}

// is it the action `_`?
fn is_blank(program: &Program) -> bool {
    match program {
        Program::Act(action) => action.bytes() == b"_".as_slice(),
        _ => false,
    }
}

// Appends a formula of PDL, or its negation.
#[cycle(programs)]
pub(crate) fn write_pdl(
    names: &mut Names,
    text: &mut Vec<u8>,
    term: &ml_pdl::Term,
    positive: bool,
) -> Result<(), NoMemory> {
    let start = text.len();
    match term {
        ml_pdl::Term::Const(value) => return write_word(text, constant(*value == positive)),
        ml_pdl::Term::Prop(name) => {
            write_word(text, negation(positive))?;
            return write_word(text, name.bytes());
        }
        ml_pdl::Term::Not(operand) => return write_pdl(names, text, operand, !positive),
        ml_pdl::Term::Binary(operator, left, right) => {
            let (sign, first, second) = connective(*operator, positive);
            write_word(text, b"(")?;
            write_pdl(names, text, left, first)?;
            write_word(text, sign)?;
            write_pdl(names, text, right, second)?;
            write_word(text, b")")?;
        }
        ml_pdl::Term::Modal(modality, program, operand) => {
            let is_diamond = (*modality == ml_pdl::Modality::Diamond) == positive;
            write_word(text, if is_diamond { b"<" } else { b"[" })?;
            if !is_blank(program) {
                write_program(names, text, program)?;
            }
            write_word(text, if is_diamond { b">" } else { b"]" })?;
            write_pdl(names, text, operand, positive)?;
        }
        ml_pdl::Term::Repeat(program) => {
            write_word(text, negation(positive))?;
            write_word(text, b"repeat(")?;
            write_program(names, text, program)?;
            write_word(text, b")")?;
        }
    }
    names.shorten(text, start)
}

// Appends a program.
#[cycle(programs)]
fn write_program(names: &mut Names, text: &mut Vec<u8>, program: &Program) -> Result<(), NoMemory> {
    let start = text.len();
    match program {
        Program::Act(action) => return write_word(text, action.bytes()),
        Program::Seq(left, right) => {
            write_word(text, b"(")?;
            write_program(names, text, left)?;
            write_word(text, b";")?;
            write_program(names, text, right)?;
            write_word(text, b")")?;
        }
        Program::Alt(left, right) => {
            write_word(text, b"(")?;
            write_program(names, text, left)?;
            write_word(text, b"+")?;
            write_program(names, text, right)?;
            write_word(text, b")")?;
        }
        Program::Star(operand) => {
            write_program(names, text, operand)?;
            write_word(text, b"*")?;
        }
        Program::Test(formula) => {
            write_word(text, b"(")?;
            write_pdl(names, text, formula, true)?;
            write_word(text, b")?")?;
        }
    }
    names.shorten(text, start)
}

// Appends a modality of a program, without the formula behind it.
pub(crate) fn write_run(
    names: &mut Names,
    text: &mut Vec<u8>,
    program: &Program,
    is_diamond: bool,
) -> Result<(), NoMemory> {
    write_word(text, if is_diamond { b"<" } else { b"[" })?;
    if !is_blank(program) {
        write_program(names, text, program)?;
    }
    write_word(text, if is_diamond { b">" } else { b"]" })
}
