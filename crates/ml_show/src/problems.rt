// What a document is about, in words.
use crate::page::Page;
use ml_base::NoMemory;
use ml_front::{AnyFormula, Logic, Problem, print};
use std::alloc::Global;

// the logic of a formula
fn logic_of(formula: &AnyFormula) -> Logic {
    match formula {
        AnyFormula::Mu(_) => Logic::Mu,
        AnyFormula::Pdl(_) => Logic::Pdl,
        AnyFormula::Ctl(_) => Logic::Ctl,
        AnyFormula::Ltl(_) => Logic::Ltl,
        AnyFormula::Word(_) => Logic::Word,
    }
}

// is one path spoken of?
pub(crate) fn is_path(formula: &AnyFormula) -> bool {
    matches!(formula, AnyFormula::Word(_) | AnyFormula::Ltl(_))
}

// the formula of a problem, in lines of its own
pub(crate) fn show_formula(
    alloc: Global,
    page: &mut Page,
    problem: &Problem,
) -> Result<(), NoMemory> {
    page.begin(0, 0)?;
    page.words(b"The formula, in the logic")?;
    page.word(logic_of(&problem.formula).word())?;
    page.put(b":")?;
    page.end_line()?;
    page.begin(4, 6)?;
    page.words(&print(alloc, problem)?)?;
    page.end_line()
}

// what is said of a problem at a state of a structure
pub(crate) fn claim(problem: &Problem) -> &'static [u8] {
    match (&problem.formula, problem.negated) {
        (AnyFormula::Ltl(_), false) => b"It is said to hold on some path from",
        (AnyFormula::Ltl(_), true) => b"It is said not to hold on some path from",
        (_, false) => b"It is said to hold at",
        (_, true) => b"It is said not to hold at",
    }
}
