// The forms of operands: what a token does to a form, and what a form is behind its operand.
ghost use Rattle.std.specs.Prelude.{◌≡◌, IfOk};
ghost use Rattle.std.specs.Option.{option_map};
ghost use Rattle.ml_text.specs.private.Views.{GivesBack, mode_view, turn_view};
ghost use Rattle.ml_ctl.specs.Term.{formula_of};
ghost use Rattle.ml_ctl.specs.private.FormViews.{wait_view};
ghost use Rattle.ml_ctl.specs.private.Reader.{ctl_tables};
ghost use Rattle.ml_ctl.specs.private.Tables as tables;

use crate::signs::{Own, Sign};
use crate::{Language, Quantifier, Sort, Tense, Term};
use ml_base::NoMemory;
use ml_text::Mode;
use std::alloc::Global;

// a form of which a token is to come
#[derive(Drop)]
pub(crate) enum Wait {
    Start(Sort),
    BehindInside(Term),
}

// a form of which an operand is to come
#[derive(Drop)]
pub(crate) enum Hold {
    Negation(Sort),
    Tensing(Tense),
    Quantifying(Quantifier),
    Group(Sort),
}

// what a token does to a form
type Turn = ml_text::Turn<Sign, Term, Wait, Hold>;

fn shift_tense(sort: Sort, tense: Tense) -> Option<Turn>
    ensures turn { option_map (turn_view (ctl_tables Language.Ctl)) result ≡ tables.shift_tense sort tense }
{
    match sort {
        Sort::State => None,
        Sort::Path => Some(Turn::Inner(Hold::Tensing(tense))),
    }
}

fn shift_quantifier(language: Language, quantifier: Quantifier) -> Option<Turn>
    ensures turn { option_map (turn_view (ctl_tables Language.Ctl)) result
        ≡ tables.shift_quantifier language quantifier }
{
    match language {
        Language::Ctl => Some(Turn::Inner(Hold::Quantifying(quantifier))),
        Language::Ltl => None,
    }
}

fn shift_start(language: Language, sort: Sort, sign: Sign) -> Option<Turn>
    ensures turn { option_map (turn_view (ctl_tables Language.Ctl)) result
        ≡ tables.shift_start language sort sign }
{
    match sign {
        Sign::Not => Some(Turn::Inner(Hold::Negation(sort))),
        Sign::Const(value) => Some(Turn::Read(Mode::Whole(Term::Const(value)))),
        Sign::Lower(name) => Some(Turn::Read(Mode::Whole(Term::Prop(name)))),
        Sign::Open => Some(Turn::Inner(Hold::Group(sort))),
        Sign::Added(Own::Tensed(tense)) => shift_tense(sort, tense),
        Sign::Added(Own::Quantifies(quantifier)) => shift_quantifier(language, quantifier),
        _ => None,
    }
}

/// What a token does to a form of which one is to come; `None` where no text of the logic goes on so.
pub(crate) fn shift(language: Language, wait: Wait, sign: Sign) -> Option<Turn>
    ensures turn { option_map (turn_view (ctl_tables Language.Ctl)) result
        ≡ tables.shift language (wait_view wait) sign }
    ensures gives_back { GivesBack (ctl_tables Language.Ctl) result sign }
{
    match (wait, sign) {
        (Wait::Start(sort), sign) => shift_start(language, sort, sign),
        (Wait::BehindInside(term), Sign::Close) => Some(Turn::Read(Mode::Whole(term))),
        (Wait::BehindInside(_), _) => None,
    }
}

/// A form behind its operand.
pub(crate) fn resume(alloc: Global, hold: Hold, term: Term) -> Result<Mode<Term, Wait>, NoMemory>
    ensures { IfOk result (λ mode.
        mode_view (ctl_tables Language.Ctl) mode ≡ tables.resume hold (formula_of term)) }
{
    Ok(match hold {
        Hold::Negation(_) => Mode::Whole(Term::Not(Box::new(alloc, term)?)),
        Hold::Tensing(tense) => Mode::Whole(Term::Temporal(tense, Box::new(alloc, term)?)),
        Hold::Quantifying(quantifier) => {
            Mode::Whole(Term::Quantified(quantifier, Box::new(alloc, term)?))
        }
        Hold::Group(_) => Mode::More(Wait::BehindInside(term)),
    })
}

/// Two operands with an operator between them.
pub(crate) fn join(alloc: Global, sign: Sign, left: Term, right: Term) -> Result<Term, NoMemory>
    ensures { IfOk result (λ term.
        formula_of term ≡ tables.join sign (formula_of left) (formula_of right)) }
{
    match sign {
        Sign::Connective(operator) => {
            Ok(Term::Binary(operator, Box::new(alloc, left)?, Box::new(alloc, right)?))
        }
        Sign::Added(Own::Pairs(pairing)) => {
            Ok(Term::Paired(pairing, Box::new(alloc, left)?, Box::new(alloc, right)?))
        }
        _ => Ok(left),
    }
}
