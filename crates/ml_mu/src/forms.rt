// The forms of operands: what a token does to a form, and what a form is behind its operand.
ghost use Rattle.std.specs.Prelude.{◌≡◌, IfOk};
ghost use Rattle.std.specs.Option.{option_map};
ghost use Rattle.ml_text.specs.private.Views.{GivesBack, mode_view, turn_view};
ghost use Rattle.ml_mu.specs.private.FormViews.{hold_view, wait_view};
ghost use Rattle.ml_mu.specs.private.Reader.{mu_tables};
ghost use Rattle.ml_mu.specs.private.Tables as tables;
ghost use Rattle.ml_mu.specs.Formula as plain;
ghost use Rattle.ml_mu.specs.Term.{formula_of};

use crate::signs::{Own, Sign};
use crate::{Fixpoint, Modality, Term};
use ml_base::{Action, Name, NoMemory};
use ml_text::{Mode, Operator};
use std::alloc::Global;

// a form of which a token is to come
#[derive(Drop)]
pub(crate) enum Wait {
    Operand,
    BehindBegin(Modality),
    BehindAction(Modality, Action),
    BehindFixpoint(Fixpoint),
    BehindVariable(Fixpoint, Name),
    BehindInside(Term),
}

// a form of which an operand is to come
#[derive(Drop)]
pub(crate) enum Hold {
    Negation,
    Modal(Modality, Action),
    Binder(Fixpoint, Name),
    Group,
}

// what a token does to a form
type Turn = ml_text::Turn<Sign, Term, Wait, Hold>;

#[inline(always)]
fn shift_operand(sign: Sign) -> Option<Turn>
    ensures { option_map (turn_view mu_tables) result ≡ tables.shift_operand sign }
{
    match sign {
        Sign::Not => Some(Turn::Inner(Hold::Negation)),
        Sign::Const(value) => Some(Turn::Read(Mode::Whole(Term::Const(value)))),
        Sign::Lower(name) => Some(Turn::Read(Mode::Whole(Term::Prop(name)))),
        Sign::Upper(name) => Some(Turn::Read(Mode::Whole(Term::Var(name)))),
        Sign::Open => Some(Turn::Inner(Hold::Group)),
        Sign::Added(Own::Begins(modality)) => Some(Turn::Read(Mode::More(Wait::BehindBegin(
            modality,
        )))),
        Sign::Added(Own::Binds(fixpoint)) => Some(Turn::Read(Mode::More(Wait::BehindFixpoint(
            fixpoint,
        )))),
        _ => None,
    }
}

fn shift_begin(alloc: Global, modality: Modality, sign: Sign) -> Result<Option<Turn>, NoMemory>
    ensures { IfOk result (λ turn.
        option_map (turn_view mu_tables) turn ≡ tables.shift_begin modality sign) }
{
    let action = match (modality, sign) {
        (Modality::Diamond, Sign::Added(Own::Ends(Modality::Diamond)))
        | (Modality::Square, Sign::Added(Own::Ends(Modality::Square))) => {
            let hold = Hold::Modal(modality, Action::blank(alloc)?);
            return Ok(Some(Turn::Inner(hold)));
        }
        (_, Sign::Added(Own::Blank)) => Action::blank(alloc)?,
        (_, Sign::Lower(name)) => Action::from_name(name),
        (_, Sign::Upper(name)) => Action::from_name(name),
        _ => return Ok(None),
    };
    Ok(Some(Turn::Read(Mode::More(Wait::BehindAction(modality, action)))))
}

fn shift_action(modality: Modality, action: Action, sign: Sign) -> Option<Turn>
    ensures { option_map (turn_view mu_tables) result ≡ tables.shift_action modality action sign }
{
    match (modality, sign) {
        (Modality::Diamond, Sign::Added(Own::Ends(Modality::Diamond)))
        | (Modality::Square, Sign::Added(Own::Ends(Modality::Square))) => {
            Some(Turn::Inner(Hold::Modal(modality, action)))
        }
        _ => None,
    }
}

/// What a token does to a form of which one is to come; `None` where no text goes on so.
#[inline(always)]
pub(crate) fn shift(alloc: Global, wait: Wait, sign: Sign) -> Result<Option<Turn>, NoMemory>
    ensures turn { IfOk result (λ turn.
        option_map (turn_view mu_tables) turn ≡ tables.shift (wait_view wait) sign) }
    ensures gives_back { IfOk result (λ turn. GivesBack mu_tables turn sign) }
{
    match wait {
        Wait::Operand => Ok(shift_operand(sign)),
        Wait::BehindBegin(modality) => shift_begin(alloc, modality, sign),
        Wait::BehindAction(modality, action) => Ok(shift_action(modality, action, sign)),
        Wait::BehindFixpoint(fixpoint) => Ok(match sign {
            Sign::Upper(name) => Some(Turn::Read(Mode::More(Wait::BehindVariable(fixpoint, name)))),
            _ => None,
        }),
        Wait::BehindVariable(fixpoint, name) => Ok(match sign {
            Sign::Added(Own::Dot) => Some(Turn::Inner(Hold::Binder(fixpoint, name))),
            _ => None,
        }),
        Wait::BehindInside(term) => Ok(match sign {
            Sign::Close => Some(Turn::Read(Mode::Whole(term))),
            _ => None,
        }),
    }
}

/// A form behind its operand.
pub(crate) fn resume(alloc: Global, hold: Hold, term: Term) -> Result<Mode<Term, Wait>, NoMemory>
    ensures { IfOk result (λ mode. mode_view mu_tables mode ≡ tables.resume (hold_view hold) (formula_of term)) }
{
    Ok(match hold {
        Hold::Negation => Mode::Whole(Term::Not(Box::new(alloc, term)?)),
        Hold::Modal(modality, action) => {
            Mode::Whole(Term::Modal(modality, action, Box::new(alloc, term)?))
        }
        Hold::Binder(fixpoint, name) => {
            Mode::Whole(Term::Binder(fixpoint, name, Box::new(alloc, term)?))
        }
        Hold::Group => Mode::More(Wait::BehindInside(term)),
    })
}

/// Two operands with an operator between them.
pub(crate) fn join(
    alloc: Global,
    operator: Operator,
    left: Term,
    right: Term,
) -> Result<Term, NoMemory>
    ensures { IfOk result (λ term.
        formula_of term ≡ plain.Binary operator (formula_of left) (formula_of right)) }
{
    let left = Box::new(alloc, left)?;
    let right = Box::new(alloc, right)?;
    Ok(Term::Binary(operator, left, right))
}
