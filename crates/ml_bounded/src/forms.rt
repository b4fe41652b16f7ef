// The forms of operands: what a token does to a form, and what a form is behind its operand.
ghost use Rattle.std.specs.Prelude.{◌≡◌, IfOk};
ghost use Rattle.std.specs.Option.{option_map};
ghost use Rattle.ml_text.specs.private.Views.{GivesBack, mode_view, turn_view};
ghost use Rattle.ml_bounded.specs.Term.{formula_of};
ghost use Rattle.ml_bounded.specs.private.FormViews.{wait_view};
ghost use Rattle.ml_bounded.specs.private.Reader.{bounded_tables};
ghost use Rattle.ml_bounded.specs.private.Tables as tables;

use crate::signs::{Own, Sign};
use crate::{Bound, Reach, Term};
use ml_base::NoMemory;
use ml_ctl::Tense;
use ml_text::Mode;
use std::alloc::Global;

// a form of which a token is to come
#[derive(Drop)]
pub(crate) enum Wait {
    Start,
    BehindInside(Term),
    // an operand or `[` is to come
    BehindTense(Tense),
    // a number is to come
    BehindOpening(Tense),
    // behind the first number of two
    BehindFirst(Reach, u16),
    // the second number is to come
    BehindBetween(Reach, u16),
    // behind all numbers
    BehindLast(Bound),
}

// a form of which an operand is to come
#[derive(Drop)]
pub(crate) enum Hold {
    Negation,
    Tensing(Tense),
    Bounding(Bound),
    Group,
}

// what a token does to a form
type Turn = ml_text::Turn<Sign, Term, Wait, Hold>;

fn shift_start(sign: Sign) -> Option<Turn>
    ensures turn { option_map (turn_view bounded_tables) result ≡ tables.shift_start sign }
    ensures gives_back { GivesBack bounded_tables result sign }
{
    match sign {
        Sign::Not => Some(Turn::Inner(Hold::Negation)),
        Sign::Const(value) => Some(Turn::Read(Mode::Whole(Term::Const(value)))),
        Sign::Lower(name) => Some(Turn::Read(Mode::Whole(Term::Prop(name)))),
        Sign::Open => Some(Turn::Inner(Hold::Group)),
        Sign::Added(Own::Tensed(tense)) => Some(Turn::Read(Mode::More(Wait::BehindTense(tense)))),
        _ => None,
    }
}

fn shift_inside(term: Term, sign: Sign) -> Option<Turn>
    ensures turn { option_map (turn_view bounded_tables) result ≡ tables.shift_inside (formula_of term) sign }
    ensures gives_back { GivesBack bounded_tables result sign }
{
    match sign {
        Sign::Close => Some(Turn::Read(Mode::Whole(term))),
        _ => None,
    }
}

fn shift_tense(tense: Tense, sign: Sign) -> Option<Turn>
    ensures turn { option_map (turn_view bounded_tables) result ≡ tables.shift_tense tense sign }
    ensures gives_back { GivesBack bounded_tables result sign }
{
    match sign {
        Sign::Added(Own::Opening) => Some(Turn::Read(Mode::More(Wait::BehindOpening(tense)))),
        sign => Some(Turn::Opens(Hold::Tensing(tense), sign)),
    }
}

// behind the first number in the brackets
fn behind_number(tense: Tense, number: u16) -> Wait
    ensures { wait_view result ≡ tables.behind_number tense number }
{
    match tense {
        Tense::Next => Wait::BehindLast(Bound::Next(number)),
        Tense::Finally => Wait::BehindFirst(Reach::Eventually, number),
        Tense::Globally => Wait::BehindFirst(Reach::Always, number),
    }
}

fn shift_opening(tense: Tense, sign: Sign) -> Option<Turn>
    ensures turn { option_map (turn_view bounded_tables) result ≡ tables.shift_opening tense sign }
    ensures gives_back { GivesBack bounded_tables result sign }
{
    match sign {
        Sign::Added(Own::Number(number)) => {
            Some(Turn::Read(Mode::More(behind_number(tense, number))))
        }
        _ => None,
    }
}

fn shift_first(reach: Reach, first: u16, sign: Sign) -> Option<Turn>
    ensures turn { option_map (turn_view bounded_tables) result ≡ tables.shift_first reach first sign }
    ensures gives_back { GivesBack bounded_tables result sign }
{
    match sign {
        Sign::Added(Own::Digit) => Some(Turn::Read(Mode::More(Wait::BehindFirst(reach, first)))),
        Sign::Added(Own::Between) => Some(Turn::Read(Mode::More(Wait::BehindBetween(
            reach, first,
        )))),
        _ => None,
    }
}

fn shift_between(reach: Reach, first: u16, sign: Sign) -> Option<Turn>
    ensures turn { option_map (turn_view bounded_tables) result ≡ tables.shift_between reach first sign }
    ensures gives_back { GivesBack bounded_tables result sign }
{
    match sign {
        Sign::Added(Own::Number(second)) if first <= second => {
            let bound = Bound::Within(reach, first, second);
            Some(Turn::Read(Mode::More(Wait::BehindLast(bound))))
        }
        _ => None,
    }
}

fn shift_last(bound: Bound, sign: Sign) -> Option<Turn>
    ensures turn { option_map (turn_view bounded_tables) result ≡ tables.shift_last bound sign }
    ensures gives_back { GivesBack bounded_tables result sign }
{
    match sign {
        Sign::Added(Own::Digit) => Some(Turn::Read(Mode::More(Wait::BehindLast(bound)))),
        Sign::Added(Own::Closing) => Some(Turn::Inner(Hold::Bounding(bound))),
        _ => None,
    }
}

/// What a token does to a form of which one is to come; `None` where no text goes on so.
pub(crate) fn shift(wait: Wait, sign: Sign) -> Option<Turn>
    ensures turn { option_map (turn_view bounded_tables) result ≡ tables.shift (wait_view wait) sign }
    ensures gives_back { GivesBack bounded_tables result sign }
{
    match wait {
        Wait::Start => shift_start(sign),
        Wait::BehindInside(term) => shift_inside(term, sign),
        Wait::BehindTense(tense) => shift_tense(tense, sign),
        Wait::BehindOpening(tense) => shift_opening(tense, sign),
        Wait::BehindFirst(reach, first) => shift_first(reach, first, sign),
        Wait::BehindBetween(reach, first) => shift_between(reach, first, sign),
        Wait::BehindLast(bound) => shift_last(bound, sign),
    }
}

/// A form behind its operand.
pub(crate) fn resume(alloc: Global, hold: Hold, term: Term) -> Result<Mode<Term, Wait>, NoMemory>
    ensures { IfOk result (λ mode. mode_view bounded_tables mode ≡ tables.resume hold (formula_of term)) }
{
    Ok(match hold {
        Hold::Negation => Mode::Whole(Term::Not(Box::new(alloc, term)?)),
        Hold::Tensing(tense) => Mode::Whole(Term::Temporal(tense, Box::new(alloc, term)?)),
        Hold::Bounding(bound) => Mode::Whole(Term::Bounded(bound, Box::new(alloc, term)?)),
        Hold::Group => Mode::More(Wait::BehindInside(term)),
    })
}

/// Two operands with an operator between them.
pub(crate) fn join(alloc: Global, sign: Sign, left: Term, right: Term) -> Result<Term, NoMemory>
    ensures { IfOk result (λ term.
        formula_of term ≡ tables.join sign (formula_of left) (formula_of right)) }
{
    match sign {
        Sign::Connective(operator) => {
            Ok(Term::Binary(operator, Box::new(alloc, left)?, Box::new(alloc, right)?))
        }
        Sign::Added(Own::Pairs(pairing)) => {
            Ok(Term::Paired(pairing, Box::new(alloc, left)?, Box::new(alloc, right)?))
        }
        _ => Ok(left),
    }
}
