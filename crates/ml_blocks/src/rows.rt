// How items are decomposed.
ghost use Rattle.std.specs.Prelude.{◌≡◌};
ghost use Rattle.ml_blocks.specs.private.Forms as forms;

use crate::items::{Asked, Few};
use crate::table::{Occurrence, Symbol};
use ml_ctl::{Pairing, Tense};
use ml_text::Operator;

// how an item is decomposed: it is about the state alone, waits for the next place, becomes others, or others in one of
// two ways
#[derive(Clone, Copy, Debug)]
pub(crate) enum Row {
    OfState,
    Waits,
    Becomes(Few),
    Either(Few, Few),
}

fn connective_row(operator: Operator, positive: bool, left: u32, right: u32) -> Row
    ensures { result ≡ forms.connective_row operator positive left right }
{
    let l = |sign| Asked::now(left, sign);
    let r = |sign| Asked::now(right, sign);
    match (operator, positive) {
        (Operator::And, true) => Row::Becomes(Few::Two(l(true), r(true))),
        (Operator::And, false) => Row::Either(Few::One(l(false)), Few::One(r(false))),
        (Operator::Or, true) => Row::Either(Few::One(l(true)), Few::One(r(true))),
        (Operator::Or, false) => Row::Becomes(Few::Two(l(false), r(false))),
        (Operator::Implies, true) => Row::Either(Few::One(l(false)), Few::One(r(true))),
        (Operator::Implies, false) => Row::Becomes(Few::Two(l(true), r(false))),
        (Operator::Iff, true) => {
            Row::Either(Few::Two(l(true), r(true)), Few::Two(l(false), r(false)))
        }
        (Operator::Iff, false) => {
            Row::Either(Few::Two(l(true), r(false)), Few::Two(l(false), r(true)))
        }
    }
}

fn tense_row(tense: Tense, x: Asked, operand: Asked) -> Row
    ensures { result ≡ forms.tense_row tense x operand }
{
    match (tense, x.positive) {
        (Tense::Next, _) => Row::Waits,
        (Tense::Finally, true) | (Tense::Globally, false) => {
            Row::Either(Few::One(operand), Few::One(x.put_off()))
        }
        (Tense::Finally, false) | (Tense::Globally, true) => {
            Row::Becomes(Few::Two(operand, x.put_off()))
        }
    }
}

fn pairing_row(pairing: Pairing, x: Asked, left: Asked, right: Asked) -> Row
    ensures { result ≡ forms.pairing_row pairing x left right }
{
    match (pairing, x.positive) {
        (Pairing::Until | Pairing::Weak, true) | (Pairing::Release, false) => {
            Row::Either(Few::One(right), Few::Two(left, x.put_off()))
        }
        (Pairing::Until | Pairing::Weak, false) | (Pairing::Release, true) => {
            Row::Either(Few::Two(right, left), Few::Two(right, x.put_off()))
        }
    }
}

// how an item of an occurrence is decomposed
pub(crate) fn row_of(occurrence: Occurrence, x: Asked) -> Row
    ensures { result ≡ forms.row_in occurrence x }
{
    let Occurrence {
        symbol,
        left,
        right,
    } = occurrence;
    match symbol {
        Symbol::Const(_) | Symbol::Prop(_) | Symbol::Quantified(_) => Row::OfState,
        Symbol::Not => Row::Becomes(Few::One(Asked::now(left, !x.positive))),
        Symbol::Binary(operator) => connective_row(operator, x.positive, left, right),
        Symbol::Temporal(tense) => tense_row(tense, x, Asked::now(left, x.positive)),
        Symbol::Paired(pairing) => pairing_row(
            pairing,
            x,
            Asked::now(left, x.positive),
            Asked::now(right, x.positive),
        ),
    }
}

// is it an X?
pub(crate) fn is_next(symbol: Symbol) -> bool
    ensures { result ≡ forms.is_next symbol }
{
    matches!(symbol, Symbol::Temporal(Tense::Next))
}
