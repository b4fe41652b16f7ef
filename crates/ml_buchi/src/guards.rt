// Guards under valuations.
ghost use Rattle.std.specs.Prelude.{◌≡◌};
ghost use Rattle.ml_hoa.specs.Automaton.{PropsBelow, most_props};
ghost use Rattle.ml_hoa.specs.private.Views.{guard_of};
ghost use Rattle.ml_buchi.specs.Valuations as spec;

use ml_hoa::Guard;

// does the valuation make the guard true?
pub(crate) fn holds(valuation: u32, guard: &Guard) -> bool
    requires { PropsBelow most_props (guard_of guard.now) }
    ensures { result ≡ spec.holds valuation (guard_of guard.now) }
{
    match guard {
        Guard::Const(value) => *value,
        Guard::Ap(prop) => (valuation >> *prop) & 1 == 1,
        Guard::Not(operand) => !holds(valuation, operand),
        Guard::And(left, right) => holds(valuation, left) && holds(valuation, right),
        Guard::Or(left, right) => holds(valuation, left) || holds(valuation, right),
    }
}
