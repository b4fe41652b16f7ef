// The connectives of formulas, which all logics share.
ghost use Rattle.std.specs.Prelude.{◌≡◌, ◌++◌, codes};
ghost use Rattle.ml_text.specs.Operators.{operator_level, spelling_of};

use crate::token::Operator;

/// The level of a connective: a greater level binds tighter.
pub fn operator_level(operator: Operator) -> u8
    ensures { result ≡ operator_level operator }
{
    match operator {
        Operator::Iff => 0,
        Operator::Implies => 1,
        Operator::Or => 2,
        Operator::And => 3,
    }
}

/// A connective as it stands between its operands: its spelling, with a blank on each side.
pub fn infix(operator: Operator) -> &'static [u8]
    ensures { result.now ≡ codes " " ++ spelling_of operator ++ codes " " }
{
    match operator {
        Operator::And => b" & ",
        Operator::Or => b" | ",
        Operator::Implies => b" -> ",
        Operator::Iff => b" <-> ",
    }
}
