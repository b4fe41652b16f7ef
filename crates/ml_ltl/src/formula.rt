// The formulas of LTL, and their texts.
ghost use Rattle.std.specs.Prelude.{MatchResult};
ghost use Rattle.ml_ctl.specs.Parsing.{IsParsedAs, IsRefusedBy};

use ml_base::ParseRefusal;
use ml_ctl::{FormulaOf, Language, Ltl, parse_in};
use std::alloc::Global;

/// A formula of LTL, which is a path formula without quantifiers.
pub type Formula = FormulaOf<Ltl>;

/// The formula of LTL that a text stands for.
///
/// # Errors
/// As those of `ml_ctl::parse_in`. `E` and `A` are in no text of LTL.
///
/// Cost: as that of `ml_ctl::parse_in`.
pub fn parse(alloc: Global, text: &[u8]) -> Result<Formula, ParseRefusal>
    ensures { MatchResult result (IsParsedAs Language.Ltl text.now) (IsRefusedBy Language.Ltl text.now) }
{
    parse_in::<Ltl>(alloc, text)
}
