// Formulas that say that exactly one of some propositions is true.
ghost use Rattle.std.specs.Prelude.{◌≡◌, ◌<◌, Some, IfOk, IsSome, MatchOption};
ghost use Rattle.ml_text.specs.Limits.{most_occurrences};
ghost use Rattle.ml_ctl.specs.Enumerations.{ArePropositions};
ghost use Rattle.ml_front.specs.Connectives as connectives;
ghost use Rattle.ml_front.specs.Enumerations.{enumeration};
ghost use Rattle.ml_front.specs.declared.problem.AnyFormula as declared;

use crate::{AnyFormula, Logic};
use ml_base::{Name, NoMemory};
use std::alloc::Global;

/// That exactly one of some propositions is true at each moment, in CTL*, LTL or LTL on words; `None` exactly where that has
/// more than 1,000 occurrences.
///
/// # Errors
/// `NoMemory` alone.
///
/// Cost: that of `ml_ctl::enumeration`.
pub fn enumeration(
    alloc: Global,
    logic: Logic,
    names: &[Name],
) -> Result<Option<AnyFormula>, NoMemory>
    requires logic { IsSome (enumeration logic names.now) }
    requires propositions { ArePropositions names.now }
    ensures { (f : declared.AnyFormula) → enumeration logic names.now ≡ Some f → IfOk result (λ made. MatchOption made
        (most_occurrences < connectives.occurrences f)
        (λ g. g ≡ f)) }
{
    match logic {
        Logic::Ctl => Ok(ml_ctl::enumeration(alloc, names)?.map(AnyFormula::Ctl)),
        Logic::Ltl => Ok(ml_ctl::enumeration(alloc, names)?.map(AnyFormula::Ltl)),
        Logic::Word => Ok(ml_ctl::enumeration(alloc, names)?.map(AnyFormula::Word)),
        Logic::Mu | Logic::Pdl => unreachable!(),
    }
}
