// Formulas as texts of files have them.
ghost use Rattle.std.specs.Prelude.{◌≡◌, ◌<◌, IfOk, MatchOption, MatchResult};
ghost use Rattle.ml_text.specs.Limits.{most_occurrences};
ghost use Rattle.ml_front.specs.Connectives as connectives;
ghost use Rattle.ml_written.specs.Written.{IsRefusedIn, IsWrittenAs, meaning, written_logic};

use ml_base::{NoMemory, ParseRefusal};
use ml_bounded::{BoundedFormula, written_out};
use ml_front::{AnyFormula, Logic};
use std::alloc::Global;

/// A formula as a text of a file has it: one of LTL may have bounded operators.
#[derive(Drop)]
pub enum Written {
    Mu(ml_mu::Formula),
    Pdl(ml_pdl::Formula),
    Ctl(ml_ctl::Formula),
    Ltl(BoundedFormula),
    Word(BoundedFormula),
}

/// The formula that a text stands for in a logic.
///
/// # Errors
/// Those of the parser, where and as it says (`ml_mu::parse`, `ml_pdl::parse`, `ml_ctl::parse`, `ml_bounded::parse`).
///
/// Cost: that of the parser.
pub fn read(alloc: Global, logic: Logic, text: &[u8]) -> Result<Written, ParseRefusal>
    ensures { MatchResult result
        (λ w. (written_logic w ≡ logic) × IsWrittenAs text.now w)
        (IsRefusedIn logic text.now) }
{
    match logic {
        Logic::Mu => Ok(Written::Mu(ml_mu::parse(alloc, text)?)),
        Logic::Pdl => Ok(Written::Pdl(ml_pdl::parse(alloc, text)?)),
        Logic::Ctl => Ok(Written::Ctl(ml_ctl::parse(alloc, text)?)),
        Logic::Ltl => Ok(Written::Ltl(ml_bounded::parse(alloc, text)?)),
        Logic::Word => Ok(Written::Word(ml_bounded::parse(alloc, text)?)),
    }
}

/// The formula that one of a file stands for, with its bounded operators written out; `None` exactly where that has more
/// than 1,000 occurrences.
///
/// # Errors
/// `NoMemory` alone.
///
/// Cost: that of `ml_bounded::written_out` in LTL; constant in the other logics.
pub fn meaning(alloc: Global, written: Written) -> Result<Option<AnyFormula>, NoMemory>
    ensures { IfOk result (λ meant. MatchOption meant
        (most_occurrences < connectives.occurrences (meaning written))
        (λ f. f ≡ meaning written)) }
{
    match written {
        Written::Mu(formula) => Ok(Some(AnyFormula::Mu(formula))),
        Written::Pdl(formula) => Ok(Some(AnyFormula::Pdl(formula))),
        Written::Ctl(formula) => Ok(Some(AnyFormula::Ctl(formula))),
        Written::Ltl(formula) => Ok(written_out(alloc, &formula)?.map(AnyFormula::Ltl)),
        Written::Word(formula) => Ok(written_out(alloc, &formula)?.map(AnyFormula::Word)),
    }
}
