// Definitions, and formulas of any logic with these written out.
ghost use Rattle.std.specs.Prelude.{◌≡◌, ◌<◌, [], IfOk, MatchOption};
ghost use Rattle.std.specs.Str.{bytes_eq};
ghost use Rattle.indexmap.specs.IndexMap.{insert_entry};
ghost use Rattle.ml_text.specs.Limits.{most_occurrences};
ghost use Rattle.ml_front.specs.Connectives as connectives;
ghost use Rattle.ml_front.specs.Definitions.{definitions_in, logic_defined};
ghost use Rattle.ml_front.specs.Logics.{logic_of};
ghost use Rattle.ml_front.specs.Replaced.{replaced};

use crate::{AnyFormula, Logic};
use indexmap::IndexMap;
use ml_base::{Name, NoMemory};
use std::alloc::Global;

/// Definitions of one logic: propositions, each with the formula for which it stands.
#[derive(Drop)]
pub enum Definitions {
    Mu(IndexMap<Name, ml_mu::Formula>),
    Pdl(IndexMap<Name, ml_pdl::Formula>),
    Ctl(IndexMap<Name, ml_ctl::Formula>),
    Ltl(IndexMap<Name, ml_ltl::Formula>),
    Word(IndexMap<Name, ml_ltl::Formula>),
}

impl Definitions {
    /// None, in a logic.
    pub fn new(alloc: Global, logic: Logic) -> Definitions
        ensures logic { logic_defined result ≡ logic }
        ensures none { definitions_in result ≡ [] }
    {
        match logic {
            Logic::Mu => Definitions::Mu(IndexMap::new(alloc)),
            Logic::Pdl => Definitions::Pdl(IndexMap::new(alloc)),
            Logic::Ctl => Definitions::Ctl(IndexMap::new(alloc)),
            Logic::Ltl => Definitions::Ltl(IndexMap::new(alloc)),
            Logic::Word => Definitions::Word(IndexMap::new(alloc)),
        }
    }

    /// These definitions with one more of their logic behind them. Where the proposition has one, it takes the new formula in
    /// the same place.
    ///
    /// # Errors
    /// `NoMemory` alone.
    ///
    /// Cost: the name's length, on average.
    #[tactic(auto, using(crate::proofs::WrittenOut::mu_inserted, crate::proofs::WrittenOut::pdl_inserted, crate::proofs::WrittenOut::ctl_inserted, crate::proofs::WrittenOut::ltl_inserted, crate::proofs::WrittenOut::word_inserted))]
    pub fn with(self, name: Name, formula: AnyFormula) -> Result<Definitions, NoMemory>
        requires { logic_of formula ≡ logic_defined self }
        ensures logic { IfOk result (λ more. logic_defined more ≡ logic_defined self) }
        ensures definitions { IfOk result (λ more.
            definitions_in more ≡ insert_entry bytes_eq (definitions_in self) name formula) }
    {
        match (self, formula) {
            (Definitions::Mu(mut table), AnyFormula::Mu(formula)) => {
                table.insert(name, formula)?;
                Ok(Definitions::Mu(table))
            }
            (Definitions::Pdl(mut table), AnyFormula::Pdl(formula)) => {
                table.insert(name, formula)?;
                Ok(Definitions::Pdl(table))
            }
            (Definitions::Ctl(mut table), AnyFormula::Ctl(formula)) => {
                table.insert(name, formula)?;
                Ok(Definitions::Ctl(table))
            }
            (Definitions::Ltl(mut table), AnyFormula::Ltl(formula)) => {
                table.insert(name, formula)?;
                Ok(Definitions::Ltl(table))
            }
            (Definitions::Word(mut table), AnyFormula::Word(formula)) => {
                table.insert(name, formula)?;
                Ok(Definitions::Word(table))
            }
            _ => unreachable!(),
        }
    }
}

/// A formula with each proposition replaced by the formula for which it stands by the definitions, which are of its logic;
/// `None` exactly where that has more than 1,000 occurrences.
///
/// All propositions are replaced at once: nothing is replaced in the formulas that come in.
///
/// # Errors
/// `NoMemory` alone.
///
/// Cost: that of the logic's `replaced`.
#[tactic(auto, using(crate::proofs::WrittenOut::mu_replaced, crate::proofs::WrittenOut::pdl_replaced, crate::proofs::WrittenOut::ctl_replaced, crate::proofs::WrittenOut::ltl_replaced, crate::proofs::WrittenOut::word_replaced))]
pub fn replaced(
    alloc: Global,
    formula: &AnyFormula,
    definitions: &Definitions,
) -> Result<Option<AnyFormula>, NoMemory>
    requires { logic_of formula.now ≡ logic_defined definitions.now }
    ensures { IfOk result (λ made. MatchOption made
        (most_occurrences < connectives.occurrences (replaced (definitions_in definitions.now) formula.now))
        (λ f. f ≡ replaced (definitions_in definitions.now) formula.now)) }
{
    match (formula, definitions) {
        (AnyFormula::Mu(formula), Definitions::Mu(table)) => {
            Ok(ml_mu::replaced(alloc, formula, table)?.map(AnyFormula::Mu))
        }
        (AnyFormula::Pdl(formula), Definitions::Pdl(table)) => {
            Ok(ml_pdl::replaced(alloc, formula, table)?.map(AnyFormula::Pdl))
        }
        (AnyFormula::Ctl(formula), Definitions::Ctl(table)) => {
            Ok(ml_ctl::replaced(alloc, formula, table)?.map(AnyFormula::Ctl))
        }
        (AnyFormula::Ltl(formula), Definitions::Ltl(table)) => {
            Ok(ml_ctl::replaced(alloc, formula, table)?.map(AnyFormula::Ltl))
        }
        (AnyFormula::Word(formula), Definitions::Word(table)) => {
            Ok(ml_ctl::replaced(alloc, formula, table)?.map(AnyFormula::Word))
        }
        _ => unreachable!(),
    }
}
