// Either the logic of a problem speaks of a structure, or a state of the structure tells why not.
ghost use Rattle.std.specs.Prelude.{◌<◌, IfOk, MatchOption};
ghost use Rattle.ml_front.specs.Logics.{logic_of};
ghost use Rattle.ml_front.specs.Problems.{IsAdmitted};
ghost use Rattle.ml_front.specs.declared.logic.Logic.TheVariants as logic;
ghost use Rattle.ml_path_text.specs.private.Unfits.{IsUnfit};

use ml_base::NoMemory;
use ml_front::{AnyFormula, Problem};
use ml_kripke::Structure;
use ml_model_check::first_deadlock;
use ml_word_check::WordRefusal;
use std::alloc::Global;

/// Why a logic doesn't speak of a structure: the least state that it doesn't allow.
#[derive(Clone, Copy)]
pub(crate) enum Unfit {
    /// The state has no edge by `_`, where the logic wants each state to have one.
    Deadlock(u32),
    /// The state hasn't exactly one edge by `_`, where the logic wants that of each state.
    Fork(u32),
}

// where the logic is CTL* or LTL
fn deadlock(alloc: Global, structure: &Structure) -> Result<Option<Unfit>, NoMemory>
    ensures ctl { IfOk result (λ o. MatchOption o (IsAdmitted logic.Ctl structure.now) (IsUnfit logic.Ctl structure.now)) }
    ensures ltl { IfOk result (λ o. MatchOption o (IsAdmitted logic.Ltl structure.now) (IsUnfit logic.Ltl structure.now)) }
{
    match first_deadlock(alloc, structure)? {
        Some(state) => Ok(Some(Unfit::Deadlock(state))),
        None => Ok(None),
    }
}

// where it is LTL on words: who checks a formula there tells the first fork
fn fork(
    alloc: Global,
    formula: &ml_ltl::Formula,
    structure: &Structure,
    state: u32,
) -> Result<Option<Unfit>, NoMemory>
    requires { state < structure.now.states }
    ensures { IfOk result (λ o. MatchOption o (IsAdmitted logic.Word structure.now) (IsUnfit logic.Word structure.now)) }
{
    match ml_word_check::holds(alloc, formula, false, structure, state) {
        Ok(_holds) => Ok(None),
        Err(WordRefusal::NotAWord(state)) => Ok(Some(Unfit::Fork(state))),
        Err(WordRefusal::NoMemory) => Err(NoMemory),
    }
}

/// Why the logic of a problem doesn't speak of a structure; `None` exactly where it does. `state` is a state of the structure.
///
/// # Errors
/// `NoMemory` alone.
///
/// Cost: linear in the structure; for a problem of LTL on words that of `ml_word_check::holds`.
pub(crate) fn first_unfit(
    alloc: Global,
    problem: &Problem,
    structure: &Structure,
    state: u32,
) -> Result<Option<Unfit>, NoMemory>
    requires { state < structure.now.states }
    ensures { IfOk result (λ o. MatchOption o (IsAdmitted (logic_of problem.now.formula) structure.now)
        (IsUnfit (logic_of problem.now.formula) structure.now)) }
{
    structure.keeps();
    match &problem.formula {
        AnyFormula::Mu(_) | AnyFormula::Pdl(_) => Ok(None),
        AnyFormula::Ctl(_) | AnyFormula::Ltl(_) => deadlock(alloc, structure),
        AnyFormula::Word(formula) => fork(alloc, formula, structure, state),
    }
}
