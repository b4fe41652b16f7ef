// A problem that asks for a path has a path problem.
ghost use Rattle.std.specs.Prelude.{◌≡◌, IfOk, MatchOption};
ghost use Rattle.ml_front.specs.declared.problem.AnyFormula.TheVariants.{Ctl};
ghost use Rattle.ml_path_text.specs.PathProblems.{AsksFor, AsksForAs, AsksForNone, on_words, quantifier_of};

use ml_base::NoMemory;
use ml_ctl::{Quantifier, quantified};
use ml_front::{AnyFormula, Problem};
use ml_ltl::{Formula, copy};
use std::alloc::Global;

/// What a path is asked to show: a formula, or its negation.
#[derive(Drop)]
pub(crate) struct PathProblem {
    pub(crate) formula: Formula,
    pub(crate) negated: bool,
}

impl PathProblem {
    /// The same as a problem of LTL on words.
    pub(crate) fn on_words(self) -> Problem
        ensures { result ≡ on_words self.formula self.negated }
    {
        Problem {
            formula: AnyFormula::Word(self.formula),
            negated: self.negated,
        }
    }
}

// is it the quantifier of the formulas that a path breaks?
fn is_negated(quantifier: Quantifier) -> bool
    ensures { quantifier ≡ quantifier_of result }
{
    match quantifier {
        Quantifier::Exists => false,
        Quantifier::Forall => true,
    }
}

// that of a formula of CTL*
#[tactic(auto, using(crate::proofs::PathProblems::asks_behind, crate::proofs::PathProblems::asks_none))]
fn behind_quantifier(
    alloc: Global,
    formula: &ml_ctl::Formula,
    _negated: bool,
) -> Result<Option<PathProblem>, NoMemory>
    ensures { IfOk result (λ o. MatchOption o
        (AsksForNone (record { formula = Ctl formula.now; negated = _negated }))
        (λ asked. AsksForAs (Ctl formula.now) _negated asked.formula asked.negated)) }
{
    match quantified(alloc, formula)? {
        Some((quantifier, operand)) => Ok(Some(PathProblem {
            formula: operand,
            negated: is_negated(quantifier),
        })),
        None => Ok(None),
    }
}

/// The path problem of a problem; `None` exactly where it has none.
///
/// # Errors
/// `NoMemory` alone.
///
/// Cost: linear in the formula.
pub(crate) fn path_problem(
    alloc: Global,
    problem: &Problem,
) -> Result<Option<PathProblem>, NoMemory>
    ensures { IfOk result (λ o. MatchOption o (AsksForNone problem.now)
        (λ asked. AsksFor problem.now asked.formula asked.negated)) }
{
    match &problem.formula {
        AnyFormula::Ltl(formula) | AnyFormula::Word(formula) => Ok(Some(PathProblem {
            formula: copy(alloc, formula)?,
            negated: problem.negated,
        })),
        AnyFormula::Ctl(formula) => behind_quantifier(alloc, formula, problem.negated),
        AnyFormula::Mu(_) | AnyFormula::Pdl(_) => Ok(None),
    }
}
