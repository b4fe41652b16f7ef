// Problems of all logics.
ghost use Rattle.std.specs.Prelude.{◌≡◌, false, not, IfOk, IfErr, IsErrOf};
ghost use Rattle.ml_front.specs.Logics.{canonical_text, logic_of, IsParsedAs, IsRefusedBy};
ghost use Rattle.ml_front.specs.Graphs.{HasLargeClosure, IsGraphOf};
ghost use Rattle.ml_front.specs.Laws.{HoldsWhere};

use crate::logic::Logic;
use ml_base::{NoMemory, ParseRefusal};
use ml_graph::{ClosureRefusal, ModalGraph};
use std::alloc::Global;

/// A formula of any logic.
#[derive(Drop)]
pub enum AnyFormula {
    Mu(ml_mu::Formula),
    Pdl(ml_pdl::Formula),
    Ctl(ml_ctl::Formula),
    Ltl(ml_ltl::Formula),
    Word(ml_ltl::Formula),
}

/// A formula with its sense: a plain problem asks for a state at which the formula holds, a negated one for a state at
/// which its negation does. A formula of LTL holds where some path satisfies it, and on words where the one path does.
#[derive(Drop)]
pub struct Problem {
    pub formula: AnyFormula,
    pub negated: bool,
}

/// The plain problem of a text's formula, by the logic's parser.
///
/// # Errors
/// Those of the parser, where and as it says (`ml_mu::parse`, `ml_pdl::parse`, `ml_ctl::parse`, `ml_ltl::parse`).
///
/// Cost: that of the parser.
pub fn read(alloc: Global, logic: Logic, text: &[u8]) -> Result<Problem, ParseRefusal>
    ensures of_logic { IfOk result (λ p. logic_of p.formula ≡ logic) }
    ensures parsed { IfOk result (λ p. IsParsedAs text.now p.formula) }
    ensures plain { IfOk result (λ p. p.negated ≡ false) }
    ensures refused { IfErr result (IsRefusedBy logic text.now) }
{
    match parse(alloc, logic, text) {
        Ok(formula) => Ok(Problem {
            formula,
            negated: false,
        }),
        Err(refusal) => Err(refusal),
    }
}

/// The formula that a text stands for in a logic.
pub(crate) fn parse(alloc: Global, logic: Logic, text: &[u8]) -> Result<AnyFormula, ParseRefusal>
    ensures of_logic { IfOk result (λ f. logic_of f ≡ logic) }
    ensures parsed { IfOk result (IsParsedAs text.now) }
    ensures refused { IfErr result (IsRefusedBy logic text.now) }
{
    match logic {
        Logic::Mu => Ok(AnyFormula::Mu(ml_mu::parse(alloc, text)?)),
        Logic::Pdl => Ok(AnyFormula::Pdl(ml_pdl::parse(alloc, text)?)),
        Logic::Ctl => Ok(AnyFormula::Ctl(ml_ctl::parse(alloc, text)?)),
        Logic::Ltl => Ok(AnyFormula::Ltl(ml_ltl::parse(alloc, text)?)),
        Logic::Word => Ok(AnyFormula::Word(ml_ltl::parse(alloc, text)?)),
    }
}

/// The same formula in the other sense.
pub fn negated(problem: Problem) -> Problem
    ensures formula { result.formula ≡ problem.formula }
    ensures sense { result.negated ≡ not problem.negated }
{
    Problem {
        formula: problem.formula,
        negated: !problem.negated,
    }
}

/// An equal problem.
///
/// # Errors
/// `NoMemory` alone.
///
/// Cost: that of the logic's `copy`.
pub fn copy(alloc: Global, problem: &Problem) -> Result<Problem, NoMemory>
    ensures { IfOk result (λ copied. copied ≡ problem.now) }
{
    let formula = copy_formula(alloc, &problem.formula)?;
    Ok(Problem {
        formula,
        negated: problem.negated,
    })
}

/// An equal formula.
///
/// # Errors
/// `NoMemory` alone.
///
/// Cost: that of the logic's `copy`.
pub fn copy_formula(alloc: Global, formula: &AnyFormula) -> Result<AnyFormula, NoMemory>
    ensures { IfOk result (λ copied. copied ≡ formula.now) }
{
    match formula {
        AnyFormula::Mu(formula) => Ok(AnyFormula::Mu(ml_mu::copy(alloc, formula)?)),
        AnyFormula::Pdl(formula) => Ok(AnyFormula::Pdl(ml_pdl::copy(alloc, formula)?)),
        AnyFormula::Ctl(formula) => Ok(AnyFormula::Ctl(ml_ctl::copy(alloc, formula)?)),
        AnyFormula::Ltl(formula) => Ok(AnyFormula::Ltl(ml_ltl::copy(alloc, formula)?)),
        AnyFormula::Word(formula) => Ok(AnyFormula::Word(ml_ltl::copy(alloc, formula)?)),
    }
}

/// The canonical text of the problem's formula, which is read back as the same formula.
///
/// # Errors
/// `NoMemory` alone.
///
/// Cost: linear in the text.
pub fn print(alloc: Global, problem: &Problem) -> Result<Vec<u8>, NoMemory>
    ensures text { IfOk result (λ text. text.items ≡ canonical_text problem.now.formula) }
    ensures reads_back { IfOk result (λ text. IsParsedAs text.items problem.now.formula) }
{
    match &problem.formula {
        AnyFormula::Mu(formula) => ml_mu::print(alloc, formula),
        AnyFormula::Pdl(formula) => ml_pdl::print(alloc, formula),
        AnyFormula::Ctl(formula) => ml_ctl::print(alloc, formula),
        AnyFormula::Ltl(formula) => ml_ltl::print(alloc, formula),
        AnyFormula::Word(formula) => ml_ltl::print(alloc, formula),
    }
}

/// How many nodes the closure of a problem may have where it is decided and checked.
pub const MOST_NODES: u32 = 4_096;

/// The graph of a problem: on every admitted structure it holds exactly where the problem does.
///
/// `max` is how many nodes the closure of a problem of CTL* or LTL may have; problems of the mu-calculus, of PDL and of LTL on
/// words have none.
///
/// # Errors
/// `ClosureTooLarge` exactly where the problem's closure has more than `max` nodes. `NoMemory`.
///
/// Cost: that of the logic's translation (`ml_mu_graph::graph_of`, `ml_pdl_graph::graph_of`, `ml_blocks::graph_of`,
/// `ml_blocks::ltl_graph_of`, `ml_word_graph::graph_of`).
#[tactic(auto, using(crate::proofs::Closures::fits))]
pub fn graph(alloc: Global, problem: &Problem, max: u32) -> Result<ModalGraph, ClosureRefusal>
    ensures graph { IfOk result (λ g. IsGraphOf g problem.now) }
    ensures agrees { IfOk result (λ g. HoldsWhere g problem.now) }
    ensures fits { IfOk result (λ g. ¬ (HasLargeClosure problem.now max)) }
    ensures too_large { IsErrOf result ClosureRefusal.ClosureTooLarge → HasLargeClosure problem.now max }
{
    match &problem.formula {
        AnyFormula::Mu(formula) => Ok(ml_mu_graph::graph_of(alloc, formula, problem.negated)?),
        AnyFormula::Pdl(formula) => Ok(ml_pdl_graph::graph_of(alloc, formula, problem.negated)?),
        AnyFormula::Ctl(formula) => ml_blocks::graph_of(alloc, formula, problem.negated, max),
        AnyFormula::Ltl(formula) => ml_blocks::ltl_graph_of(alloc, formula, problem.negated, max),
        AnyFormula::Word(formula) => Ok(ml_word_graph::graph_of(alloc, formula, problem.negated)?),
    }
}
