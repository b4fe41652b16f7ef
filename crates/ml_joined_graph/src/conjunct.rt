// Formulas that are to hold together.
use ml_base::NoMemory;
use ml_front::{AnyFormula, MOST_NODES};
use ml_graph::{ClosureRefusal, ModalGraph};
use std::alloc::Global;

/// A formula in a sense, which is lent: a negated one asks for a state at which its negation holds.
#[derive(Clone, Copy)]
pub struct Conjunct<'a> {
    pub formula: &'a AnyFormula,
    pub negated: bool,
}

/// The graph of a conjunct; `None` where its closure is too large. Formulas of LTL are read on single words: there all of them
/// speak of one path, and as many can be met as on paths among many.
pub(crate) fn graph_of(alloc: Global, conjunct: Conjunct) -> Result<Option<ModalGraph>, NoMemory> {
    let negated = conjunct.negated;
    match conjunct.formula {
        AnyFormula::Mu(formula) => Ok(Some(ml_mu_graph::graph_of(alloc, formula, negated)?)),
        AnyFormula::Pdl(formula) => Ok(Some(ml_pdl_graph::graph_of(alloc, formula, negated)?)),
        AnyFormula::Ctl(formula) => block_graph_of(alloc, formula, negated),
        AnyFormula::Ltl(formula) | AnyFormula::Word(formula) => {
            Ok(Some(ml_word_graph::graph_of(alloc, formula, negated)?))
        }
    }
}

fn block_graph_of(
    alloc: Global,
    formula: &ml_ctl::Formula,
    negated: bool,
) -> Result<Option<ModalGraph>, NoMemory> {
    match ml_blocks::graph_of(alloc, formula, negated, MOST_NODES) {
        Ok(graph) => Ok(Some(graph)),
        Err(ClosureRefusal::ClosureTooLarge) => Ok(None),
        Err(ClosureRefusal::NoMemory) => Err(NoMemory),
    }
}
