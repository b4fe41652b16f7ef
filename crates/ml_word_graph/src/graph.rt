// The graph of a formula.
ghost use Rattle.std.specs.Prelude.{◌≡◌, ◌≤◌, [], ◌∷◌, codes, IfOk};
ghost use Rattle.ml_ctl.specs.Formula.{occurrences};
ghost use Rattle.ml_ctl.specs.Term.{formula_of};
ghost use Rattle.ml_nodes.specs.PathNames.{props_onto};
ghost use Rattle.ml_word_graph.specs.Laws.{HoldsWhere};
ghost use Rattle.ml_word_graph.specs.WordGraph.{IsGraphOf};
ghost use Rattle.ml_word_graph.specs.private.Layout as layout;
ghost use Rattle.ml_word_graph.specs.private.Reached.{IsTrimmed};

use crate::layout::laid_out;
use crate::reached::trimmed;
use ml_base::NoMemory;
use ml_ctl::Term;
use ml_graph::ModalGraph;
use ml_ltl::Formula;
use ml_nodes::{Lists, Names};
use std::alloc::Global;

// the lists of a problem's graph
fn lists_of(alloc: Global, term: &Term, negated: bool) -> Result<Lists, NoMemory>
    requires few { occurrences (formula_of term.now) ≤ 1000 }
    ensures props { IfOk result (λ l. l.props.items ≡ props_onto (formula_of term.now) []) }
    ensures actions { IfOk result (λ l. l.actions.items ≡ codes "_" ∷ []) }
    ensures trimmed { IfOk result (λ l. IsTrimmed (layout.all_nodes l.props.items (formula_of term.now) negated)
        (layout.all_priorities (formula_of term.now)) l.nodes.items l.priorities.items) }
{
    let names = Names::of_paths(alloc, term)?;
    let all = laid_out(alloc, &names, term, negated)?;
    let draft = trimmed(alloc, &all)?;
    Lists::of(alloc, draft, names)
}

/// The modal graph of a formula of LTL, or of its negation, read on single words: on every structure in which each state has
/// exactly one edge by `_`, it holds exactly where the formula does, or doesn't.
///
/// # Errors
/// `NoMemory` alone.
///
/// Cost: linear in the formula on average, since names and nodes are looked up by their hashes. Calls are nested at most
/// twice as deep as the formula, which has at most 1,000 occurrences.
///
/// Source: Vardi and Wolper, An automata-theoretic approach to automatic program verification (1986), for places of
/// subformulas.
pub fn graph_of(alloc: Global, formula: &Formula, negated: bool) -> Result<ModalGraph, NoMemory>
    ensures graph { IfOk result (λ g. IsGraphOf g formula.now negated) }
    ensures agrees { IfOk result (λ g. HoldsWhere g formula.now negated) }
{
    let lists = lists_of(alloc, formula.root(), negated)?;
    Ok(lists.into_graph(0))
}
