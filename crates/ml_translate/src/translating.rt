// The automaton of a formula.
ghost use Rattle.std.specs.Prelude.{◌<◌, ◌≤◌, ◌^◌, false, IfOk, IsErrOf, length};
ghost use Rattle.std.specs.List.{All};
ghost use Rattle.ml_base.specs.Name.{IsName};
ghost use Rattle.ml_graph.specs.Graph.{size};
ghost use Rattle.ml_word_automaton.specs.Letters.{IsAutomatonOf};
ghost use Rattle.ml_translate.specs.Places.{HasMorePlaces};
ghost use Rattle.ml_translate.specs.Translation.{HasTooManyPlaces, IsLarge, IsTranslated, most_nodes};
ghost use Rattle.ml_translate.specs.declared.refusal.TranslateRefusal.TheVariants as refusal;
ghost use Rattle.ml_translate.specs.private.Finding.{AreNumbers, IsMadeOf};

use crate::edges::edges_of;
use crate::finding::places_of;
use crate::jumping::jumping_rows;
use crate::limits::MOST_NODES;
use crate::propositions::Propositions;
use crate::refusal::TranslateRefusal;
use ml_graph::ClosureRefusal;
use ml_labelled::{LabelledAutomaton, reduced_beside};
use ml_word_automaton::{WordAutomaton, automaton_of};
use std::alloc::Global;

// the word automaton, if it isn't too large
fn word_automaton(
    alloc: Global,
    formula: &ml_ltl::Formula,
) -> Result<WordAutomaton, TranslateRefusal>
    ensures automaton { IfOk result (λ a. IsAutomatonOf a formula.now false) }
    ensures fits { IfOk result (λ a. size a.graph ≤ most_nodes) }
    ensures too_large { IsErrOf result refusal.ClosureTooLarge → IsLarge formula.now }
    ensures not_passed { ¬ (IsErrOf result refusal.Passed) }
{
    match automaton_of(alloc, formula, false, MOST_NODES) {
        Ok(automaton) => Ok(automaton),
        Err(ClosureRefusal::ClosureTooLarge) => Err(TranslateRefusal::ClosureTooLarge),
        Err(ClosureRefusal::NoMemory) => Err(TranslateRefusal::NoMemory),
    }
}

// the automaton with an edge for each place at which a walk ends
fn with_places(
    alloc: Global,
    automaton: &WordAutomaton,
    propositions: Propositions,
    limit: u32,
) -> Result<LabelledAutomaton, TranslateRefusal>
    requires numbers { AreNumbers automaton.now.graph propositions.names.items propositions.numbers.items }
    requires few { length propositions.names.items < 2 ^ 32 }
    requires named { All IsName propositions.names.items }
    ensures made { IfOk result (IsMadeOf automaton.now propositions.names.items limit) }
    ensures passed { IsErrOf result refusal.Passed → HasMorePlaces automaton.now propositions.names.items limit }
    ensures fits { ¬ (IsErrOf result refusal.ClosureTooLarge) }
{
    let places = places_of(alloc, automaton, &propositions, limit)?;
    automaton.graph().keeps();
    let _states = automaton.states();
    let rows = edges_of(alloc, automaton, places)?;
    let Propositions { names, .. } = propositions;
    Ok(LabelledAutomaton::new(names, rows))
}

/// A Büchi automaton over the sets of a formula's propositions that accepts exactly the word lassos that satisfy the formula.
///
/// The propositions are those of the formula, each once, in the order of the text. Each state is reached, and there are no more
/// than the formula's word automaton has (`ml_word_automaton`); the automaton begins in the state 0. It is that automaton made
/// small, or a smaller one that is seen to accept the same (`ml_labelled::reduced_beside`).
///
/// # Errors
/// `ClosureTooLarge` exactly where the word automaton has more than 65,536 nodes. `Passed` exactly where it has no more, and
/// more than `limit` places (`specs/Places.antt`). `NoMemory`.
///
/// Cost: that of `ml_word_automaton::automaton_of`; each place is met once, with its cube, by a hash; at most `limit` of them;
/// and that of `ml_labelled::reduced_beside`.
///
/// Source: Vardi and Wolper (1986); Gastin and Oddoux (2001) for the smaller automaton.
pub fn automaton_of_formula(
    alloc: Global,
    formula: &ml_ltl::Formula,
    limit: u32,
) -> Result<LabelledAutomaton, TranslateRefusal>
    ensures translated { IfOk result (IsTranslated formula.now limit) }
    ensures too_large { IsErrOf result refusal.ClosureTooLarge → IsLarge formula.now }
    ensures passed { IsErrOf result refusal.Passed → HasTooManyPlaces formula.now limit }
{
    let automaton = word_automaton(alloc, formula)?;
    let propositions = Propositions::of(alloc, formula, automaton.graph())?;
    let made = with_places(alloc, &automaton, propositions, limit)?;
    let rows = jumping_rows(alloc, &made, formula)?;
    Ok(reduced_beside(alloc, made, rows, limit)?)
}
