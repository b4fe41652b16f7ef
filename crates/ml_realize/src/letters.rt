// The letters of a word automaton for all valuations of some names.
ghost use Rattle.std.specs.Prelude.{ℕ, ◌≡◌, ◌++◌, ◌^◌, ◌≤◌, ◌↔◌, ◌⊎◌, length, IfOk, IsTrue, OnOk};
ghost use Rattle.ml_lists.specs.Member.{IsMember};
ghost use Rattle.ml_task.specs.NameSets.{members};
ghost use Rattle.ml_word_automaton.specs.Letters.{AreThoseIn, HasTransitions};
ghost use Rattle.ml_word_automaton.specs.Words.{has};
ghost use Rattle.ml_realize.specs.TaskGame.{IsRowOf};

use ml_base::{IdSet, Name, NoMemory};
use ml_graph::ModalGraph;
use ml_trace::Letter;
use ml_word_automaton::{WordAutomaton, letter_at};
use std::alloc::Global;

// is the name one of those that are in the set?
fn is_in(names: &[Name], set: u32, name: &Name) -> bool
    ensures { result ≡ has (members names.now set) name.now }
{
    match names.split_first() {
        Some((first, others)) => { (set % 2 == 1 && first == name) || is_in(others, set / 2, name) }
        None => false,
    }
}

// is the name true under the valuation?
fn is_true(inputs: &[Name], outputs: &[Name], valuation: u32, name: &Name) -> bool
    requires { length inputs.now ≤ 8 }
    ensures { result ≡ has (members (inputs.now ++ outputs.now) valuation) name.now }
{
    is_in(inputs, valuation, name) || is_in(outputs, valuation >> inputs.len(), name)
}

// puts a proposition into the set, if it is true
fn add_if(set: &mut IdSet, is_true: bool, prop: u32) -> Result<(), NoMemory>
    ensures { OnOk result ((p : ℕ) → IsMember p set.new ↔ (IsMember p set.old ⊎ ((p ≡ prop) × IsTrue is_true))) }
{
    if is_true {
        set.insert(prop)?;
    }
    Ok(())
}

// the propositions of the graph that are true under the valuation
fn present(
    alloc: Global,
    graph: &ModalGraph,
    inputs: &[Name],
    outputs: &[Name],
    valuation: u32,
) -> Result<IdSet, NoMemory>
    requires { length inputs.now ≤ 8 }
    ensures { IfOk result (λ set. AreThoseIn graph.now (members (inputs.now ++ outputs.now) valuation) set) }
{
    let mut set = IdSet::new(alloc);
    for (prop, name) in graph.props().iter().enumerate() {
        // no memory holds more names than a number counts
        let Ok(number) = u32::try_from(prop) else {
            return Err(NoMemory);
        };
        add_if(&mut set, is_true(inputs, outputs, valuation, name), number)?;
    }
    Ok(set)
}

// the letter of a valuation
fn letter(
    alloc: Global,
    automaton: &WordAutomaton,
    inputs: &[Name],
    outputs: &[Name],
    valuation: u32,
) -> Result<Letter, NoMemory>
    requires { length inputs.now ≤ 8 }
    ensures { IfOk result (λ transitions. HasTransitions automaton.now
        (members (inputs.now ++ outputs.now) valuation) transitions) }
{
    let set = present(alloc, automaton.graph(), inputs, outputs, valuation)?;
    let letter = letter_at(automaton, &set)?;
    Ok(letter)
}

/// The letters of a word automaton for all valuations of some inputs and outputs, in the order of their numbers.
///
/// There are at most eight names.
///
/// # Errors
/// `NoMemory` alone.
///
/// Cost: that of `ml_word_automaton::letter_at` for each of the 2^n valuations of n names.
pub fn row_of(
    alloc: Global,
    automaton: &WordAutomaton,
    inputs: &[Name],
    outputs: &[Name],
) -> Result<Vec<Letter>, NoMemory>
    requires { length (inputs.now ++ outputs.now) ≤ 8 }
    ensures { IfOk result (λ row. IsRowOf (inputs.now ++ outputs.now) automaton.now row.items) }
{
    let valuations = 1 << (inputs.len() + outputs.len());
    let mut row = Vec::with_capacity(alloc, valuations as usize)?;
    for valuation in 0..valuations {
        row.push(letter(alloc, automaton, inputs, outputs, valuation)?)?;
    }
    Ok(row)
}
