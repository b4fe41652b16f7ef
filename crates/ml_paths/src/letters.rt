// The letters of a structure: those of its labels, each once.
ghost use Rattle.std.specs.Prelude.{◌≡◌, ◌<◌, [], IfOk, length};
ghost use Rattle.ml_paths.specs.private.Letters.{AreNumbered, AreLettersOf, IsRowOf};

use crate::labels::{Label, label_of, number};
use indexmap::IndexSet;
use ml_base::NoMemory;
use ml_graph::ModalGraph;
use ml_kripke::Structure;
use ml_trace::Letter;
use ml_word_automaton::{WordAutomaton, letter_at};
use std::alloc::Global;

/// The letters of a structure, and of each state which one it has.
#[derive(Drop)]
pub(crate) struct Letters {
    pub numbers: Vec<u32>,
    pub row: Vec<Letter>,
}

// the number of the label of each state
fn numbered(
    alloc: Global,
    graph: &ModalGraph,
    structure: &Structure,
    labels: &mut IndexSet<Label>,
) -> Result<Vec<u32>, NoMemory>
    requires { labels.old.keys ≡ [] }
    ensures { IfOk result (λ numbers. AreNumbered graph.now structure.now structure.now.states labels.new.keys numbers.items) }
{
    let states = structure.states();
    let mut numbers = Vec::with_capacity(alloc, states as usize)?;
    for state in 0..states {
        let at = number(labels, label_of(alloc, graph, structure, state)?)?;
        // no memory holds more labels than a number counts
        let Ok(number) = u32::try_from(at) else {
            return Err(NoMemory);
        };
        numbers.push(number)?;
    }
    Ok(numbers)
}

// the letter of each label
fn row(
    alloc: Global,
    automaton: &WordAutomaton,
    labels: &IndexSet<Label>,
) -> Result<Vec<Letter>, NoMemory>
    ensures { IfOk result (λ row. IsRowOf automaton.now labels.now.keys (length labels.now.keys) row.items) }
{
    let mut row = Vec::with_capacity(alloc, labels.len())?;
    for label in labels.as_slice() {
        row.push(letter_at(automaton, label.props())?)?;
    }
    Ok(row)
}

/// The letters of a structure as an automaton reads them.
///
/// # Errors
/// `NoMemory` alone.
///
/// Cost: for each state a look among its labels for each proposition of the automaton, and a hash; that of
/// `ml_word_automaton::letter_at` for each different label.
pub(crate) fn letters_of(
    alloc: Global,
    automaton: &WordAutomaton,
    structure: &Structure,
) -> Result<Letters, NoMemory>
    ensures { IfOk result (λ letters. AreLettersOf automaton.now structure.now letters.numbers.items letters.row.items) }
{
    let mut labels = IndexSet::new(alloc);
    let numbers = numbered(alloc, automaton.graph(), structure, &mut labels)?;
    let row = row(alloc, automaton, &labels)?;
    Ok(Letters { numbers, row })
}
