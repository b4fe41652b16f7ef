// The letters of an automaton: for each valuation, the transitions of the edges that may be taken under it.
ghost use Rattle.std.specs.Prelude.{IfOk};
ghost use Rattle.std.specs.List.Sorted.{IsPermutation};
ghost use Rattle.ml_buchi.specs.Valuations.{letter_of, letters_of, SameLetters};

use crate::guards::holds;
use ml_base::NoMemory;
use ml_hoa::Buchi;
use ml_trace::{Letter, Transition};
use std::alloc::Global;

// the letter of one valuation
fn letter(alloc: Global, automaton: &Buchi, valuation: u32) -> Result<Letter, NoMemory>
    ensures { IfOk result (IsPermutation (letter_of automaton.now valuation)) }
{
    let mut transitions = Vec::new(alloc);
    let edges = automaton.edges();
    for edge in edges {
        if holds(valuation, &edge.guard) {
            transitions.push(Transition {
                from: edge.from,
                to: edge.to,
                accepting: edge.accepting,
            })?;
        }
    }
    Ok(Letter::of(transitions))
}

/// The letters of an automaton, one for each valuation of its propositions, in order: the transitions of the edges that may
/// be taken under it. A letter stands for a set, so its transitions come in any order.
///
/// # Errors
/// `NoMemory` alone.
///
/// Cost: the guards of all edges under each valuation, and a sort of each letter.
pub fn letters(alloc: Global, automaton: &Buchi) -> Result<Vec<Letter>, NoMemory>
    ensures { IfOk result (λ row. SameLetters (letters_of automaton.now) row.items) }
{
    let mut letters = Vec::new(alloc);
    for valuation in 0..1u32 << automaton.props().len() {
        letters.push(letter(alloc, automaton, valuation)?)?;
    }
    Ok(letters)
}
