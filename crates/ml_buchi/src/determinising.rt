// Automata with guards made deterministic.
ghost use Rattle.std.specs.Prelude.{◌≡◌, ◌≤◌, IfOk, OnOk, IsErrOf, length};
ghost use Rattle.ml_determinise.specs.Numbering.{HasMoreThan};
ghost use Rattle.ml_determinise.specs.declared.refusals.DetRefusal.TheVariants as refusal;
ghost use Rattle.ml_buchi.specs.Deterministic.{IsDeterminised};
ghost use Rattle.ml_buchi.specs.Valuations.{letters_of};
ghost use Rattle.ml_buchi.specs.WrittenText.{IsWritable};

use crate::deterministic::Deterministic;
use crate::making::letters;
use ml_base::NoMemory;
use ml_determinise::DetRefusal;
use ml_hoa::{Buchi, Quoted};
use std::alloc::Global;

// these names, copied
fn copied(alloc: Global, names: &[Quoted]) -> Result<Vec<Quoted>, NoMemory>
    ensures { IfOk result (λ row. row.items ≡ names.now) }
{
    let mut row = Vec::with_capacity(alloc, names.len())?;
    for name in names {
        row.push(name.copy()?)?;
    }
    Ok(row)
}

/// The deterministic parity automaton of a Büchi automaton, if it has at most so many states. It accepts exactly the
/// ultimately periodic words of valuations that the Büchi automaton accepts (`laws::same_words`), and it is determined
/// (`laws::one_automaton`).
///
/// `limit` is 1 or more.
///
/// Back come the names of the propositions, the number that all priorities are below, `2 * states + 3`, and the moves of
/// each history that is reached from the start, one for each valuation, in order. Histories are numbered breadth first. What
/// comes back can be written with `write`.
///
/// # Errors
/// `Passed` exactly where more than `limit` histories are reached; `NoMemory`.
///
/// Cost: the guards of all edges under each valuation, and as `ml_determinise::determinise`.
/// Source: Schewe, Tighter bounds for the determinisation of Büchi automata (2009), with the ages of Piterman (2006).
pub fn determinise(
    alloc: Global,
    automaton: &Buchi,
    limit: u32,
) -> Result<Deterministic, DetRefusal>
    requires some { 1 ≤ limit }
    ensures determinised { IfOk result (IsDeterminised automaton.now) }
    ensures writable { IfOk result IsWritable }
    ensures within { IfOk result (λ d. length d.moves ≤ limit) }
    ensures not_passed { OnOk result (¬ (HasMoreThan (letters_of automaton.now) automaton.now.start limit)) }
    ensures passed { IsErrOf result refusal.Passed → HasMoreThan (letters_of automaton.now) automaton.now.start limit }
{
    let letters = letters(alloc, automaton)?;
    let states = automaton.states();
    let moves = ml_determinise::determinise(alloc, states, automaton.start(), &letters, limit)?;
    let props = copied(alloc, automaton.props())?;
    Ok(Deterministic::new(props, 2 * states + 3, moves))
}
