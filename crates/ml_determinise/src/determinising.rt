// A Büchi automaton made deterministic, its states numbered breadth first.
ghost use Rattle.std.specs.Prelude.{◌≡◌, ◌<◌, ◌≤◌, ◌^◌, [], ◌∷◌, IfOk, OnOk, IsErrOf, length};
ghost use Rattle.ml_history.specs.HistoryStep as history;
ghost use Rattle.ml_determinise.specs.Histories.{StaysBelow};
ghost use Rattle.ml_determinise.specs.Numbering.{IsNumbered, HasMoreThan, rows_of};
ghost use Rattle.ml_determinise.specs.private.Walk.{IsWalked};
ghost use Rattle.ml_determinise.specs.declared.refusals.DetRefusal.TheVariants as refusal;

use crate::moves::{DetMove, follow_all};
use crate::refusals::DetRefusal;
use indexmap::IndexSet;
use ml_base::NoMemory;
use ml_history::History;
use ml_trace::Letter;
use std::alloc::Global;

// the start alone
fn begun(alloc: Global, start: u32) -> Result<IndexSet<History>, NoMemory>
    requires { start < 2 ^ 30 }
    ensures { IfOk result (λ histories. histories.keys ≡ history.start start ∷ []) }
{
    let mut histories = IndexSet::new(alloc);
    histories.insert(History::start(alloc, start)?)?;
    Ok(histories)
}

/// The deterministic parity automaton of the histories that a Büchi automaton reaches from one of its states, if they are at
/// most so many. It accepts exactly the ultimately periodic words of these letters that the Büchi automaton
/// accepts (`laws::numbered_same_words`).
///
/// The Büchi automaton has `states` states, of which there are 2^30 at most, and begins in the state `start`. `letters` has
/// its transitions, letter by letter, and their ends are below `states`. `limit` is 1 or more.
///
/// Back come the moves of each reached history, one for each letter, in order. Histories are numbered breadth first: 0 is
/// that of `start` alone. A word is accepted if the lowest priority that its run meets again and again is odd. The
/// priorities are those of marks: twice the name for red, one more for green, and `2 * states + 2` for neutral.
///
/// # Errors
/// `Passed` exactly where more than `limit` histories are reached (`laws::numbered_or_passed`); `NoMemory`.
///
/// Cost: a step of `ml_history` for each history and letter, and a hash of the history that it leads to.
/// Source: Schewe, Tighter bounds for the determinisation of Büchi automata (2009), with the ages of Piterman (2006).
pub fn determinise(
    alloc: Global,
    states: u32,
    start: u32,
    letters: &[Letter],
    limit: u32,
) -> Result<Vec<Vec<DetMove>>, DetRefusal>
    requires few_states { states ≤ 2 ^ 30 }
    requires starts { start < states }
    requires stays { StaysBelow states letters.now }
    requires some { 1 ≤ limit }
    ensures numbered { IfOk result (λ all. IsNumbered states letters.now start (rows_of all.items)) }
    ensures within { IfOk result (λ all. length all.items ≤ limit) }
    ensures not_passed { OnOk result (¬ (HasMoreThan letters.now start limit)) }
    ensures passed { IsErrOf result refusal.Passed → HasMoreThan letters.now start limit }
{
    let mut histories = begun(alloc, start)?;
    let mut all = Vec::new(alloc);
    while all.len() < histories.len() {
        let v = all.len();
        all.push(follow_all(alloc, &mut histories, v, letters, states, limit)?)?;
    }
    Ok(all)
}
