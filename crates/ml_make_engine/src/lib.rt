// A search for machines that realize tasks, and for environments that defeat them, of which nothing is claimed.
//
// `candidate` makes what may be an answer to a task; `ml_make` checks it before it lets it out. So no clause says what this
// crate makes: it is proved that it is safe and that it ends.
//
// An automaton of the negated formula may accept no word of a machine, and one of the formula none of an environment. For that
// it is enough that no run passes an accepting arc more than k times, for some k. So a position of the game is a counter for
// each state, and of two positions the greater is the harder one: who wins from it wins from the lesser one too. With this
// order few positions serve.
//
// - `positions`, `targets`, `choices` and `games` play, for one side and one k.
// - `choosing`, `moves` and `merging` make few states of a game that is won, and `outcomes` the machine or the environment.
// - `attempts` has the order in which this is tried: growing budgets, growing k, both sides in turn.
//
// Source: Schewe and Finkbeiner, Bounded synthesis (2007); Filiot, Jin and Raskin, An antichain algorithm for LTL
// realizability (2009).
//
// Below stand the automata (`ml_make_automata`), tasks (`ml_task`), what is made of them (`ml_synthesis`), and lists that are
// read and written anywhere (`ml_arrays`).
#![tactic(auto)]

mod attempts;
mod choices;
mod choosing;
mod games;
mod merging;
mod moves;
mod outcomes;
mod positions;
mod targets;

use crate::attempts::Attempts;
use crate::games::Signals;
use crate::outcomes::outcome_of;
use ml_base::NoMemory;
use ml_make_automata::letters_of;
use ml_synthesis::Outcome;
use ml_task::Task;
use std::alloc::Global;

/// A candidate for a machine that realizes a task, or for an environment that defeats it; `None` where the search gives up.
///
/// # Errors
/// `NoMemory` alone.
///
/// Cost: at most a fixed multiple of the limit in comparisons of positions, and of the steps of an automaton's states.
pub fn candidate(alloc: Global, task: &Task, limit: u32) -> Result<Option<Outcome>, NoMemory> {
    let signals = Signals {
        inputs: letters_of(task.inputs.len()),
        outputs: letters_of(task.outputs.len()),
    };
    let mut attempts = Attempts::empty(alloc, signals, limit);
    attempts.fill(task)?;
    attempts.run()?;
    match attempts.best() {
        Some(won) => {
            let outcome = outcome_of(alloc, won.side, signals, &won.moves)?;
            Ok(Some(outcome))
        }
        None => Ok(None),
    }
}
