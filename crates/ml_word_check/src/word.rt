// The word from a state: the states along the edges by `_`, until one comes again.
ghost use Rattle.std.specs.Prelude.{◌<◌, length, All, IfOk};
ghost use Rattle.ml_word_check.specs.private.Walked.{IsWordOf};

use ml_base::NoMemory;
use std::alloc::Global;

/// The states of a word, and the place to which it comes back behind the last one.
#[derive(Drop)]
pub(crate) struct Word {
    pub states: Vec<u32>,
    pub start: usize,
}

/// The word from a state, where it is told of each state where its edge leads.
///
/// # Errors
/// `NoMemory` alone.
///
/// Cost: linear in the states.
pub(crate) fn word_from(alloc: Global, next: &[u32], state: u32) -> Result<Word, NoMemory>
    requires inside { All (λ t. t < length next.now) next.now }
    requires state { state < length next.now }
    ensures { IfOk result (λ w. IsWordOf next.now state w.states.items w.start) }
{
    let mut places = vec![in alloc; None; next.len()]?;
    let mut states = Vec::new(alloc);
    let mut at = state;
    while places[at as usize].is_none() {
        places[at as usize] = Some(states.len());
        states.push(at)?;
        at = next[at as usize];
    }
    match places[at as usize] {
        Some(start) => Ok(Word { states, start }),
        None => unreachable!(),
    }
}
