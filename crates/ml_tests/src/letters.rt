// Letters of the trace automaton.
ghost use Rattle.std.specs.Prelude.{◌≡◌, ◌+◌, ◌-◌, ◌<◌, IfOk, length};

use crate::not_made::NotMade;
use crate::numbers::Numbers;
use ml_trace::{Letter, Transition};
use std::alloc::Global;

// The letter of the transitions.
#[tactic(auto, using(std::proofs::lemmas::List::Sorted::length_permutation))]
fn letter(all: Vec<Transition>) -> Result<Letter, NotMade>
    ensures { IfOk result (λ letter. length letter ≡ length all.items) }
{
    match Letter::new(all) {
        Some(letter) => Ok(letter),
        None => Err(NotMade::TooLarge),
    }
}

/// A letter of so many random transitions between states below a bound, of which one in four is accepting.
///
/// # Errors
/// `NoMemory`, and `TooLarge` only where there are more than 2^30 states.
///
/// Cost: that of sorting the letter.
pub fn random_letter(
    alloc: Global,
    numbers: &mut Numbers,
    states: u32,
    transitions: u64,
) -> Result<Letter, NotMade>
    requires { 0 < states }
    ensures { IfOk result (λ letter. length letter ≡ transitions) }
{
    let mut all = Vec::new(alloc);
    for _ in 0..transitions {
        all.push(Transition {
            from: numbers.below(states as u64) as u32,
            to: numbers.below(states as u64) as u32,
            accepting: numbers.below(4) == 0,
        })?;
    }
    letter(all)
}

/// The letter that leads each of so many states to itself, and, accepting, to the next one: each step along it from the
/// state 0 makes a stack that is longer by one.
///
/// # Errors
/// `NoMemory`, and `TooLarge` only where there are more than 2^30 states.
///
/// Cost: that of sorting the letter.
pub fn deep_letter(alloc: Global, states: u32) -> Result<Letter, NotMade>
    ensures { IfOk result (λ letter. length letter ≡ states + (states - 1)) }
{
    let mut all = Vec::new(alloc);
    for state in 0..states {
        all.push(Transition {
            from: state,
            to: state,
            accepting: false,
        })?;
        if state + 1 < states {
            all.push(Transition {
                from: state,
                to: state + 1,
                accepting: true,
            })?;
        }
    }
    letter(all)
}
