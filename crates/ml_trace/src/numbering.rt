// The numbers of the states of the trace automaton, and the letter that local traces make.
ghost use Rattle.std.specs.Prelude.{◌≡◌, ◌<◌, ◌≤◌, ◌==◌, ◌++◌, length, IfOk, OnOk};
ghost use Rattle.std.specs.List.{position_or_len, flat_map};
ghost use Rattle.std.specs.List.Sorted.{IsPermutation, IsNonDecreasingBy};
ghost use Rattle.ml_lists.specs.Ascending.{IsAscending};
ghost use Rattle.ml_trace.specs.Automaton.{number, IsState, IsLetterOf};
ghost use Rattle.ml_trace.specs.AutomatonNumbers.{state_of, HasRoom, AllHaveRoom};
ghost use Rattle.ml_trace.specs.private.LetterMoves.{move_at, rows};

use crate::letters::{AutomatonState, Letter, LocalTraces, Transition, Triple};
use ml_base::NoMemory;
use std::alloc::Global;

/// The number of a state: n * (1 + o) for the node n alone, and n * (1 + o) + j for n with the j-th of the o odd
/// priorities.
///
/// The state's odd priority, if it has one, is in `odds`, and all states of its node have numbers below 2^30.
///
/// Cost: linear in the odd priorities.
pub fn number(state: &AutomatonState, odds: &[u32]) -> u32
    requires state { IsState odds.now state.now }
    requires room { HasRoom odds.now state.now.node }
    ensures { result ≡ number odds.now state.now }
{
    let states_per_node = odds.len() + 1;
    let place = match state.odd {
        None => 0,
        Some(d) => index_of(d, odds) + 1,
    };
    (state.node as usize * states_per_node + place) as u32
}

// The index of d in the list, or its length.
fn index_of(d: u32, odds: &[u32]) -> usize
    ensures place { result ≡ position_or_len (λ e. e == d) odds.now }
    ensures within { result ≤ length odds.now }
{
    for (i, e) in odds.iter().enumerate() {
        if *e == d {
            return i;
        }
    }
    odds.len()
}

/// The state with a number: the other way round; total.
///
/// Cost: constant.
pub fn state_of(number: u32, odds: &[u32]) -> AutomatonState
    ensures { result ≡ state_of odds.now number }
{
    let states_per_node = odds.len() + 1;
    let place = number as usize % states_per_node;
    let odd = if place == 0 {
        None
    } else {
        Some(odds[place - 1])
    };
    AutomatonState {
        node: (number as usize / states_per_node) as u32,
        odd,
    }
}

/// The letter of the trace automaton that the local traces of a step make: each transition that some triple gives.
///
/// `odds` has the odd priorities, ascending; all states of the nodes of the triples have numbers below 2^30.
///
/// # Errors
/// `NoMemory` alone.
///
/// Cost: a sort of the triples by their targets, and then linear in the transitions: t * (1 + 2 * o) at most, for t
/// triples and o odd priorities.
pub fn letter_of(alloc: Global, traces: LocalTraces, odds: &[u32]) -> Result<Letter, NoMemory>
    requires ascending { IsAscending odds.now }
    requires room { AllHaveRoom odds.now traces }
    ensures { IfOk result (λ letter. IsLetterOf odds.now traces letter) }
{
    let triples = by_target(traces);
    let mut transitions = Vec::new(alloc);
    let mut done = 0;
    while done < triples.len() {
        let end = end_of_target(&triples, done);
        push_rows(&mut transitions, &triples[done..end], odds)?;
        done = end;
    }
    Ok(Letter::of(transitions))
}

// The triples, by their targets.
fn by_target(traces: LocalTraces) -> Vec<Triple>
    ensures moved { IsPermutation traces result.items }
    ensures by_target { IsNonDecreasingBy (λ t. t.to) result.items }
{
    let mut triples = traces.into_triples();
    triples.sort_unstable_by_key(|t| t.to);
    triples
}

// Where the triples with the target of the i-th one end.
fn end_of_target(triples: &[Triple], i: usize) -> usize
    requires { i < length triples.now }
    ensures behind { i < result }
    ensures within { result ≤ length triples.now }
{
    let mut end = i + 1;
    while end < triples.len() && triples[end].to == triples[i].to {
        end += 1;
    }
    end
}

// Appends the transitions that the triples give: those without a guess, and then those to each guess.
fn push_rows(
    transitions: &mut Vec<Transition>,
    triples: &[Triple],
    odds: &[u32],
) -> Result<(), NoMemory>
    requires { AllHaveRoom odds.now triples.now }
    ensures { OnOk result (transitions.new.items ≡ transitions.old.items ++ rows odds.now triples.now) }
{
    let states_per_node = odds.len() + 1;
    for triple in triples {
        transitions.push(Transition {
            from: (triple.from as usize * states_per_node) as u32,
            to: (triple.to as usize * states_per_node) as u32,
            accepting: false,
        })?;
    }
    for j in 0..odds.len() {
        push_row(transitions, triples, odds, j)?;
    }
    Ok(())
}

// Appends those to the guess of the odd priority with the index j.
fn push_row(
    transitions: &mut Vec<Transition>,
    triples: &[Triple],
    odds: &[u32],
    j: usize,
) -> Result<(), NoMemory>
    requires room { AllHaveRoom odds.now triples.now }
    requires index { j < length odds.now }
    ensures { OnOk result (transitions.new.items ≡ transitions.old.items ++ flat_map (move_at odds.now j) triples.now) }
{
    let states_per_node = odds.len() + 1;
    let odd = odds[j];
    for triple in triples {
        let from = (triple.from as usize * states_per_node) as u32;
        let to = (triple.to as usize * states_per_node + j + 1) as u32;
        transitions.push(Transition {
            from,
            to,
            accepting: false,
        })?;
        if odd <= triple.lowest {
            transitions.push(Transition {
                from: from + j as u32 + 1,
                to,
                accepting: odd == triple.lowest,
            })?;
        }
    }
    Ok(())
}
