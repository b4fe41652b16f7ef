// An environment is read from the lines of its states.
ghost use Rattle.std.specs.Prelude.{ℕ, ◌≡◌, ◌<◌, ◌≤◌, ◌^◌, IfErr, IfOk, List, length, map};
ghost use Rattle.std.specs.List.{AllByRecursion, enumerate_from, flat_map};
ghost use Rattle.ml_lines.specs.Lines.{Word};
ghost use Rattle.ml_lines.specs.Reading.{AreWords};
ghost use Rattle.ml_realize_text.specs.RealizeRules.{at_reply, at_state};
ghost use Rattle.ml_realize_text.specs.RealizeText.{answer_line, environment_state_lines};
ghost use Rattle.ml_realize_text.specs.private.Reads.{Goes, HasRoom, PlayFits, TellsFault, environment_of, played_lines};
ghost use Rattle.ml_synthesis.specs.Machines.{EnvironmentFits};

use crate::read_lines::{read_play, read_reply, read_state};
use crate::read_machine::sets;
use crate::rest::Rest;
use ml_base::{DocRefusal, Name};
use ml_synthesis::Environment;
use std::alloc::Global;

// the next states of a state, one for each set of outputs
fn read_replies<'a>(
    alloc: Global,
    at: Rest<'a>,
    outputs: &[Name],
    states: u32,
) -> Result<(Vec<u32>, Rest<'a>), DocRefusal>
    requires room { HasRoom at }
    requires few { length outputs.now ≤ 8 }
    requires outputs { AreWords outputs.now }
    ensures read { IfOk result (λ r. Goes at.entry (map (answer_line outputs.now) (enumerate_from 0 r.0.items)) r.1) }
    ensures long { IfOk result (λ r. length r.0.items ≡ 2 ^ length outputs.now) }
    ensures lead { IfOk result (λ r. AllByRecursion (λ x. x < states) r.0.items) }
    ensures refused { IfErr result (λ e. (ins : List Word) (i : ℕ) → TellsFault (at_reply (environment_of ins outputs.now) states i 0) at.entry e) }
{
    let mut next = Vec::new(alloc);
    let mut rest = at;
    for set in 0..sets(outputs) {
        let (state, behind) = match read_reply(rest, outputs, states, set) {
            Ok(read) => read,
            Err(refusal) => return Err(refusal),
        };
        next.push(state)?;
        rest = behind;
    }
    Ok((next, rest))
}

// the lines of a state: what it plays, and its next states
fn read_row<'a>(
    alloc: Global,
    at: Rest<'a>,
    inputs: &[Name],
    outputs: &[Name],
    states: u32,
    state: u32,
) -> Result<(u32, Vec<u32>, Rest<'a>), DocRefusal>
    requires room { HasRoom at }
    requires few_inputs { length inputs.now ≤ 8 }
    requires few_outputs { length outputs.now ≤ 8 }
    requires inputs { AreWords inputs.now }
    requires outputs { AreWords outputs.now }
    requires is_state { state < states }
    ensures read { IfOk result (λ r. Goes at.entry (played_lines inputs.now outputs.now state (r.0, r.1.items)) r.2) }
    ensures fits { IfOk result (λ r. PlayFits (length inputs.now) (length outputs.now) states (r.0, r.1.items)) }
    ensures refused { IfErr result (TellsFault (at_state (environment_of inputs.now outputs.now) states state) at.entry) }
{
    let behind = match read_state(at, state) {
        Ok(behind) => behind,
        Err(refusal) => return Err(refusal),
    };
    let (play, answers) = match read_play(behind, inputs) {
        Ok(read) => read,
        Err(refusal) => return Err(refusal),
    };
    match read_replies(alloc, answers, outputs, states) {
        Ok((next, rest)) => Ok((play, next, rest)),
        Err(refusal) => Err(refusal),
    }
}

// the environment of so many states, with whose lines the text goes on
pub(crate) fn read_environment<'a>(
    alloc: Global,
    at: Rest<'a>,
    inputs: &[Name],
    outputs: &[Name],
    states: u32,
) -> Result<(Environment, Rest<'a>), DocRefusal>
    requires room { HasRoom at }
    requires few_inputs { length inputs.now ≤ 8 }
    requires few_outputs { length outputs.now ≤ 8 }
    requires inputs { AreWords inputs.now }
    requires outputs { AreWords outputs.now }
    requires some { 0 < states }
    ensures read { IfOk result (λ r. Goes at.entry
        (flat_map (environment_state_lines inputs.now outputs.now r.0.next) (enumerate_from 0 r.0.plays)) r.1) }
    ensures long { IfOk result (λ r. length r.0.plays ≡ states) }
    ensures fits { IfOk result (λ r. EnvironmentFits (length inputs.now) (length outputs.now) r.0) }
    ensures refused { IfErr result (TellsFault (at_state (environment_of inputs.now outputs.now) states 0) at.entry) }
{
    let mut plays = Vec::new(alloc);
    let mut next = Vec::new(alloc);
    let mut rest = at;
    for state in 0..states {
        let (play, row, behind) = match read_row(alloc, rest, inputs, outputs, states, state) {
            Ok(read) => read,
            Err(refusal) => return Err(refusal),
        };
        plays.push(play)?;
        next.push(row)?;
        rest = behind;
    }
    Ok((Environment { plays, next }, rest))
}
