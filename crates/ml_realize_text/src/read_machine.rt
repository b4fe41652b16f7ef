// A machine is read from the lines of its states.
ghost use Rattle.std.specs.Prelude.{ℕ, ◌≡◌, ◌<◌, ◌≤◌, ◌^◌, ◌∷◌, ◌++◌, IfErr, IfOk, length, map};
ghost use Rattle.std.specs.List.{enumerate_from, flat_map};
ghost use Rattle.ml_lines.specs.Reading.{AreWords};
ghost use Rattle.ml_realize_text.specs.RealizeRules.{at_state, at_step};
ghost use Rattle.ml_realize_text.specs.RealizeText.{machine_state_lines, step_line};
ghost use Rattle.ml_realize_text.specs.private.Reads.{Goes, HasRoom, RowFits, TellsFault, machine_of};
ghost use Rattle.ml_synthesis.specs.Machines.{MachineFits};

use crate::read_lines::{read_state, read_step};
use crate::rest::Rest;
use ml_base::{DocRefusal, Name};
use ml_synthesis::{Machine, MachineStep};
use std::alloc::Global;

// how many sets of these names there are
pub(crate) fn sets(names: &[Name]) -> u32
    requires { length names.now ≤ 8 }
    ensures is { result ≡ 2 ^ length names.now }
    ensures few { result ≤ 256 }
{
    1 << names.len()
}

// the steps of a state, one for each set of inputs
fn read_steps<'a>(
    alloc: Global,
    at: Rest<'a>,
    inputs: &[Name],
    outputs: &[Name],
    states: u32,
) -> Result<(Vec<MachineStep>, Rest<'a>), DocRefusal>
    requires room { HasRoom at }
    requires few_inputs { length inputs.now ≤ 8 }
    requires few_outputs { length outputs.now ≤ 8 }
    requires inputs { AreWords inputs.now }
    requires outputs { AreWords outputs.now }
    ensures read { IfOk result (λ r. Goes at.entry (map (step_line inputs.now outputs.now) (enumerate_from 0 r.0.items)) r.1) }
    ensures fit { IfOk result (λ r. RowFits (length inputs.now) (length outputs.now) states r.0.items) }
    ensures refused { IfErr result (λ e. (i : ℕ) → TellsFault (at_step (machine_of inputs.now outputs.now) states i 0) at.entry e) }
{
    let mut steps = Vec::new(alloc);
    let mut rest = at;
    for set in 0..sets(inputs) {
        let (step, behind) = match read_step(rest, inputs, outputs, states, set) {
            Ok(read) => read,
            Err(refusal) => return Err(refusal),
        };
        steps.push(step)?;
        rest = behind;
    }
    Ok((steps, rest))
}

// the line of a state, and its steps
fn read_row<'a>(
    alloc: Global,
    at: Rest<'a>,
    inputs: &[Name],
    outputs: &[Name],
    states: u32,
    state: u32,
) -> Result<(Vec<MachineStep>, Rest<'a>), DocRefusal>
    requires room { HasRoom at }
    requires few_inputs { length inputs.now ≤ 8 }
    requires few_outputs { length outputs.now ≤ 8 }
    requires inputs { AreWords inputs.now }
    requires outputs { AreWords outputs.now }
    requires is_state { state < states }
    ensures read { IfOk result (λ r. Goes at.entry (machine_state_lines inputs.now outputs.now (state, r.0.items)) r.1) }
    ensures fit { IfOk result (λ r. RowFits (length inputs.now) (length outputs.now) states r.0.items) }
    ensures refused { IfErr result (TellsFault (at_state (machine_of inputs.now outputs.now) states state) at.entry) }
{
    match read_state(at, state) {
        Ok(behind) => read_steps(alloc, behind, inputs, outputs, states),
        Err(refusal) => Err(refusal),
    }
}

// the machine of so many states, with whose lines the text goes on
pub(crate) fn read_machine<'a>(
    alloc: Global,
    at: Rest<'a>,
    inputs: &[Name],
    outputs: &[Name],
    states: u32,
) -> Result<(Machine, Rest<'a>), DocRefusal>
    requires room { HasRoom at }
    requires few_inputs { length inputs.now ≤ 8 }
    requires few_outputs { length outputs.now ≤ 8 }
    requires inputs { AreWords inputs.now }
    requires outputs { AreWords outputs.now }
    requires some { 0 < states }
    ensures read { IfOk result (λ r. Goes at.entry (flat_map (machine_state_lines inputs.now outputs.now) (enumerate_from 0 r.0)) r.1) }
    ensures long { IfOk result (λ r. length r.0 ≡ states) }
    ensures fits { IfOk result (λ r. MachineFits (length inputs.now) (length outputs.now) r.0) }
    ensures refused { IfErr result (TellsFault (at_state (machine_of inputs.now outputs.now) states 0) at.entry) }
{
    let mut steps = Vec::new(alloc);
    let mut rest = at;
    for state in 0..states {
        let (row, behind) = match read_row(alloc, rest, inputs, outputs, states, state) {
            Ok(read) => read,
            Err(refusal) => return Err(refusal),
        };
        steps.push(row)?;
        rest = behind;
    }
    Ok((Machine { steps }, rest))
}
