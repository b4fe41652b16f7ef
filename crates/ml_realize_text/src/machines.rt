// A machine is written state after state, line by line.
ghost use Rattle.std.specs.Prelude.{◌≡◌, ◌++◌, ◌<◌, ◌^◌, OnOk};
ghost use Rattle.std.specs.List.{flat_map, enumerate_from};
ghost use Rattle.std.specs.Prelude.{map};
ghost use Rattle.ml_lines.specs.Lines.{line_text, text_of};
ghost use Rattle.ml_realize_text.specs.RealizeText.{machine_lines, machine_state_lines, step_line};
ghost use Rattle.ml_realize_text.specs.private.Rows.{steps_of};

use crate::lines::{write_goto, write_numbered, write_set};
use ml_base::{Name, NoMemory};
use ml_lines::{write_next_word, write_word};
use ml_synthesis::{Machine, MachineStep};

// what a machine does on a set of inputs
#[tactic(auto, using(crate::proofs::WrittenParts::step_written))]
fn write_step(
    out: &mut Vec<u8>,
    inputs: &[Name],
    outputs: &[Name],
    set: usize,
    step: MachineStep,
) -> Result<(), NoMemory>
    ensures { OnOk result (out.new.items ≡ out.old.items ++ line_text (step_line inputs.now outputs.now (set, step))) }
{
    write_word(out, b"on")?;
    write_set(out, inputs, set as u64)?;
    write_next_word(out, b"give")?;
    write_set(out, outputs, u64::from(step.give))?;
    write_goto(out, step.next)
}

fn write_steps(
    out: &mut Vec<u8>,
    inputs: &[Name],
    outputs: &[Name],
    steps: &[MachineStep],
) -> Result<(), NoMemory>
    ensures { OnOk result (out.new.items ≡ out.old.items
        ++ text_of (map (step_line inputs.now outputs.now) (enumerate_from 0 steps.now))) }
{
    for (set, step) in steps.iter().enumerate() {
        write_step(out, inputs, outputs, set, *step)?;
    }
    Ok(())
}

fn write_state(
    out: &mut Vec<u8>,
    inputs: &[Name],
    outputs: &[Name],
    state: usize,
    steps: &[MachineStep],
) -> Result<(), NoMemory>
    ensures { OnOk result (out.new.items ≡ out.old.items
        ++ text_of (machine_state_lines inputs.now outputs.now (state, steps.now))) }
{
    write_numbered(out, b"state", state as u64)?;
    write_steps(out, inputs, outputs, steps)
}

fn write_states(
    out: &mut Vec<u8>,
    inputs: &[Name],
    outputs: &[Name],
    rows: &[Vec<MachineStep>],
) -> Result<(), NoMemory>
    ensures { OnOk result (out.new.items ≡ out.old.items
        ++ text_of (flat_map (machine_state_lines inputs.now outputs.now) (enumerate_from 0 (steps_of rows.now)))) }
{
    for (state, steps) in rows.iter().enumerate() {
        write_state(out, inputs, outputs, state, steps)?;
    }
    Ok(())
}

// the lines of a machine
pub(crate) fn write_machine(
    out: &mut Vec<u8>,
    inputs: &[Name],
    outputs: &[Name],
    machine: &Machine,
) -> Result<(), NoMemory>
    ensures { OnOk result (out.new.items ≡ out.old.items
        ++ text_of (machine_lines inputs.now outputs.now machine.now)) }
{
    write_numbered(out, b"states", machine.steps().len() as u64)?;
    write_states(out, inputs, outputs, machine.steps())
}
