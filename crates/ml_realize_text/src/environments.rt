// An environment is written state after state, line by line.
ghost use Rattle.std.specs.Prelude.{◌≡◌, ◌++◌, [], OnOk, get_or, map};
ghost use Rattle.std.specs.List.{flat_map, enumerate_from};
ghost use Rattle.ml_lines.specs.Lines.{line_text, text_of};
ghost use Rattle.ml_parity.specs.Refusal.{lists_of};
ghost use Rattle.ml_realize_text.specs.RealizeText.{answer_line, environment_lines, environment_state_lines, play_line};

use crate::lines::{write_goto, write_numbered, write_set};
use ml_base::{Name, NoMemory};
use ml_lines::{end_line, write_word};
use ml_synthesis::Environment;

// what an environment plays
#[tactic(auto, using(crate::proofs::WrittenParts::line_written))]
fn write_play(out: &mut Vec<u8>, inputs: &[Name], set: u32) -> Result<(), NoMemory>
    ensures { OnOk result (out.new.items ≡ out.old.items ++ line_text (play_line inputs.now set)) }
{
    write_word(out, b"play")?;
    write_set(out, inputs, u64::from(set))?;
    end_line(out)
}

// where it goes on a set of outputs
#[tactic(auto, using(crate::proofs::WrittenParts::answer_written))]
fn write_answer(out: &mut Vec<u8>, outputs: &[Name], set: usize, next: u32) -> Result<(), NoMemory>
    ensures { OnOk result (out.new.items ≡ out.old.items ++ line_text (answer_line outputs.now (set, next))) }
{
    write_word(out, b"on")?;
    write_set(out, outputs, set as u64)?;
    write_goto(out, next)
}

fn write_answers(out: &mut Vec<u8>, outputs: &[Name], next: &[u32]) -> Result<(), NoMemory>
    ensures { OnOk result (out.new.items ≡ out.old.items
        ++ text_of (map (answer_line outputs.now) (enumerate_from 0 next.now))) }
{
    for (set, state) in next.iter().enumerate() {
        write_answer(out, outputs, set, *state)?;
    }
    Ok(())
}

// the row of a state
fn row_of(next: &[Vec<u32>], state: usize) -> &[u32]
    ensures { result.now ≡ get_or (lists_of next.now) state [] }
{
    match next.get(state) {
        Some(row) => row,
        None => &[],
    }
}

fn write_state(
    out: &mut Vec<u8>,
    inputs: &[Name],
    outputs: &[Name],
    next: &[Vec<u32>],
    state: usize,
    play: u32,
) -> Result<(), NoMemory>
    ensures { OnOk result (out.new.items ≡ out.old.items
        ++ text_of (environment_state_lines inputs.now outputs.now (lists_of next.now) (state, play))) }
{
    write_numbered(out, b"state", state as u64)?;
    write_play(out, inputs, play)?;
    write_answers(out, outputs, row_of(next, state))
}

fn write_states(
    out: &mut Vec<u8>,
    inputs: &[Name],
    outputs: &[Name],
    next: &[Vec<u32>],
    plays: &[u32],
) -> Result<(), NoMemory>
    ensures { OnOk result (out.new.items ≡ out.old.items
        ++ text_of (flat_map (environment_state_lines inputs.now outputs.now (lists_of next.now)) (enumerate_from 0 plays.now))) }
{
    for (state, play) in plays.iter().enumerate() {
        write_state(out, inputs, outputs, next, state, *play)?;
    }
    Ok(())
}

// the lines of an environment
pub(crate) fn write_environment(
    out: &mut Vec<u8>,
    inputs: &[Name],
    outputs: &[Name],
    environment: &Environment,
) -> Result<(), NoMemory>
    ensures { OnOk result (out.new.items ≡ out.old.items
        ++ text_of (environment_lines inputs.now outputs.now environment.now)) }
{
    let plays = environment.plays();
    write_numbered(out, b"states", plays.len() as u64)?;
    write_states(out, inputs, outputs, environment.next(), plays)
}
