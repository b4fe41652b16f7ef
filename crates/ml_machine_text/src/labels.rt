// The structure of a word of valuations.
ghost use Rattle.std.specs.Prelude.{◌≡◌, ◌++◌, ◌<◌, ◌≤◌, ◌^◌, IfOk, OnOk, length};
ghost use Rattle.ml_paths.specs.Runs.{IsRunOf};
ghost use Rattle.ml_paths.specs.private.Built.{pairs_at, pairs_of};
ghost use Rattle.ml_realize.specs.Realizing.{word_of};
ghost use Rattle.ml_task.specs.NameSets.{members};
ghost use Rattle.ml_trace.specs.WordAutomata.{IsWordLasso};
ghost use Rattle.ml_machine_text.specs.private.Letters.{letter_at};

use ml_base::{Name, NoMemory};
use ml_kripke::Structure;
use ml_machine_check::Run;
use ml_paths::run_of;
use ml_task::Task;
use std::alloc::Global;

// the names that are in a set, as labels of a place, behind other labels
fn add_members(
    labels: &mut Vec<(u32, Name)>,
    place: u32,
    names: &[Name],
    set: u32,
) -> Result<(), NoMemory>
    ensures { OnOk result (labels.new.items ≡ labels.old.items ++ pairs_at place (members names.now set)) }
{
    match names.split_first() {
        Some((name, others)) => {
            if set % 2 == 1 {
                labels.push((place, name.copy()?))?;
            }
            add_members(labels, place, others, set / 2)
        }
        None => Ok(()),
    }
}

// the names that are true under a valuation, so
fn add_letter(
    labels: &mut Vec<(u32, Name)>,
    place: u32,
    inputs: &[Name],
    outputs: &[Name],
    valuation: u32,
) -> Result<(), NoMemory>
    requires { length inputs.now ≤ 8 }
    ensures { OnOk result (labels.new.items ≡ labels.old.items ++ pairs_at place (members (inputs.now ++ outputs.now) valuation)) }
{
    add_members(labels, place, inputs, valuation)?;
    add_members(labels, place, outputs, valuation >> inputs.len())
}

// the labels of all places
fn labels_of(
    alloc: Global,
    inputs: &[Name],
    outputs: &[Name],
    valuations: &[u32],
) -> Result<Vec<(u32, Name)>, NoMemory>
    requires inputs { length inputs.now ≤ 8 }
    requires few { length valuations.now < 2 ^ 32 }
    ensures { IfOk result (λ labels.
        labels.items ≡ pairs_of (letter_at (inputs.now ++ outputs.now) valuations.now) (length valuations.now)) }
{
    let mut labels = Vec::new(alloc);
    for (place, valuation) in valuations.iter().enumerate() {
        add_letter(&mut labels, place as u32, inputs, outputs, *valuation)?;
    }
    Ok(labels)
}

// the structure of a word of the task's valuations
pub(crate) fn structure_of(alloc: Global, task: &Task, word: &Run) -> Result<Structure, NoMemory>
    requires { IsWordLasso word.now }
    ensures { IfOk result (IsRunOf (word_of (task.now.inputs.items ++ task.now.outputs.items) word.now)) }
{
    let valuations = word.letters();
    // a word of more places than a number counts is want of memory
    let Ok(places) = u32::try_from(valuations.len()) else {
        return Err(NoMemory);
    };
    let labels = labels_of(alloc, &task.inputs, &task.outputs, valuations)?;
    let structure = run_of(alloc, places, word.loop_start() as u32, labels)?;
    Ok(structure)
}
