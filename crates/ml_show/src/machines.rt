// Machines and environments, with formulas in place of all sets of names.
ghost use Rattle.std.specs.Prelude.{IfOk};
ghost use Rattle.ml_show.specs.Pages.{EndsWithLf};

use crate::guards::{cases_of, show_set};
use crate::page::Page;
use ml_base::{Name, NoMemory};
use ml_synthesis::{Environment, Machine, MachineStep};
use ml_task::Task;
use std::alloc::Global;

// names in a line of their own
fn show_names(page: &mut Page, title: &[u8], names: &[Name]) -> Result<(), NoMemory> {
    page.begin(0, 4)?;
    page.words(title)?;
    if names.is_empty() {
        page.word(b"none")?;
    }
    for name in names {
        page.word(name.bytes())?;
    }
    page.end_line()
}

// the task that a machine or an environment is about, or of which neither is told
pub(crate) fn show_task(alloc: Global, page: &mut Page, task: &Task) -> Result<(), NoMemory> {
    show_names(page, b"Inputs:", &task.inputs)?;
    show_names(page, b"Outputs:", &task.outputs)?;
    page.begin(0, 0)?;
    page.words(b"The formula:")?;
    page.end_line()?;
    page.begin(4, 6)?;
    page.words(&ml_ltl::print(alloc, &task.formula)?)?;
    page.end_line()?;
    page.end_line()
}

fn show_state(alloc: Global, page: &mut Page, state: usize) -> Result<(), NoMemory> {
    page.begin(0, 4)?;
    page.word(b"state")?;
    page.number_with(alloc, state as u64, b":")
}

// where it goes from a state
fn show_next(alloc: Global, page: &mut Page, state: usize, next: u32) -> Result<(), NoMemory> {
    if next as usize == state {
        return page.words(b"stay here");
    }
    page.words(b"go to state")?;
    page.number(alloc, u64::from(next))
}

fn show_steps(
    alloc: Global,
    page: &mut Page,
    task: &Task,
    state: usize,
    steps: &[MachineStep],
) -> Result<(), NoMemory> {
    show_state(alloc, page, state)?;
    page.end_line()?;
    for case in cases_of(alloc, steps, task.inputs.len())? {
        page.begin(4, 8)?;
        page.word(b"on")?;
        case.show(page, &task.inputs)?;
        page.word(b"give")?;
        show_set(page, &task.outputs, case.answer.give)?;
        page.put(b",")?;
        show_next(alloc, page, state, case.answer.next)?;
        page.end_line()?;
    }
    Ok(())
}

/// What the document of a realizable task says: what its machine does in each state, in which the sets of inputs that agree in
/// what is given and in the next state are one formula.
///
/// # Errors
/// `NoMemory` alone.
///
/// Cost: in each state at most the square of the sets of inputs, times the inputs.
pub fn show_machine(alloc: Global, task: &Task, machine: &Machine) -> Result<Vec<u8>, NoMemory>
    ensures { IfOk result (λ text. EndsWithLf text.items) }
{
    let mut page = Page::new(alloc);
    show_task(alloc, &mut page, task)?;
    page.begin(0, 0)?;
    page.words(b"This machine is said to keep the formula, whatever its inputs are.")?;
    page.words(b"It begins in state 0.")?;
    page.end_line()?;
    page.end_line()?;
    for (state, steps) in machine.steps().iter().enumerate() {
        show_steps(alloc, &mut page, task, state, steps)?;
    }
    page.end_line()?;
    page.begin(0, 0)?;
    page.words(b"A formula after `on` speaks of the inputs of the moment, and tt of all.")?;
    page.finish()
}

fn show_answers(
    alloc: Global,
    page: &mut Page,
    task: &Task,
    state: usize,
    play: u32,
    next: &[u32],
) -> Result<(), NoMemory> {
    show_state(alloc, page, state)?;
    page.word(b"play")?;
    show_set(page, &task.inputs, play)?;
    page.end_line()?;
    for case in cases_of(alloc, next, task.outputs.len())? {
        page.begin(4, 8)?;
        page.word(b"on")?;
        case.show(page, &task.outputs)?;
        show_next(alloc, page, state, case.answer)?;
        page.end_line()?;
    }
    Ok(())
}

/// What the document of an unrealizable task says: which inputs its environment plays in each state, and where it goes by the
/// outputs that it is answered, in which the sets of outputs with one next state are one formula.
///
/// # Errors
/// `NoMemory` alone.
///
/// Cost: in each state at most the square of the sets of outputs, times the outputs.
pub fn show_environment(
    alloc: Global,
    task: &Task,
    environment: &Environment,
) -> Result<Vec<u8>, NoMemory>
    ensures { IfOk result (λ text. EndsWithLf text.items) }
{
    let mut page = Page::new(alloc);
    show_task(alloc, &mut page, task)?;
    page.begin(0, 0)?;
    page.words(b"This environment is said to break the formula, whatever a machine")?;
    page.words(b"answers. It begins in state 0.")?;
    page.end_line()?;
    page.end_line()?;
    for (state, (play, next)) in environment
        .plays()
        .iter()
        .zip(environment.next())
        .enumerate()
    {
        show_answers(alloc, &mut page, task, state, *play, next)?;
    }
    page.end_line()?;
    page.begin(0, 0)?;
    page.words(b"A formula after `on` speaks of the outputs of the moment, and tt of all.")?;
    page.finish()
}
