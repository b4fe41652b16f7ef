// Problems and tasks that stay undecided.
ghost use Rattle.std.specs.Prelude.{IfOk};
ghost use Rattle.ml_show.specs.Pages.{EndsWithLf};

use crate::machines::show_task;
use crate::page::Page;
use crate::problems::show_formula;
use ml_base::NoMemory;
use ml_front::{MOST_NODES, Problem};
use ml_task::Task;
use std::alloc::Global;

/// Why a problem or a task stays undecided, as a document tells it.
#[derive(Clone, Copy, PartialEq, Eq)]
pub enum Cause {
    /// Its game has more positions than this.
    Positions(u32),
    /// Its graph, or its word automaton, has too many nodes.
    Closure,
}

// the number of a size that passes its limit
fn show_more_than(
    alloc: Global,
    page: &mut Page,
    limit: u32,
    things: &[u8],
) -> Result<(), NoMemory> {
    page.words(b"has more than")?;
    page.number(alloc, u64::from(limit))?;
    page.words(things)
}

/// What the document of an undecided problem says: which size passes its limit.
///
/// # Errors
/// `NoMemory` alone.
///
/// Cost: linear in the text.
pub fn show_undecided(alloc: Global, problem: &Problem, cause: Cause) -> Result<Vec<u8>, NoMemory>
    ensures { IfOk result (λ text. EndsWithLf text.items) }
{
    let mut page = Page::new(alloc);
    show_formula(alloc, &mut page, problem)?;
    page.begin(0, 0)?;
    page.words(b"It isn't known whether it can be met:")?;
    match cause {
        Cause::Positions(limit) => {
            page.words(b"the game that decides it")?;
            show_more_than(alloc, &mut page, limit, b"positions.")?;
        }
        Cause::Closure => {
            page.words(b"its graph")?;
            show_more_than(alloc, &mut page, MOST_NODES, b"nodes.")?;
        }
    }
    page.finish()
}

/// What the document of an undecided task says: which size passes its limit.
///
/// # Errors
/// `NoMemory` alone.
///
/// Cost: linear in the text.
pub fn show_undecided_task(alloc: Global, task: &Task, cause: Cause) -> Result<Vec<u8>, NoMemory>
    ensures { IfOk result (λ text. EndsWithLf text.items) }
{
    let mut page = Page::new(alloc);
    show_task(alloc, &mut page, task)?;
    page.begin(0, 0)?;
    page.words(b"It isn't known whether a machine can keep the formula:")?;
    match cause {
        Cause::Positions(limit) => {
            page.words(b"the game of the task")?;
            show_more_than(alloc, &mut page, limit, b"positions.")?;
        }
        Cause::Closure => {
            page.words(b"the word automaton of its negation")?;
            show_more_than(alloc, &mut page, MOST_NODES, b"nodes.")?;
        }
    }
    page.finish()
}
