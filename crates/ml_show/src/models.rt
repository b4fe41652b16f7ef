// Structures, as people read them.
ghost use Rattle.std.specs.Prelude.{IfOk};
ghost use Rattle.ml_show.specs.Pages.{EndsWithLf};

use crate::page::Page;
use crate::problems::{claim, show_formula};
use crate::structures::show_structure;
use crate::words::{is_word, show_word};
use ml_base::NoMemory;
use ml_front::Problem;
use ml_kripke::Model;
use std::alloc::Global;

/// What the document of a satisfiable problem says. A word, that is a structure in which exactly one edge leads from each
/// state, by `_`, becomes a table: a row for each proposition and a column for each moment, up to the last one before a state comes
/// again. Another structure is written state by state, with its propositions and with the states to which its edges lead.
///
/// # Errors
/// `NoMemory` alone.
///
/// Cost: `n log n` in the structure and, for a word, linear in the table.
pub fn show_model(alloc: Global, problem: &Problem, model: &Model) -> Result<Vec<u8>, NoMemory>
    ensures { IfOk result (λ text. EndsWithLf text.items) }
{
    let mut page = Page::new(alloc);
    show_formula(alloc, &mut page, problem)?;
    append_model(alloc, &mut page, claim(problem), model)?;
    page.finish()
}

// a structure, and what is said of its start
pub(crate) fn append_model(
    alloc: Global,
    page: &mut Page,
    said: &[u8],
    model: &Model,
) -> Result<(), NoMemory> {
    if is_word(&model.structure) {
        show_word(alloc, page, said, model)
    } else {
        show_structure(alloc, page, said, model)
    }
}
