// Words, as tables of moments.
ghost use Rattle.std.specs.Prelude.{◌≤◌};

use crate::page::Page;
use ml_base::{Name, NoMemory};
use ml_kripke::{Model, Structure};
use std::alloc::Global;

// how many moments stand in one table
const MOMENTS: usize = 60;

// how wide the names of the rows are; a longer one is broken
const LABEL: usize = 17;

// does exactly one edge lead from each state, and is it by `_`?
pub(crate) fn is_word(structure: &Structure) -> bool {
    let edges = structure.edges();
    edges.len() == structure.states() as usize
        && edges.iter().enumerate().all(|(state, edge)| edge.source as usize == state
            && edge.action.bytes() == b"_".as_slice())
}

// the states of a word from the start on, until one comes again, and the moment at which it stood
#[derive(Drop)]
struct Lasso {
    states: Vec<u32>,
    back: usize,
}

// Each state is met once at most.
fn lasso_of(alloc: Global, model: &Model) -> Result<Lasso, NoMemory> {
    let structure = &model.structure;
    let count = structure.states();
    let mut moments: Vec<Option<usize>> = vec![in alloc; None; count as usize]?;
    let mut states = Vec::new(alloc);
    let mut state = model.start;
    for _ in 0..count {
        if let Some(moment) = moments.get_mut(state as usize) {
            if moment.is_some() {
                break;
            }
            *moment = Some(states.len());
        }
        states.push(state)?;
        if let Some(edge) = structure.edges().get(state as usize) {
            state = edge.target;
        }
    }
    let back = moments.get(state as usize).copied().flatten().unwrap_or(0);
    Ok(Lasso { states, back })
}

// the propositions that are true at some moment, in order
fn propositions_of<'a>(
    alloc: Global,
    structure: &'a Structure,
    states: &[u32],
) -> Result<Vec<&'a Name>, NoMemory> {
    let mut names = Vec::new(alloc);
    for state in states {
        if *state < structure.states() {
            for label in structure.labels_of(*state) {
                names.push(label)?;
            }
        }
    }
    names.sort_unstable();
    names.dedup();
    Ok(names)
}

// how wide the column of names is
fn label_width(names: &[&Name]) -> usize
    ensures { result ≤ 18 }
{
    let longest = names
        .iter()
        .map(|name| name.bytes().len())
        .max()
        .unwrap_or(0);
    longest.max(6).min(LABEL + 1)
}

// A part of the moments of a word, which stands in one table.
#[derive(Clone, Copy)]
struct Part<'a> {
    states: &'a [u32],
    // the moment of the first one
    first: usize,
    // where the moments stand
    column: usize,
}

impl<'a> Part<'a> {
    // the moments above: each tenth one, and the last digits of all
    fn show_moments(self, alloc: Global, page: &mut Page) -> Result<(), NoMemory> {
        for (i, _) in self.states.iter().enumerate() {
            let moment = self.first.saturating_add(i);
            if moment % 10 == 0 {
                page.pad_to(self.column.saturating_add(i))?;
                page.put_number(alloc, moment as u64)?;
            }
        }
        page.end_line()?;
        page.put(b"moment")?;
        page.pad_to(self.column)?;
        for (i, _) in self.states.iter().enumerate() {
            let digit = (self.first.saturating_add(i) % 10) as u8;
            page.put(&[b'0' + digit])?;
        }
        page.end_line()
    }

    // where the proposition is true
    fn show_row(self, page: &mut Page, structure: &Structure, name: &Name) -> Result<(), NoMemory> {
        show_label(page, name)?;
        page.pad_to(self.column)?;
        for state in self.states {
            let is_true = *state < structure.states() && structure.has_label(*state, name);
            page.put(if is_true { b"#" } else { b"." })?;
        }
        page.end_line()
    }

    // the moments that come again for ever, if there are some
    fn show_loop(self, page: &mut Page, back: usize) -> Result<(), NoMemory> {
        if self.first.saturating_add(self.states.len()) <= back {
            return Ok(());
        }
        page.put(b"again")?;
        page.pad_to(self.column)?;
        for (i, _) in self.states.iter().enumerate() {
            let comes_again = back <= self.first.saturating_add(i);
            page.put(if comes_again { b"^" } else { b" " })?;
        }
        page.end_line()
    }
}

// a name before its row; a long one is broken into lines
fn show_label(page: &mut Page, name: &Name) -> Result<(), NoMemory> {
    let bytes = name.bytes();
    if bytes.len() <= LABEL + 1 {
        return page.put(bytes);
    }
    for (i, piece) in bytes.chunks(LABEL).enumerate() {
        if i > 0 {
            page.put(b"-")?;
            page.end_line()?;
        }
        page.put(piece)?;
    }
    Ok(())
}

// the tables, one below the other
fn show_tables(
    alloc: Global,
    page: &mut Page,
    structure: &Structure,
    lasso: &Lasso,
    names: &[&Name],
) -> Result<(), NoMemory> {
    let column = label_width(names) + 1;
    for (i, states) in lasso.states.chunks(MOMENTS).enumerate() {
        let part = Part {
            states,
            first: i.saturating_mul(MOMENTS),
            column,
        };
        part.show_moments(alloc, page)?;
        for name in names {
            part.show_row(page, structure, name)?;
        }
        part.show_loop(page, lasso.back)?;
        page.end_line()?;
    }
    Ok(())
}

pub(crate) fn show_word(
    alloc: Global,
    page: &mut Page,
    said: &[u8],
    model: &Model,
) -> Result<(), NoMemory> {
    let lasso = lasso_of(alloc, model)?;
    let names = propositions_of(alloc, &model.structure, &lasso.states)?;
    page.begin(0, 0)?;
    page.words(said)?;
    page.words(b"moment 0 of this word (# true, . not true):")?;
    page.end_line()?;
    page.end_line()?;
    show_tables(alloc, page, &model.structure, &lasso, &names)?;
    page.words(b"The moments marked ^ come again for ever: behind moment")?;
    page.number(alloc, (lasso.states.len() as u64).saturating_sub(1))?;
    page.words(b"comes moment")?;
    page.number(alloc, lasso.back as u64)?;
    page.words(b"again. A proposition without a row is never true.")
}
