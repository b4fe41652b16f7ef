// Structures, state by state.
use crate::page::Page;
use ml_base::{Action, Edge, NoMemory};
use ml_kripke::{Model, Structure};
use std::alloc::Global;

// the number of a state and the propositions that are true there
fn show_state(
    alloc: Global,
    page: &mut Page,
    structure: &Structure,
    state: u32,
) -> Result<(), NoMemory> {
    page.begin(0, 8)?;
    page.word(b"state")?;
    page.number_with(alloc, u64::from(state), b":")?;
    if state < structure.states() {
        let labels = structure.labels_of(state);
        if labels.is_empty() {
            page.words(b"(no proposition)")?;
        }
        for label in labels {
            page.word(label.bytes())?;
        }
    }
    page.end_line()
}

// states from which no edge leads
fn show_ends(
    alloc: Global,
    page: &mut Page,
    structure: &Structure,
    from: u32,
    to: u32,
) -> Result<(), NoMemory> {
    for state in from..to {
        show_state(alloc, page, structure, state)?;
        page.begin(4, 8)?;
        page.words(b"no edge leads on")?;
        page.end_line()?;
    }
    Ok(())
}

// does an edge stand in the line of the edge before it?
fn is_alike(edge: &Edge, before: Option<&Edge>) -> bool {
    match before {
        Some(before) => {
            before.source == edge.source && before.action.bytes() == edge.action.bytes()
        }
        None => false,
    }
}

// a line for the edges by an action begins
fn begin_edges(page: &mut Page, action: &Action) -> Result<(), NoMemory> {
    page.begin(4, 8)?;
    page.word(b"by")?;
    page.word(action.bytes())?;
    page.word(b"to")
}

// the states in order, each with its edges, those by one action in one line
fn show_states(alloc: Global, page: &mut Page, structure: &Structure) -> Result<(), NoMemory> {
    let mut before: Option<&Edge> = None;
    // the first state that isn't written yet
    let mut next = 0;
    for edge in structure.edges() {
        if is_alike(edge, before) {
            page.put(b",")?;
        } else {
            if before.is_some() {
                page.end_line()?;
            }
            if next <= edge.source {
                show_ends(alloc, page, structure, next, edge.source)?;
                show_state(alloc, page, structure, edge.source)?;
                next = edge.source.saturating_add(1);
            }
            begin_edges(page, &edge.action)?;
        }
        page.number(alloc, u64::from(edge.target))?;
        before = Some(edge);
    }
    if before.is_some() {
        page.end_line()?;
    }
    show_ends(alloc, page, structure, next, structure.states())
}

pub(crate) fn show_structure(
    alloc: Global,
    page: &mut Page,
    said: &[u8],
    model: &Model,
) -> Result<(), NoMemory> {
    page.begin(0, 0)?;
    page.words(said)?;
    page.word(b"state")?;
    page.number(alloc, u64::from(model.start))?;
    page.words(b"of this structure:")?;
    page.end_line()?;
    page.end_line()?;
    show_states(alloc, page, &model.structure)?;
    page.end_line()?;
    page.begin(0, 0)?;
    page.words(b"There are")?;
    page.number(alloc, u64::from(model.structure.states()))?;
    page.words(b"states and")?;
    page.number(alloc, model.structure.edge_count() as u64)?;
    page.words(b"edges.")
}
