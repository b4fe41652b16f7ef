// Why no steps are followed for ever: what each round puts off.
use crate::sayings::Nodes;
use crate::steps::Steps;
use crate::telling::{FEW, Telling};
use ml_arrays::{ascend, empty_rows, flag, more_flags, number, set_flag};
use ml_base::NoMemory;
use ml_refutation::{Decision, Entry, Refutation};
use ml_trace::Mark;
use std::alloc::Global;

// how many steps of a round are named, and how many formulas that it puts off
const MOST_NAMED: usize = 12;

// what is put off is kept with what the diamond says in front
const SHIFT: u64 = 4_294_967_296;

// adds what is put off once more where a step's name is green
fn add_put_off(
    row: &mut Vec<u64>,
    nodes: &Nodes<'_, '_>,
    refutation: &Refutation,
    target: &Entry,
    name: u32,
    way: u32,
) -> Result<(), NoMemory> {
    for item in &target.items {
        if let Some(odd) = item.odd {
            if refutation.stacks.at(item.stack).contains(&name) && nodes.is_told(item.node) {
                let node = nodes.put_off_by(item.node, odd);
                row.push(
                    u64::from(way)
                        .saturating_mul(SHIFT)
                        .saturating_add(u64::from(node)),
                )?;
            }
        }
    }
    Ok(())
}

// adds what a decision puts off where it leads round
fn add_of(
    row: &mut Vec<u64>,
    nodes: &Nodes<'_, '_>,
    refutation: &Refutation,
    steps: &Steps,
    here: u32,
    decision: &Decision,
) -> Result<(), NoMemory> {
    match decision {
        Decision::Clash(_) => Ok(()),
        Decision::Go {
            diamond,
            entry,
            mark,
        } => {
            let step = number(&steps.of, *entry);
            match (refutation.entries.get(*entry as usize), *mark) {
                (Some(target), Mark::Green(name)) if steps.lie_on_round(here, step) => {
                    let way = number(&steps.said, *diamond);
                    add_put_off(row, nodes, refutation, target, name, way)
                }
                _ => Ok(()),
            }
        }
        Decision::Split { left, right, .. } => {
            add_of(row, nodes, refutation, steps, here, left)?;
            add_of(row, nodes, refutation, steps, here, right)
        }
    }
}

// What the entries of each step put off where it leads round: numbers, each what the diamond says, times 2^32, and a node.
pub(crate) fn put_off_by_step(
    alloc: Global,
    nodes: &Nodes<'_, '_>,
    refutation: &Refutation,
    steps: &Steps,
) -> Result<Vec<Vec<u64>>, NoMemory> {
    let mut rows: Vec<Vec<u64>> = empty_rows(alloc, steps.entries.len())?;
    for (entry, step) in refutation.entries.iter().zip(&steps.of) {
        if let Some(row) = rows.get_mut(*step as usize) {
            add_of(row, nodes, refutation, steps, *step, &entry.decision)?;
        }
    }
    for row in rows.iter_mut() {
        row.sort_unstable();
        row.dedup();
    }
    Ok(rows)
}

// the nodes that are put off along diamonds that say this, or along any where none is given
fn nodes_of(row: &[u64], way: Option<u32>, nodes: &mut Vec<u32>) -> Result<(), NoMemory> {
    for number in row {
        let is_one = match way {
            Some(way) => *number / SHIFT == u64::from(way),
            None => true,
        };
        if is_one {
            nodes.push((*number % SHIFT) as u32)?;
        }
    }
    ascend(nodes);
    Ok(())
}

impl<'n, 'g, 'a> Telling<'n, 'g, 'a> {
    // what is put off once more where a step goes on along a diamond
    pub(crate) fn show_put_off(&mut self, here: u32, diamond: u32) -> Result<(), NoMemory> {
        let way = number(&self.steps.said, diamond);
        let mut nodes = Vec::new(self.alloc);
        if let Some(row) = self.put_off.get(here as usize) {
            nodes_of(row, Some(way), &mut nodes)?;
        }
        if nodes.is_empty() {
            return Ok(());
        }
        self.page.words(b"So")?;
        self.show_any(&nodes, FEW)?;
        self.page.words(b"is put off once more.")
    }

    // the steps of a round
    fn show_members(&mut self, members: &[u32]) -> Result<(), NoMemory> {
        self.page.word(b"Steps")?;
        if members.len() > MOST_NAMED {
            self.page.words(b"from")?;
            if let (Some(first), Some(last)) = (members.first(), members.last()) {
                self.show_number(*first, b"")?;
                self.page.word(b"to")?;
                self.show_number(*last, b"")?;
            }
            return Ok(());
        }
        for (i, step) in members.iter().enumerate() {
            let left = members.len().saturating_sub(i);
            if left == 1 {
                self.page.word(b"and")?;
            }
            self.show_number(
                *step,
                if left > 2 {
                    b",".as_slice()
                } else {
                    b"".as_slice()
                },
            )?;
        }
        Ok(())
    }

    // one round, with what it puts off
    fn show_round(&mut self, members: &[u32], nodes: &[u32]) -> Result<(), NoMemory> {
        self.page.begin(0, 2)?;
        match members {
            [step] => {
                self.page.word(b"Step")?;
                self.show_number(*step, b"")?;
                self.page.words(b"leads back to itself,")?;
            }
            _ => {
                self.show_members(members)?;
                self.page.words(b"lead round among themselves,")?;
            }
        }
        if nodes.is_empty() {
            self.page
                .words(b"and the document names nothing that is put off.")?;
            return self.page.end_line();
        }
        self.page
            .words(b"but not for ever: again and again this puts off")?;
        self.show_any(nodes, MOST_NAMED)?;
        self.page.put(b",")?;
        self.page.words(b"which has to come about some time.")?;
        self.page.end_line()
    }

    // what is put off from steps of a round
    fn put_off_on(&self, members: &[u32]) -> Result<Vec<u32>, NoMemory> {
        let mut nodes = Vec::new(self.alloc);
        for step in members {
            if let Some(row) = self.put_off.get(*step as usize) {
                nodes_of(row, None, &mut nodes)?;
            }
        }
        Ok(nodes)
    }

    // the steps that lie on a round with one
    fn members(&self, step: u32) -> Result<Vec<u32>, NoMemory> {
        let component = number(&self.steps.components.of, step) as usize;
        let ends = &self.steps.components.ends;
        let first = match component.checked_sub(1) {
            Some(before) => ends.get(before).copied().unwrap_or(0),
            None => 0,
        };
        let end = ends.get(component).copied().unwrap_or(0);
        let mut members = Vec::new(self.alloc);
        for place in first..end {
            members.push(number(&self.steps.components.nodes, place))?;
        }
        ascend(&mut members);
        Ok(members)
    }
}

// Each round of steps, with what it puts off; tells whether there is one.
pub(crate) fn show_rounds(telling: &mut Telling<'_, '_, '_>) -> Result<bool, NoMemory> {
    let mut told = Vec::new(telling.alloc);
    more_flags(&mut told, telling.steps.entries.len())?;
    let mut is_one = false;
    for step in 0..telling.steps.graph.size() {
        let steps = telling.steps;
        if !flag(&told, step) && steps.components.is_on_cycle(&steps.graph, step) {
            let members = telling.members(step)?;
            for member in &members {
                set_flag(&mut told, *member, true);
            }
            let nodes = telling.put_off_on(&members)?;
            telling.show_round(&members, &nodes)?;
            is_one = true;
        }
    }
    Ok(is_one)
}
