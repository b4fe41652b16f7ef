// Which entries of a refutation are one step of its argument.
//
// An entry is a sequent with a history, and a sequent stands in many entries. Two entries are one step if they ask for the
// same, whatever else is known of their traces, and go on alike: their sequents come to nodes that say the same where
// conjunctions and unfoldings are taken apart, their decisions split at such nodes and end in the same clashes, and where the
// one goes on along a diamond, so does the other, to an entry that is the same step again. So each way through the steps is one
// through the entries, and what is said of all ways through these holds of the ways through the steps.
use crate::sayings::Nodes;
use ml_arrays::{
    Components, Digraph, NONE, NumberSet, Numbering, ascend, more_numbers, number, put, small,
};
use ml_base::NoMemory;
use ml_graph::{ModalGraph, Node};
use ml_refutation::{Decision, Refutation};
use ml_sequent::ClashCause;
use std::alloc::Global;

// how often steps are told apart by those to which they lead, before each entry is taken for a step of its own
const ROUNDS: usize = 64;

#[derive(Drop)]
pub(crate) struct Steps {
    // the step of each entry
    pub of: Vec<u32>,
    // the first entry of each step
    pub entries: Vec<u32>,
    // the first step with the formulas of each step
    pub alike: Vec<u32>,
    // what each node says, as a number
    pub said: Vec<u32>,
    // where the steps lead
    pub graph: Digraph,
    pub components: Components,
}

// What each node says, as a number: blocks with the same items say the same, whatever eventuality is in focus, and so do the
// literals of one proposition.
fn said_by(alloc: Global, nodes: &Nodes<'_, '_>) -> Result<Vec<u32>, NoMemory> {
    let mut rows = Vec::new(alloc);
    for node in 0..small(nodes.graph.nodes().len()) {
        let mut row = nodes.numbers(alloc, node)?;
        row.push(node)?;
        rows.push(row)?;
    }
    let mut said = Vec::new(alloc);
    more_numbers(&mut said, rows.len(), NONE)?;
    classify(&mut rows, &mut said);
    Ok(said)
}

// What the nodes say that a sequent comes to where its conjunctions are taken apart, ascending, with their number before them
// and the sequent's place behind them.
fn parts(
    alloc: Global,
    graph: &ModalGraph,
    said: &[u32],
    met: &mut NumberSet,
    sequent: &[u32],
    place: u32,
) -> Result<Vec<u32>, NoMemory> {
    let mut open = Vec::new(alloc);
    open.extend_from_slice(sequent)?;
    let mut parts = Vec::new(alloc);
    met.clear();
    for _ in 0..u64::MAX {
        let Some(node) = open.pop() else {
            break;
        };
        match graph.nodes().get(node as usize) {
            Some(Node::And { left, right }) => {
                if met.insert(node)? {
                    open.push(*left)?;
                    open.push(*right)?;
                }
            }
            Some(_) | None => parts.push(number(said, node))?,
        }
    }
    ascend(&mut parts);
    let mut row = Vec::new(alloc);
    row.push(small(parts.len()))?;
    row.extend_from_slice(&parts)?;
    row.push(place)?;
    Ok(row)
}

// Gives rows that differ at most in their last number one class, which is written at the place that this number tells; tells
// how many classes there are.
fn classify(rows: &mut Vec<Vec<u32>>, classes: &mut [u32]) -> u32 {
    rows.sort_unstable();
    let mut count: u32 = 0;
    let mut before: &[u32] = &[];
    for row in rows.iter() {
        if let Some((place, says)) = row.split_last() {
            if says != before {
                count = count.saturating_add(1);
                before = says;
            }
            put(classes, *place, count);
        }
    }
    count
}

// the class of each sequent
fn sequent_classes(
    alloc: Global,
    graph: &ModalGraph,
    said: &[u32],
    refutation: &Refutation,
) -> Result<Vec<u32>, NoMemory> {
    let mut met = NumberSet::empty(alloc);
    let mut rows = Vec::new(alloc);
    for place in 0..refutation.sequents.len() {
        let sequent = refutation.sequents.at(place);
        rows.push(parts(alloc, graph, said, &mut met, sequent, small(place))?)?;
    }
    let mut classes = Vec::new(alloc);
    more_numbers(&mut classes, rows.len(), NONE)?;
    classify(&mut rows, &mut classes);
    Ok(classes)
}

fn write_cause(row: &mut Vec<u32>, said: &[u32], cause: ClashCause) -> Result<(), NoMemory> {
    match cause {
        ClashCause::False(node) => {
            row.push(1)?;
            row.push(number(said, node))?;
        }
        ClashCause::Pair(positive, negative) => {
            row.push(2)?;
            row.push(number(said, positive))?;
            row.push(number(said, negative))?;
        }
        ClashCause::Cycle(node) => {
            row.push(3)?;
            row.push(number(said, node))?;
        }
    }
    Ok(())
}

// writes a decision, with classes in place of entries
fn write_decision(
    row: &mut Vec<u32>,
    said: &[u32],
    classes: &[u32],
    decision: &Decision,
) -> Result<(), NoMemory> {
    match decision {
        Decision::Clash(cause) => write_cause(row, said, *cause),
        Decision::Go { diamond, entry, .. } => {
            row.push(4)?;
            row.push(number(said, *diamond))?;
            row.push(number(classes, *entry))?;
            Ok(())
        }
        Decision::Split { node, left, right } => {
            row.push(5)?;
            row.push(number(said, *node))?;
            write_decision(row, said, classes, left)?;
            write_decision(row, said, classes, right)
        }
    }
}

// what an entry is told apart by: its class, its decision, and its place
fn row_of(
    alloc: Global,
    said: &[u32],
    classes: &[u32],
    decision: &Decision,
    place: u32,
) -> Result<Vec<u32>, NoMemory> {
    let mut row = Vec::new(alloc);
    row.push(number(classes, place))?;
    write_decision(&mut row, said, classes, decision)?;
    row.push(place)?;
    Ok(row)
}

// tells classes of entries apart once more, by where they lead; tells how many there are
fn part(
    alloc: Global,
    said: &[u32],
    refutation: &Refutation,
    classes: &mut Vec<u32>,
) -> Result<u32, NoMemory> {
    let mut rows = Vec::new(alloc);
    for (place, entry) in refutation.entries.iter().enumerate() {
        rows.push(row_of(alloc, said, classes, &entry.decision, small(place))?)?;
    }
    Ok(classify(&mut rows, classes))
}

// the class of each entry: entries of one class are one step
fn entry_classes(
    alloc: Global,
    said: &[u32],
    refutation: &Refutation,
    sequents: &[u32],
) -> Result<Vec<u32>, NoMemory> {
    let mut classes = Vec::new(alloc);
    for entry in &refutation.entries {
        classes.push(number(sequents, small(entry.sequent)))?;
    }
    let mut count: u32 = 0;
    for _ in 0..ROUNDS {
        let more = part(alloc, said, refutation, &mut classes)?;
        if more == count {
            return Ok(classes);
        }
        count = more;
    }
    for (place, class) in classes.iter_mut().enumerate() {
        *class = small(place);
    }
    Ok(classes)
}

fn add_targets(graph: &mut Digraph, of: &[u32], decision: &Decision) -> Result<(), NoMemory> {
    match decision {
        Decision::Clash(_) => Ok(()),
        Decision::Go { entry, .. } => graph.push_target(number(of, *entry)),
        Decision::Split { left, right, .. } => {
            add_targets(graph, of, left)?;
            add_targets(graph, of, right)
        }
    }
}

// where the steps lead
fn graph_of(
    alloc: Global,
    refutation: &Refutation,
    of: &[u32],
    entries: &[u32],
) -> Result<Digraph, NoMemory> {
    let mut graph = Digraph::empty(alloc);
    for place in entries {
        if let Some(entry) = refutation.entries.get(*place as usize) {
            add_targets(&mut graph, of, &entry.decision)?;
        }
        graph.end_node()?;
    }
    Ok(graph)
}

// the first step with the formulas of each step
fn first_alike(
    alloc: Global,
    refutation: &Refutation,
    sequents: &[u32],
    entries: &[u32],
) -> Result<Vec<u32>, NoMemory> {
    let mut firsts = Vec::new(alloc);
    more_numbers(&mut firsts, sequents.len().saturating_add(1), NONE)?;
    let mut alike = Vec::new(alloc);
    for (step, place) in entries.iter().enumerate() {
        let class = match refutation.entries.get(*place as usize) {
            Some(entry) => number(sequents, small(entry.sequent)),
            None => NONE,
        };
        if number(&firsts, class) == NONE {
            put(&mut firsts, class, small(step));
        }
        alike.push(number(&firsts, class).min(small(step)))?;
    }
    Ok(alike)
}

// the numbers of the steps, in the order of their first entries
fn numbered(alloc: Global, classes: &[u32]) -> Result<(Vec<u32>, Vec<u32>), NoMemory> {
    let mut numbering = Numbering::empty(alloc);
    numbering.make_room(classes.len().saturating_add(1))?;
    let mut of: Vec<u32> = Vec::new(alloc);
    let mut entries: Vec<u32> = Vec::new(alloc);
    for (place, class) in classes.iter().enumerate() {
        let step = numbering.number(*class)?;
        of.push(step)?;
        if step as usize >= entries.len() {
            entries.push(small(place))?;
        }
    }
    Ok((of, entries))
}

impl Steps {
    // The steps of a refutation of a graph, whose nodes say this.
    pub(crate) fn of(
        alloc: Global,
        nodes: &Nodes<'_, '_>,
        refutation: &Refutation,
    ) -> Result<Steps, NoMemory> {
        let said = said_by(alloc, nodes)?;
        let sequents = sequent_classes(alloc, nodes.graph, &said, refutation)?;
        let classes = entry_classes(alloc, &said, refutation, &sequents)?;
        let (of, entries) = numbered(alloc, &classes)?;
        let alike = first_alike(alloc, refutation, &sequents, &entries)?;
        let graph = graph_of(alloc, refutation, &of, &entries)?;
        let components = Components::of_graph(alloc, &graph)?;
        Ok(Steps {
            of,
            entries,
            alike,
            said,
            graph,
            components,
        })
    }

    // do both steps lie on one round?
    pub(crate) fn lie_on_round(&self, step: u32, other: u32) -> bool {
        let component = number(&self.components.of, step);
        component != NONE && component == number(&self.components.of, other)
    }
}
