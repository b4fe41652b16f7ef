// Untils in turn, so that one set of accepting arcs is enough: a run waits for one until after the other, and accepts as
// often as it has passed them all.
use crate::automata::{Arc, Automaton, add_arc, write_signature};
use crate::sets::{Edge, MOST_SETS, Sets};
use indexmap::IndexSet;
use ml_arrays::small;
use ml_base::NoMemory;
use std::alloc::Global;

/// How many states an automaton may have that passes one until at a time.
const MOST_SLOW: usize = 200;

/// How many edges between states there may be.
const MOST_STEPS: usize = 400_000;

/// How an edge passes untils that it doesn't put off.
#[derive(Clone, Copy, PartialEq, Eq)]
pub(crate) enum Pace {
    /// All of them at once, as long as it's their turn.
    Quick,
    /// One at most: there are more states, and rounds last longer.
    Slow,
}

/// An edge between states, of which each is a set and whose turn it is.
#[derive(Clone, Copy)]
struct Step {
    yes: u32,
    no: u32,
    arc: Arc,
}

/// The states as they are found.
#[derive(Drop)]
struct Degeneralising<'a> {
    sets: &'a Sets,
    pace: Pace,
    states: IndexSet<(u32, u32)>,
    rows: Vec<Vec<Step>>,
    /// How many edges there are.
    count: usize,
    alloc: Global,
}

/// Passes an edge the until of this number?
fn passes(edge: Edge, until: u32) -> bool {
    until < 64 && edge.off >> until & 1 == 0
}

impl<'a> Degeneralising<'a> {
    fn new(alloc: Global, sets: &'a Sets, pace: Pace) -> Degeneralising<'a> {
        Degeneralising {
            sets,
            pace,
            states: IndexSet::new(alloc),
            rows: Vec::new(alloc),
            count: 0,
            alloc,
        }
    }

    /// The until whose turn it is behind an edge; their number where all are passed.
    fn behind(&self, edge: Edge, level: u32) -> u32 {
        let untils = self.sets.untils;
        match self.pace {
            Pace::Slow if level < untils && passes(edge, level) => level.saturating_add(1),
            Pace::Slow => level,
            Pace::Quick => {
                for until in level..untils {
                    if !passes(edge, until) {
                        return until;
                    }
                }
                untils
            }
        }
    }

    /// The until whose turn it is first behind an edge that accepts.
    fn again(&self, edge: Edge) -> u32 {
        match self.pace {
            Pace::Slow => 0,
            Pace::Quick => {
                let level = self.behind(edge, 0);
                if level < self.sets.untils { level } else { 0 }
            }
        }
    }

    fn step(&mut self, edge: Edge, level: u32) -> Result<Step, NoMemory> {
        let is_free = self.sets.is_free(edge.to);
        let level = self.behind(edge, level);
        // from a free set all words are accepted
        let accepting = level >= self.sets.untils || is_free;
        let level = if is_free {
            0
        } else if accepting {
            self.again(edge)
        } else {
            level
        };
        let (number, _) = self.states.insert_full((edge.to, level))?;
        Ok(Step {
            yes: edge.yes,
            no: edge.no,
            arc: Arc {
                to: small(number),
                accepting,
            },
        })
    }

    fn write_steps(&mut self, set: u32, level: u32, steps: &mut Vec<Step>) -> Result<(), NoMemory> {
        let sets = self.sets;
        let Some(edges) = sets.edges.get(set as usize) else {
            return Ok(());
        };
        for edge in edges {
            steps.push(self.step(*edge, level)?)?;
        }
        Ok(())
    }

    /// Looks at the next state, if there is one.
    fn look_at_next(&mut self) -> Result<bool, NoMemory> {
        let Some((set, level)) = self.states.as_slice().get(self.rows.len()).copied() else {
            return Ok(false);
        };
        let mut steps = Vec::new(self.alloc);
        self.write_steps(set, level, &mut steps)?;
        self.count = self.count.saturating_add(steps.len());
        self.rows.push(steps)?;
        Ok(true)
    }

    /// Finds all states; tells whether there weren't too many.
    fn find(&mut self) -> Result<bool, NoMemory> {
        let most = match self.pace {
            Pace::Quick => MOST_SETS,
            Pace::Slow => MOST_SLOW,
        };
        self.states.insert((0, 0))?;
        for _ in 0..most {
            if !self.look_at_next()? {
                return Ok(true);
            }
            if self.count > MOST_STEPS {
                return Ok(false);
            }
        }
        Ok(self.states.len() <= self.rows.len())
    }
}

/// Writes the arcs of a state under a letter.
fn write_arcs(steps: &[Step], letter: u32, arcs: &mut Vec<Arc>) -> Result<(), NoMemory> {
    for step in steps {
        if step.yes & !letter == 0 && step.no & letter == 0 {
            add_arc(arcs, step.arc)?;
        }
    }
    Ok(())
}

/// Writes the arcs of all states under a letter, and a signature of them: letters with one signature are alike.
fn write_row(
    alloc: Global,
    steps: &[Vec<Step>],
    letter: u32,
    row: &mut Vec<Vec<Arc>>,
    signature: &mut Vec<u32>,
) -> Result<(), NoMemory> {
    for list in steps {
        let mut arcs = Vec::new(alloc);
        write_arcs(list, letter, &mut arcs)?;
        write_signature(&arcs, signature)?;
        row.push(arcs)?;
    }
    Ok(())
}

/// Adds a letter, in the class of its arcs.
fn add_letter(
    alloc: Global,
    steps: &[Vec<Step>],
    letter: u32,
    classes: &mut IndexSet<Vec<u32>>,
    automaton: &mut Automaton,
) -> Result<(), NoMemory> {
    let mut row = Vec::with_capacity(alloc, steps.len())?;
    let mut signature = Vec::new(alloc);
    write_row(alloc, steps, letter, &mut row, &mut signature)?;
    let (class, is_new) = classes.insert_full(signature)?;
    automaton.class_of.push(small(class))?;
    if is_new {
        automaton.rows.push(row)?;
    }
    Ok(())
}

fn add_letters(
    alloc: Global,
    steps: &[Vec<Step>],
    letters: u32,
    automaton: &mut Automaton,
) -> Result<(), NoMemory> {
    let mut classes = IndexSet::new(alloc);
    for letter in 0..letters {
        add_letter(alloc, steps, letter, &mut classes, automaton)?;
    }
    Ok(())
}

/// The automaton of these sets over so many letters; `None` where it has too many states.
pub(crate) fn automaton_of(
    alloc: Global,
    sets: &Sets,
    letters: u32,
    pace: Pace,
) -> Result<Option<Automaton>, NoMemory> {
    let mut found = Degeneralising::new(alloc, sets, pace);
    if !found.find()? {
        return Ok(None);
    }
    let mut automaton = Automaton {
        states: found.rows.len(),
        start: 0,
        class_of: Vec::new(alloc),
        rows: Vec::new(alloc),
    };
    add_letters(alloc, &found.rows, letters, &mut automaton)?;
    Ok(Some(automaton))
}
