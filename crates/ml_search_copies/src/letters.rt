// How threads go on from one class to another.
use crate::classes::{Class, Classes, Leaf, Trace};
use crate::naming::Letter;
use crate::regions::Regions;
use ml_arrays::NONE;
use ml_base::NoMemory;
use ml_trace::Transition;
use std::alloc::Global;

/// Is a node with the odd priority at a place followed in a class? All of counted components are, and the thread in focus.
fn is_followed(regions: &Regions, class: &Class, n: u32, place: usize) -> bool {
    regions.is_counted(place, n)
        || (class.thread != NONE && class.thread == regions.state(n, place))
}

/// Writes the states that are followed in a class, ascending.
pub(crate) fn write_states(
    regions: &Regions,
    class: &Class,
    states: &mut Vec<u32>,
) -> Result<(), NoMemory> {
    for n in &class.sequent {
        for place in 0..regions.odds.len() {
            if is_followed(regions, class, *n, place) {
                states.push(regions.state(*n, place))?;
            }
        }
    }
    Ok(())
}

/// Adds how threads go on along a trace.
fn push_moves(
    regions: &Regions,
    from: &Class,
    to: &Class,
    trace: Trace,
    moves: &mut Vec<Transition>,
) -> Result<(), NoMemory> {
    for (place, odd) in regions.odds.iter().enumerate() {
        let component = regions.of(place, trace.to);
        if component != 0
            && *odd <= trace.lowest
            && regions.of(place, trace.from) == component
            && is_followed(regions, from, trace.from, place)
            && is_followed(regions, to, trace.to, place)
        {
            moves.push(Transition {
                from: regions.state(trace.from, place),
                to: regions.state(trace.to, place),
                accepting: *odd == trace.lowest,
            })?;
        }
    }
    Ok(())
}

/// How threads go on along traces from one class to another.
fn letter_between(
    alloc: Global,
    regions: &Regions,
    from: &Class,
    to: &Class,
    traces: &[Trace],
) -> Result<Letter, NoMemory> {
    let mut letter = Letter {
        moves: Vec::new(alloc),
        states: Vec::new(alloc),
    };
    for trace in traces {
        if to.sequent.binary_search(&trace.to).is_ok() {
            push_moves(regions, from, to, *trace, &mut letter.moves)?;
        }
    }
    write_states(regions, to, &mut letter.states)?;
    Ok(letter)
}

/// Makes the letter of a leaf's way at a place, where it isn't made; tells how many traces were looked at.
fn make(
    alloc: Global,
    regions: &Regions,
    all: &[Class],
    from: &Class,
    leaf: &mut Leaf,
    place: usize,
) -> Result<usize, NoMemory> {
    let Leaf { traces, ways, .. } = leaf;
    let Some(way) = ways.get_mut(place) else {
        return Ok(0);
    };
    if way.letter.is_some() {
        return Ok(1);
    }
    if let Some(to) = all.get(way.to as usize) {
        way.letter = Some(letter_between(alloc, regions, from, to, traces)?);
    }
    Ok(traces.len())
}

impl Classes {
    /// Makes the letters of a leaf of a class; tells how many traces were looked at.
    pub(crate) fn make_letters(
        &mut self,
        alloc: Global,
        regions: &Regions,
        class: u32,
        leaf: u32,
    ) -> Result<usize, NoMemory> {
        let mut looked: usize = 0;
        let (Some(from), Some(leaf)) = (
            self.all.get(class as usize),
            self.leaves.get_mut(leaf as usize),
        ) else {
            return Ok(0);
        };
        for place in 0..leaf.ways.len() {
            let more = make(alloc, regions, &self.all, from, leaf, place)?;
            looked = looked.saturating_add(more);
        }
        Ok(looked)
    }
}
