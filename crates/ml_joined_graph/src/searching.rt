// The searches that learn, one after the other, in the joined graph.
ghost use Rattle.std.specs.Prelude.{length, IfOk};
ghost use Rattle.ml_joined_graph.specs.Findings.{IsFindingOf};

use crate::conjunct::Conjunct;
use crate::finding::JoinedFinding;
use crate::joining::{Joined, put_together};
use crate::needs::flag_needed;
use ml_base::NoMemory;
use ml_candidates::Candidate;
use ml_graph::ModalGraph;
use ml_refutation::{Entry, Lists};
use ml_search_cores::steps_of;
use ml_search_focus::{Sought, seek as seek_by_focus};
use std::alloc::Global;

/// What is found where threads are weak, and else in copies.
fn by_focus(alloc: Global, graph: &ModalGraph, limit: u32) -> Result<Option<Candidate>, NoMemory> {
    let trial = seek_by_focus(alloc, graph, steps_of(limit))?;
    match trial.sought {
        Sought::Found(candidate) => Ok(Some(candidate)),
        Sought::NotWeak => ml_search_copies::candidate(alloc, graph, None, limit),
        Sought::Splits(n) => ml_search_copies::candidate(alloc, graph, Some(n), limit),
        Sought::GaveUp => Ok(None),
    }
}

fn candidate(alloc: Global, graph: &ModalGraph, limit: u32) -> Result<Option<Candidate>, NoMemory> {
    match ml_search_frames::candidate(alloc, graph, limit)? {
        Some(candidate) => Ok(Some(candidate)),
        None => by_focus(alloc, graph, limit),
    }
}

/// The conjuncts that a refutation needs.
fn clash(
    alloc: Global,
    joined: &Joined,
    count: usize,
    limit: u32,
    sequents: &Lists,
    entries: &[Entry],
) -> Result<JoinedFinding, NoMemory>
    ensures { IfOk result (IsFindingOf count) }
{
    let mut flags = vec![in alloc; false; count]?;
    flag_needed(
        alloc,
        joined,
        sequents,
        entries,
        steps_of(limit),
        &mut flags,
    )?;
    Ok(JoinedFinding::Clash(flags))
}

/// Searches for a structure with a state at which all conjuncts hold, which are of one logic, or for some of them that have
/// none. Nothing is claimed of what it finds, but that a clash tells of each conjunct whether it is one of them. For formulas
/// of LTL a structure is a word: each state has one edge.
///
/// # Errors
/// `NoMemory` alone.
///
/// Cost: that of the conjuncts' graphs, and at most a fixed multiple of the limit in steps of the solver.
pub fn search(alloc: Global, conjuncts: &[Conjunct], limit: u32) -> Result<JoinedFinding, NoMemory>
    ensures { IfOk result (IsFindingOf (length conjuncts.now)) }
{
    let Some(joined) = put_together(alloc, conjuncts)? else {
        return Ok(JoinedFinding::Nothing);
    };
    match candidate(alloc, &joined.graph, limit)? {
        Some(Candidate::Model(model)) => Ok(JoinedFinding::Structure(model)),
        Some(
            Candidate::Refutation {
                sequents,
                entries,
                ..
            },
        ) => clash(alloc, &joined, conjuncts.len(), limit, &sequents, &entries),
        None => Ok(JoinedFinding::Nothing),
    }
}
