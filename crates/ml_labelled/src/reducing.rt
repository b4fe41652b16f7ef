// Automata made small.
ghost use Rattle.std.specs.Prelude.{◌≡◌, ◌≤◌, length, IfOk};
ghost use Rattle.ml_labelled.specs.Labelled.{AcceptSame, AreReached, IsLabelled};

use crate::labelled::LabelledAutomaton;
use crate::merging::merged;
use crate::reaching::reached_part;
use crate::replacing::replaced;
use crate::simulation::{Simulated, simulated_rows};
use crate::trimming::trimmed;
use ml_base::NoMemory;
use std::alloc::Global;

// how many states and edges there are: nothing rests on it
fn size_of(automaton: &LabelledAutomaton) -> usize {
    let mut size = automaton.edges().len();
    for row in automaton.edges() {
        size = size.saturating_add(row.len());
    }
    size
}

// edges are left out and flags changed, states with the same edges are one, and what isn't reached goes
fn reduced_once(
    alloc: Global,
    automaton: LabelledAutomaton,
    comparisons: u64,
) -> Result<LabelledAutomaton, NoMemory>
    ensures labelled { IfOk result IsLabelled }
    ensures same { IfOk result (λ b. AcceptSame automaton b) }
    ensures props { IfOk result (λ b. b.props ≡ automaton.props) }
    ensures reached { IfOk result AreReached }
    ensures few { IfOk result (λ b. length b.edges ≤ length automaton.edges) }
{
    let trimmed = trimmed(alloc, automaton, comparisons)?;
    let merged = merged(alloc, trimmed)?;
    reached_part(alloc, merged)
}

// each of these again and again, until nothing becomes less
fn settled(
    alloc: Global,
    automaton: LabelledAutomaton,
    comparisons: u64,
) -> Result<LabelledAutomaton, NoMemory>
    ensures labelled { IfOk result IsLabelled }
    ensures same { IfOk result (λ b. AcceptSame automaton b) }
    ensures props { IfOk result (λ b. b.props ≡ automaton.props) }
    ensures reached { IfOk result AreReached }
    ensures few { IfOk result (λ b. length b.edges ≤ length automaton.edges) }
{
    let mut small = reduced_once(alloc, automaton, comparisons)?;
    let mut size = usize::MAX;
    let mut next = size_of(&small);
    while next < size {
        size = next;
        small = reduced_once(alloc, small, comparisons)?;
        next = size_of(&small);
    }
    Ok(small)
}

// with the edges that direct simulation finds in so many comparisons, if they are seen to do
fn simulated(
    alloc: Global,
    automaton: LabelledAutomaton,
    comparisons: u64,
) -> Result<LabelledAutomaton, NoMemory>
    ensures same { IfOk result (λ b. AcceptSame automaton b) }
    ensures props { IfOk result (λ b. b.props ≡ automaton.props) }
    ensures few { IfOk result (λ b. length b.edges ≤ length automaton.edges) }
{
    match simulated_rows(alloc, automaton.edges(), comparisons)? {
        Some(found) => {
            let Simulated { rows, ranks } = found;
            Ok(replaced(automaton, rows, &ranks, &ranks))
        }
        None => Ok(automaton),
    }
}

fn simulated_once(
    alloc: Global,
    automaton: LabelledAutomaton,
    limit: u32,
) -> Result<LabelledAutomaton, NoMemory>
    ensures labelled { IfOk result IsLabelled }
    ensures same { IfOk result (λ b. AcceptSame automaton b) }
    ensures props { IfOk result (λ b. b.props ≡ automaton.props) }
    ensures reached { IfOk result AreReached }
    ensures few { IfOk result (λ b. length b.edges ≤ length automaton.edges) }
{
    let simulated = simulated(alloc, automaton, by_targets(limit))?;
    settled(alloc, simulated, by_signs(limit))
}

// how many edges may be compared for each place that a limit allows: by their signs, and by their cubes and targets
const BY_SIGNS: u64 = 4_000;

const BY_TARGETS: u64 = 200;

fn by_signs(limit: u32) -> u64 {
    u64::from(limit).saturating_mul(BY_SIGNS)
}

pub(crate) fn by_targets(limit: u32) -> u64 {
    u64::from(limit).saturating_mul(BY_TARGETS)
}

/// An automaton that accepts the same words, each state reached, made small: without edges that others cover, and those into
/// states from which nothing is accepted; all flags set among states where each loop accepts, and on an edge that lies on no
/// loop the flag of the states to which it leads; states with the same edges one. Each of these again and again, until nothing
/// becomes less. Then states that simulate each other are one, and edges go that others of their state beat, as far as `limit`
/// allows to look for them; and all of this again, until nothing becomes less.
///
/// # Errors
/// `NoMemory` alone.
///
/// Cost: for each time that something becomes less, that of sorting the edges of each state, and of comparisons of edges: with
/// those of the same state, to find which states simulate which, and to see that it is so. The first are given up behind four
/// thousand times `limit` of them, the second behind two hundred times.
///
/// Source: Etessami and Holzmann (2000); Somenzi and Bloem (2000).
pub fn reduced(
    alloc: Global,
    automaton: LabelledAutomaton,
    limit: u32,
) -> Result<LabelledAutomaton, NoMemory>
    ensures labelled { IfOk result IsLabelled }
    ensures same { IfOk result (λ b. AcceptSame automaton b) }
    ensures props { IfOk result (λ b. b.props ≡ automaton.props) }
    ensures reached { IfOk result AreReached }
    ensures few { IfOk result (λ b. length b.edges ≤ length automaton.edges) }
{
    let mut small = settled(alloc, automaton, by_signs(limit))?;
    let mut size = usize::MAX;
    let mut next = size_of(&small);
    while next < size {
        size = next;
        small = simulated_once(alloc, small, limit)?;
        next = size_of(&small);
    }
    Ok(small)
}
