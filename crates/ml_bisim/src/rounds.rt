// The rounds of a partition refinement: from classes of states by their labels to classes of bisimilar states.
//
// A round looks at the states alone from which an edge leads to a state that got a new class in the last one, and at one
// other state of each of their classes. In the first round it looks at all.
ghost use Rattle.std.specs.Prelude.{ℕ, ◌≡◌, ◌<◌, ◌≤◌, [], length, get_or, All, Contains, IfOk, OnOk};
ghost use Rattle.ml_bisim.specs.Quotient.{AreClasses};
ghost use Rattle.ml_bisim.specs.private.Signatures.{AreEdges, AreParts};
ghost use Rattle.ml_bisim.specs.private.Rounds.{AreListed, AreRenamed, AreSet, Grows, HasMembers, IsCut, IsCutOff, IsLoose, IsRefined, IsSettled, IsSplit, rows};

use crate::choice::chosen;
use crate::edges::{Edges, edges_of};
use crate::naming::{keep, names};
use crate::numbering::{Numbering, numbered};
use crate::partition::Partition;
use crate::signatures::parts;
use ml_base::NoMemory;
use ml_kripke::Structure;
use std::alloc::Global;

/// The classes of bisimilar states.
///
/// # Errors
/// `NoMemory` alone.
///
/// Cost: a round for each class at most. A round costs `n log n`, on average, in the edges of the states from which an edge
/// leads to a state that got a new class in the round before, and of one other state of each of their classes.
pub(crate) fn classes(alloc: Global, structure: &Structure) -> Result<Numbering, NoMemory>
    ensures { IfOk result (λ classes. AreClasses structure.now classes.count classes.numbers.items) }
{
    structure.keeps();
    let edges = edges_of(alloc, structure)?;
    let mut unsettled = all_states(alloc, structure)?;
    let mut partition = Partition::by_labels(alloc, structure, &unsettled)?;
    'rounds: while !unsettled.is_empty() {
        unsettled = refine(alloc, structure, &edges, &mut partition, unsettled)?;
    }
    numbered(alloc, partition.class)
}

fn all_states(alloc: Global, structure: &Structure) -> Result<Vec<u32>, NoMemory>
    ensures in_range { IfOk result (λ states. All (λ s. s < structure.now.states) states.items) }
    ensures all { IfOk result (λ states. (s : ℕ) → s < structure.now.states → Contains states.items s) }
{
    let mut states = Vec::with_capacity(alloc, structure.states() as usize)?;
    for state in 0..structure.states() {
        states.push(state)?;
    }
    Ok(states)
}

// One round. What comes back are the states that aren't settled then.
fn refine(
    alloc: Global,
    structure: &Structure,
    edges: &Edges,
    partition: &mut Partition,
    unsettled: Vec<u32>,
) -> Result<Vec<u32>, NoMemory>
    requires edges { AreEdges structure.now edges.now }
    requires refined { IsRefined structure.now partition.old unsettled.items }
    ensures refined { IfOk result (λ next. IsRefined structure.now partition.new next.items) }
    ensures grows { IfOk result (λ next. Grows partition.old.class.items partition.new.class.items next.items) }
{
    structure.keeps();
    let renamed = split(alloc, structure, edges, partition, unsettled)?;
    unsettle(alloc, structure, edges, partition, &renamed)
}

// The classes are split by the edges of their states. What comes back are the states that got a new class.
fn split(
    alloc: Global,
    structure: &Structure,
    edges: &Edges,
    partition: &mut Partition,
    unsettled: Vec<u32>,
) -> Result<Vec<u32>, NoMemory>
    requires edges { AreEdges structure.now edges.now }
    requires refined { IsRefined structure.now partition.old unsettled.items }
    ensures { IfOk result (λ renamed. IsSplit structure.now partition.old.class.items partition.new renamed.items) }
{
    let first = unsettled.len();
    let states = chosen(
        alloc,
        &mut partition.members,
        &partition.class,
        &partition.is_settled,
        unsettled,
    )?;
    cut(alloc, structure, edges, partition, &states, first)
}

// The classes of the chosen states are cut into their parts.
fn cut(
    alloc: Global,
    structure: &Structure,
    edges: &Edges,
    partition: &mut Partition,
    states: &[u32],
    first: usize,
) -> Result<Vec<u32>, NoMemory>
    requires edges { AreEdges structure.now edges.now }
    requires each_state { length partition.old.class.items ≡ structure.now.states }
    requires in_range { All (λ s. s < structure.now.states) states.now }
    requires members { HasMembers partition.old.class.items (length partition.old.class.items) (rows partition.old.members.items) }
    requires keepers { length partition.old.keeper.items ≡ length partition.old.members.items }
    requires flags { length partition.old.is_settled.items ≡ length partition.old.class.items }
    requires before { first ≤ length states.now }
    ensures { IfOk result (λ renamed. IsCut structure.now partition.old states.now first partition.new renamed.items) }
{
    let parts = parts(alloc, structure, edges, &partition.class, states)?;
    name_parts(alloc, structure, partition, states, &parts, first)
}

// The states before `first` get the names of these parts.
fn name_parts(
    alloc: Global,
    _structure: &Structure,
    partition: &mut Partition,
    states: &[u32],
    parts: &Numbering,
    first: usize,
) -> Result<Vec<u32>, NoMemory>
    requires in_range { All (λ s. s < length partition.old.class.items) states.now }
    requires members { HasMembers partition.old.class.items (length partition.old.class.items) (rows partition.old.members.items) }
    requires keepers { length partition.old.keeper.items ≡ length partition.old.members.items }
    requires flags { length partition.old.is_settled.items ≡ length partition.old.class.items }
    requires before { first ≤ length states.now }
    requires parts { AreParts _structure.now partition.old.class.items states.now parts.now.numbers.items parts.now.count }
    ensures { IfOk result (λ renamed. IsCut _structure.now partition.old states.now first partition.new renamed.items) }
{
    keep(
        alloc,
        &mut partition.keeper,
        &partition.class,
        states,
        parts,
        first,
    )?;
    let names = names(
        alloc,
        &mut partition.members,
        &mut partition.keeper,
        &partition.class,
        states,
        parts,
    )?;
    rename(alloc, partition, states, &parts.numbers, &names, first)
}

// The states before `first` get the names of their parts, and are settled. What comes back are those that had another name.
fn rename(
    alloc: Global,
    partition: &mut Partition,
    states: &[u32],
    numbers: &[usize],
    names: &[usize],
    first: usize,
) -> Result<Vec<u32>, NoMemory>
    requires in_range { All (λ s. s < length partition.old.class.items) states.now }
    requires members { HasMembers partition.old.class.items (length partition.old.class.items) (rows partition.old.members.items) }
    requires flags { length partition.old.is_settled.items ≡ length partition.old.class.items }
    requires before { first ≤ length states.now }
    requires each_state { length numbers.now ≡ length states.now }
    requires each_part { (i : ℕ) → i < length states.now → get_or numbers.now i 0 < length names.now }
    requires names { (i : ℕ) → i < length states.now → get_or names.now (get_or numbers.now i 0) 0 < length partition.old.members.items }
    requires one_part { (i j : ℕ) → i < length states.now → j < length states.now → get_or states.now i 0 ≡ get_or states.now j 0 → get_or numbers.now i 0 ≡ get_or numbers.now j 0 }
    ensures members { OnOk result (HasMembers partition.new.class.items (length partition.old.class.items) (rows partition.new.members.items)) }
    ensures each_class { OnOk result (length partition.new.members.items ≡ length partition.old.members.items) }
    ensures keepers { OnOk result (partition.new.keeper.items ≡ partition.old.keeper.items) }
    ensures flags { OnOk result (AreSet partition.old.is_settled.items states.now first partition.new.is_settled.items) }
    ensures renamed { IfOk result (λ renamed. AreRenamed partition.old.class.items states.now numbers.now names.now first (length partition.old.class.items) partition.new.class.items renamed.items) }
{
    let mut renamed = Vec::new(alloc);
    for i in 0..first {
        let state = states[i];
        let name = names[numbers[i]];
        partition.is_settled[state as usize] = true;
        if partition.class[state as usize] != name {
            partition.class[state as usize] = name;
            partition.members[name].push(state)?;
            renamed.push(state)?;
        }
    }
    Ok(renamed)
}

// The states from which an edge leads to one of those that are renamed: they are settled no more, unless they are alone in
// their classes.
fn unsettle(
    alloc: Global,
    structure: &Structure,
    edges: &Edges,
    partition: &mut Partition,
    renamed: &[u32],
) -> Result<Vec<u32>, NoMemory>
    requires edges { AreEdges structure.now edges.now }
    requires members { HasMembers partition.old.class.items structure.now.states (rows partition.old.members.items) }
    requires each_state { length partition.old.class.items ≡ structure.now.states }
    requires flags { length partition.old.is_settled.items ≡ structure.now.states }
    requires settled { (s : ℕ) → s < structure.now.states → IsSettled partition.old.is_settled.items s }
    requires in_range { All (λ s. s < structure.now.states) renamed.now }
    ensures class { OnOk result (partition.new.class ≡ partition.old.class) }
    ensures members { OnOk result (partition.new.members ≡ partition.old.members) }
    ensures keepers { OnOk result (partition.new.keeper ≡ partition.old.keeper) }
    ensures flags { OnOk result (length partition.new.is_settled.items ≡ structure.now.states) }
    ensures in_range { IfOk result (λ states. All (λ s. s < structure.now.states) states.items) }
    ensures listed { IfOk result (λ states. AreListed partition.new.is_settled.items structure.now.states states.items) }
    ensures cut_off { OnOk result ((i : ℕ) → i < length renamed.now → IsCutOff structure.now.edges partition.new.class.items structure.now.states partition.new.is_settled.items (get_or renamed.now i 0)) }
    ensures none { IfOk result (λ states. length renamed.now ≡ 0 → states.items ≡ []) }
{
    let mut unsettled = Vec::new(alloc);
    for state in renamed {
        unsettle_before(
            structure,
            edges,
            &partition.class,
            &partition.members,
            &mut partition.is_settled,
            &mut unsettled,
            *state,
        )?;
    }
    Ok(unsettled)
}

// those from which an edge leads to this state
fn unsettle_before(
    structure: &Structure,
    edges: &Edges,
    class: &[usize],
    members: &[Vec<u32>],
    is_settled: &mut [bool],
    unsettled: &mut Vec<u32>,
    state: u32,
) -> Result<(), NoMemory>
    requires edges { AreEdges structure.now edges.now }
    requires members { HasMembers class.now structure.now.states (rows members.now) }
    requires each_state { length class.now ≡ structure.now.states }
    requires flags { length is_settled.old ≡ structure.now.states }
    requires in_range { state < structure.now.states }
    requires states { All (λ s. s < structure.now.states) unsettled.old.items }
    requires listed { AreListed is_settled.old structure.now.states unsettled.old.items }
    ensures flags { length is_settled.new ≡ structure.now.states }
    ensures states { OnOk result (All (λ s. s < structure.now.states) unsettled.new.items) }
    ensures listed { OnOk result (AreListed is_settled.new structure.now.states unsettled.new.items) }
    ensures fewer { (s : ℕ) → IsSettled is_settled.new s → IsSettled is_settled.old s }
    ensures cut_off { OnOk result (IsCutOff structure.now.edges class.now structure.now.states is_settled.new state) }
{
    structure.keeps();
    let mut rest = edges.entering.last[state as usize];
    while rest > 0 {
        let place = rest - 1;
        let source = structure.edge_at(place).source;
        loosen(class, members, is_settled, unsettled, source)?;
        rest = edges.entering.before[place];
    }
    Ok(())
}

// The state is settled no more, unless it is alone in its class.
fn loosen(
    class: &[usize],
    members: &[Vec<u32>],
    is_settled: &mut [bool],
    unsettled: &mut Vec<u32>,
    state: u32,
) -> Result<(), NoMemory>
    requires members { HasMembers class.now (length class.now) (rows members.now) }
    requires flags { length is_settled.old ≡ length class.now }
    requires in_range { state < length class.now }
    requires states { All (λ s. s < length class.now) unsettled.old.items }
    requires listed { AreListed is_settled.old (length class.now) unsettled.old.items }
    ensures flags { length is_settled.new ≡ length class.now }
    ensures states { OnOk result (All (λ s. s < length class.now) unsettled.new.items) }
    ensures listed { OnOk result (AreListed is_settled.new (length class.now) unsettled.new.items) }
    ensures fewer { (s : ℕ) → IsSettled is_settled.new s → IsSettled is_settled.old s }
    ensures loose { OnOk result (IsLoose class.now (length class.now) is_settled.new state) }
{
    if !is_settled[state as usize] {
        return Ok(());
    }
    if members[class[state as usize]].len() == 1 {
        return Ok(());
    }
    is_settled[state as usize] = false;
    unsettled.push(state)?;
    Ok(())
}
