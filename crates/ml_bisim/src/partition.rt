// Partitions of the states of a structure, with what a round of a refinement takes.
ghost use Rattle.std.specs.Prelude.{ℕ, ◌≡◌, ◌<◌, [], length, map, replicate, All, Contains, IfOk};
ghost use Rattle.ml_lists.specs.InTurn.{RunsOn};
ghost use Rattle.ml_bisim.specs.private.Rounds.{HasMembers, IsPartition, IsRefined, rows};

use crate::numbering::{Numbering, numbered};
use ml_base::{Name, NoMemory};
use ml_kripke::Structure;
use std::alloc::Global;

/// A partition of the states of a structure. The numbers of its classes are any different ones.
#[derive(Drop)]
pub(crate) struct Partition {
    /// The class of each state.
    pub class: Vec<usize>,
    /// Of each class its states, and states that were in it before.
    pub members: Vec<Vec<u32>>,
    /// Which part of a class kept its number in the last round that cut it.
    pub keeper: Vec<usize>,
    /// Is the state settled? Settled states of one class match each other's edges.
    pub is_settled: Vec<bool>,
}

impl Partition {
    /// The states by their labels alone. None is settled.
    ///
    /// # Errors
    /// `NoMemory` alone.
    ///
    /// Cost: linear in the states and the labels, on average.
    pub fn by_labels(
        alloc: Global,
        structure: &Structure,
        states: &[u32],
    ) -> Result<Partition, NoMemory>
        requires in_range { All (λ s. s < structure.now.states) states.now }
        requires all { (s : ℕ) → s < structure.now.states → Contains states.now s }
        ensures { IfOk result (λ p. IsRefined structure.now p states.now) }
    {
        let states = structure.states();
        let labels = by_labels(alloc, structure)?;
        let members = members(alloc, states, &labels.numbers, labels.count)?;
        Ok(Partition {
            class: labels.numbers,
            members,
            keeper: vec![in alloc; 0; labels.count]?,
            is_settled: vec![in alloc; false; states as usize]?,
        })
    }
}

// states by their labels alone
fn by_labels(alloc: Global, structure: &Structure) -> Result<Numbering, NoMemory>
    ensures part { IfOk result (λ n. IsPartition structure.now n.numbers.items) }
    ensures in_turn { IfOk result (λ n. RunsOn 0 n.numbers.items n.count) }
{
    structure.keeps();
    let rows = label_rows(alloc, structure)?;
    numbered(alloc, rows)
}

// the labels of each state
fn label_rows(alloc: Global, structure: &Structure) -> Result<Vec<Vec<Name>>, NoMemory>
    ensures { IfOk result (λ rows. map (λ row. row.items) rows.items ≡ structure.now.labels) }
{
    let mut rows = Vec::with_capacity(alloc, structure.states() as usize)?;
    for state in 0..structure.states() {
        rows.push(copied(alloc, structure.labels_of(state))?)?;
    }
    Ok(rows)
}

fn copied(alloc: Global, names: &[Name]) -> Result<Vec<Name>, NoMemory>
    ensures { IfOk result (λ copy. copy.items ≡ names.now) }
{
    let mut copy = Vec::with_capacity(alloc, names.len())?;
    for name in names {
        copy.push(name.copy()?)?;
    }
    Ok(copy)
}

// the states of each class
fn members(
    alloc: Global,
    states: u32,
    class: &[usize],
    count: usize,
) -> Result<Vec<Vec<u32>>, NoMemory>
    requires each_state { length class.now ≡ states }
    requires in_range { All (λ c. c < count) class.now }
    ensures has { IfOk result (λ members. HasMembers class.now states (rows members.items)) }
    ensures each_class { IfOk result (λ members. length members.items ≡ count) }
{
    let mut members = no_members(alloc, count)?;
    for state in 0..states {
        members[class[state as usize]].push(state)?;
    }
    Ok(members)
}

fn no_members(alloc: Global, count: usize) -> Result<Vec<Vec<u32>>, NoMemory>
    ensures { IfOk result (λ members. rows members.items ≡ replicate count []) }
{
    let mut members = Vec::with_capacity(alloc, count)?;
    for _ in 0..count {
        members.push(Vec::new(alloc))?;
    }
    Ok(members)
}
