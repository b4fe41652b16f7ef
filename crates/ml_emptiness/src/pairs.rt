// The pairs of a state of the system and one of the automaton that are reached together, with their joint moves.
ghost use Rattle.std.specs.Prelude.{◌≡◌, ◌+◌, IfOk, OnOk, length, Some};
ghost use Rattle.std.specs.List.{slice_get};
ghost use Rattle.ml_emptiness.specs.Systems.{IsSystem, moves_of, table_of};
ghost use Rattle.ml_emptiness.specs.private.Found.{AreFound, AreJoined, IsBegun, IsJoined, IsNumbered, IsPartlyFound};
ghost use Rattle.ml_emptiness.specs.private.Pairs.{AreJoint};

use crate::leaving::BySource;
use crate::systems::Move;
use indexmap::IndexSet;
use ml_base::NoMemory;
use ml_parity::Arc;
use ml_trace::Transition;
use std::alloc::Global;

/// A state of the system, and one of the automaton.
#[derive(Clone, Copy, PartialEq, Eq, Hash)]
pub(crate) struct Pair {
    pub(crate) state: u32,
    pub(crate) at: u32,
}

/// Whence a pair was met first: the number of the pair, and the letter.
#[derive(Clone, Copy)]
pub(crate) struct Origin {
    pub(crate) from: usize,
    pub(crate) letter: u32,
}

/// Pairs, numbered as they are met; the arcs between them; and of each pair whence it was met first.
#[derive(Drop)]
pub(crate) struct Pairs {
    pub(crate) pairs: IndexSet<Pair>,
    pub(crate) arcs: Vec<Arc>,
    pub(crate) origins: Vec<Origin>,
}

/// What moves together: the system, and the automaton's letters by their sources.
#[derive(Clone, Copy)]
pub(crate) struct Both<'a> {
    pub(crate) system: &'a [Vec<Move>],
    pub(crate) letters: &'a [BySource],
}

// the start alone
fn begun(alloc: Global) -> Result<Pairs, NoMemory>
    ensures { IfOk result IsBegun }
{
    let mut pairs = IndexSet::new(alloc);
    pairs.insert(Pair { state: 0, at: 0 })?;
    let origins = vec![in alloc; Origin { from: 0, letter: 0 }]?;
    Ok(Pairs {
        pairs,
        arcs: Vec::new(alloc),
        origins,
    })
}

// the number of a pair, and whether it is new
fn number(pairs: &mut IndexSet<Pair>, pair: Pair) -> Result<(usize, bool), NoMemory>
    ensures { IfOk result (λ r. IsNumbered pairs.old.keys pair pairs.new.keys r.0 r.1) }
{
    Ok(pairs.insert_full(pair)?)
}

// the arc along a move of the system from the pair number k, and a transition of the automaton
fn join(found: &mut Pairs, k: usize, step: Move, transition: Transition) -> Result<(), NoMemory>
    ensures { OnOk result (IsJoined k step transition found.old found.new) }
{
    let pair = Pair {
        state: step.to,
        at: transition.to,
    };
    let (to, is_new) = number(&mut found.pairs, pair)?;
    if is_new {
        let letter = step.letter;
        found.origins.push(Origin { from: k, letter })?;
    }
    let priority = if transition.accepting { 0 } else { 1 };
    found.arcs.push(Arc {
        from: k as u64,
        priority,
        to: to as u64,
    })?;
    Ok(())
}

// those along a move and each of these transitions
fn join_all(
    found: &mut Pairs,
    _both: &Both,
    k: usize,
    _pair: Pair,
    step: Move,
    transitions: &[Transition],
) -> Result<(), NoMemory>
    requires partly { IsPartlyFound _both.now.letters.now (table_of _both.now.system.now) found.old k }
    requires pair { slice_get found.old.pairs.keys k ≡ Some _pair }
    requires joint { AreJoint _both.now.letters.now (table_of _both.now.system.now) _pair step transitions.now }
    ensures partly { OnOk result (IsPartlyFound _both.now.letters.now (table_of _both.now.system.now) found.new k) }
    ensures joined { OnOk result (AreJoined k step transitions.now found.old found.new) }
{
    for transition in transitions {
        join(found, k, step, *transition)?;
    }
    Ok(())
}

// those along all moves of the pair number k
fn leave(found: &mut Pairs, both: &Both, k: usize, pair: Pair) -> Result<(), NoMemory>
    requires system { IsSystem (length both.now.letters.now) (table_of both.now.system.now) }
    requires partly { IsPartlyFound both.now.letters.now (table_of both.now.system.now) found.old k }
    requires pair { slice_get found.old.pairs.keys k ≡ Some pair }
    ensures { OnOk result (IsPartlyFound both.now.letters.now (table_of both.now.system.now) found.new (k + 1)) }
{
    for step in &both.system[pair.state as usize] {
        let transitions = both.letters[step.letter as usize].leaving(pair.at);
        join_all(found, both, k, pair, *step, transitions)?;
    }
    Ok(())
}

// leaves each pair, also those that are met meanwhile
fn leave_all(found: &mut Pairs, both: &Both) -> Result<(), NoMemory>
    requires system { IsSystem (length both.now.letters.now) (table_of both.now.system.now) }
    requires begun { IsPartlyFound both.now.letters.now (table_of both.now.system.now) found.old 0 }
    ensures { OnOk result (AreFound both.now.letters.now (table_of both.now.system.now) found.new) }
{
    for k in 0..usize::MAX {
        match found.pairs.get_index(k).copied() {
            Some(pair) => leave(found, both, k, pair)?,
            None => return Ok(()),
        }
    }
    Err(NoMemory)
}

/// The pairs that are reached from the start, with all their arcs.
pub(crate) fn reached_pairs(alloc: Global, both: &Both) -> Result<Pairs, NoMemory>
    requires { IsSystem (length both.now.letters.now) (table_of both.now.system.now) }
    ensures { IfOk result (AreFound both.now.letters.now (table_of both.now.system.now)) }
{
    let mut found = begun(alloc)?;
    leave_all(&mut found, both)?;
    Ok(found)
}
