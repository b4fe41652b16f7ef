// Lassos of systems with their letters, and how one is read off a cycle of pairs.
ghost use Rattle.std.specs.Prelude.{◌≡◌, ◌++◌, ◌<◌, ℕ, Bool, Some, IfOk, OnOk, IsTrue, MatchOption, ◌↔◌, length, [], ◌∷◌, reverse};
ghost use Rattle.std.specs.Prelude.{Contains};
ghost use Rattle.ml_lists.specs.Member.{IsMember};
ghost use Rattle.ml_parity.specs.declared.one_sided.graph.Arc.{Arc};
ghost use Rattle.ml_parity.specs.OneSided.{IsEvenCycle};
ghost use Rattle.ml_trace.specs.Run.{in_letter};
ghost use Rattle.ml_emptiness.specs.Emptiness.{IsFound};
ghost use Rattle.ml_emptiness.specs.Systems.{IsSystem, moves_of, table_of};
ghost use Rattle.ml_emptiness.specs.private.Pairs.{AreMet, AreStepped, IsJoint, IsStepped, IsWayBetween, Joins};
ghost use Rattle.std.specs.List.{list_any};
ghost use Rattle.ml_emptiness.specs.private.Leaving as leaving;
ghost use Rattle.ml_emptiness.specs.private.Trails.{IsLassoOf, IsLonger};

use crate::leaving::BySource;
use crate::pairs::{Both, Origin, Pair};
use ml_base::NoMemory;
use ml_parity::{Arc, OneSided};
use ml_trace::Transition;
use std::alloc::Global;

/// A lasso of a system with a word along it.
#[derive(Drop)]
pub struct SystemLasso {
    /// The states, from 0 on; from the last one a move leads back to that at the loop start.
    pub states: Vec<u32>,
    /// The letter of the move from each of them.
    pub letters: Vec<u32>,
    /// The place of the state to which the last move leads.
    pub loop_start: usize,
}

/// States with the letters by which they are left.
#[derive(Drop)]
pub(crate) struct Trail {
    pub(crate) states: Vec<u32>,
    pub(crate) letters: Vec<u32>,
}

// none yet
fn no_trail(alloc: Global) -> Trail
    ensures states { result.states.items ≡ [] }
    ensures letters { result.letters.items ≡ [] }
{
    Trail {
        states: Vec::new(alloc),
        letters: Vec::new(alloc),
    }
}

// one step more
fn add_step(trail: &mut Trail, state: u32, letter: u32) -> Result<(), NoMemory>
    ensures { OnOk result (IsLonger trail.old state letter trail.new) }
{
    trail.states.push(state)?;
    trail.letters.push(letter)?;
    Ok(())
}

// the way from the start to a pair, backwards
fn go_back(
    _both: &Both,
    pairs: &[Pair],
    origins: &[Origin],
    to: usize,
    trail: &mut Trail,
) -> Result<(), NoMemory>
    requires met { AreMet _both.now.letters.now (table_of _both.now.system.now) pairs.now origins.now }
    requires pair { to < length pairs.now }
    requires states { trail.old.states.items ≡ [] }
    requires letters { trail.old.letters.items ≡ [] }
    ensures { OnOk result (IsWayBetween _both.now.letters.now (table_of _both.now.system.now) pairs.now 0
        (reverse trail.new.states.items) (reverse trail.new.letters.items) to) }
{
    let mut at = to;
    while at > 0 {
        let Origin { from, letter } = origins[at];
        add_step(trail, pairs[from].state, letter)?;
        at = from;
    }
    Ok(())
}

// the way from the start to a pair
fn stem(
    alloc: Global,
    both: &Both,
    pairs: &[Pair],
    origins: &[Origin],
    to: usize,
) -> Result<Trail, NoMemory>
    requires met { AreMet both.now.letters.now (table_of both.now.system.now) pairs.now origins.now }
    requires pair { to < length pairs.now }
    ensures { IfOk result (λ trail. IsWayBetween both.now.letters.now (table_of both.now.system.now) pairs.now 0
        trail.states.items trail.letters.items to) }
{
    let mut trail = no_trail(alloc);
    go_back(both, pairs, origins, to, &mut trail)?;
    trail.states.reverse();
    trail.letters.reverse();
    Ok(trail)
}

// does the transition lead there, accepting or not?
fn is_to(transition: Transition, to: u32, accepting: bool) -> bool
    ensures { result ≡ leaving.is_to to accepting transition }
{
    if accepting {
        transition.to == to && transition.accepting
    } else {
        transition.to == to && !transition.accepting
    }
}

// does one of the transitions?
fn some_is_to(transitions: &[Transition], to: u32, accepting: bool) -> bool
    ensures { result ≡ list_any (leaving.is_to to accepting) transitions.now }
{
    transitions.iter().any(|t| is_to(*t, to, accepting))
}

// has the automaton such a transition under the letter?
fn reads(letter: &BySource, from: u32, to: u32, accepting: bool) -> bool
    ensures { IsTrue result ↔ in_letter letter.now from to accepting }
{
    some_is_to(letter.leaving(from), to, accepting)
}

// a letter that leads from one pair to another, accepting or not
fn letter_between(both: &Both, from: Pair, to: Pair, accepting: bool) -> Option<u32>
    requires system { IsSystem (length both.now.letters.now) (table_of both.now.system.now) }
    requires state { from.state < length both.now.system.now }
    ensures { MatchOption result
        ((l : ℕ) → ¬ (Joins both.now.letters.now (table_of both.now.system.now) from l to accepting))
        (λ l. Joins both.now.letters.now (table_of both.now.system.now) from l to accepting) }
{
    for step in &both.system[from.state as usize] {
        let letter = &both.letters[step.letter as usize];
        if step.to == to.state && reads(letter, from.at, to.at, accepting) {
            return Some(step.letter);
        }
    }
    None
}

// appends the step along an arc
fn step_along(both: &Both, pairs: &[Pair], arc: Arc, trail: &mut Trail) -> Result<(), NoMemory>
    requires system { IsSystem (length both.now.letters.now) (table_of both.now.system.now) }
    requires joint { IsJoint both.now.letters.now (table_of both.now.system.now) pairs.now arc }
    ensures { OnOk result ((n : ℕ) × (l : ℕ)
        × IsLonger trail.old n l trail.new
        × IsStepped both.now.letters.now (table_of both.now.system.now) pairs.now arc n l) }
{
    let from = pairs[arc.from as usize];
    let to = pairs[arc.to as usize];
    match letter_between(both, from, to, arc.priority == 0) {
        Some(letter) => {
            add_step(trail, from.state, letter)?;
            Ok(())
        }
        None => unreachable!(),
    }
}

// the way along arcs
fn along(both: &Both, pairs: &[Pair], arcs: &[Arc], trail: &mut Trail) -> Result<(), NoMemory>
    requires system { IsSystem (length both.now.letters.now) (table_of both.now.system.now) }
    requires joint { (a : Arc) → IsMember a arcs.now → IsJoint both.now.letters.now (table_of both.now.system.now) pairs.now a }
    requires states { trail.old.states.items ≡ [] }
    requires letters { trail.old.letters.items ≡ [] }
    ensures { OnOk result (AreStepped both.now.letters.now (table_of both.now.system.now) pairs.now arcs.now
        trail.new.states.items trail.new.letters.items) }
{
    for arc in arcs {
        step_along(both, pairs, *arc, trail)?;
    }
    Ok(())
}

// the way along the arcs of a cycle
fn turn(alloc: Global, both: &Both, pairs: &[Pair], arcs: &[Arc]) -> Result<Trail, NoMemory>
    requires system { IsSystem (length both.now.letters.now) (table_of both.now.system.now) }
    requires joint { (a : Arc) → IsMember a arcs.now → IsJoint both.now.letters.now (table_of both.now.system.now) pairs.now a }
    ensures { IfOk result (λ trail. AreStepped both.now.letters.now (table_of both.now.system.now) pairs.now arcs.now
        trail.states.items trail.letters.items) }
{
    let mut trail = no_trail(alloc);
    along(both, pairs, arcs, &mut trail)?;
    Ok(trail)
}

// one trail behind another
fn joined(mut stem: Trail, turn: &Trail) -> Result<SystemLasso, NoMemory>
    ensures { IfOk result (IsLassoOf stem turn.now) }
{
    let loop_start = stem.states.len();
    stem.states.extend_from_slice(&turn.states)?;
    stem.letters.extend_from_slice(&turn.letters)?;
    Ok(SystemLasso {
        states: stem.states,
        letters: stem.letters,
        loop_start,
    })
}

/// The lasso that leads from the start to a cycle of pairs, and round it.
pub(crate) fn lasso_round(
    alloc: Global,
    both: &Both,
    _graph: &OneSided,
    pairs: &[Pair],
    origins: &[Origin],
    arcs: &[Arc],
) -> Result<SystemLasso, NoMemory>
    requires system { IsSystem (length both.now.letters.now) (table_of both.now.system.now) }
    requires met { AreMet both.now.letters.now (table_of both.now.system.now) pairs.now origins.now }
    requires joint { (a : Arc) → Contains _graph.now.arcs a → IsJoint both.now.letters.now (table_of both.now.system.now) pairs.now a }
    requires cycle { IsEvenCycle _graph.now arcs.now }
    ensures { IfOk result (λ l. IsFound both.now.letters.now (table_of both.now.system.now) l.states.items l.letters.items l.loop_start) }
{
    let stem = stem(alloc, both, pairs, origins, arcs[0].from as usize)?;
    let turn = turn(alloc, both, pairs, arcs)?;
    let lasso = joined(stem, &turn)?;
    Ok(lasso)
}
