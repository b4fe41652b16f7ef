// Sets of states, as flags.
ghost use Rattle.std.specs.Prelude.{◌≡◌, ◌<◌, ◌==◌, ◌&&◌, not, map, replicate, length, IfOk};
ghost use Rattle.std.specs.Str.{bytes_eq};
ghost use Rattle.ml_base.specs.Structure as kripke;
ghost use Rattle.ml_pdl.specs.Meaning as mean;
ghost use Rattle.ml_text.specs.Operators as operators;

use ml_base::{Action, Edge, Name, NoMemory};
use ml_kripke::Structure;
use ml_pdl::Modality;
use ml_text::Operator;
use std::alloc::Global;

// all states, or none
pub(crate) fn constant(alloc: Global, states: u32, truth: bool) -> Result<Vec<bool>, NoMemory>
    ensures value { IfOk result (λ set. set.items ≡ replicate states truth) }
    ensures flags { IfOk result (λ set. length set.items ≡ states) }
{
    let set = vec![in alloc; truth; states as usize]?;
    Ok(set)
}

// the set of this state alone
pub(crate) fn singleton(
    alloc: Global,
    structure: &Structure,
    state: u32,
) -> Result<Vec<bool>, NoMemory>
    ensures value { IfOk result (λ set. set.items ≡ kripke.states_where structure.now (λ s. s == state)) }
    ensures flags { IfOk result (λ set. length set.items ≡ structure.now.states) }
{
    let set = (0..structure.states())
        .map(|other| other == state)
        .collect(alloc)?;
    Ok(set)
}

// the states that list the proposition
pub(crate) fn states_with(
    alloc: Global,
    structure: &Structure,
    proposition: &Name,
) -> Result<Vec<bool>, NoMemory>
    ensures value { IfOk result (λ set. set.items
        ≡ kripke.states_where structure.now (λ s. kripke.lists structure.now s proposition.now)) }
    ensures flags { IfOk result (λ set. length set.items ≡ structure.now.states) }
{
    let set = (0..structure.states())
        .map(|state| structure.has_label(state, proposition))
        .collect(alloc)?;
    Ok(set)
}

pub(crate) fn complement(alloc: Global, set: &[bool]) -> Result<Vec<bool>, NoMemory>
    ensures { IfOk result (λ outside. outside.items ≡ map not set.now) }
{
    let outside = set.iter().map(|flag| !*flag).collect(alloc)?;
    Ok(outside)
}

// the states at which the connective gives true
pub(crate) fn combine(
    alloc: Global,
    structure: &Structure,
    operator: Operator,
    left: &[bool],
    right: &[bool],
) -> Result<Vec<bool>, NoMemory>
    requires left { length left.now ≡ structure.now.states }
    requires right { length right.now ≡ structure.now.states }
    ensures value { IfOk result (λ set. set.items ≡ kripke.states_where structure.now
        (λ s. operators.truth_of operator (kripke.is_member left.now s) (kripke.is_member right.now s))) }
    ensures flags { IfOk result (λ set. length set.items ≡ structure.now.states) }
{
    let set = (0..structure.states())
        .map(|state| truth_of(operator, left[state as usize], right[state as usize]))
        .collect(alloc)?;
    Ok(set)
}

fn truth_of(operator: Operator, left: bool, right: bool) -> bool
    ensures { result ≡ operators.truth_of operator left right }
{
    match operator {
        Operator::And => left && right,
        Operator::Or => left || right,
        Operator::Implies => !left || right,
        Operator::Iff => left == right,
    }
}

// the states with an edge by the action into the set
pub(crate) fn edges_into(
    alloc: Global,
    structure: &Structure,
    action: &Action,
    set: &[bool],
) -> Result<Vec<bool>, NoMemory>
    requires { length set.now ≡ structure.now.states }
    ensures value { IfOk result (λ states. states.items
        ≡ mean.modal structure.now Modality.Diamond (mean.has_edge structure.now action.now) set.now) }
    ensures flags { IfOk result (λ states. length states.items ≡ structure.now.states) }
{
    let mut states = constant(alloc, structure.states(), false)?;
    for edge in structure.edges() {
        if leads_into(edge, action, set) {
            states[edge.source as usize] = true;
        }
    }
    Ok(states)
}

fn leads_into(edge: &Edge, action: &Action, set: &[bool]) -> bool
    requires { edge.now.target < length set.now }
    ensures { result ≡ (bytes_eq edge.now.action action.now && kripke.is_member set.now edge.now.target) }
{
    edge.action.bytes() == action.bytes() && set[edge.target as usize]
}
