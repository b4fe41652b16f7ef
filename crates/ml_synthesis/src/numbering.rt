// States that are numbered as they are met.
ghost use Rattle.std.specs.Prelude.{◌≡◌, [], ◌∷◌, slice_get, IfOk};
ghost use Rattle.ml_lists.specs.Added.{IsAdded};

use crate::arrival::Arrival;
use indexmap::IndexSet;
use ml_base::NoMemory;
use std::alloc::Global;

/// The number of a state.
pub(crate) fn number(states: &mut IndexSet<u64>, state: u64) -> Result<usize, NoMemory>
    ensures { IfOk result (IsAdded states.old.keys state states.new.keys) }
{
    let (number, _) = states.insert_full(state)?;
    Ok(number)
}

/// The number of an arrival.
pub(crate) fn arrival_number(
    arrivals: &mut IndexSet<Arrival>,
    arrival: Arrival,
) -> Result<usize, NoMemory>
    ensures { IfOk result (IsAdded arrivals.old.keys arrival arrivals.new.keys) }
{
    let (number, _) = arrivals.insert_full(arrival)?;
    Ok(number)
}

/// The first state alone.
pub(crate) fn begun(alloc: Global, first: u64) -> Result<IndexSet<u64>, NoMemory>
    ensures { IfOk result (λ states. states.keys ≡ first ∷ []) }
{
    let mut states = IndexSet::new(alloc);
    states.insert(first)?;
    Ok(states)
}

/// The next state, behind those that were looked at, if there is one.
pub(crate) fn pending(states: &IndexSet<u64>, looked: usize) -> Option<u64>
    ensures { result ≡ slice_get states.now.keys looked }
{
    states.get_index(looked).copied()
}
