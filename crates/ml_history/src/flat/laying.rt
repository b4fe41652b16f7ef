// Flat arrays of states with stacks, from a list of them.
ghost use Rattle.std.specs.Prelude.{◌≡◌, IfOk, map};
ghost use Rattle.ml_history.specs.Stacks.{stacked};

use crate::flat::stacks::Stacks;
use ml_base::NoMemory;
use std::alloc::Global;

// The states with their stacks, laid out one behind the other.
pub(crate) fn laid(alloc: Global, all: &[(u32, Vec<u32>)]) -> Result<Stacks, NoMemory>
    ensures { IfOk result (λ stacks. stacks ≡ map stacked all.now) }
{
    let mut states = Vec::with_capacity(alloc, all.len())?;
    let mut starts = Vec::with_capacity(alloc, all.len())?;
    let mut names = Vec::new(alloc);
    for item in all {
        states.push(item.0)?;
        starts.push(names.len())?;
        names.extend_from_slice(item.1.as_slice())?;
    }
    Ok(Stacks::of(states, starts, names))
}
