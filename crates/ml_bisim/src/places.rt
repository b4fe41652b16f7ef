// The places of a list at which a number stands, from the last one back to the first.
//
// Each place is linked to the one before it with the same number, so that no number has a list of its own.
ghost use Rattle.std.specs.Prelude.{◌<◌, All, IfOk};
ghost use Rattle.ml_bisim.specs.private.Places.{ArePlaces};

use ml_base::NoMemory;
use std::alloc::Global;

/// Where each number stands. A place is told by the number behind it, and 0 says that there is none.
#[derive(Drop)]
pub(crate) struct Places {
    /// Of each number the last place where it stands.
    pub last: Vec<usize>,
    /// Of each place the one before it with the same number.
    pub before: Vec<usize>,
}

impl Places {
    /// The places of the numbers, which are below the bound.
    ///
    /// # Errors
    /// `NoMemory` alone.
    ///
    /// Cost: linear in the numbers and the bound.
    pub fn of(alloc: Global, numbers: &[u32], bound: u32) -> Result<Places, NoMemory>
        requires { All (λ x. x < bound) numbers.now }
        ensures { IfOk result (ArePlaces numbers.now bound) }
    {
        let mut last = vec![in alloc; 0; bound as usize]?;
        let mut before = Vec::with_capacity(alloc, numbers.len())?;
        for number in numbers {
            let number = *number as usize;
            before.push(last[number])?;
            last[number] = before.len();
        }
        Ok(Places { last, before })
    }
}
