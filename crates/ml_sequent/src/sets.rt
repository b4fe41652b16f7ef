// Lists of numbers as sets.
ghost use Rattle.std.specs.Prelude.{◌≡◌};
ghost use Rattle.ml_lists.specs.Ascending.{ascending};

/// The numbers, ascending and each once.
///
/// Cost: `n log n`; no memory.
pub(crate) fn ascending(mut numbers: Vec<u32>) -> Vec<u32>
    ensures { result.items ≡ ascending numbers.items }
{
    numbers.sort_unstable();
    numbers.dedup();
    numbers
}
