// Lists of numbers as a text has them: whether they ascend.
ghost use Rattle.std.specs.Prelude.{◌≡◌, ◌↔◌, ◌<◌, false, nat_lt, All, IsTrue};
ghost use Rattle.std.specs.List.{list_all};
ghost use Rattle.ml_lists.specs.Ascending.{IsAscending};
ghost use Rattle.ml_refutation_text.specs.private.ItemReads.{ascends_behind, AreNames};

// do the numbers strictly ascend?
pub(crate) fn ascends(ns: &[u32]) -> bool
    ensures yes { IsTrue result → IsAscending ns.now }
    ensures otherwise { result ≡ false → ¬ (IsAscending ns.now) }
{
    match ns.split_first() {
        Some((first, others)) => ascends_from(*first, others),
        None => true,
    }
}

// do the numbers strictly ascend, all above the first one?
fn ascends_from(first: u32, others: &[u32]) -> bool
    ensures { result ≡ ascends_behind first others.now }
{
    let mut last = first;
    for n in others {
        if *n <= last {
            return false;
        }
        last = *n;
    }
    true
}

// are these names strictly ascending and below the bound?
pub(crate) fn are_names(ns: &[u32], bound: u32) -> bool
    ensures yes { IsTrue result → AreNames bound ns.now }
    ensures otherwise { result ≡ false → ¬ (AreNames bound ns.now) }
{
    ascends(ns) && all_below(ns, bound)
}

// are these numbers, which ascend, below the bound? The last one tells.
pub(crate) fn ascend_below(ns: &[u32], bound: u32) -> bool
    requires { IsAscending ns.now }
    ensures { IsTrue result ↔ All (λ n. n < bound) ns.now }
{
    match ns {
        [.., last] => *last < bound,
        [] => true,
    }
}

fn all_below(ns: &[u32], bound: u32) -> bool
    ensures { result ≡ list_all (λ n. nat_lt n bound) ns.now }
{
    ns.iter().all(|n| *n < bound)
}
