// Lists put into strictly ascending order.
ghost use Rattle.std.specs.Prelude.{◌≡◌, ◌↔◌, true, Contains};
ghost use Rattle.std.specs.List.Sorted.{IsStrictlySortedBy};

/// Puts the elements into strictly ascending order, so that none stands twice. Elements that compare equal must be one.
///
/// Cost: `n log n`.
pub fn ascend<T: Ord + Drop>(items: &mut Vec<T>)
    requires { (x y : T) → T.eq x y ≡ true → x ≡ y }
    ensures ascends { IsStrictlySortedBy T.cmp items.new.items }
    ensures same { (x : T) → Contains items.new.items x ↔ Contains items.old.items x }
{
    items.sort_unstable();
    items.dedup();
}
