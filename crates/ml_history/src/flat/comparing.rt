// How histories compare: item by item, by the state and then by the stack.
ghost use Rattle.std.specs.Prelude.{◌≡◌, ◌<◌, length};
ghost use Rattle.std.specs.Ordering.{nat_cmp};
ghost use Rattle.ml_history.specs.HistoryOrder.{history_cmp, item_cmp};
ghost use Rattle.ml_history.specs.private.Keys.{item_at};

use crate::flat::stacks::Stacks;
use std::cmp::Ordering;

// How the items at one place compare.
fn compare_at(i: usize, left: &Stacks, right: &Stacks) -> Ordering
    requires left { i < length left.now }
    requires right { i < length right.now }
    ensures { result ≡ item_cmp (item_at left.now i) (item_at right.now i) }
{
    let states = left.states()[i].cmp(&right.states()[i]);
    states.then(left.stack(i).cmp(right.stack(i)))
}

// How the histories compare.
pub(crate) fn compare(left: &Stacks, right: &Stacks) -> Ordering
    ensures { result ≡ history_cmp left.now right.now }
{
    let m = left.len();
    let n = right.len();
    for i in 0..m.min(n) {
        match compare_at(i, left, right) {
            Ordering::Less => return Ordering::Less,
            Ordering::Greater => return Ordering::Greater,
            Ordering::Equal => {}
        }
    }
    m.cmp(&n)
}
