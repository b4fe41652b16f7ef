// U and R along a word, from the values of their operands at its places.
ghost use Rattle.std.specs.Prelude.{◌≡◌, ◌<◌, ℕ, length};
ghost use Rattle.ml_word_check.specs.private.Truths.{at, cycles, next_in};
ghost use Rattle.ml_word_check.specs.private.Truths as spec;

/// The operators that go on along a word.
#[derive(Clone, Copy, Debug, PartialEq, Eq)]
pub(crate) enum Cycle {
    /// The right operand some time, and the left one until then.
    Until,
    /// The right operand always, unless the left one releases it.
    Release,
}

// the value before any place is looked at
fn base(cycle: Cycle) -> bool
    ensures { result ≡ spec.base cycle }
{
    match cycle {
        Cycle::Until => false,
        Cycle::Release => true,
    }
}

// the value at a place, from those of the operands there and the value at the next place
fn step(cycle: Cycle, left: bool, right: bool, later: bool) -> bool
    ensures { result ≡ spec.step cycle left right later }
{
    match cycle {
        Cycle::Until => right || (left && later),
        Cycle::Release => right && (left || later),
    }
}

// the place behind a place
pub(crate) fn next(places: usize, start: usize, place: usize) -> usize
    requires { place < places }
    ensures { result ≡ next_in places start place }
{
    if place + 1 < places { place + 1 } else { start }
}

// the value at a place, looking ahead along all places until it is known
fn ahead(cycle: Cycle, left: &[bool], right: &[bool], start: usize, place: usize) -> bool
    requires same { length left.now ≡ length right.now }
    requires start { start < length right.now }
    requires place { place < length right.now }
    ensures { result ≡ cycles cycle (next_in (length right.now) start) (at left.now) (at right.now) (length right.now) place }
{
    let places = right.len();
    let mut here = place;
    for _looked in 0..places {
        let low = step(cycle, left[here], right[here], false);
        if low == step(cycle, left[here], right[here], true) {
            return low;
        }
        here = next(places, start, here);
    }
    base(cycle)
}

/// The values at all places: that at the loop's start is looked up ahead, and the others follow from the last place back.
///
/// Cost: linear in the places.
pub(crate) fn around(cycle: Cycle, left: &[bool], right: &mut [bool], start: usize)
    requires same { length left.now ≡ length right.old }
    requires start { start < length right.old }
    ensures each_place { length right.new ≡ length right.old }
    ensures values { (i : ℕ) → i < length right.old
        → at right.new i ≡ cycles cycle (next_in (length right.old) start) (at left.now) (at right.old) (length right.old) i }
{
    let mut later = ahead(cycle, left, right, start, start);
    for behind in 0..right.len() {
        let place = right.len() - 1 - behind;
        later = step(cycle, left[place], right[place], later);
        right[place] = later;
    }
}
