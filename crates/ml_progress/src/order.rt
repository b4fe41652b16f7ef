// Lists of numbers in their order: which one comes before, and the next one within bounds.

ghost use Rattle.std.specs.Prelude.{◌≡◌, ◌≤◌, ◌*◌, ◌-◌, ◌++◌, ◌↔◌, IsTrue, Some, length, take, drop, replicate, true};
ghost use Rattle.ml_progress.specs.Measure.{ComesBefore};
ghost use Rattle.ml_progress.specs.private.Codes.{Fits, IsTarget, code, listed, space};

/// Whether `first` comes before `second`, of two lists of one length.
pub(crate) fn comes_before(first: &[u64], second: &[u64]) -> bool
    requires { length first.now ≡ length second.now }
    ensures { IsTrue result ↔ ComesBefore first.now second.now }
{
    for place in 0..first.len() {
        if first[place] != second[place] {
            return first[place] < second[place];
        }
    }
    false
}

/// Copies the first `cut` numbers of `row`, with zeros behind them.
fn copy_front(row: &[u64], cut: usize, next: &mut [u64])
    requires room { length next.old ≡ length row.now }
    requires cut { cut ≤ length row.now }
    ensures { next.new ≡ take cut row.now ++ replicate (length row.now - cut) 0 }
{
    next[..cut].copy_from_slice(&row[..cut]);
    next[cut..].fill(0);
}

/// Counts one up at place `cut - 1`, with a carry to the places before it, if the bounds leave room.
fn count_up(bounds: &[u64], cut: usize, numbers: &mut [u64]) -> bool
    requires fits { Fits bounds.now numbers.old }
    requires cut { cut ≤ length bounds.now }
    requires zeros { code bounds.now numbers.old
        ≡ code (take cut bounds.now) (take cut numbers.old) * space (drop cut bounds.now) }
    ensures { IsTarget cut bounds.now true (Some numbers.old) (listed result numbers.new) }
{
    let mut place = cut;
    while place > 0 {
        place -= 1;
        if numbers[place] < bounds[place] {
            numbers[place] += 1;
            return true;
        }
        numbers[place] = 0;
    }
    false
}

/// Makes `next` the least list with which a move to a vertex with `row` progresses, if there is one.
pub(crate) fn least_progress(
    bounds: &[u64],
    cut: usize,
    bad: bool,
    row: &[u64],
    next: &mut [u64],
) -> bool
    requires fits { Fits bounds.now row.now }
    requires cut { cut ≤ length bounds.now }
    requires room { length next.old ≡ length bounds.now }
    ensures { IsTarget cut bounds.now bad (Some row.now) (listed result next.new) }
{
    copy_front(row, cut, next);
    !bad || count_up(bounds, cut, next)
}
