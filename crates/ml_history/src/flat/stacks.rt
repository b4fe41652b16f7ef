// States with stacks, laid out one behind the other in flat arrays.
ghost use Rattle.std.specs.Prelude.{◌≡◌, ℕ, ◌+◌, ◌<◌, ◌≤◌, ◌↔◌, IsTrue, IfOk, length, slice_index_or, map};
ghost use Rattle.ml_lists.specs.Member.{IsMember};
ghost use Rattle.ml_history.specs.HistoryOrder.{names_of};
ghost use Rattle.ml_history.specs.private.Arrays.{part, read, AreLaidOut, AreParts, IsNumberedPart, StaysBelow, renamed};
ghost use Rattle.ml_history.specs.private.Keys.{stack_at};
ghost use Rattle.ml_history.specs.private.Ways.{AreWays};

use ml_base::NoMemory;
use std::alloc::Global;
use std::marker::Model;

/// Some states with their stacks: the stack of the i-th state begins at the i-th start among all names, and ends where
/// the next one begins. Contracts see the list of the states with their stacks.
#[derive(Debug, Drop)]
pub(crate) struct Stacks {
    states: Vec<u32>,
    starts: Vec<usize>,
    names: Vec<u32>,
}

impl Model for Stacks {
    ghost use Rattle.std.specs.Prelude.{ℕ, List};
    ghost use Rattle.ml_trace.specs.Stack.{Item};

    ghost Value = { List (Item ℕ) };

    ghost use Rattle.ml_history.specs.private.Arrays.{part, read, AreLaidOut};

    ghost view = { λ s. read s.states.items s.starts.items s.names.items };

    ghost invariant = { λ s. AreLaidOut s.states.items s.starts.items s.names.items (read s.states.items s.starts.items s.names.items) };
}

// Where the names from the i-th start on end: at the next one, or behind all `count` names.
fn end_at(starts: &[usize], i: usize, count: usize) -> usize
    requires { i < length starts.now }
    ensures { result ≡ slice_index_or starts.now (i + 1) count }
{
    starts.get(i + 1).copied().unwrap_or(count)
}

// The names from the i-th start on, up to the next one or to the end.
fn part_at<'a>(starts: &[usize], names: &'a [u32], i: usize) -> &'a [u32]
    requires low { i < length starts.now }
    requires up { slice_index_or starts.now i 0 ≤ slice_index_or starts.now (i + 1) (length names.now) }
    requires fits { slice_index_or starts.now (i + 1) (length names.now) ≤ length names.now }
    ensures { result.now ≡ part names.now (slice_index_or starts.now i 0) (slice_index_or starts.now (i + 1) (length names.now)) }
{
    let start = starts[i];
    let end = end_at(starts, i, names.len());
    &names[start..end]
}

impl Stacks {
    // The stacks of these arrays.
    pub(crate) fn of(states: Vec<u32>, starts: Vec<usize>, names: Vec<u32>) -> Stacks
        requires { AreLaidOut states.items starts.items names.items (read states.items starts.items names.items) }
        ensures { result ≡ read states.items starts.items names.items }
    {
        Stacks {
            states,
            starts,
            names,
        }
    }

    // The allocator of the arrays.
    pub(crate) fn allocator(&self) -> Global {
        *self.states.allocator()
    }

    // How many states there are.
    pub(crate) fn len(&self) -> usize
        ensures { result ≡ length self.now }
    {
        self.states.len()
    }

    // The states.
    pub(crate) fn states(&self) -> &[u32]
        ensures { result.now ≡ map (λ a. a.state) self.now }
    {
        self.states.as_slice()
    }

    // The names of all stacks, one stack behind the other.
    pub(crate) fn names(&self) -> &[u32]
        ensures { result.now ≡ names_of self.now }
    {
        self.names.as_slice()
    }

    // The stack of the i-th state.
    pub(crate) fn stack(&self, i: usize) -> &[u32]
        requires { i < length self.now }
        ensures { result.now ≡ stack_at self.now i }
    {
        part_at(self.starts.as_slice(), self.names.as_slice(), i)
    }

    // The same again.
    pub(crate) fn copy(&self) -> Result<Stacks, NoMemory>
        ensures { IfOk result (λ copy. copy ≡ self.now) }
    {
        let alloc = self.allocator();
        Ok(Stacks {
            states: Vec::from_slice(alloc, self.states.as_slice())?,
            starts: Vec::from_slice(alloc, self.starts.as_slice())?,
            names: Vec::from_slice(alloc, self.names.as_slice())?,
        })
    }

    // Whether the two are the same, by their arrays.
    pub(crate) fn is_same(&self, other: &Stacks) -> bool
        ensures { IsTrue result ↔ self.now ≡ other.now }
    {
        self.states.as_slice() == other.states.as_slice()
            && self.starts.as_slice() == other.starts.as_slice()
            && self.names.as_slice() == other.names.as_slice()
    }

    // The same states, with the numbers of their names in place of the names. Where a name is its own number, so are all
    // older ones.
    pub(crate) fn renamed(self, numbers: &[u32]) -> Stacks
        requires low { (y : ℕ) → IsMember y (names_of self) → y < length numbers.now }
        requires ways { AreWays self }
        requires stays { StaysBelow (λ y. slice_index_or numbers.now y 0) (length numbers.now) }
        ensures { result ≡ renamed (λ y. slice_index_or numbers.now y 0) self }
    {
        let Stacks {
            states,
            starts,
            names,
        } = self;
        let names = numbered(starts.as_slice(), names, numbers);
        Stacks::of(states, starts, names)
    }
}

// Puts the numbers of the names from `start` to `end` in their places, from the end on. These names ascend, so where one
// is its own number all before it are.
fn number_part(names: &mut Vec<u32>, start: usize, end: usize, numbers: &[u32])
    requires low { (k : ℕ) → start ≤ k → k < end → slice_index_or names.old.items k 0 < length numbers.now }
    requires fits { end ≤ length names.old.items }
    requires rises { start ≤ end }
    requires ascend { (j k : ℕ) → start ≤ j → j < k → k < end → slice_index_or names.old.items j 0 < slice_index_or names.old.items k 0 }
    requires stays { StaysBelow (λ y. slice_index_or numbers.now y 0) (length numbers.now) }
    ensures { IsNumberedPart (λ y. slice_index_or numbers.now y 0) start end names.old.items names.new.items }
{
    let mut rest = end;
    while rest > start {
        rest -= 1;
        let name = names[rest];
        let number = numbers[name as usize];
        if number == name {
            return;
        }
        names[rest] = number;
    }
}

// The numbers of the names, part by part.
fn numbered(starts: &[usize], mut names: Vec<u32>, numbers: &[u32]) -> Vec<u32>
    requires low { (y : ℕ) → IsMember y names.items → y < length numbers.now }
    requires parts { AreParts starts.now names.items }
    requires stays { StaysBelow (λ y. slice_index_or numbers.now y 0) (length numbers.now) }
    ensures { result.items ≡ map (λ y. slice_index_or numbers.now y 0) names.items }
{
    for i in 0..starts.len() {
        let end = end_at(starts, i, names.len());
        number_part(&mut names, starts[i], end, numbers);
    }
    names
}
