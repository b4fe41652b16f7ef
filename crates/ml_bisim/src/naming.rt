// The numbers that classes have after a round: of the parts of each class one keeps its number, and the others get new ones.
ghost use Rattle.std.specs.Prelude.{ℕ, ◌≡◌, ◌<◌, ◌≤◌, ◌⊎◌, length, get_or, All, IfOk, OnOk};
ghost use Rattle.ml_lists.specs.InTurn.{RunsOn};
ghost use Rattle.ml_bisim.specs.Quotient.{class_of};
ghost use Rattle.ml_bisim.specs.private.Rounds.{AreKept, AreNames, HasMembers, KeepsFrom, rows};

use crate::numbering::Numbering;
use ml_base::NoMemory;
use std::alloc::Global;

/// Which part of each class of these states keeps its number: that of its settled state, and where there is none, one with
/// most states. The states from `first` on are settled.
///
/// # Errors
/// `NoMemory` alone.
///
/// Cost: linear in the states.
pub(crate) fn keep(
    alloc: Global,
    keeper: &mut [usize],
    class: &[usize],
    states: &[u32],
    parts: &Numbering,
    first: usize,
) -> Result<(), NoMemory>
    requires in_range { All (λ s. s < length class.now) states.now }
    requires classes { All (λ c. c < length keeper.old) class.now }
    requires each_state { length parts.now.numbers.items ≡ length states.now }
    requires numbers { All (λ n. n < parts.now.count) parts.now.numbers.items }
    requires before { first ≤ length states.now }
    ensures each_class { length keeper.new ≡ length keeper.old }
    ensures kept { OnOk result (AreKept class.now states.now parts.now.numbers.items keeper.new first) }
{
    keep_from(keeper, class, states, &parts.numbers, 0);
    keep_larger(alloc, keeper, class, states, parts)?;
    keep_from(keeper, class, states, &parts.numbers, first);
    Ok(())
}

// the parts of the states from `first` on keep the numbers of their classes
fn keep_from(keeper: &mut [usize], class: &[usize], states: &[u32], numbers: &[usize], first: usize)
    requires in_range { All (λ s. s < length class.now) states.now }
    requires classes { All (λ c. c < length keeper.old) class.now }
    requires each_state { length numbers.now ≡ length states.now }
    requires before { first ≤ length states.now }
    ensures each_class { length keeper.new ≡ length keeper.old }
    ensures kept { (i : ℕ) → first ≤ i → i < length states.now → KeepsFrom class.now states.now numbers.now keeper.new first (class_of class.now (get_or states.now i 0)) }
    ensures others { (c : ℕ) → (get_or keeper.new c 0 ≡ get_or keeper.old c 0) ⊎ KeepsFrom class.now states.now numbers.now keeper.new first c }
{
    for i in first..states.len() {
        keeper[class[states[i] as usize]] = numbers[i];
    }
}

// larger parts keep the numbers of their classes
fn keep_larger(
    alloc: Global,
    keeper: &mut [usize],
    class: &[usize],
    states: &[u32],
    parts: &Numbering,
) -> Result<(), NoMemory>
    requires in_range { All (λ s. s < length class.now) states.now }
    requires classes { All (λ c. c < length keeper.old) class.now }
    requires each_state { length parts.now.numbers.items ≡ length states.now }
    requires numbers { All (λ n. n < parts.now.count) parts.now.numbers.items }
    requires kept { (i : ℕ) → i < length states.now → KeepsFrom class.now states.now parts.now.numbers.items keeper.old 0 (class_of class.now (get_or states.now i 0)) }
    ensures each_class { length keeper.new ≡ length keeper.old }
    ensures kept { OnOk result ((i : ℕ) → i < length states.now → KeepsFrom class.now states.now parts.now.numbers.items keeper.new 0 (class_of class.now (get_or states.now i 0))) }
{
    let sizes = sizes(alloc, &parts.numbers, parts.count)?;
    for i in 0..states.len() {
        let class = class[states[i] as usize];
        let part = parts.numbers[i];
        if sizes[part] > sizes[keeper[class]] {
            keeper[class] = part;
        }
    }
    Ok(())
}

// how often each number stands there
fn sizes(alloc: Global, numbers: &[usize], count: usize) -> Result<Vec<usize>, NoMemory>
    requires { All (λ n. n < count) numbers.now }
    ensures { IfOk result (λ sizes. length sizes.items ≡ count) }
{
    let mut sizes = vec![in alloc; 0; count]?;
    for number in numbers {
        sizes[*number] += 1;
    }
    Ok(sizes)
}

/// The names of the parts of these states: for each part that keeps it the number of its class, and for the others new ones,
/// with no members yet.
///
/// # Errors
/// `NoMemory` alone.
///
/// Cost: linear in the states.
pub(crate) fn names(
    alloc: Global,
    members: &mut Vec<Vec<u32>>,
    keeper: &mut Vec<usize>,
    class: &[usize],
    states: &[u32],
    parts: &Numbering,
) -> Result<Vec<usize>, NoMemory>
    requires in_range { All (λ s. s < length class.now) states.now }
    requires members { HasMembers class.now (length class.now) (rows members.old.items) }
    requires keepers { length keeper.old.items ≡ length members.old.items }
    requires each_state { length parts.now.numbers.items ≡ length states.now }
    requires in_turn { RunsOn 0 parts.now.numbers.items parts.now.count }
    requires one_class { (i j : ℕ) → i < length states.now → j < length states.now
        → get_or parts.now.numbers.items i 0 ≡ get_or parts.now.numbers.items j 0
        → class_of class.now (get_or states.now i 0) ≡ class_of class.now (get_or states.now j 0) }
    ensures members { OnOk result (HasMembers class.now (length class.now) (rows members.new.items)) }
    ensures keepers { OnOk result (length keeper.new.items ≡ length members.new.items) }
    ensures names { IfOk result (λ names. AreNames class.now states.now parts.now.numbers.items keeper.old.items names.items (length members.old.items) (length members.new.items)) }
{
    let mut names = Vec::with_capacity(alloc, parts.count)?;
    for i in 0..states.len() {
        let part = parts.numbers[i];
        if part == names.len() {
            let class = class[states[i] as usize];
            if keeper[class] == part {
                names.push(class)?;
            } else {
                names.push(members.len())?;
                members.push(Vec::new(alloc))?;
                keeper.push(0)?;
            }
        }
    }
    Ok(names)
}
