// The states that a round of a refinement looks at: those that aren't settled, and a settled one of each of their classes.
ghost use Rattle.std.specs.Prelude.{ℕ, ◌≡◌, ◌<◌, ◌↔◌, length, get_or, map, All, Contains, IfOk, IfSome, IfNone};
ghost use Rattle.ml_bisim.specs.Quotient.{class_of};
ghost use Rattle.ml_bisim.specs.private.Rounds.{AreChosen, HasMembers, IsSettled, rows};

use ml_base::NoMemory;
use ml_kripke::ascend;
use std::alloc::Global;

/// These states, which aren't settled, and behind them one settled state of each of their classes, where there is one.
/// States that aren't in a class any more are dropped from its members on the way.
///
/// # Errors
/// `NoMemory` alone.
///
/// Cost: of `n log n` in the states, if all work of dropping members is set against the rounds that left them there.
pub(crate) fn chosen(
    alloc: Global,
    members: &mut [Vec<u32>],
    class: &[usize],
    is_settled: &[bool],
    states: Vec<u32>,
) -> Result<Vec<u32>, NoMemory>
    requires members { HasMembers class.now (length class.now) (rows members.old) }
    requires flags { length is_settled.now ≡ length class.now }
    requires in_range { All (λ s. s < length class.now) states.items }
    ensures members { HasMembers class.now (length class.now) (rows members.new) }
    ensures each_class { length members.new ≡ length members.old }
    ensures chosen { IfOk result (λ chosen. AreChosen class.now is_settled.now (length class.now) (length states.items) chosen.items) }
    ensures listed { IfOk result (λ chosen. (i : ℕ) → i < length states.items → get_or chosen.items i 0 ≡ get_or states.items i 0) }
{
    let classes = classes_of(alloc, class, &states)?;
    let mut chosen = states;
    for of in classes.as_slice() {
        if let Some(state) = settled_in(&mut members[*of], class, is_settled, *of) {
            chosen.push(state)?;
        }
    }
    Ok(chosen)
}

// the classes of these states, each once
fn classes_of(alloc: Global, class: &[usize], states: &[u32]) -> Result<Vec<usize>, NoMemory>
    requires { All (λ s. s < length class.now) states.now }
    ensures { IfOk result (λ cs. (c : ℕ) → Contains cs.items c ↔ Contains (map (class_of class.now) states.now) c) }
{
    let mut classes = Vec::with_capacity(alloc, states.len())?;
    for state in states {
        classes.push(class[*state as usize])?;
    }
    ascend(&mut classes);
    Ok(classes)
}

// A settled state of the class `of`, if there is one. What isn't in the class is dropped from its members.
fn settled_in(
    members: &mut Vec<u32>,
    class: &[usize],
    is_settled: &[bool],
    of: usize,
) -> Option<u32>
    requires in_range { All (λ s. s < length class.now) members.old.items }
    requires flags { length is_settled.now ≡ length class.now }
    ensures in_range { All (λ s. s < length class.now) members.new.items }
    ensures kept { (s : ℕ) → class_of class.now s ≡ of → Contains members.old.items s → Contains members.new.items s }
    ensures some { IfSome result (λ s. (s < length class.now) × (class_of class.now s ≡ of) × IsSettled is_settled.now s) }
    ensures none { IfNone result ((s : ℕ) → class_of class.now s ≡ of → Contains members.old.items s → ¬ (IsSettled is_settled.now s)) }
{
    let mut rest = members.len();
    while rest > 0 {
        rest -= 1;
        let state = members[rest];
        if class[state as usize] != of {
            members.swap_remove(rest);
        } else if is_settled[state as usize] {
            return Some(state);
        }
    }
    None
}
