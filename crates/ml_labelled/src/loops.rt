// The loops of a graph: numbers that no arrow makes fall, by two searches in depth.
//
// States that lie on one loop get one number. Nothing rests on it: whoever uses the numbers looks whether they fit.
use ml_base::NoMemory;
use std::alloc::Global;

// The numbers of the states, and the states in the order of their numbers.
#[derive(Drop)]
pub(crate) struct Loops {
    pub numbers: Vec<usize>,
    pub states: Vec<usize>,
}

// what a search in depth does next
#[derive(Clone, Copy)]
enum Visit {
    Enter(usize),
    Leave(usize),
}

// a place that wasn't marked is, from now on
fn mark(marks: &mut Vec<bool>, p: usize) -> bool {
    if p < marks.len() && !marks[p] {
        marks[p] = true;
        return true;
    }
    false
}

// more steps than a search takes
fn steps(next: &[Vec<usize>]) -> usize {
    let mut sum = next.len().saturating_mul(2);
    for targets in next {
        sum = sum.saturating_add(targets.len());
    }
    sum
}

fn enter_all(waiting: &mut Vec<Visit>, targets: &[usize]) -> Result<(), NoMemory> {
    for p in targets {
        waiting.push(Visit::Enter(*p))?;
    }
    Ok(())
}

// the targets of a state wait, and behind them its end
fn enter(
    marks: &mut Vec<bool>,
    waiting: &mut Vec<Visit>,
    next: &[Vec<usize>],
    p: usize,
) -> Result<(), NoMemory> {
    if !mark(marks, p) {
        return Ok(());
    }
    waiting.push(Visit::Leave(p))?;
    match next.get(p) {
        Some(targets) => enter_all(waiting, targets),
        None => Ok(()),
    }
}

// one step of a search in depth; is there none?
fn step(
    marks: &mut Vec<bool>,
    waiting: &mut Vec<Visit>,
    next: &[Vec<usize>],
    left: &mut Vec<usize>,
) -> Result<(), NoMemory> {
    match waiting.pop() {
        Some(Visit::Enter(p)) => enter(marks, waiting, next, p),
        Some(Visit::Leave(p)) => {
            left.push(p)?;
            Ok(())
        }
        None => Ok(()),
    }
}

// the states, each behind those that a search in depth finds from it
fn left_behind(alloc: Global, next: &[Vec<usize>]) -> Result<Vec<usize>, NoMemory> {
    let mut marks = vec![in alloc; false; next.len()]?;
    let mut waiting = Vec::new(alloc);
    for p in 0..next.len() {
        waiting.push(Visit::Enter(p))?;
    }
    let mut left = Vec::new(alloc);
    for _ in 0..steps(next) {
        step(&mut marks, &mut waiting, next, &mut left)?;
    }
    Ok(left)
}

fn put_back(back: &mut Vec<Vec<usize>>, p: usize, targets: &[usize]) -> Result<(), NoMemory> {
    for q in targets {
        if *q < back.len() {
            back[*q].push(p)?;
        }
    }
    Ok(())
}

// the arrows, turned round
fn turned(alloc: Global, next: &[Vec<usize>]) -> Result<Vec<Vec<usize>>, NoMemory> {
    let mut back = Vec::with_capacity(alloc, next.len())?;
    for _ in 0..next.len() {
        back.push(Vec::new(alloc))?;
    }
    for (p, targets) in next.iter().enumerate() {
        put_back(&mut back, p, targets)?;
    }
    Ok(back)
}

// the state gets the number, and those from which arrows lead to it wait
fn number(
    loops: &mut Loops,
    waiting: &mut Vec<usize>,
    back: &[Vec<usize>],
    p: usize,
    n: usize,
) -> Result<(), NoMemory> {
    if p < loops.numbers.len() {
        loops.numbers[p] = n;
    }
    loops.states.push(p)?;
    match back.get(p) {
        Some(sources) => {
            waiting.extend_from_slice(sources)?;
            Ok(())
        }
        None => Ok(()),
    }
}

// all that waits and has no number yet gets it
fn number_all(
    marks: &mut Vec<bool>,
    loops: &mut Loops,
    waiting: &mut Vec<usize>,
    back: &[Vec<usize>],
    n: usize,
) -> Result<(), NoMemory> {
    for _ in 0..steps(back) {
        match waiting.pop() {
            Some(p) => {
                if mark(marks, p) {
                    number(loops, waiting, back, p, n)?;
                }
            }
            None => return Ok(()),
        }
    }
    Ok(())
}

// the numbers of the states, in the order in which a search through the turned arrows begins at them
fn numbered(alloc: Global, back: &[Vec<usize>], left: &[usize]) -> Result<Loops, NoMemory> {
    let mut marks = vec![in alloc; false; back.len()]?;
    let mut loops = Loops {
        numbers: vec![in alloc; 0usize; back.len()]?,
        states: Vec::with_capacity(alloc, back.len())?,
    };
    let mut waiting = Vec::new(alloc);
    for (n, p) in left.iter().rev().enumerate() {
        waiting.push(*p)?;
        number_all(&mut marks, &mut loops, &mut waiting, back, n)?;
    }
    Ok(loops)
}

// The loops of the graph with these arrows from each state. The cost is linear in the arrows.
pub(crate) fn loops_of(alloc: Global, next: &[Vec<usize>]) -> Result<Loops, NoMemory> {
    let left = left_behind(alloc, next)?;
    let back = turned(alloc, next)?;
    numbered(alloc, &back, &left)
}
