// Histories: steps that were worked out by hand.
use ml_base::NoMemory;
use ml_history::tree::TreeHistory;
use ml_history::{History, Mark};
use ml_trace::{Letter, Transition};
use std::alloc::Global;
use std::test::Fail;

// A transition: from where to where, and is it accepting?
type Along = (u32, u32, bool);

// The letter of the transitions.
fn letter(alloc: Global, transitions: &[Along]) -> Result<Letter, Fail> {
    let mut all = Vec::new(alloc);
    for (from, to, accepting) in transitions {
        all.push(Transition {
            from: *from,
            to: *to,
            accepting: *accepting,
        })?;
    }
    Ok(Letter::new(all).ok_or("a number of a state is too great")?)
}

// The transitions of some steps from the start at 5; the states with their stacks behind the last one, and how many names are
// in use there; and its mark.
type Worked = (
    &'static [&'static [Along]],
    &'static [(u32, &'static [u32])],
    u32,
    Option<Mark>,
);

const FIRST: &'static [Along] = &[(5, 5, false), (5, 6, true)];

const SECOND: &'static [Along] = &[(5, 5, false), (6, 6, false), (5, 7, true)];

const WORKED: [Worked; 6] = [
    (&[], &[(5, &[0])], 1, None),
    // no transition loses all
    (&[&[]], &[], 0, Some(Mark::Red(0))),
    // an accepting loop is green
    (&[&[(5, 5, true)]], &[(5, &[0])], 1, Some(Mark::Green(0))),
    // accepting transitions make stacks longer
    (
        &[FIRST, SECOND],
        &[(5, &[0]), (6, &[0, 1]), (7, &[0, 2])],
        3,
        Some(Mark::Neutral),
    ),
    // a name that is lost has the others numbered anew
    (
        &[FIRST, SECOND, &[(5, 5, false), (7, 7, false)]],
        &[(5, &[0]), (7, &[0, 1])],
        2,
        Some(Mark::Red(1)),
    ),
    // the stack with the older name wins
    (
        &[
            FIRST,
            SECOND,
            &[(5, 5, false), (6, 8, false), (7, 8, false)],
        ],
        &[(5, &[0]), (8, &[0, 1])],
        2,
        Some(Mark::Red(2)),
    ),
];

// The history behind the steps, and the mark of the last one.
fn behind(alloc: Global, steps: &[&'static [Along]]) -> Result<(History, Option<Mark>), Fail> {
    let mut history = History::start(alloc, 5)?;
    let mut last = None;
    for transitions in steps {
        let (next, mark) = history.step(&letter(alloc, transitions)?)?;
        history = next;
        last = Some(mark);
    }
    Ok((history, last))
}

// Are these the states with their stacks?
fn are_stacks(stacks: &[(u32, Vec<u32>)], wanted: &[(u32, &'static [u32])]) -> bool {
    stacks.len() == wanted.len()
        && stacks
            .iter()
            .zip(wanted)
            .all(|(a, b)| a.0 == b.0 && a.1.as_slice() == b.1)
}

// Do the steps lead there?
fn is_worked(alloc: Global, row: &Worked) -> Result<bool, Fail> {
    let (steps, stacks, live, mark) = *row;
    let (history, last) = behind(alloc, steps)?;
    let are_there = are_stacks(&history.stacks()?, stacks);
    Ok(are_there && history.live() == live && last == mark)
}

// The place of the first row whose steps lead elsewhere.
fn first_wrong(alloc: Global, rows: &[Worked]) -> Result<Option<usize>, Fail> {
    for (place, row) in rows.iter().enumerate() {
        if !is_worked(alloc, row)? {
            return Ok(Some(place));
        }
    }
    Ok(None)
}

#[test]
fn worked_steps(rt: HostRuntime) -> Result<(), Fail> {
    assert_eq!(rt; first_wrong(rt.alloc(), &WORKED)?, None);
    Ok(())
}

// Is the first step taken as it should be, where the history is a tree?
fn is_tree_step(alloc: Global, letter: &Letter) -> Result<bool, NoMemory> {
    let (next, mark) = TreeHistory::start(alloc, 5)?.step(letter)?;
    let are_there = are_stacks(&next.stacks()?, &[(5, &[0]), (6, &[0, 1])]);
    Ok(mark == Mark::Neutral && next.live() == 2 && are_there)
}

#[test]
fn on_a_tree(rt: HostRuntime) -> Result<(), Fail> {
    let letter = letter(rt.alloc(), FIRST)?;
    assert!(rt; is_tree_step(rt.alloc(), &letter)?);
    Ok(())
}
