// The trace automaton: worked rows, and each call once on its happy path.
use ml_trace::{
    AutomatonState, Letter, LocalTraces, Transition, Triple, letter_of, number, state_of,
};
use std::test::Fail;

// The transitions of the letter of one triple.
const OF_ONE_TRIPLE: [Transition; 3] = [
    Transition {
        from: 0,
        to: 8,
        accepting: false,
    },
    Transition {
        from: 0,
        to: 9,
        accepting: false,
    },
    Transition {
        from: 1,
        to: 9,
        accepting: true,
    },
];

// Are these all transitions of the letter, in any order?
fn are_these(letter: &Letter, wanted: &[Transition]) -> bool {
    let transitions = letter.transitions();
    transitions.len() == wanted.len() && wanted.iter().all(|one| transitions.contains(one))
}

#[test]
fn letter_of_one_triple(rt: HostRuntime) -> Result<(), Fail> {
    let triple = Triple {
        from: 0,
        lowest: 1,
        to: 4,
    };
    let traces = LocalTraces::new([triple].to_vec(rt.alloc())?);
    assert_eq!(rt; traces.triples().len(), 1);
    let letter = letter_of(rt.alloc(), traces, &[1])?;
    assert!(rt; are_these(&letter, &OF_ONE_TRIPLE));
    Ok(())
}

// A node, an odd priority that was guessed there, and the number of this state where the odd priorities are 1 and 5.
const NUMBERS: [(u32, Option<u32>, u32); 5] = [
    (0, None, 0),
    (0, Some(1), 1),
    (0, Some(5), 2),
    (4, None, 12),
    (4, Some(5), 14),
];

// Is this the state with each of the numbers?
fn are_states(rows: &[(u32, Option<u32>, u32)]) -> bool {
    rows.iter().all(|(node, odd, number)| state_of(*number, &[1, 5])
        == AutomatonState {
            node: *node,
            odd: *odd,
        })
}

#[test]
fn states_have_numbers(rt: HostRuntime) {
    assert!(rt; are_states(&NUMBERS));
    let state = AutomatonState {
        node: 4,
        odd: Some(5),
    };
    assert_eq!(rt; number(&state, &[1, 5]), 14);
}
