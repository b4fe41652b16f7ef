// Word automata of small problems of LTL, worked out by hand: the nodes of their states, and their transitions under letters,
// from state to state by their numbers, with ! behind those that accept.
use ml_base::IdSet;
use ml_graph::{ClosureRefusal, ModalGraph};
use ml_trace::{Letter, Transition};
use ml_word_automaton::{WordAutomaton, automaton_of, letter_at};
use std::alloc::Global;
use std::test::Fail;

// the numbers of the graph's propositions that are one of these letters
fn present(alloc: Global, graph: &ModalGraph, letters: &str) -> Result<IdSet, Fail> {
    let mut numbers = IdSet::new(alloc);
    for (number, name) in graph.props().iter().enumerate() {
        if let ([letter], Ok(number)) = (name.bytes(), u32::try_from(number))
            && letters.as_bytes().contains(letter)
        {
            numbers.insert(number)?;
        }
    }
    Ok(numbers)
}

// the nodes of the states
fn shown_states(alloc: Global, automaton: &WordAutomaton) -> Result<String, Fail> {
    let mut out = String::new(alloc);
    for node in automaton.states() {
        out.push_str(format!(in alloc; "{node} ")?.as_str())?;
    }
    Ok(out)
}

// a transition of the letter with these ends, if it has one, written behind
fn push_transition(
    alloc: Global,
    letter: &Letter,
    wanted: Transition,
    out: &mut String,
) -> Result<(), Fail> {
    if letter.transitions().contains(&wanted) {
        let Transition {
            from,
            to,
            accepting,
        } = wanted;
        let sign = if accepting { "!" } else { "" };
        out.push_str(format!(in alloc; "{from}>{to}{sign} ")?.as_str())?;
    }
    Ok(())
}

// the transitions under a letter, in order
fn shown_letter(alloc: Global, automaton: &WordAutomaton, letters: &str) -> Result<String, Fail> {
    let letter = letter_at(automaton, &present(alloc, automaton.graph(), letters)?)?;
    let many = automaton.states().len() as u32;
    let mut out = String::new(alloc);
    for from in 0..many {
        for to in 0..many {
            for accepting in [false, true] {
                let wanted = Transition {
                    from,
                    to,
                    accepting,
                };
                push_transition(alloc, &letter, wanted, &mut out)?;
            }
        }
    }
    Ok(out)
}

// the automaton of the problem of a text, if its graph has so many nodes at most
fn automaton(
    alloc: Global,
    text: &str,
    negated: bool,
    most: u32,
) -> Result<Result<WordAutomaton, ClosureRefusal>, Fail> {
    let formula = ml_ltl::parse(alloc, text.as_bytes())?;
    Ok(automaton_of(alloc, &formula, negated, most.min(4096)))
}

// has the automaton these transitions under the letters?
fn has_letters(
    alloc: Global,
    automaton: &WordAutomaton,
    letters: &[(&'static str, &'static str)],
) -> Result<bool, Fail> {
    for (letter, wanted) in letters {
        if shown_letter(alloc, automaton, letter)?.as_str() != *wanted {
            return Ok(false);
        }
    }
    Ok(true)
}

// has the automaton these states, in a graph of so many nodes at least, and these transitions under the letters?
fn is_automaton(alloc: Global, row: &Row) -> Result<bool, Fail> {
    let (text, negated, nodes, states, letters) = *row;
    let found = automaton(alloc, text, negated, nodes)??;
    let is_least = automaton(alloc, text, negated, nodes.saturating_sub(1))?.is_err();
    let has_states = shown_states(alloc, &found)?.as_str() == states;
    Ok(is_least && has_states && has_letters(alloc, &found, letters)?)
}

// A text, is the problem negated, how many nodes its graph has at least, the states, and the transitions under letters.
type Row = (
    &'static str,
    bool,
    u32,
    &'static str,
    &'static [(&'static str, &'static str)],
);

const AUTOMATA: [Row; 4] = [
    // node 0 waits for p along node 2, or p is true, and then nothing more is asked
    (
        "F p",
        false,
        5,
        "0 4 ",
        &[("", "0>0 1>1! "), ("p", "0>0 0>1! 1>1! ")],
    ),
    // node 2 is the constant, at which no walk ends, and node 3 the True that blocks share
    ("X tt", false, 4, "0 1 3 ", &[("", "0>1! 1>2! 2>2! ")]),
    // nothing leads past a constant that is false
    ("ff", false, 3, "0 2 ", &[("", "1>1! ")]),
    // where g and r differ at some place
    (
        "G(g <-> r)",
        true,
        12,
        "0 10 ",
        &[
            ("", "0>0 1>1! "),
            ("g", "0>0 0>1! 1>1! "),
            ("r", "0>0 0>1! 1>1! "),
            ("gr", "0>0 1>1! "),
        ],
    ),
];

// the place of the first problem with another automaton
fn first_wrong(alloc: Global, rows: &[Row]) -> Result<Option<usize>, Fail> {
    for (place, row) in rows.iter().enumerate() {
        if !is_automaton(alloc, row)? {
            return Ok(Some(place));
        }
    }
    Ok(None)
}

#[test]
fn states_and_letters(rt: HostRuntime) -> Result<(), Fail> {
    assert_eq!(rt; first_wrong(rt.alloc(), &AUTOMATA)?, None);
    Ok(())
}
