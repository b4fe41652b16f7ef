// Automata of small formulas, worked out by hand, as texts; and a limit of places.
use ml_translate::{TranslateRefusal, automaton_of_formula, write};
use std::alloc::Global;
use std::test::Fail;

// the text of a formula's automaton, if its word automaton has so many places at most
fn text_of(
    alloc: Global,
    formula: &str,
    limit: u32,
) -> Result<Result<Vec<u8>, TranslateRefusal>, Fail> {
    let formula = ml_ltl::parse(alloc, formula.as_bytes())?;
    match automaton_of_formula(alloc, &formula, limit) {
        Ok(automaton) => Ok(Ok(write(alloc, &automaton)?)),
        Err(refusal) => Ok(Err(refusal)),
    }
}

// a formula, and the text of its automaton
type Row = (&'static str, &'static str);

const TEXTS: [Row; 4] = [
    // the True that blocks share has the edge of the first block
    (
        "tt",
        "HOA: v1\nStates: 1\nStart: 0\nAP: 0\nacc-name: Buchi\nAcceptance: 1 Inf(0)\nproperties: trans-labels explicit-labels trans-acc\n--BODY--\nState: 0\n[t] 0 {0}\n--END--\n",
    ),
    // no walk goes on past both signs
    (
        "p & !p",
        "HOA: v1\nStates: 1\nStart: 0\nAP: 1 \"p\"\nacc-name: Buchi\nAcceptance: 1 Inf(0)\nproperties: trans-labels explicit-labels trans-acc\n--BODY--\nState: 0\n--END--\n",
    ),
    // p is true now, or is waited for
    (
        "G F p",
        "HOA: v1\nStates: 1\nStart: 0\nAP: 1 \"p\"\nacc-name: Buchi\nAcceptance: 1 Inf(0)\nproperties: trans-labels explicit-labels trans-acc\n--BODY--\nState: 0\n[t] 0\n[0] 0 {0}\n--END--\n",
    ),
    // q is true now, or p is and q is waited for
    (
        "p U q",
        "HOA: v1\nStates: 2\nStart: 0\nAP: 2 \"p\" \"q\"\nacc-name: Buchi\nAcceptance: 1 Inf(0)\nproperties: trans-labels explicit-labels trans-acc\n--BODY--\nState: 0\n[1] 1 {0}\n[0] 0\nState: 1\n[t] 1 {0}\n--END--\n",
    ),
];

// the place of the first formula with another text
fn first_wrong(alloc: Global, rows: &[Row]) -> Result<Option<usize>, Fail> {
    for (place, (formula, wanted)) in rows.iter().enumerate() {
        if text_of(alloc, formula, 100)??.as_slice() != wanted.as_bytes() {
            return Ok(Some(place));
        }
    }
    Ok(None)
}

#[test]
fn texts(rt: HostRuntime) -> Result<(), Fail> {
    assert_eq!(rt; first_wrong(rt.alloc(), &TEXTS)?, None);
    Ok(())
}

// six places are within a limit of six, and pass one of five
#[test]
fn limits(rt: HostRuntime) -> Result<(), Fail> {
    let alloc = rt.alloc();
    let is_passed = matches!(text_of(alloc, "p U q", 5)?, Err(TranslateRefusal::Passed));
    assert_eq!(rt; is_passed, true);
    assert_eq!(rt; text_of(alloc, "p U q", 6)?.is_ok(), true);
    Ok(())
}
