// The calls that evaluate formulas and programs on a whole structure, each once.
use ml_kripke::{Structure, read_model};
use ml_pdl::{Modality, Term};
use std::alloc::Global;
use std::test::Fail;

// Three states: by a from 0 to 1, and 1 and 2 to each other. p holds at 2.
const THREE_STATES: &'static [u8] =
    b"states 3\nstart 0\nstate 0\nstate 1\nstate 2 p\nedge 0 a 1\nedge 1 a 2\nedge 2 a 1\nend\n";

// Does the formula of the mu-calculus hold at these states and at no others?
fn is_set_of_mu(
    alloc: Global,
    text: &[u8],
    structure: &Structure,
    states: &[bool],
) -> Result<bool, Fail> {
    let formula = ml_mu::parse(alloc, text)?;
    Ok(ml_mu::evaluate(alloc, &formula, structure)?.as_slice() == states)
}

// Does the one of PDL?
fn is_set_of_pdl(
    alloc: Global,
    text: &[u8],
    structure: &Structure,
    states: &[bool],
) -> Result<bool, Fail> {
    let formula = ml_pdl::parse(alloc, text)?;
    Ok(ml_pdl_meaning::evaluate(alloc, &formula, structure)?.as_slice() == states)
}

// Does the one of PDL hold at this one?
fn holds(alloc: Global, text: &[u8], structure: &Structure, state: u32) -> Result<bool, Fail> {
    let formula = ml_pdl::parse(alloc, text)?;
    if state >= structure.states() {
        return Err(Fail::new("too few states"));
    }
    Ok(ml_pdl_meaning::holds(alloc, &formula, structure, state)?)
}

// Does the program of the diamond relate these states?
fn relates(
    alloc: Global,
    diamond: &[u8],
    structure: &Structure,
    from: u32,
    to: u32,
) -> Result<bool, Fail> {
    let formula = ml_pdl::parse(alloc, diamond)?;
    if from >= structure.states() || to >= structure.states() {
        return Err(Fail::new("too few states"));
    }
    match formula.root() {
        Term::Modal(Modality::Diamond, program, _) => Ok(ml_pdl_meaning::relates(
            alloc, program, structure, from, to,
        )?),
        _ => Err(Fail::new("no diamond")),
    }
}

// Is all evaluated so?
fn are_right(alloc: Global, structure: &Structure) -> Result<bool, Fail> {
    Ok(
        is_set_of_mu(alloc, b"mu X. p | [a]X", structure, &[true, true, true])?
            && is_set_of_pdl(alloc, b"<(a;a)*>p", structure, &[true, false, true])?
            && holds(alloc, b"repeat(a)", structure, 0)?
            && relates(alloc, b"<a;(p)?>tt", structure, 1, 2)?
            && !relates(alloc, b"<a;(p)?>tt", structure, 0, 1)?,
    )
}

#[test]
fn meanings(rt: HostRuntime) -> Result<(), Fail> {
    let model = read_model(rt.alloc(), THREE_STATES, 1)?;
    assert!(rt; are_right(rt.alloc(), &model.structure)?);
    Ok(())
}
