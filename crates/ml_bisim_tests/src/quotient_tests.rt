// A quotient worked out by hand, with the class of each state; the structures of quotients are rows of `ml_examples`.
use ml_bisim::{Quotient, quotient};
use ml_kripke::{Model, Structure, read_model, write_model};
use std::alloc::Global;
use std::test::Fail;

// 0 and 3 lead to states with p by a, 1 and 2 lead nowhere, and 4 leads to 0, which has no p.
const FIVE_STATES: &'static [u8] =
    b"states 5\nstart 0\nstate 0\nstate 1 p\nstate 2 p\nstate 3\nstate 4\nedge 0 a 1\nedge 0 a 2\nedge 3 a 2\nedge 4 a 0\nend\n";

// one state for each class
const THREE_CLASSES: &'static [u8] =
    b"states 3\nstart 0\nstate 0\nstate 1 p\nstate 2\nedge 0 a 1\nedge 2 a 0\nend\n";

// Is this the text of the structure, from its first state?
fn is_text_of(alloc: Global, structure: Structure, wanted: &[u8]) -> Result<bool, Fail> {
    if structure.states() == 0 {
        return Err(Fail::new("no state"));
    }
    Ok(write_model(alloc, &Model::new(structure, 0))?.as_slice() == wanted)
}

// Has the quotient of the text's structure these classes, and this text?
fn is_quotient(alloc: Global, text: &[u8], classes: &[u32], wanted: &[u8]) -> Result<bool, Fail> {
    let model = read_model(alloc, text, 1)?;
    let Quotient { structure, class } = quotient(alloc, &model.structure)?;
    Ok(class.as_slice() == classes && is_text_of(alloc, structure, wanted)?)
}

#[test]
fn bisimilar_states_have_one_class(rt: HostRuntime) -> Result<(), Fail> {
    assert!(rt; is_quotient(rt.alloc(), FIVE_STATES, &[0, 1, 1, 0, 2], THREE_CLASSES)?);
    Ok(())
}
