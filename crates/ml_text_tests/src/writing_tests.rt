// What no command writes: the text of a model, of a refutation in version 1, and of a formula alone.
use ml_base::{Action, DocRefusal, Version};
use ml_front::Logic;
use ml_kripke::{Model, read_model, write_model};
use ml_refutation_text::{read, write};
use std::alloc::Global;
use std::test::Fail;

// Two states, of which the second one leads to both.
const MODEL: &'static [u8] =
    b"states 2\nstart 1\nstate 0 p\nstate 1 p q\nedge 0 _ 1\nedge 1 a 1\nedge 1 b 0\nend\n";

// Is this the text of the model, in which some state has no edge by the action?
fn is_written(alloc: Global, model: &Model, action: &Action, text: &[u8]) -> Result<bool, Fail> {
    Ok(!model.structure.is_total(action) && write_model(alloc, model)?.as_slice() == text)
}

#[test]
fn a_model(rt: HostRuntime) -> Result<(), Fail> {
    let model = read_model(rt.alloc(), MODEL, 6)?;
    let action = Action::new(rt.alloc(), b"_")?;
    assert!(rt; is_written(rt.alloc(), &model, &action, MODEL)?);
    Ok(())
}

// The refutation of `mu X. <>X`, in both versions.
const ENDLESS: &'static [u8] =
    b"names 2\nentries 4\nentry 0\nsequent 0\nlive 1\nitem 0 - 0\nheights 0 0 2\ngo 2 1 neutral\n\
      entry 1\nsequent 4\nlive 1\nitem 4 - 0\nitem 4 1 0\nheights 0 0 1\ngo 2 2 neutral\n\
      entry 2\nsequent 4\nlive 2\nitem 4 - 0\nitem 4 1 0 1\nheights 0 0 0\ngo 2 3 green 1\n\
      entry 3\nsequent 4\nlive 2\nitem 4 - 0\nitem 4 1 0 1\nheights 0 0 0\ngo 2 3 green 1\nend\n";

const ENDLESS_BY_TABLES: &'static [u8] =
    b"names 2\nsequents 2\nsequent 0\nsequent 4\nstacks 2\nstack 0\nstack 0 1\nentries 4\n\
      entry 0 0\nlive 1\nitem 0 - 0\nheights 0 0 2\ngo 2 1 neutral\n\
      entry 1 1\nlive 1\nitem 4 - 0\nitem 4 1 0\nheights 0 0 1\ngo 2 2 neutral\n\
      entry 2 1\nlive 2\nitem 4 - 0\nitem 4 1 1\nheights 0 0 0\ngo 2 3 green 1\n\
      entry 3 1\nlive 2\nitem 4 - 0\nitem 4 1 1\nheights 0 0 0\ngo 2 3 green 1\nend\n";

// The text in version 1 of the refutation of a text in version 2.
fn written_in_full(alloc: Global, text: &[u8]) -> Result<Vec<u8>, DocRefusal> {
    let (refutation, _) = read(alloc, text, 6, Version::Two)?;
    Ok(write(alloc, &refutation, Version::One)?)
}

#[test]
fn a_refutation_in_version_1(rt: HostRuntime) -> Result<(), Fail> {
    assert!(rt; written_in_full(rt.alloc(), ENDLESS_BY_TABLES)?.as_slice() == ENDLESS);
    Ok(())
}

// A logic, and the canonical text of a formula.
type Formula = (Logic, &'static [u8]);

const FORMULAS: [Formula; 5] = [
    (Logic::Mu, b"(nu X. (mu Y. (<a>X | [b](Y & p))))"),
    (Logic::Pdl, b"(<(a;(p)?)*>!p & [a]p)"),
    (Logic::Ctl, b"(E (p W q) -> A (q R p))"),
    (Logic::Ltl, b"((p U q) W r)"),
    (Logic::Word, b"(p <-> G q)"),
];

// Is the formula of the text printed as it stands there?
fn is_printed(alloc: Global, logic: Logic, text: &[u8]) -> Result<bool, Fail> {
    let problem = ml_front::read(alloc, logic, text)?;
    Ok(ml_front::print(alloc, &problem)?.as_slice() == text)
}

// The place of the first formula that is printed otherwise.
fn first_wrong(alloc: Global, rows: &[Formula]) -> Result<Option<usize>, Fail> {
    for (place, (logic, text)) in rows.iter().enumerate() {
        if !is_printed(alloc, *logic, text)? {
            return Ok(Some(place));
        }
    }
    Ok(None)
}

#[test]
fn formulas(rt: HostRuntime) -> Result<(), Fail> {
    assert_eq!(rt; first_wrong(rt.alloc(), &FORMULAS)?, None);
    Ok(())
}
