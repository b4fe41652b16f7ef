// Texts of requirements and questions, with what `ml_spec` answers.
use ml_base::NoMemory;
use ml_front::Problem;
use ml_lines::write_number;
use ml_spec::{Question, SpecRefusal, joined, read};
use std::alloc::Global;
use std::test::Fail;

// A text, and the line, the column and the number of the rule of its refusal.
type Refused = (&'static [u8], u64, u64, u32);

const REFUSED: [Refused; 22] = [
    (b"logic word\nrequire a: G(p\n", 2, 15, 1),
    (b"# empty\n", 2, 1, 61),
    (b"", 1, 1, 61),
    (b" logic mu\n", 1, 2, 61),
    (b"logic modal\n", 1, 1, 61),
    (b"logic mu p\n", 1, 1, 61),
    (b"require a: p\nlogic mu\n", 1, 1, 61),
    (b"logic mu\nlogic mu\nlogic pdl\n", 3, 1, 61),
    (b"logic mu\nrequire\n", 2, 8, 63),
    (b"logic mu\nrequire # a\n", 2, 8, 63),
    (b"logic mu\nrequire 1a: p\n", 2, 9, 63),
    (b"logic ltl\nrequire a p\n", 2, 11, 64),
    (b"logic mu\nrequire a\n", 2, 10, 64),
    (
        b"logic mu\nrequire a: p\n\n  # more\nfollows a q\n",
        5,
        9,
        65,
    ),
    (b"logic mu\nrequire a:\n", 2, 11, 1),
    (b"logic mu\nrequire a: X\n", 2, 12, 2),
    (b"logic mu\nrequire a: mu X. !X\n", 2, 19, 3),
    (b"logic mu\nrequire a: p &\n", 2, 15, 1),
    (b"logic mu\nrequire a: p & # q\n  & r\n", 3, 3, 1),
    (b"logic mu\nrequire a: )\npossible a b\n", 2, 12, 1),
    (b"logic mu\nrequire a: p\n  )\n", 3, 3, 1),
    (b"logic mu\nask a: p\n", 2, 1, 62),
];

fn is_refused(alloc: Global, row: &Refused) -> Result<bool, NoMemory> {
    match read(alloc, row.0) {
        Ok(_) => Ok(false),
        Err(SpecRefusal::Refused { line, column, rule }) => {
            Ok(line == row.1 && column == row.2 && rule.number() == row.3)
        }
        Err(SpecRefusal::NoMemory) => Err(NoMemory),
    }
}

// the first row that isn't answered so
fn first_wrong(alloc: Global, rows: &[Refused]) -> Result<usize, NoMemory> {
    for number in 0..rows.len() {
        if !is_refused(alloc, &rows[number])? {
            return Ok(number);
        }
    }
    Ok(rows.len())
}

#[test]
fn texts_that_are_refused(rt: HostRuntime) -> Result<(), Fail> {
    assert_eq!(rt; first_wrong(rt.alloc(), &REFUSED)?, 22);
    Ok(())
}

// this many requirements with the same formula, each in a line of its own
fn many(alloc: Global, count: u32, text: &[u8]) -> Result<Vec<u8>, NoMemory> {
    let mut all = Vec::from_slice(alloc, b"logic mu\n")?;
    for number in 0..count {
        all.extend_from_slice(b"require r")?;
        write_number(&mut all, u64::from(number))?;
        all.extend_from_slice(b": ")?;
        all.extend_from_slice(text)?;
        all.extend_from_slice(b"\n")?;
    }
    Ok(all)
}

// Where the text of so many requirements with this formula is refused, and by which rule; `None` where it isn't.
fn refused_at(alloc: Global, count: u32, text: &[u8]) -> Result<Option<(u64, u32)>, NoMemory> {
    let all = many(alloc, count, text)?;
    match read(alloc, &all) {
        Ok(_) => Ok(None),
        Err(SpecRefusal::Refused { line, rule, .. }) => Ok(Some((line, rule.number()))),
        Err(SpecRefusal::NoMemory) => Err(NoMemory),
    }
}

#[test]
fn limits(rt: HostRuntime) -> Result<(), Fail> {
    assert_eq!(rt; refused_at(rt.alloc(), 4096, b"p & p")?, None);
    assert_eq!(rt; refused_at(rt.alloc(), 4097, b"p & p")?, Some((4098, 66)));
    Ok(())
}

const LIFT: &'static [u8] =
    b"logic word  # on words\nrequire answered: G(call ->  # in the end\n  F open)\n\
    require shut: G(fire -> !open)\npossible rescue: F(call & G fire)\nfollows opens : F open\n";

// is this the joined formula of the requirements `taken` and the question?
fn is_joined(
    alloc: Global,
    taken: &[bool],
    question: Question,
    text: &[u8],
) -> Result<bool, SpecRefusal> {
    let specification = read(alloc, LIFT)?;
    if taken.len() != specification.items.len() || !question.is_of(&specification.items) {
        return Ok(false);
    }
    is_text(alloc, joined(alloc, &specification, taken, question)?, text)
}

// is there a problem, and is this its formula?
fn is_text(alloc: Global, problem: Option<Problem>, text: &[u8]) -> Result<bool, SpecRefusal> {
    match problem {
        Some(problem) => Ok(ml_front::print(alloc, &problem)?.as_slice() == text),
        None => Ok(false),
    }
}

#[test]
fn formulas_joined(rt: HostRuntime) -> Result<(), Fail> {
    let all = [true, true, true, true];
    assert!(rt;
        is_joined(
            rt.alloc(),
            &all,
            Question::Consistent,
            b"(G (call -> F open) & G (fire -> !open))"
        )?
    );
    assert!(rt;
        is_joined(
            rt.alloc(),
            &all,
            Question::Asks(3),
            b"((G (call -> F open) & G (fire -> !open)) & !F open)"
        )?
    );
    let one = [false, true, false, false];
    assert!(rt;
        is_joined(
            rt.alloc(),
            &one,
            Question::Asks(2),
            b"(G (fire -> !open) & F (call & G fire))"
        )?
    );
    let none = [false, false, false, false];
    assert!(rt; is_joined(rt.alloc(), &none, Question::Rest, b"tt")?);
    Ok(())
}

fn all_taken(alloc: Global, count: usize) -> Result<Vec<bool>, NoMemory> {
    let mut taken = Vec::new(alloc);
    for _ in 0..count {
        taken.push(true)?;
    }
    Ok(taken)
}

// is the joined formula of so many requirements with this formula too long to be held?
fn is_too_long(alloc: Global, count: u32, text: &[u8]) -> Result<bool, SpecRefusal> {
    let all = many(alloc, count, text)?;
    let specification = read(alloc, &all)?;
    let taken = all_taken(alloc, specification.items.len())?;
    if taken.len() != specification.items.len() {
        return Ok(false);
    }
    Ok(joined(alloc, &specification, &taken, Question::Consistent)?.is_none())
}

#[test]
fn formulas_too_long(rt: HostRuntime) -> Result<(), Fail> {
    assert!(rt; !is_too_long(rt.alloc(), 250, b"p & p")?);
    assert!(rt; is_too_long(rt.alloc(), 251, b"p & p")?);
    Ok(())
}
