// Formulas with negations at names alone, each of them once.
use indexmap::IndexSet;
use ml_arrays::{number, put, small};
use ml_base::{Name, NoMemory};
use ml_ctl::{Pairing, Tense, Term};
use ml_text::Operator;
use std::alloc::Global;

/// A formula by the numbers of its operands.
#[derive(Clone, Copy, PartialEq, Eq, Hash)]
pub(crate) enum Part {
    True,
    False,
    /// The name at a place, or its negation.
    Literal { name: u32, positive: bool },
    And(u32, u32),
    Or(u32, u32),
    Next(u32),
    Until(u32, u32),
    Release(u32, u32),
}

/// The formulas by their numbers.
#[derive(Drop)]
pub(crate) struct Formulas {
    parts: IndexSet<Part>,
}

/// The number of the formula that is always true.
pub(crate) const TRUE: u32 = 0;

/// The number of the formula that is never true.
pub(crate) const FALSE: u32 = 1;

impl Formulas {
    /// The two constants alone.
    fn begun(alloc: Global) -> Result<Formulas, NoMemory> {
        let mut formulas = Formulas {
            parts: IndexSet::new(alloc),
        };
        formulas.begin()?;
        Ok(formulas)
    }

    fn begin(&mut self) -> Result<(), NoMemory> {
        self.add(Part::True)?;
        self.add(Part::False)?;
        Ok(())
    }

    /// The formula of a number.
    pub(crate) fn part(&self, formula: u32) -> Part {
        match self.parts.as_slice().get(formula as usize) {
            Some(part) => *part,
            None => Part::True,
        }
    }

    fn add(&mut self, part: Part) -> Result<u32, NoMemory> {
        let (number, _) = self.parts.insert_full(part)?;
        Ok(small(number))
    }

    fn and(&mut self, x: u32, y: u32) -> Result<u32, NoMemory> {
        if x == FALSE || y == FALSE {
            Ok(FALSE)
        } else if x == TRUE || x == y {
            Ok(y)
        } else if y == TRUE {
            Ok(x)
        } else {
            self.add(Part::And(x.min(y), x.max(y)))
        }
    }

    fn or(&mut self, x: u32, y: u32) -> Result<u32, NoMemory> {
        if x == TRUE || y == TRUE {
            Ok(TRUE)
        } else if x == FALSE || x == y {
            Ok(y)
        } else if y == FALSE {
            Ok(x)
        } else {
            self.add(Part::Or(x.min(y), x.max(y)))
        }
    }

    fn next(&mut self, x: u32) -> Result<u32, NoMemory> {
        if x == TRUE || x == FALSE {
            Ok(x)
        } else {
            self.add(Part::Next(x))
        }
    }

    fn until(&mut self, x: u32, y: u32) -> Result<u32, NoMemory> {
        if y == TRUE || y == FALSE || x == FALSE {
            Ok(y)
        } else {
            self.add(Part::Until(x, y))
        }
    }

    fn release(&mut self, x: u32, y: u32) -> Result<u32, NoMemory> {
        if y == TRUE || y == FALSE || x == TRUE {
            Ok(y)
        } else {
            self.add(Part::Release(x, y))
        }
    }

    /// A conjunction, or where it is negated a disjunction.
    fn and_in(&mut self, negated: bool, x: u32, y: u32) -> Result<u32, NoMemory> {
        if negated {
            self.or(x, y)
        } else {
            self.and(x, y)
        }
    }

    /// `x U y`, or where it is negated `x R y`.
    fn until_in(&mut self, negated: bool, x: u32, y: u32) -> Result<u32, NoMemory> {
        if negated {
            self.release(x, y)
        } else {
            self.until(x, y)
        }
    }
}

/// An occurrence in a formula, by the places of its operands.
#[derive(Clone, Copy)]
enum Occurrence {
    Constant(bool),
    Name(u32),
    Not(u32),
    Binary(Operator, u32, u32),
    Temporal(Tense, u32),
    Paired(Pairing, u32, u32),
}

/// For each occurrence the number of its formula, and of the negation.
#[derive(Drop)]
struct Numbers {
    plain: Vec<u32>,
    negated: Vec<u32>,
}

impl Numbers {
    fn at(&self, occurrence: u32, negated: bool) -> u32 {
        if negated {
            number(&self.negated, occurrence)
        } else {
            number(&self.plain, occurrence)
        }
    }

    fn set(&mut self, occurrence: u32, plain: u32, negated: u32) {
        put(&mut self.plain, occurrence, plain);
        put(&mut self.negated, occurrence, negated);
    }
}

/// A formula with the names that it speaks of, in two lists one behind the other.
#[derive(Clone, Copy)]
pub(crate) struct Source<'a> {
    pub first: &'a [Name],
    pub second: &'a [Name],
    pub root: &'a Term,
}

/// The place of a name.
fn place_in(names: &[Name], name: &Name, before: usize) -> Option<u32> {
    for (place, other) in names.iter().enumerate() {
        if other == name {
            return Some(small(place.saturating_add(before)));
        }
    }
    None
}

fn place_of(source: Source, name: &Name) -> u32 {
    match place_in(source.first, name, 0) {
        Some(place) => place,
        None => match place_in(source.second, name, source.first.len()) {
            Some(place) => place,
            None => 0,
        },
    }
}

/// The occurrence of a term, whose operands are added to the terms.
fn read_term<'a>(
    source: Source<'a>,
    term: &'a Term,
    terms: &mut Vec<&'a Term>,
) -> Result<Occurrence, NoMemory> {
    let first = small(terms.len());
    let second = first.saturating_add(1);
    match term {
        Term::Const(value) => Ok(Occurrence::Constant(*value)),
        Term::Prop(name) => Ok(Occurrence::Name(place_of(source, name))),
        Term::Not(operand) => {
            terms.push(operand)?;
            Ok(Occurrence::Not(first))
        }
        Term::Temporal(tense, operand) => {
            terms.push(operand)?;
            Ok(Occurrence::Temporal(*tense, first))
        }
        Term::Binary(operator, left, right) => {
            terms.push(left)?;
            terms.push(right)?;
            Ok(Occurrence::Binary(*operator, first, second))
        }
        Term::Paired(pairing, left, right) => {
            terms.push(left)?;
            terms.push(right)?;
            Ok(Occurrence::Paired(*pairing, first, second))
        }
        // no formula of LTL has it
        Term::Quantified(_, _) => Ok(Occurrence::Constant(true)),
    }
}

/// The occurrences of a formula, each before its operands.
fn gather<'a>(
    source: Source<'a>,
    terms: &mut Vec<&'a Term>,
    occurrences: &mut Vec<Occurrence>,
) -> Result<(), NoMemory> {
    terms.push(source.root)?;
    for place in 0..usize::MAX {
        let Some(term) = terms.get(place) else {
            break;
        };
        let term: &'a Term = *term;
        occurrences.push(read_term(source, term, terms)?)?;
    }
    Ok(())
}

/// The formula of an equivalence, or of its negation.
fn equivalence(
    formulas: &mut Formulas,
    numbers: &Numbers,
    negated: bool,
    left: u32,
    right: u32,
) -> Result<u32, NoMemory> {
    let both = formulas.and(numbers.at(left, false), numbers.at(right, negated))?;
    let none = formulas.and(numbers.at(left, true), numbers.at(right, !negated))?;
    formulas.or(both, none)
}

fn binary(
    formulas: &mut Formulas,
    numbers: &Numbers,
    negated: bool,
    operator: Operator,
    left: u32,
    right: u32,
) -> Result<u32, NoMemory> {
    let (x, y) = (numbers.at(left, negated), numbers.at(right, negated));
    match operator {
        Operator::And => formulas.and_in(negated, x, y),
        Operator::Or => formulas.and_in(!negated, x, y),
        Operator::Implies => formulas.and_in(!negated, numbers.at(left, !negated), y),
        Operator::Iff => equivalence(formulas, numbers, negated, left, right),
    }
}

fn temporal(
    formulas: &mut Formulas,
    negated: bool,
    tense: Tense,
    operand: u32,
) -> Result<u32, NoMemory> {
    match tense {
        Tense::Next => formulas.next(operand),
        Tense::Finally if negated => formulas.release(FALSE, operand),
        Tense::Finally => formulas.until(TRUE, operand),
        Tense::Globally if negated => formulas.until(TRUE, operand),
        Tense::Globally => formulas.release(FALSE, operand),
    }
}

fn paired(
    formulas: &mut Formulas,
    negated: bool,
    pairing: Pairing,
    x: u32,
    y: u32,
) -> Result<u32, NoMemory> {
    match pairing {
        Pairing::Until => formulas.until_in(negated, x, y),
        Pairing::Release => formulas.until_in(!negated, x, y),
        Pairing::Weak => {
            let either = formulas.and_in(!negated, x, y)?;
            formulas.until_in(!negated, y, either)
        }
    }
}

/// The formula of an occurrence, or of its negation.
fn formula_of(
    formulas: &mut Formulas,
    numbers: &Numbers,
    occurrence: Occurrence,
    negated: bool,
) -> Result<u32, NoMemory> {
    match occurrence {
        Occurrence::Constant(value) => Ok(if value != negated { TRUE } else { FALSE }),
        Occurrence::Name(name) => formulas.add(Part::Literal {
            name,
            positive: !negated,
        }),
        Occurrence::Not(operand) => Ok(numbers.at(operand, !negated)),
        Occurrence::Binary(operator, left, right) => {
            binary(formulas, numbers, negated, operator, left, right)
        }
        Occurrence::Temporal(tense, operand) => {
            temporal(formulas, negated, tense, numbers.at(operand, negated))
        }
        Occurrence::Paired(pairing, left, right) => {
            let (x, y) = (numbers.at(left, negated), numbers.at(right, negated));
            paired(formulas, negated, pairing, x, y)
        }
    }
}

/// Adds the formulas of all occurrences, operands first.
fn add_all(
    formulas: &mut Formulas,
    occurrences: &[Occurrence],
    numbers: &mut Numbers,
) -> Result<(), NoMemory> {
    for (place, occurrence) in occurrences.iter().enumerate().rev() {
        let plain = formula_of(formulas, numbers, *occurrence, false)?;
        let negated = formula_of(formulas, numbers, *occurrence, true)?;
        numbers.set(small(place), plain, negated);
    }
    Ok(())
}

fn add_occurrences(
    alloc: Global,
    formulas: &mut Formulas,
    occurrences: &[Occurrence],
) -> Result<Numbers, NoMemory> {
    let mut numbers = Numbers {
        plain: vec![in alloc; TRUE; occurrences.len()]?,
        negated: vec![in alloc; TRUE; occurrences.len()]?,
    };
    add_all(formulas, occurrences, &mut numbers)?;
    Ok(numbers)
}

/// A formula, or its negation, with all that it is made of, and its number.
pub(crate) fn formula_in(
    alloc: Global,
    source: Source,
    negated: bool,
) -> Result<(Formulas, u32), NoMemory> {
    let mut formulas = Formulas::begun(alloc)?;
    let root = add_formula(alloc, source, negated, &mut formulas)?;
    Ok((formulas, root))
}

fn add_formula(
    alloc: Global,
    source: Source,
    negated: bool,
    formulas: &mut Formulas,
) -> Result<u32, NoMemory> {
    let mut terms = Vec::new(alloc);
    let mut occurrences = Vec::new(alloc);
    gather(source, &mut terms, &mut occurrences)?;
    let numbers = add_occurrences(alloc, formulas, &occurrences)?;
    Ok(numbers.at(0, negated))
}
