// Propositions replaced by formulas.
ghost use Rattle.std.specs.Prelude.{◌≡◌, ◌+◌, ◌<◌, IfOk, MatchOption, OnOk};
ghost use Rattle.ml_text.specs.Limits.{most_occurrences};
ghost use Rattle.ml_pdl.specs.Formula as plain;
ghost use Rattle.ml_pdl.specs.Formula.{occurrences, program_occurrences};
ghost use Rattle.ml_pdl.specs.Replaced.{replaced, replaced_program, standing_for};
ghost use Rattle.ml_pdl.specs.Term.{formula_of, program_of};
ghost use Rattle.ml_pdl.specs.private.AsSound.{IsAsSound, IsAsSoundProgram};

use crate::copying::{copy_term, occurrences};
use crate::{Formula, Program, Term};
use indexmap::IndexMap;
use ml_base::{Name, NoMemory};
use ml_text::MOST_OCCURRENCES;
use std::alloc::Global;

/// A formula with each proposition replaced by the formula for which it stands by the definitions, also in tests; `None`
/// exactly where that has more than 1,000 occurrences.
///
/// All propositions are replaced at once: nothing is replaced in the formulas that come in.
///
/// # Errors
/// `NoMemory` alone.
///
/// Cost: on average linear in the occurrences and the lengths of the names of the formula and of what comes back, however many
/// definitions there are. No call is nested deeper than the formulas.
#[tactic(auto, using(crate::proofs::SoundReplaced::replaced_is_held))]
pub fn replaced(
    alloc: Global,
    formula: &Formula,
    definitions: &IndexMap<Name, Formula>,
) -> Result<Option<Formula>, NoMemory>
    ensures { IfOk result (λ made. MatchOption made
        (most_occurrences < occurrences (replaced definitions.now.entries formula.now))
        (λ f. f ≡ replaced definitions.now.entries formula.now)) }
{
    if room_behind(formula.root(), definitions, MOST_OCCURRENCES).is_none() {
        return Ok(None);
    }
    let root = replaced_term(alloc, formula.root(), definitions)?;
    Ok(Some(Formula::new(root)))
}

// the formula for which a proposition stands, if there is a definition of it
fn definition_of<'a>(name: &Name, definitions: &'a IndexMap<Name, Formula>) -> Option<&'a Formula>
    ensures { MatchOption result
        (standing_for definitions.now.entries name.now ≡ plain.Prop name.now)
        (λ f. standing_for definitions.now.entries name.now ≡ f.now) }
{
    definitions.get(name)
}

// how many occurrences the formula has for which a proposition stands
fn standing_occurrences(name: &Name, definitions: &IndexMap<Name, Formula>) -> u32
    ensures { result ≡ occurrences (standing_for definitions.now.entries name.now) }
{
    match definition_of(name, definitions) {
        Some(formula) => occurrences(formula),
        None => 1,
    }
}

// what is left of the room for occurrences behind a tree with its propositions replaced, `None` where that has more; no more
// is counted than there is room for, and one formula that stands for a proposition
#[cycle(counter)]
fn room_behind(term: &Term, definitions: &IndexMap<Name, Formula>, room: u32) -> Option<u32>
    ensures { MatchOption result
        (room < occurrences (replaced definitions.now.entries (formula_of term.now)))
        (λ left. left + occurrences (replaced definitions.now.entries (formula_of term.now)) ≡ room) }
{
    match term {
        Term::Const(_) => room.checked_sub(1),
        Term::Prop(name) => room.checked_sub(standing_occurrences(name, definitions)),
        Term::Not(operand) => room_behind(operand, definitions, room.checked_sub(1)?),
        Term::Binary(operator, left, right) => {
            let room = room.checked_sub(operator.weight())?;
            room_behind(right, definitions, room_behind(left, definitions, room)?)
        }
        Term::Modal(_, program, operand) => {
            let room = room_behind_program(program, definitions, room.checked_sub(1)?)?;
            room_behind(operand, definitions, room)
        }
        Term::Repeat(program) => { room_behind_program(program, definitions, room.checked_sub(1)?) }
    }
}

// so behind a program
#[cycle(counter)]
fn room_behind_program(
    program: &Program,
    definitions: &IndexMap<Name, Formula>,
    room: u32,
) -> Option<u32>
    ensures { MatchOption result
        (room < program_occurrences (replaced_program definitions.now.entries (program_of program.now)))
        (λ left. left + program_occurrences (replaced_program definitions.now.entries (program_of program.now)) ≡ room) }
{
    let room = room.checked_sub(1)?;
    match program {
        Program::Act(_) => Some(room),
        Program::Seq(left, right) | Program::Alt(left, right) => {
            let room = room_behind_program(left, definitions, room)?;
            room_behind_program(right, definitions, room)
        }
        Program::Star(operand) => room_behind_program(operand, definitions, room),
        Program::Test(formula) => room_behind(formula, definitions, room),
    }
}

// the tree of the formula for which a proposition stands
#[tactic(auto, using(crate::proofs::SoundReplaced::itself, crate::proofs::SoundReplaced::sound))]
fn standing_term(
    alloc: Global,
    name: &Name,
    definitions: &IndexMap<Name, Formula>,
) -> Result<Term, NoMemory>
    ensures made { IfOk result (λ made. formula_of made ≡ standing_for definitions.now.entries name.now) }
    ensures sound { OnOk result (IsAsSound (plain.Prop name.now) (standing_for definitions.now.entries name.now)) }
{
    match definition_of(name, definitions) {
        Some(formula) => copy_term(alloc, formula.root()),
        None => Ok(Term::Prop(name.copy()?)),
    }
}

// a tree with its propositions replaced
#[tactic(auto, using(crate::proofs::SoundReplaced::itself, crate::proofs::SoundReplaced::both))]
#[cycle(replacer)]
fn replaced_term(
    alloc: Global,
    term: &Term,
    definitions: &IndexMap<Name, Formula>,
) -> Result<Term, NoMemory>
    ensures made { IfOk result (λ made. formula_of made ≡ replaced definitions.now.entries (formula_of term.now)) }
    ensures sound { OnOk result
        (IsAsSound (formula_of term.now) (replaced definitions.now.entries (formula_of term.now))) }
{
    match term {
        Term::Const(value) => Ok(Term::Const(*value)),
        Term::Prop(name) => standing_term(alloc, name, definitions),
        Term::Not(operand) => Ok(Term::Not(replaced_operand(alloc, operand, definitions)?)),
        Term::Binary(operator, left, right) => {
            let left = replaced_operand(alloc, left, definitions)?;
            Ok(Term::Binary(
                *operator,
                left,
                replaced_operand(alloc, right, definitions)?,
            ))
        }
        Term::Modal(modality, program, operand) => {
            let program = replaced_program(alloc, program, definitions)?;
            Ok(Term::Modal(
                *modality,
                program,
                replaced_operand(alloc, operand, definitions)?,
            ))
        }
        Term::Repeat(program) => Ok(Term::Repeat(replaced_program(alloc, program, definitions)?)),
    }
}

#[cycle(replacer)]
fn replaced_operand(
    alloc: Global,
    operand: &Term,
    definitions: &IndexMap<Name, Formula>,
) -> Result<Box<Term>, NoMemory>
    ensures made { IfOk result (λ made.
        formula_of made.value ≡ replaced definitions.now.entries (formula_of operand.now)) }
    ensures sound { OnOk result
        (IsAsSound (formula_of operand.now) (replaced definitions.now.entries (formula_of operand.now))) }
{
    let made = replaced_term(alloc, operand, definitions)?;
    Ok(Box::new(alloc, made)?)
}

// a program with the propositions of its tests replaced
#[tactic(auto, using(crate::proofs::SoundReplaced::itself, crate::proofs::SoundReplaced::both))]
#[cycle(replacer)]
fn replaced_program(
    alloc: Global,
    program: &Program,
    definitions: &IndexMap<Name, Formula>,
) -> Result<Program, NoMemory>
    ensures made { IfOk result (λ made.
        program_of made ≡ replaced_program definitions.now.entries (program_of program.now)) }
    ensures sound { OnOk result
        (IsAsSoundProgram (program_of program.now) (replaced_program definitions.now.entries (program_of program.now))) }
{
    match program {
        Program::Act(action) => Ok(Program::Act(action.copy()?)),
        Program::Seq(left, right) => {
            let left = replaced_part(alloc, left, definitions)?;
            Ok(Program::Seq(left, replaced_part(alloc, right, definitions)?))
        }
        Program::Alt(left, right) => {
            let left = replaced_part(alloc, left, definitions)?;
            Ok(Program::Alt(left, replaced_part(alloc, right, definitions)?))
        }
        Program::Star(operand) => Ok(Program::Star(replaced_part(alloc, operand, definitions)?)),
        Program::Test(formula) => Ok(Program::Test(replaced_operand(alloc, formula, definitions)?)),
    }
}

#[cycle(replacer)]
fn replaced_part(
    alloc: Global,
    part: &Program,
    definitions: &IndexMap<Name, Formula>,
) -> Result<Box<Program>, NoMemory>
    ensures made { IfOk result (λ made.
        program_of made.value ≡ replaced_program definitions.now.entries (program_of part.now)) }
    ensures sound { OnOk result
        (IsAsSoundProgram (program_of part.now) (replaced_program definitions.now.entries (program_of part.now))) }
{
    let made = replaced_program(alloc, part, definitions)?;
    Ok(Box::new(alloc, made)?)
}
