// The evaluator: the meaning of a formula on a structure, and of a program.
//
// A set of states is a list of flags. A program is never made a relation: `runs_into` takes a set back through it, to the
// states from which a run leads into the set, and `all_runs_into` is its dual; a star iterates it (`rounds_into`), and so does
// an infinite repetition, from all states downwards (`repeats`).
ghost use Rattle.std.specs.Prelude.{◌≡◌, ◌<◌, length, IfOk};
ghost use Rattle.ml_base.specs.Structure as kripke;
ghost use Rattle.ml_pdl.specs.Formula as plain;
ghost use Rattle.ml_pdl.specs.Meaning as mean;
ghost use Rattle.ml_pdl.specs.Term.{formula_of, program_of};

use crate::sets::{combine, complement, constant, edges_into, singleton, states_with};
use ml_base::NoMemory;
use ml_kripke::Structure;
use ml_pdl::{Formula, Modality, Program, Term};
use ml_text::Operator;
use std::alloc::Global;

/// The set of the states of the structure at which the formula holds: one flag for each state.
///
/// Of a program the states are computed from which a run of it leads into a set; stars and infinite repetitions are
/// approached by iterates, which end at the first that is repeated, and at the number of states at the latest.
///
/// # Errors
/// `NoMemory` alone.
///
/// Cost: each symbol takes time linear in the states, and an action in the edges too; a symbol under k stars and
/// repetitions is computed up to `n^k` times on n states. Memory: one flag for each state and symbol on the way down.
///
/// Source: Fischer and Ladner, Propositional dynamic logic of regular programs (1979).
pub fn evaluate(
    alloc: Global,
    formula: &Formula,
    structure: &Structure,
) -> Result<Vec<bool>, NoMemory>
    ensures value { IfOk result (λ set. set.items ≡ mean.meaning structure.now formula.now) }
    ensures flags { IfOk result (λ set. length set.items ≡ structure.now.states) }
{
    evaluate_term(alloc, structure, formula.root())
}

/// Does the formula hold at this state of the structure?
///
/// # Errors
/// `NoMemory` alone.
///
/// Cost: that of `evaluate`.
pub fn holds(
    alloc: Global,
    formula: &Formula,
    structure: &Structure,
    state: u32,
) -> Result<bool, NoMemory>
    requires { state < structure.now.states }
    ensures { IfOk result (λ holds. holds ≡ kripke.is_member (mean.meaning structure.now formula.now) state) }
{
    let set = evaluate(alloc, formula, structure)?;
    Ok(set[state as usize])
}

/// Does some run of the program lead from the one state to the other?
///
/// # Errors
/// `NoMemory` alone.
///
/// Cost: as `evaluate` of a diamond of the program.
pub fn relates(
    alloc: Global,
    program: &Program,
    structure: &Structure,
    from: u32,
    to: u32,
) -> Result<bool, NoMemory>
    requires from { from < structure.now.states }
    requires to { to < structure.now.states }
    ensures { IfOk result (λ related. related ≡ mean.relation structure.now (program_of program.now) from to) }
{
    let end = singleton(alloc, structure, to)?;
    let states = runs_into(alloc, structure, program, &end)?;
    Ok(states[from as usize])
}

#[cycle(evaluator)]
fn evaluate_term(alloc: Global, structure: &Structure, term: &Term) -> Result<Vec<bool>, NoMemory>
    ensures value { IfOk result (λ set. set.items ≡ mean.meaning structure.now (formula_of term.now)) }
    ensures flags { IfOk result (λ set. length set.items ≡ structure.now.states) }
{
    match term {
        Term::Const(truth) => constant(alloc, structure.states(), *truth),
        Term::Prop(name) => states_with(alloc, structure, name),
        Term::Not(operand) => {
            let set = evaluate_term(alloc, structure, operand)?;
            complement(alloc, &set)
        }
        Term::Binary(operator, left, right) => {
            let left = evaluate_term(alloc, structure, left)?;
            let right = evaluate_term(alloc, structure, right)?;
            combine(alloc, structure, *operator, &left, &right)
        }
        Term::Modal(modality, program, operand) => {
            let set = evaluate_term(alloc, structure, operand)?;
            modal(alloc, structure, *modality, program, &set)
        }
        Term::Repeat(program) => repeats(alloc, structure, program),
    }
}

// the states from which some run of the program leads into the set, or all do
#[cycle(evaluator)]
fn modal(
    alloc: Global,
    structure: &Structure,
    modality: Modality,
    program: &Program,
    set: &[bool],
) -> Result<Vec<bool>, NoMemory>
    requires { length set.now ≡ structure.now.states }
    ensures value { IfOk result (λ states. states.items
        ≡ mean.modal structure.now modality (mean.relation structure.now (program_of program.now)) set.now) }
    ensures flags { IfOk result (λ states. length states.items ≡ structure.now.states) }
{
    match modality {
        Modality::Diamond => runs_into(alloc, structure, program, set),
        Modality::Square => all_runs_into(alloc, structure, program, set),
    }
}

// the states from which some run of the program leads into the set
#[cycle(evaluator)]
fn runs_into(
    alloc: Global,
    structure: &Structure,
    program: &Program,
    set: &[bool],
) -> Result<Vec<bool>, NoMemory>
    requires { length set.now ≡ structure.now.states }
    ensures value { IfOk result (λ states. states.items
        ≡ mean.modal structure.now Modality.Diamond (mean.relation structure.now (program_of program.now)) set.now) }
    ensures flags { IfOk result (λ states. length states.items ≡ structure.now.states) }
{
    match program {
        Program::Act(action) => edges_into(alloc, structure, action, set),
        Program::Seq(first, second) => {
            let between = runs_into(alloc, structure, second, set)?;
            runs_into(alloc, structure, first, &between)
        }
        Program::Alt(left, right) => {
            let left = runs_into(alloc, structure, left, set)?;
            let right = runs_into(alloc, structure, right, set)?;
            combine(alloc, structure, Operator::Or, &left, &right)
        }
        Program::Star(operand) => rounds_into(alloc, structure, operand, set),
        Program::Test(formula) => {
            let holding = evaluate_term(alloc, structure, formula)?;
            combine(alloc, structure, Operator::And, &holding, set)
        }
    }
}

// the states from which all runs of the program lead into the set
#[cycle(evaluator)]
fn all_runs_into(
    alloc: Global,
    structure: &Structure,
    program: &Program,
    set: &[bool],
) -> Result<Vec<bool>, NoMemory>
    requires { length set.now ≡ structure.now.states }
    ensures value { IfOk result (λ states. states.items
        ≡ mean.modal structure.now Modality.Square (mean.relation structure.now (program_of program.now)) set.now) }
    ensures flags { IfOk result (λ states. length states.items ≡ structure.now.states) }
{
    let outside = complement(alloc, set)?;
    let leaving = runs_into(alloc, structure, program, &outside)?;
    complement(alloc, &leaving)
}

// the states from which some number of runs of the program leads into the set
#[cycle(evaluator)]
fn rounds_into(
    alloc: Global,
    structure: &Structure,
    program: &Program,
    set: &[bool],
) -> Result<Vec<bool>, NoMemory>
    requires { length set.now ≡ structure.now.states }
    ensures value { IfOk result (λ states. states.items
        ≡ mean.modal structure.now Modality.Diamond
        (mean.relation structure.now (plain.Star (program_of program.now))) set.now) }
    ensures flags { IfOk result (λ states. length states.items ≡ structure.now.states) }
{
    let mut states = Vec::from_slice(alloc, set)?;
    for _ in 0..structure.states() {
        let before = runs_into(alloc, structure, program, &states)?;
        let next = combine(alloc, structure, Operator::Or, set, &before)?;
        if next == states {
            return Ok(states);
        }
        states = next;
    }
    Ok(states)
}

// the states at which the program can be repeated for ever
#[cycle(evaluator)]
fn repeats(alloc: Global, structure: &Structure, program: &Program) -> Result<Vec<bool>, NoMemory>
    ensures value { IfOk result (λ states. states.items
        ≡ mean.meaning structure.now (plain.Repeat (program_of program.now))) }
    ensures flags { IfOk result (λ states. length states.items ≡ structure.now.states) }
{
    let mut states = constant(alloc, structure.states(), true)?;
    for _ in 0..structure.states() {
        let next = runs_into(alloc, structure, program, &states)?;
        if next == states {
            return Ok(states);
        }
        states = next;
    }
    Ok(states)
}
