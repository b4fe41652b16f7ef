// Structures checked for requirements and a question.
//
// In all logics but LTL of paths a structure is checked for each formula by itself. Where the closure of one is too large, and
// in LTL of paths, it is checked for the joined formula.
ghost use Rattle.std.specs.Prelude.{◌≡◌, ◌≢◌, ◌<◌, ◌↔◌, length, IfOk, IsTrue};
ghost use Rattle.std.specs.List.{AllByRecursion};
ghost use Rattle.ml_front.specs.Logics.{logic_of};
ghost use Rattle.ml_front.specs.Problems.{IsAdmitted};
ghost use Rattle.ml_front.specs.declared.logic.Logic.TheVariants.{Ltl};
ghost use Rattle.ml_spec.specs.Questions.{is_in, IsQuestion};
ghost use Rattle.ml_spec.specs.Specification.{IsSpecified};
ghost use Rattle.ml_replies.specs.Meeting as meeting;
ghost use Rattle.ml_replies.specs.Replies.{MeetsAs};
ghost use Rattle.ml_replies.specs.private.Checks.{EachAs, JoinedAs, OneAs};

use crate::outcome::Meets;
use crate::problems::problems_of;
use ml_base::NoMemory;
use ml_front::{Logic, Problem, truth};
use ml_kripke::Structure;
use ml_model_check::{CheckRefusal, holds};
use ml_spec::{Question, Specification, joined};
use std::alloc::Global;

/// Does the structure meet these requirements at the state, where the question is asked?
///
/// The specification is one as `ml_spec::read` gives it. `taken` tells of each item whether it is among the requirements; at
/// other items it says nothing. `Yes` comes exactly where the structure shows that the requirements can be met where the
/// question is asked, as `specs/Replies.antt` says; `No` exactly where the logic doesn't speak of the structure or some formula
/// that can be checked fails; and `Unknown` everywhere else.
///
/// # Errors
/// `NoMemory` alone.
///
/// Cost: that of `problems_of` and `meets_by`.
pub fn meets(
    alloc: Global,
    specification: &Specification,
    taken: &[bool],
    question: Question,
    structure: &Structure,
    state: u32,
) -> Result<Meets, NoMemory>
    requires specified { IsSpecified specification.now.logic specification.now.items.items }
    requires taken { length taken.now ≡ length specification.now.items.items }
    requires question { IsQuestion specification.now.items.items question }
    requires state { state < structure.now.states }
    ensures { IfOk result (MeetsAs specification.now.logic specification.now.items.items (is_in taken.now) question
        structure.now state) }
{
    let problems = problems_of(alloc, specification, taken, question)?;
    meets_by(
        alloc,
        specification,
        taken,
        question,
        &problems,
        structure,
        state,
    )
}

/// The same, by problems that are there: those that `problems_of` gives of the same requirements and question.
///
/// # Errors
/// `NoMemory` alone.
///
/// Cost: that of `ml_model_check::holds` for each of them, up to the first one that fails; and where a closure is too large, or
/// in LTL of paths, for the joined formula.
pub fn meets_by(
    alloc: Global,
    specification: &Specification,
    taken: &[bool],
    question: Question,
    problems: &[Problem],
    structure: &Structure,
    state: u32,
) -> Result<Meets, NoMemory>
    requires specified { IsSpecified specification.now.logic specification.now.items.items }
    requires taken { length taken.now ≡ length specification.now.items.items }
    requires question { IsQuestion specification.now.items.items question }
    requires problems { problems.now ≡ meeting.problems_of specification.now.items.items (is_in taken.now) question }
    requires state { state < structure.now.states }
    ensures { IfOk result (MeetsAs specification.now.logic specification.now.items.items (is_in taken.now) question
        structure.now state) }
{
    if !is_admitted(alloc, specification.logic, structure, state)? {
        return Ok(Meets::No);
    }
    match specification.logic {
        Logic::Ltl => meets_joined(alloc, specification, taken, question, structure, state),
        Logic::Mu | Logic::Pdl | Logic::Ctl | Logic::Word => {
            match meets_each(alloc, problems, structure, state)? {
                Meets::Yes => Ok(Meets::Yes),
                Meets::No => Ok(Meets::No),
                Meets::Unknown => meets_joined(
                    alloc,
                    specification,
                    taken,
                    question,
                    structure,
                    state,
                ),
            }
        }
    }
}

// does the logic speak of the structure?
fn is_admitted(
    alloc: Global,
    logic: Logic,
    structure: &Structure,
    state: u32,
) -> Result<bool, NoMemory>
    requires { state < structure.now.states }
    ensures { IfOk result (λ admitted. IsTrue admitted ↔ IsAdmitted logic structure.now) }
{
    let problem = Problem {
        formula: truth(logic),
        negated: false,
    };
    speaks_of(alloc, &problem, structure, state)
}

// does the problem's logic speak of the structure?
fn speaks_of(
    alloc: Global,
    problem: &Problem,
    structure: &Structure,
    state: u32,
) -> Result<bool, NoMemory>
    requires { state < structure.now.states }
    ensures { IfOk result (λ speaks. IsTrue speaks ↔ IsAdmitted (logic_of problem.now.formula) structure.now) }
{
    match holds(alloc, problem, structure, state) {
        Ok(_) => Ok(true),
        Err(CheckRefusal::ClosureTooLarge) => Ok(true),
        Err(CheckRefusal::NotTotal(_)) => Ok(false),
        Err(CheckRefusal::NotAWord(_)) => Ok(false),
        Err(CheckRefusal::NoMemory) => Err(NoMemory),
    }
}

// by each problem by itself
fn meets_each(
    alloc: Global,
    problems: &[Problem],
    structure: &Structure,
    state: u32,
) -> Result<Meets, NoMemory>
    requires admitted { AllByRecursion (λ p. IsAdmitted (logic_of p.formula) structure.now) problems.now }
    requires state { state < structure.now.states }
    ensures { IfOk result (EachAs problems.now structure.now state) }
{
    let mut all = Meets::Yes;
    for problem in problems {
        match meets_one(alloc, problem, structure, state)? {
            Meets::Yes => {}
            Meets::No => return Ok(Meets::No),
            Meets::Unknown => all = Meets::Unknown,
        }
    }
    Ok(all)
}

// by one problem
fn meets_one(
    alloc: Global,
    problem: &Problem,
    structure: &Structure,
    state: u32,
) -> Result<Meets, NoMemory>
    requires admitted { IsAdmitted (logic_of problem.now.formula) structure.now }
    requires state { state < structure.now.states }
    ensures { IfOk result (OneAs problem.now structure.now state) }
{
    match holds(alloc, problem, structure, state) {
        Ok(true) => Ok(Meets::Yes),
        Ok(false) => Ok(Meets::No),
        Err(CheckRefusal::ClosureTooLarge) => Ok(Meets::Unknown),
        Err(CheckRefusal::NotTotal(_)) => unreachable!(),
        Err(CheckRefusal::NotAWord(_)) => unreachable!(),
        Err(CheckRefusal::NoMemory) => Err(NoMemory),
    }
}

// by the joined formula
fn meets_joined(
    alloc: Global,
    specification: &Specification,
    taken: &[bool],
    question: Question,
    structure: &Structure,
    state: u32,
) -> Result<Meets, NoMemory>
    requires specified { IsSpecified specification.now.logic specification.now.items.items }
    requires taken { length taken.now ≡ length specification.now.items.items }
    requires question { IsQuestion specification.now.items.items question }
    requires admitted { IsAdmitted specification.now.logic structure.now }
    requires state { state < structure.now.states }
    ensures { IfOk result (JoinedAs (meeting.problem_of specification.now.logic specification.now.items.items (is_in taken.now)
        question) structure.now state) }
{
    match joined(alloc, specification, taken, question)? {
        Some(problem) => meets_one(alloc, &problem, structure, state),
        None => Ok(Meets::Unknown),
    }
}
