// The problems of which a structure is checked, one for each formula.
ghost use Rattle.std.specs.Prelude.{◌≡◌, ◌++◌, ◌∷◌, [], length, map, IfOk, OnOk};
ghost use Rattle.ml_spec.specs.Joined.{requirements};
ghost use Rattle.ml_spec.specs.Questions.{chosen, is_in, IsQuestion};
ghost use Rattle.ml_replies.specs.Meeting.{plain, problem_by_item, problems_asked};
ghost use Rattle.ml_replies.specs.Meeting as meeting;

use ml_base::NoMemory;
use ml_front::{Problem, copy_formula};
use ml_spec::{Item, Kind, Question, Specification};
use std::alloc::Global;

/// The problems of what a question asks for and of the requirements, each by itself: plain ones, and for `follows` the negated
/// one of its formula. First comes the question's, where it has one, and then the requirements', in the order of the
/// specification.
///
/// `taken` tells of each item whether it is among the requirements; at other items it says nothing.
///
/// # Errors
/// `NoMemory` alone.
///
/// Cost: linear in the items, and in the occurrences of these formulas, which are copied.
pub fn problems_of(
    alloc: Global,
    specification: &Specification,
    taken: &[bool],
    question: Question,
) -> Result<Vec<Problem>, NoMemory>
    requires taken { length taken.now ≡ length specification.now.items.items }
    requires question { IsQuestion specification.now.items.items question }
    ensures { IfOk result (λ problems. problems.items
        ≡ meeting.problems_of specification.now.items.items (is_in taken.now) question) }
{
    let mut problems = Vec::new(alloc);
    add_asked(alloc, &specification.items, question, &mut problems)?;
    add_requirements(alloc, &specification.items, taken, &mut problems)?;
    Ok(problems)
}

// adds the problem of what the question asks for
fn add_asked(
    alloc: Global,
    items: &[Item],
    question: Question,
    problems: &mut Vec<Problem>,
) -> Result<(), NoMemory>
    requires { IsQuestion items.now question }
    ensures { OnOk result (problems.new.items ≡ problems.old.items ++ problems_asked items.now question) }
{
    match question {
        Question::Consistent | Question::Rest => Ok(()),
        Question::Asks(number) => {
            let problem = problem_of_item(alloc, &items[number])?;
            problems.push(problem)?;
            Ok(())
        }
    }
}

// adds the problems of the requirements that are taken
fn add_requirements(
    alloc: Global,
    items: &[Item],
    taken: &[bool],
    problems: &mut Vec<Problem>,
) -> Result<(), NoMemory>
    requires { length taken.now ≡ length items.now }
    ensures { OnOk result (problems.new.items
        ≡ problems.old.items ++ map plain (requirements (chosen (is_in taken.now) items.now))) }
{
    for number in 0..items.len() {
        let item = &items[number];
        if taken[number] && item.kind.is_requirement() {
            let problem = problem_of_item(alloc, item)?;
            problems.push(problem)?;
        }
    }
    Ok(())
}

/// The problem of what an item asks for, by itself: a plain one, and for `follows` the negated one of its formula.
///
/// # Errors
/// `NoMemory` alone.
///
/// Cost: linear in the occurrences of the formula, which is copied.
pub fn problem_of_item(alloc: Global, item: &Item) -> Result<Problem, NoMemory>
    ensures { IfOk result (λ problem. problem ≡ problem_by_item item.now) }
{
    let formula = copy_formula(alloc, &item.formula)?;
    let negated = match item.kind {
        Kind::Follows => true,
        Kind::Require | Kind::Possible => false,
    };
    Ok(Problem { formula, negated })
}
