// The questions of a specification, answered in order.
ghost use Rattle.std.specs.Prelude.{◌≡◌, ◌≤◌, ◌++◌, [], ◌∷◌, true, length, map, replicate, IfOk, OnOk};
ghost use Rattle.std.specs.List.{list_any};
ghost use Rattle.ml_spec.specs.Kinds.{is_requirement};
ghost use Rattle.ml_spec.specs.Specification.{IsSpecified};
ghost use Rattle.ml_spec.specs.Joined.{requirements};
ghost use Rattle.ml_spec.specs.Questions.{asking};
ghost use Rattle.ml_replies.specs.Meeting.{everything};
ghost use Rattle.ml_replies.specs.Replies.{AreConflicts, AreOfAll, AreReplies};
ghost use Rattle.ml_replies.specs.Answers.{replied_of};
ghost use Rattle.ml_ask.specs.private.Steps.{AreAnswered, IsAdded, IsAnswerTo, IsAsked, IsRestOf};

use crate::asked::Asked;
use crate::hints::Hints;
use crate::leaving::needed;
use crate::seeking::seek;
use crate::sets::{for_all, left_beside};
use crate::sought::Sought;
use ml_base::NoMemory;
use ml_replies::{Answer, Answered};
use ml_spec::{Item, Question, Specification};
use std::alloc::Global;

/// The answers to the questions of a specification, in their order. First, where there are requirements, comes whether all of
/// them can be met together; where they can't, whether those that the conflict doesn't name can, and so on, up to an answer
/// that is no conflict. Then each question is answered as it stands in the text, asked of all requirements.
///
/// The specification is one as `ml_spec::read` gives it, and the limit, which says how many positions the decision game of a
/// problem may have, is 1 or more.
///
/// # Errors
/// `NoMemory` alone.
///
/// Cost: for each answer that of one search with all formulas at once, of about as many more as it found requirements that
/// clash, and of structures that are checked; where the search with all leads to nothing, of one more for each requirement at
/// most. Each search is bounded by a fixed multiple of the limit.
pub fn ask(
    alloc: Global,
    specification: &Specification,
    limit: u32,
) -> Result<Vec<Answered>, NoMemory>
    requires specified { IsSpecified specification.now.logic specification.now.items.items }
    requires some { 1 ≤ limit }
    ensures { IfOk result (λ answers. AreReplies specification.now.logic specification.now.items.items limit
        (map replied_of answers.items)) }
{
    let mut answers = Vec::new(alloc);
    add_conflicts(alloc, specification, limit, &mut answers)?;
    add_answers(alloc, specification, limit, &mut answers)?;
    Ok(answers)
}

// adds to none whether the requirements can be met together, where there are any, and whether the rest can
fn add_conflicts(
    alloc: Global,
    specification: &Specification,
    limit: u32,
    answers: &mut Vec<Answered>,
) -> Result<(), NoMemory>
    requires specified { IsSpecified specification.now.logic specification.now.items.items }
    requires some { 1 ≤ limit }
    requires empty { answers.old.items ≡ [] }
    ensures { OnOk result (AreOfAll specification.now.logic specification.now.items.items limit
        (requirements specification.now.items.items) (map replied_of answers.new.items)) }
{
    if has_requirements(&specification.items) {
        let all = for_all(alloc, specification.items.len(), true)?;
        add_lines(alloc, specification, limit, all, answers)?;
    }
    Ok(())
}

fn has_requirements(items: &[Item]) -> bool
    ensures { result ≡ list_any (λ x. is_requirement x.kind) items.now }
{
    items.iter().any(|item| item.kind.is_requirement())
}

// adds to none whether these requirements can be met together; and as long as some can't, whether the rest can
fn add_lines(
    alloc: Global,
    specification: &Specification,
    limit: u32,
    all: Vec<bool>,
    answers: &mut Vec<Answered>,
) -> Result<(), NoMemory>
    requires specified { IsSpecified specification.now.logic specification.now.items.items }
    requires some { 1 ≤ limit }
    requires all { all.items ≡ replicate (length specification.now.items.items) true }
    requires empty { answers.old.items ≡ [] }
    ensures { OnOk result (AreConflicts specification.now.logic specification.now.items.items limit everything
        Question.Consistent (map replied_of answers.new.items)) }
{
    let mut left = all;
    let mut question = Question::Consistent;
    while let Some(rest) = add_line(
        alloc,
        Asked {
            specification,
            among: &left,
            question,
            limit,
        },
        answers,
    )? {
        left = rest;
        question = Question::Rest;
    }
    Ok(())
}

// adds the answer to a question; where it is a conflict, the requirements that it doesn't name
fn add_line(
    alloc: Global,
    asked: Asked,
    answers: &mut Vec<Answered>,
) -> Result<Option<Vec<bool>>, NoMemory>
    requires { IsAsked asked }
    ensures { IfOk result (IsAdded asked.entry answers.old.items answers.new.items) }
{
    let answered = answered_to(alloc, asked, answers)?;
    let rest = rest_of(alloc, asked, &answered.answer)?;
    answers.push(answered)?;
    Ok(rest)
}

// the requirements that a conflict doesn't name
fn rest_of(alloc: Global, asked: Asked, answer: &Answer) -> Result<Option<Vec<bool>>, NoMemory>
    requires asked { IsAsked asked }
    requires answer { IsAnswerTo asked answer.now }
    ensures { IfOk result (IsRestOf asked.entry answer.now) }
{
    match answer {
        Answer::No(core) => {
            let rest = left_beside(alloc, asked.among, &core.taken)?;
            Ok(Some(rest))
        }
        Answer::Yes(_) | Answer::Open => Ok(None),
    }
}

// adds the answers to the questions of the items, which are asked of all requirements
fn add_answers(
    alloc: Global,
    specification: &Specification,
    limit: u32,
    answers: &mut Vec<Answered>,
) -> Result<(), NoMemory>
    requires specified { IsSpecified specification.now.logic specification.now.items.items }
    requires some { 1 ≤ limit }
    ensures { OnOk result (AreAnswered specification.now.logic specification.now.items.items limit
        (asking specification.now.items.items) answers.old.items answers.new.items) }
{
    let all = for_all(alloc, specification.items.len(), true)?;
    for number in 0..specification.items.len() {
        if !specification.items[number].kind.is_requirement() {
            let asked = Asked {
                specification,
                among: &all,
                question: Question::Asks(number),
                limit,
            };
            let answered = answered_to(alloc, asked, answers)?;
            answers.push(answered)?;
        }
    }
    Ok(())
}

// a question with its answer
fn answered_to(alloc: Global, asked: Asked, earlier: &[Answered]) -> Result<Answered, NoMemory>
    requires { IsAsked asked }
    ensures question { IfOk result (λ a. a.question ≡ asked.entry.question) }
    ensures answer { IfOk result (λ a. IsAnswerTo asked.entry a.answer) }
{
    let answer = answer_to(alloc, asked, earlier)?;
    Ok(Answered {
        question: asked.question,
        answer,
    })
}

fn answer_to(alloc: Global, asked: Asked, earlier: &[Answered]) -> Result<Answer, NoMemory>
    requires { IsAsked asked }
    ensures { IfOk result (IsAnswerTo asked.entry) }
{
    let mut hints = Hints::new(alloc);
    answer_with(alloc, asked, earlier, &mut hints)
}

// with hints that are found on the way
fn answer_with(
    alloc: Global,
    asked: Asked,
    earlier: &[Answered],
    hints: &mut Hints,
) -> Result<Answer, NoMemory>
    requires { IsAsked asked }
    ensures { IfOk result (IsAnswerTo asked.entry) }
{
    match seek(alloc, asked, earlier, hints)? {
        Sought::Met(model) => Ok(Answer::Yes(model)),
        Sought::Unmet(refuted) => {
            let core = needed(alloc, asked, refuted, hints)?;
            Ok(Answer::No(core))
        }
        Sought::Open => Ok(Answer::Open),
    }
}
