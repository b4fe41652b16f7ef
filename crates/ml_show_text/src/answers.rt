// Answers to the questions of a specification, shown to people.
ghost use Rattle.std.specs.Prelude.{◌≡◌, length, IfOk, IsErrOf, OnOk};
ghost use Rattle.std.specs.List.{AllByRecursion};
ghost use Rattle.ml_answers.specs.private.Judged.{IsJudgable};
ghost use Rattle.ml_spec.specs.Questions.{IsQuestion};
ghost use Rattle.ml_spec.specs.Specification.{IsSpecified};
ghost use Rattle.ml_show.specs.Pages.{EndsWithLf};
ghost use Rattle.ml_show_text.specs.Shown.{IsFaultAs, IsReadAs};
ghost use Rattle.ml_show_text.specs.declared.input.ReadAs.{ReadAs};
ghost use Rattle.ml_show_text.specs.declared.refusal.ShowFault.{ShowFault};

use crate::kind::first_line;
use crate::refusal::{ShowFault, ShowRefusal};
use crate::undecided_tasks::behind_line;
use ml_answers::{AnsweredSpecification, AnswersRefusal, Stated, read_answers};
use ml_base::NoMemory;
use ml_replies::{Answer, Core, Part, Without};
use ml_show::AnswersPage;
use ml_spec::{Item, Question, Specification, joined};
use std::alloc::Global;

// The answers of the document behind a specification: each line, and what shows it.
//
// Cost: linear in the text to read it, and then that of the page.
pub(crate) fn show_answers(alloc: Global, text: &[u8]) -> Result<Vec<u8>, ShowRefusal>
    ensures shown { OnOk result (IsReadAs ReadAs.Answers text.now) }
    ensures ends { IfOk result (λ page. EndsWithLf page.items) }
    ensures refused { (fault : ShowFault) → IsErrOf result (ShowRefusal.Fault fault) → IsFaultAs ReadAs.Answers text.now fault }
{
    match read_answers(alloc, text) {
        Ok(answered) => match page_of(alloc, text, &answered) {
            Ok(page) => Ok(page),
            Err(NoMemory) => Err(ShowRefusal::NoMemory),
        },
        Err(AnswersRefusal::Fault(fault)) => Err(ShowRefusal::Fault(ShowFault::Answers(fault))),
        Err(AnswersRefusal::NoMemory) => Err(ShowRefusal::NoMemory),
    }
}

// the page of the answers that were read of a text
fn page_of(
    alloc: Global,
    text: &[u8],
    answered: &AnsweredSpecification,
) -> Result<Vec<u8>, NoMemory>
    requires specified { IsSpecified answered.now.specification.logic answered.now.specification.items.items }
    requires judgable { AllByRecursion (IsJudgable answered.now.specification.items.items) answered.now.answers.items }
    ensures { IfOk result (λ page. EndsWithLf page.items) }
{
    let mut page = AnswersPage::new(alloc);
    let mut rest = text;
    let mut line = 1;
    for answer in &answered.answers {
        for _ in line..answer.line {
            rest = behind_line(rest);
        }
        line = answer.line;
        page.begin(first_line(rest))?;
        show_answer(alloc, &mut page, &answered.specification, answer)?;
    }
    page.finish(b"Whether all of this is right is told by check-answers.")
}

// what shows an answer
fn show_answer(
    alloc: Global,
    page: &mut AnswersPage,
    specification: &Specification,
    answer: &Stated,
) -> Result<(), NoMemory>
    requires specified { IsSpecified specification.now.logic specification.now.items.items }
    requires judgable { IsJudgable specification.now.items.items answer.now }
{
    match &answer.statement {
        Answer::Yes(model) => page.model(alloc, model),
        Answer::No(core) => show_core(alloc, page, specification, answer.question, core),
        Answer::Open => page.say(b"It stays open."),
    }
}

// the refutation of some requirements, and what is otherwise without each of them
fn show_core(
    alloc: Global,
    page: &mut AnswersPage,
    specification: &Specification,
    question: Question,
    core: &Core,
) -> Result<(), NoMemory>
    requires specified { IsSpecified specification.now.logic specification.now.items.items }
    requires taken { length core.now.taken.items ≡ length specification.now.items.items }
    requires question { IsQuestion specification.now.items.items question }
{
    match joined(alloc, specification, &core.taken, question)? {
        Some(problem) => page.refutation(alloc, &problem, &core.refutation)?,
        None => page.say(
            b"They have more than 1,000 occurrences together, so no refutation is shown.",
        )?,
    }
    for part in &core.parts {
        show_part(alloc, page, &specification.items, part)?;
    }
    Ok(())
}

fn show_part(
    alloc: Global,
    page: &mut AnswersPage,
    items: &[Item],
    part: &Part,
) -> Result<(), NoMemory> {
    match (&part.without, items.get(part.requirement)) {
        (Without::Met(model), Some(item)) => page.model_without(alloc, item.name.bytes(), model),
        _ => Ok(()),
    }
}
