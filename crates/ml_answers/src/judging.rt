// What comes of an answer.
ghost use Rattle.std.specs.Prelude.{◌≡◌, ◌⊎◌, length, map, IfOk};
ghost use Rattle.ml_front.specs.Graphs.{IsGraphOf};
ghost use Rattle.ml_replies.specs.Answers.{part_of, reply_of};
ghost use Rattle.ml_replies.specs.Laws.{OneCheck};
ghost use Rattle.ml_replies.specs.Meeting.{IsHeld, IsSmall, problem_of, without};
ghost use Rattle.ml_replies.specs.Replies.{FailsByCheck, IsShown};
ghost use Rattle.ml_spec.specs.Questions.{IsQuestion, is_in};
ghost use Rattle.ml_spec.specs.Specification.{IsSpecified};
ghost use Rattle.ml_answers.specs.Checked as checked;
ghost use Rattle.ml_answers.specs.Checked.{AreShown, IsNotRefuted, IsRefuted, IsShownBy, IsShownWithout, IsWrongWithout, SomeWrong};
ghost use Rattle.ml_answers.specs.private.Judged.{ComesTo, FitsItems, worse};
ghost use Rattle.ml_answers.specs.private.Plain.{plain};

use ml_base::NoMemory;
use ml_front::{MOST_NODES, Problem, graph};
use ml_graph::{ClosureRefusal, ModalGraph};
use ml_kripke::Model;
use ml_refutation::Refutation;
use ml_refute_check::{Finding, check_refutation};
use ml_replies::{Answer, Core, Meets, Part, Without, meets};
use ml_spec::{Question, Specification, joined};
use std::alloc::Global;

/// What comes of an answer, or of a part of one.
#[derive(Clone, Copy, PartialEq, Eq)]
pub(crate) enum Standing {
    Shown,
    /// It isn't shown, but nothing of it that can be checked fails.
    Unsettled,
    Wrong,
}

// what comes of two parts together
fn together(one: Standing, other: Standing) -> Standing
    ensures { result ≡ worse one other }
{
    match one {
        Standing::Wrong => Standing::Wrong,
        Standing::Shown => other,
        Standing::Unsettled => match other {
            Standing::Wrong => Standing::Wrong,
            Standing::Shown | Standing::Unsettled => Standing::Unsettled,
        },
    }
}

/// What comes of what is said in answer to a question, which is asked of these requirements.
///
/// Cost: that of the checks of its structures (`ml_replies::meets`) and of its refutation
/// (`ml_refute_check::check_refutation`), of which none is left out.
pub(crate) fn judge(
    alloc: Global,
    specification: &Specification,
    among: &[bool],
    question: Question,
    statement: &Answer,
) -> Result<Standing, NoMemory>
    requires specified { IsSpecified specification.now.logic specification.now.items.items }
    requires among { length among.now ≡ length specification.now.items.items }
    requires question { IsQuestion specification.now.items.items question }
    requires fits { FitsItems specification.now.items.items (reply_of statement.now) }
    requires one { OneCheck }
    ensures { IfOk result (ComesTo
        (IsShownBy specification.now.logic specification.now.items.items (is_in among.now) question (reply_of statement.now))
        (checked.IsWrong specification.now.logic specification.now.items.items (is_in among.now) question (reply_of statement.now))) }
{
    match statement {
        Answer::Yes(model) => judge_model(alloc, specification, among, question, model),
        Answer::No(core) => judge_core(alloc, specification, question, core),
        Answer::Open => Ok(Standing::Unsettled),
    }
}

// does the structure meet these requirements?
fn judge_model(
    alloc: Global,
    specification: &Specification,
    taken: &[bool],
    question: Question,
    model: &Model,
) -> Result<Standing, NoMemory>
    requires specified { IsSpecified specification.now.logic specification.now.items.items }
    requires taken { length taken.now ≡ length specification.now.items.items }
    requires question { IsQuestion specification.now.items.items question }
    ensures { IfOk result (ComesTo
        (IsShown specification.now.logic specification.now.items.items (is_in taken.now) question model.now.structure model.now.start)
        (FailsByCheck specification.now.logic specification.now.items.items (is_in taken.now) question model.now.structure model.now.start)) }
{
    match meets(
        alloc,
        specification,
        taken,
        question,
        &model.structure,
        model.start,
    ) {
        Ok(Meets::Yes) => Ok(Standing::Shown),
        Ok(Meets::No) => Ok(Standing::Wrong),
        Ok(Meets::Unknown) => Ok(Standing::Unsettled),
        Err(no_memory) => Err(no_memory),
    }
}

// are the requirements refuted, and can the others be met without each of them?
fn judge_core(
    alloc: Global,
    specification: &Specification,
    question: Question,
    core: &Core,
) -> Result<Standing, NoMemory>
    requires specified { IsSpecified specification.now.logic specification.now.items.items }
    requires taken { length core.now.taken.items ≡ length specification.now.items.items }
    requires question { IsQuestion specification.now.items.items question }
    requires one { OneCheck }
    ensures { IfOk result (ComesTo
        (IsRefuted (problem_of specification.now.logic specification.now.items.items (is_in core.now.taken.items) question)
        (plain core.now.refutation)
        × AreShown specification.now.logic specification.now.items.items (is_in core.now.taken.items) question
        (map part_of core.now.parts.items))
        (IsNotRefuted (problem_of specification.now.logic specification.now.items.items (is_in core.now.taken.items) question)
        (plain core.now.refutation)
        ⊎ SomeWrong specification.now.logic specification.now.items.items (is_in core.now.taken.items) question
        (map part_of core.now.parts.items))) }
{
    let refuted = judge_refuted(alloc, specification, question, core)?;
    let parts = judge_parts(alloc, specification, &core.taken, question, &core.parts)?;
    Ok(together(refuted, parts))
}

// are the requirements refuted?
fn judge_refuted(
    alloc: Global,
    specification: &Specification,
    question: Question,
    core: &Core,
) -> Result<Standing, NoMemory>
    requires specified { IsSpecified specification.now.logic specification.now.items.items }
    requires taken { length core.now.taken.items ≡ length specification.now.items.items }
    requires question { IsQuestion specification.now.items.items question }
    ensures { IfOk result (ComesTo
        (IsRefuted (problem_of specification.now.logic specification.now.items.items (is_in core.now.taken.items) question)
        (plain core.now.refutation))
        (IsNotRefuted (problem_of specification.now.logic specification.now.items.items (is_in core.now.taken.items) question)
        (plain core.now.refutation))) }
{
    match joined(alloc, specification, &core.taken, question) {
        Ok(Some(problem)) => judge_refutation(alloc, &problem, &core.refutation),
        Ok(None) => Ok(Standing::Unsettled),
        Err(no_memory) => Err(no_memory),
    }
}

// is the refutation accepted in a graph of the problem?
fn judge_refutation(
    alloc: Global,
    problem: &Problem,
    refutation: &Refutation,
) -> Result<Standing, NoMemory>
    requires held { IsHeld problem.now }
    ensures { IfOk result (ComesTo (IsRefuted problem.now (plain refutation.now)) (IsNotRefuted problem.now (plain refutation.now))) }
{
    match graph(alloc, problem, MOST_NODES) {
        Ok(graph) => judge_in(alloc, problem, &graph, refutation),
        Err(ClosureRefusal::ClosureTooLarge) => Ok(Standing::Unsettled),
        Err(ClosureRefusal::NoMemory) => Err(NoMemory),
    }
}

// is it accepted in this graph of the problem?
fn judge_in(
    alloc: Global,
    _problem: &Problem,
    graph: &ModalGraph,
    refutation: &Refutation,
) -> Result<Standing, NoMemory>
    requires held { IsHeld _problem.now }
    requires small { IsSmall _problem.now }
    requires graph { IsGraphOf graph.now _problem.now }
    ensures { IfOk result (ComesTo (IsRefuted _problem.now (plain refutation.now)) (IsNotRefuted _problem.now (plain refutation.now))) }
{
    match check_refutation(alloc, graph, refutation) {
        Ok(Finding::Accepted) => Ok(Standing::Shown),
        Ok(Finding::Rejected(_)) => Ok(Standing::Wrong),
        Err(no_memory) => Err(no_memory),
    }
}

// can the others be met without each of them?
fn judge_parts(
    alloc: Global,
    specification: &Specification,
    taken: &[bool],
    question: Question,
    parts: &[Part],
) -> Result<Standing, NoMemory>
    requires specified { IsSpecified specification.now.logic specification.now.items.items }
    requires taken { length taken.now ≡ length specification.now.items.items }
    requires question { IsQuestion specification.now.items.items question }
    requires one { OneCheck }
    ensures { IfOk result (ComesTo
        (AreShown specification.now.logic specification.now.items.items (is_in taken.now) question (map part_of parts.now))
        (SomeWrong specification.now.logic specification.now.items.items (is_in taken.now) question (map part_of parts.now))) }
{
    let mut all = Standing::Shown;
    for part in parts {
        let standing = judge_part(alloc, specification, taken, question, part)?;
        all = together(all, standing);
    }
    Ok(all)
}

// can the others be met without this one?
fn judge_part(
    alloc: Global,
    specification: &Specification,
    taken: &[bool],
    question: Question,
    part: &Part,
) -> Result<Standing, NoMemory>
    requires specified { IsSpecified specification.now.logic specification.now.items.items }
    requires taken { length taken.now ≡ length specification.now.items.items }
    requires question { IsQuestion specification.now.items.items question }
    ensures { IfOk result (ComesTo
        (IsShownWithout specification.now.logic specification.now.items.items (without (is_in taken.now) part.now.requirement) question
        (part_of part.now).without)
        (IsWrongWithout specification.now.logic specification.now.items.items (without (is_in taken.now) part.now.requirement) question
        (part_of part.now).without)) }
{
    match &part.without {
        Without::Met(model) => {
            let others = left_out(alloc, taken, part.requirement)?;
            judge_model(alloc, specification, &others, question, model)
        }
        Without::Open => Ok(Standing::Unsettled),
    }
}

// the same requirements without one; all of them, where no item has this number
fn left_out(alloc: Global, taken: &[bool], number: usize) -> Result<Vec<bool>, NoMemory>
    ensures told { IfOk result (λ rest. length rest.items ≡ length taken.now) }
    ensures without { IfOk result (λ rest. is_in rest.items ≡ without (is_in taken.now) number) }
{
    let mut rest = Vec::from_slice(alloc, taken)?;
    if number < rest.len() {
        rest[number] = false;
    }
    Ok(rest)
}
