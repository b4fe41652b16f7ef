// A document is searched for a path that shows what it asks.
ghost use Rattle.std.specs.Prelude.{◌<◌, IfOk};
ghost use Rattle.ml_front.specs.HeadRules.{IsHead};
ghost use Rattle.ml_front.specs.Logics.{logic_of};
ghost use Rattle.ml_front.specs.Problems.{IsAdmitted};
ghost use Rattle.ml_front.specs.declared.answer.Answer.TheVariants.{Satisfiable};
ghost use Rattle.ml_path_text.specs.Found.{Asks, Finds, IsConfirmed, IsFoundIn};
ghost use Rattle.ml_path_text.specs.PathProblems.{AsksFor};

use crate::admitted::{Unfit, first_unfit};
use crate::finding::PathFinding;
use crate::problems::{PathProblem, path_problem};
use crate::writing::written_path;
use ml_base::{DocFault, DocRefusal, NoMemory};
use ml_front::{Answer, Head, Problem, read_head};
use ml_kripke::{Model, read_model};
use ml_paths::{Found, find};
use std::alloc::Global;

const FORMULA_LINE: u64 = 5;

const FIRST_BODY_LINE: u64 = 6;

// The rule behind those of a head: that the formula asks for a path.
const ASKS_FOR_PATH: u32 = 4;

/// Is there a path of the structure of a document that shows its problem, and which?
///
/// The document is one that `ml_model_check::check_document` reads, of any length: it answers `satisfiable`, and its body is
/// a structure with a start. Its problem is one of LTL, on structures or on words, or one of CTL* whose whole formula is
/// `E f` or `A f`, where f has no quantifier. A path shows a plain problem of LTL where it satisfies the formula, and a
/// negated one where it doesn't; it shows `E f` where it satisfies f, and `A f` where it doesn't, whatever the sense.
///
/// - `Path` exactly where the bytes are such a document, none of the last four answers comes, and some path from the start
///   shows the problem. Such a path is told by a line `path` with its states, and a line `loop` with the place to which the
///   last one leads back. Behind them stands a document of LTL on words with the same formula and sense, whose structure is
///   the word of the labels along the path; `ml_model_check::check_document` answers it with `Holds`;
/// - `NoPath` exactly where they are, none of these comes, and no path from the start shows the problem;
/// - `ClosureTooLarge` exactly where they are, the logic speaks of the structure, and the word automaton of the path problem
///   has more than `ml_paths::MOST_NODES` nodes;
/// - `NotTotal` and `NotAWord` exactly where they are and the logic doesn't speak of the structure, with the least state that
///   it doesn't allow, as `check_document` answers;
/// - `Unreadable` exactly where the bytes are no such document, with the first bad line, counted from 1, and the lowest rule
///   that this line breaks: as `ml_model_check::read_document` says, and of line 5 also rule 4, where the formula is read, and
///   is none that asks for a path.
///
/// # Errors
/// `NoMemory` alone.
///
/// Cost: linear in the bytes to read them; then that of `ml_paths::find`, and for a path that of `ml_paths::run_along`. For a
/// problem of LTL on words also that of `ml_word_check::holds`.
pub fn path_of(alloc: Global, text: &[u8]) -> Result<PathFinding, NoMemory>
    ensures found { IfOk result (IsFoundIn text.now) }
    ensures confirmed { IfOk result IsConfirmed }
{
    match read_head(alloc, text, Answer::Satisfiable) {
        Ok(head) => behind_head(alloc, text, &head),
        Err(DocRefusal::Fault(fault)) => Ok(PathFinding::Unreadable(fault)),
        Err(DocRefusal::NoMemory) => Err(NoMemory),
    }
}

// behind a head
fn behind_head(alloc: Global, _text: &[u8], head: &Head) -> Result<PathFinding, NoMemory>
    requires { IsHead Satisfiable _text.now head.now.version head.now.problem head.now.rest.now }
    ensures found { IfOk result (IsFoundIn _text.now) }
    ensures confirmed { IfOk result IsConfirmed }
{
    match path_problem(alloc, &head.problem)? {
        Some(asked) => in_body(alloc, _text, head, asked),
        None => Ok(PathFinding::Unreadable(DocFault {
            line: FORMULA_LINE,
            rule: ASKS_FOR_PATH,
        })),
    }
}

// in the body behind a head with a path problem
fn in_body(
    alloc: Global,
    _text: &[u8],
    head: &Head,
    asked: PathProblem,
) -> Result<PathFinding, NoMemory>
    requires is_head { IsHead Satisfiable _text.now head.now.version head.now.problem head.now.rest.now }
    requires asks { AsksFor head.now.problem asked.formula asked.negated }
    ensures found { IfOk result (IsFoundIn _text.now) }
    ensures confirmed { IfOk result IsConfirmed }
{
    match read_model(alloc, head.rest, FIRST_BODY_LINE) {
        Ok(model) => in_model(alloc, _text, &head.problem, asked, &model),
        Err(DocRefusal::Fault(fault)) => Ok(PathFinding::Unreadable(fault)),
        Err(DocRefusal::NoMemory) => Err(NoMemory),
    }
}

// in the structure that a document shows
fn in_model(
    alloc: Global,
    _text: &[u8],
    problem: &Problem,
    asked: PathProblem,
    model: &Model,
) -> Result<PathFinding, NoMemory>
    requires { Asks _text.now problem.now model.now.structure model.now.start asked.formula asked.negated }
    ensures found { IfOk result (IsFoundIn _text.now) }
    ensures confirmed { IfOk result IsConfirmed }
{
    match first_unfit(alloc, problem, &model.structure, model.start)? {
        Some(Unfit::Deadlock(state)) => Ok(PathFinding::NotTotal(state)),
        Some(Unfit::Fork(state)) => Ok(PathFinding::NotAWord(state)),
        None => among_paths(alloc, problem, asked, model),
    }
}

// among the paths of a structure of which the logic speaks
fn among_paths(
    alloc: Global,
    _problem: &Problem,
    asked: PathProblem,
    model: &Model,
) -> Result<PathFinding, NoMemory>
    requires { IsAdmitted (logic_of _problem.now.formula) model.now.structure }
    ensures found { IfOk result (λ x. Finds x (logic_of _problem.now.formula) model.now.structure model.now.start
        asked.formula asked.negated) }
    ensures confirmed { IfOk result IsConfirmed }
{
    let structure = &model.structure;
    match find(alloc, structure, model.start, &asked.formula, asked.negated)? {
        Found::Path(path) => {
            let path = written_path(alloc, structure, model.start, asked, &path)?;
            Ok(PathFinding::Path(path))
        }
        Found::NoPath => Ok(PathFinding::NoPath),
        Found::ClosureTooLarge => Ok(PathFinding::ClosureTooLarge),
    }
}
