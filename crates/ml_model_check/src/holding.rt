// Whether a problem holds at a state of a structure.
ghost use Rattle.std.specs.Prelude.{◌↔◌, ◌<◌, ℕ, IfOk, OnOk, IsErrOf, IsTrue, MatchOption};
ghost use Rattle.ml_ctl.specs.Problem as ctl;
ghost use Rattle.ml_front.specs.Graphs.{HasLargeClosure};
ghost use Rattle.ml_front.specs.Logics.{logic_of};
ghost use Rattle.ml_front.specs.Problems.{HoldsAs, HoldsAt, IsAdmitted, IsDeadlock, IsFirstDeadlock, IsFirstFork};
ghost use Rattle.ml_front.specs.declared.problem.AnyFormula.TheVariants.{Mu, Word};
ghost use Rattle.ml_lists.specs.Search.{IsFirst};
ghost use Rattle.ml_word_graph.specs.Problem as words;

use crate::check_refusal::CheckRefusal;
use ml_base::{Action, NoMemory};
use ml_front::{AnyFormula, MOST_NODES, Problem, graph};
use ml_graph::{ClosureRefusal, holds_at};
use ml_kripke::Structure;
use ml_mu::{Formula, Term};
use ml_word_check::WordRefusal;
use std::alloc::Global;

// Up to so many binders one inside the other the meaning of a formula is computed as it is defined; past them, where
// the iterates of inner binders multiply with those of outer ones, the checking game is solved.
const MOST_NESTED: u32 = 2;

/// Does a problem hold at this state of a structure?
///
/// # Errors
/// `NotTotal` exactly where the problem's logic wants an edge by `_` from each state and some state has none, with the
/// least such state. `NotAWord` exactly where it wants exactly one such edge from each state and some state hasn't, with the
/// least such state. `ClosureTooLarge` exactly where the logic speaks of the structure and the problem's closure has
/// more than 4,096 nodes. So none comes in the mu-calculus and in PDL. `NoMemory`.
///
/// Cost: a formula of the mu-calculus with at most two binders one inside the other costs what `ml_mu::evaluate` does; one of
/// LTL on words what `ml_word_check::holds` does, linear in the structure; each other problem what `ml_front::graph` does,
/// and what `ml_parity::solve` does on a game with a vertex for each pair of a state and a node of the graph. No call is
/// nested deeper than the formula, which has at most 1,000 occurrences.
pub fn holds(
    alloc: Global,
    problem: &Problem,
    structure: &Structure,
    state: u32,
) -> Result<bool, CheckRefusal>
    requires { state < structure.now.states }
    ensures holds { IfOk result (λ holds. IsTrue holds ↔ HoldsAt structure.now state problem.now) }
    ensures admitted { OnOk result (IsAdmitted (logic_of problem.now.formula) structure.now) }
    ensures closed { OnOk result (¬ (HasLargeClosure problem.now MOST_NODES)) }
    ensures total { (s : ℕ) → IsErrOf result (CheckRefusal.NotTotal s)
        → IsFirstDeadlock (logic_of problem.now.formula) structure.now s }
    ensures word { (s : ℕ) → IsErrOf result (CheckRefusal.NotAWord s)
        → IsFirstFork (logic_of problem.now.formula) structure.now s }
    ensures fits { IsErrOf result CheckRefusal.ClosureTooLarge
        → IsAdmitted (logic_of problem.now.formula) structure.now × HasLargeClosure problem.now MOST_NODES }
{
    structure.keeps();
    match &problem.formula {
        AnyFormula::Mu(formula) => {
            if nests_deeper(formula.root(), MOST_NESTED) {
                holds_by_game(alloc, problem, structure, state)
            } else {
                let holds = holds_by_meaning(alloc, formula, problem.negated, structure, state)?;
                Ok(holds)
            }
        }
        AnyFormula::Pdl(_) => holds_by_game(alloc, problem, structure, state),
        AnyFormula::Ctl(_) | AnyFormula::Ltl(_) => match first_deadlock(alloc, structure)? {
            Some(dead) => Err(CheckRefusal::NotTotal(dead)),
            None => holds_by_game(alloc, problem, structure, state),
        },
        AnyFormula::Word(formula) => {
            holds_along_word(alloc, formula, problem.negated, structure, state)
        }
    }
}

/// The least state of a structure without an edge by `_`; `None` exactly where each state has one, so where CTL* and LTL speak
/// of the structure.
///
/// # Errors
/// `NoMemory` alone.
///
/// Cost: linear in the edges.
#[tactic(auto, using(crate::proofs::Deadlocks::deadlock_found))]
pub fn first_deadlock(alloc: Global, structure: &Structure) -> Result<Option<u32>, NoMemory>
    ensures { IfOk result (λ found. MatchOption found (ctl.IsAdmitted structure.now)
        (IsFirst (IsDeadlock structure.now) structure.now.states)) }
{
    structure.keeps();
    let step = Action::blank(alloc)?;
    Ok(structure.dead_state(&step))
}

// along the path from the state, where the structure is one of words
fn holds_along_word(
    alloc: Global,
    formula: &ml_ltl::Formula,
    negated: bool,
    structure: &Structure,
    state: u32,
) -> Result<bool, CheckRefusal>
    requires { state < structure.now.states }
    ensures holds { IfOk result (λ holds. IsTrue holds ↔ HoldsAs structure.now state negated (Word formula.now)) }
    ensures admitted { OnOk result (words.IsAdmitted structure.now) }
    ensures word { (s : ℕ) → IsErrOf result (CheckRefusal.NotAWord s) → IsFirst (words.IsFork structure.now) structure.now.states s }
    ensures total { (s : ℕ) → ¬ (IsErrOf result (CheckRefusal.NotTotal s)) }
    ensures closed { ¬ (IsErrOf result CheckRefusal.ClosureTooLarge) }
{
    match ml_word_check::holds(alloc, formula, negated, structure, state) {
        Ok(holds) => Ok(holds),
        Err(WordRefusal::NotAWord(fork)) => Err(CheckRefusal::NotAWord(fork)),
        Err(WordRefusal::NoMemory) => Err(CheckRefusal::NoMemory),
    }
}

// by the sets that a formula of the mu-calculus means
fn holds_by_meaning(
    alloc: Global,
    formula: &Formula,
    negated: bool,
    structure: &Structure,
    state: u32,
) -> Result<bool, NoMemory>
    requires { state < structure.now.states }
    ensures { IfOk result (λ holds. IsTrue holds ↔ HoldsAs structure.now state negated (Mu formula.now)) }
{
    let member = ml_mu::holds(alloc, formula, structure, state)?;
    Ok(member != negated)
}

// by the game on the problem's graph
fn holds_by_game(
    alloc: Global,
    problem: &Problem,
    structure: &Structure,
    state: u32,
) -> Result<bool, CheckRefusal>
    requires state { state < structure.now.states }
    requires admitted { IsAdmitted (logic_of problem.now.formula) structure.now }
    ensures holds { IfOk result (λ holds. IsTrue holds ↔ HoldsAt structure.now state problem.now) }
    ensures closed { OnOk result (¬ (HasLargeClosure problem.now MOST_NODES)) }
    ensures total { (s : ℕ) → ¬ (IsErrOf result (CheckRefusal.NotTotal s)) }
    ensures word { (s : ℕ) → ¬ (IsErrOf result (CheckRefusal.NotAWord s)) }
    ensures fits { IsErrOf result CheckRefusal.ClosureTooLarge → HasLargeClosure problem.now MOST_NODES }
{
    let graph = match graph(alloc, problem, MOST_NODES) {
        Ok(graph) => graph,
        Err(ClosureRefusal::ClosureTooLarge) => return Err(CheckRefusal::ClosureTooLarge),
        Err(ClosureRefusal::NoMemory) => return Err(CheckRefusal::NoMemory),
    };
    let holds = holds_at(alloc, &graph, structure, state)?;
    Ok(holds)
}

// has the term more than so many binders one inside the other?
fn nests_deeper(term: &Term, binders: u32) -> bool {
    match term {
        Term::Const(_) | Term::Prop(_) | Term::Var(_) => false,
        Term::Not(operand) | Term::Modal(_, _, operand) => nests_deeper(operand, binders),
        Term::Binary(_, left, right) => nests_deeper(left, binders) || nests_deeper(right, binders),
        Term::Binder(_, _, body) => binders == 0 || nests_deeper(body, binders - 1),
    }
}
