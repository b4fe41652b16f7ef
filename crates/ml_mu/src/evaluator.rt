// The evaluator: the meaning of a formula on a structure, computed as it is defined.
//
// A set of states is a list of flags. `evaluate_term` goes down the formula with the sets of the binders around it
// (`Bindings`, a list that is lent from call to call); a binder's set is iterated until it is repeated (`last_iterate`). A
// square is a diamond between two complements.
ghost use Rattle.std.specs.Prelude.{◌≡◌, ◌<◌, ◌&&◌, not, map, zip, replicate, length, [], ◌∷◌, All, IfOk, OnOk};
ghost use Rattle.std.specs.Str.{bytes_eq};
ghost use Rattle.ml_lists.specs.Iterate.{iterate};
ghost use Rattle.ml_base.specs.Structure as kripke;
ghost use Rattle.ml_mu.specs.Formula as plain;
ghost use Rattle.ml_mu.specs.Meaning as mean;
ghost use Rattle.ml_text.specs.Operators as operators;
ghost use Rattle.ml_mu.specs.private.Environment.{given_of};
ghost use Rattle.ml_mu.specs.Meaning.{HaveFlags};
ghost use Rattle.ml_mu.specs.Term.{formula_of};

use crate::{Fixpoint, Formula, Modality, Term};
use ml_base::{Action, Edge, Name, NoMemory};
use ml_kripke::Structure;
use ml_text::Operator;
use std::alloc::Global;

// the variables in force with the sets that they mean, innermost binder first
#[derive(Drop)]
enum Bindings<'a> {
    Nothing,
    Binding {
        variable: &'a Name,
        set: &'a [bool],
        outer: &'a Bindings<'a>,
    },
}

/// The set of the states of the structure at which the formula holds: one flag for each state.
///
/// Fixpoints are approached by iterates, which end at the first that is repeated, and at the number of states at
/// the latest.
///
/// # Errors
/// `NoMemory` alone.
///
/// Cost: each symbol takes time linear in the states, and a modality in the edges too; a symbol under k binders is
/// computed up to `n^k` times on n states. Memory: one flag for each state and symbol on the way down.
///
/// Source: Kozen, Results on the propositional mu-calculus (1983).
pub fn evaluate(
    alloc: Global,
    formula: &Formula,
    structure: &Structure,
) -> Result<Vec<bool>, NoMemory>
    ensures value { IfOk result (λ set. set.items ≡ mean.meaning structure.now [] formula.now) }
    ensures flags { IfOk result (λ set. length set.items ≡ structure.now.states) }
{
    evaluate_term(alloc, structure, &Bindings::Nothing, formula.root())
}

/// Does the formula hold at this state of the structure?
///
/// # Errors
/// `NoMemory` alone.
///
/// Cost: that of `evaluate`.
pub fn holds(
    alloc: Global,
    formula: &Formula,
    structure: &Structure,
    state: u32,
) -> Result<bool, NoMemory>
    requires { state < structure.now.states }
    ensures { IfOk result (λ holds. holds ≡ kripke.is_member (mean.meaning structure.now [] formula.now) state) }
{
    let set = evaluate(alloc, formula, structure)?;
    Ok(set[state as usize])
}

#[cycle(evaluator)]
fn evaluate_term<'a>(
    alloc: Global,
    structure: &Structure,
    given: &'a Bindings<'a>,
    term: &'a Term,
) -> Result<Vec<bool>, NoMemory>
    requires { HaveFlags structure.now.states (given_of given.now) }
    ensures value { IfOk result (λ set. set.items ≡ mean.meaning structure.now (given_of given.now) (formula_of term.now)) }
    ensures flags { IfOk result (λ set. length set.items ≡ structure.now.states) }
{
    match term {
        Term::Const(truth) => constant(alloc, structure.states(), *truth),
        Term::Prop(name) => states_with(alloc, structure, name),
        Term::Var(name) => given_set(alloc, structure, given, name),
        Term::Not(operand) => {
            let set = evaluate_term(alloc, structure, given, operand)?;
            complement(alloc, &set)
        }
        Term::Binary(operator, left, right) => {
            let left = evaluate_term(alloc, structure, given, left)?;
            let right = evaluate_term(alloc, structure, given, right)?;
            combine(alloc, *operator, &left, &right)
        }
        Term::Modal(modality, action, operand) => {
            let set = evaluate_term(alloc, structure, given, operand)?;
            modal(alloc, structure, *modality, action, &set)
        }
        Term::Binder(fixpoint, variable, body) => {
            let first = first_iterate(alloc, structure, *fixpoint)?;
            last_iterate(alloc, structure, given, variable, body, first)
        }
    }
}

// the iterate of the body from the set `first` with the number of states: all iterates behind a repeated one are equal
#[cycle(evaluator)]
fn last_iterate<'a>(
    alloc: Global,
    structure: &Structure,
    given: &'a Bindings<'a>,
    variable: &'a Name,
    body: &'a Term,
    first: Vec<bool>,
) -> Result<Vec<bool>, NoMemory>
    requires flags { length first.items ≡ structure.now.states }
    requires given { HaveFlags structure.now.states (given_of given.now) }
    ensures value { IfOk result (λ set. set.items ≡ iterate structure.now.states
        (λ set. mean.meaning structure.now ((variable.now, set) ∷ given_of given.now) (formula_of body.now)) first.items) }
    ensures flags { IfOk result (λ set. length set.items ≡ structure.now.states) }
{
    let mut set = first;
    for _ in 0..structure.states() {
        let bound = Bindings::Binding {
            variable: &*variable,
            set: &set,
            outer: &*given,
        };
        let next = evaluate_term(alloc, structure, &bound, body)?;
        if next == set {
            return Ok(set);
        }
        set = next;
    }
    Ok(set)
}

// the set from which a fixpoint is approached
fn first_iterate(
    alloc: Global,
    structure: &Structure,
    fixpoint: Fixpoint,
) -> Result<Vec<bool>, NoMemory>
    ensures value { IfOk result (λ set. set.items ≡ mean.first_iterate structure.now fixpoint) }
    ensures flags { IfOk result (λ set. length set.items ≡ structure.now.states) }
{
    match fixpoint {
        Fixpoint::Least => constant(alloc, structure.states(), false),
        Fixpoint::Greatest => constant(alloc, structure.states(), true),
    }
}

// all states, or none
fn constant(alloc: Global, states: u32, truth: bool) -> Result<Vec<bool>, NoMemory>
    ensures value { IfOk result (λ set. set.items ≡ replicate states truth) }
    ensures flags { IfOk result (λ set. length set.items ≡ states) }
{
    let set = vec![in alloc; truth; states as usize]?;
    Ok(set)
}

// the states that list the proposition
fn states_with(
    alloc: Global,
    structure: &Structure,
    proposition: &Name,
) -> Result<Vec<bool>, NoMemory>
    ensures value { IfOk result (λ set. set.items ≡ kripke.states_where structure.now (λ s. kripke.lists structure.now s proposition.now)) }
    ensures flags { IfOk result (λ set. length set.items ≡ structure.now.states) }
{
    let set = (0..structure.states())
        .map(|state| lists(structure, state, proposition))
        .collect(alloc)?;
    Ok(set)
}

fn lists(structure: &Structure, state: u32, proposition: &Name) -> bool
    requires { state < structure.now.states }
    ensures { result ≡ kripke.lists structure.now state proposition.now }
{
    structure
        .labels_of(state)
        .iter()
        .any(|label| label.bytes() == proposition.bytes())
}

// the set that the variable means; one that nothing binds means no state
fn given_set(
    alloc: Global,
    structure: &Structure,
    given: &Bindings,
    variable: &Name,
) -> Result<Vec<bool>, NoMemory>
    requires { HaveFlags structure.now.states (given_of given.now) }
    ensures value { IfOk result (λ set. set.items ≡ mean.given_set structure.now (given_of given.now) variable.now) }
    ensures flags { IfOk result (λ set. length set.items ≡ structure.now.states) }
{
    match given {
        Bindings::Nothing => constant(alloc, structure.states(), false),
        Bindings::Binding {
            variable: bound,
            set,
            outer,
        } => {
            if bound.bytes() == variable.bytes() {
                Ok(Vec::from_slice(alloc, set)?)
            } else {
                given_set(alloc, structure, outer, variable)
            }
        }
    }
}

fn complement(alloc: Global, set: &[bool]) -> Result<Vec<bool>, NoMemory>
    ensures { IfOk result (λ outside. outside.items ≡ map not set.now) }
{
    let outside = set.iter().map(|flag| !*flag).collect(alloc)?;
    Ok(outside)
}

// the states at which the connective gives true
fn combine(
    alloc: Global,
    operator: Operator,
    left: &[bool],
    right: &[bool],
) -> Result<Vec<bool>, NoMemory>
    ensures { IfOk result (λ set. set.items ≡ map (λ flags. operators.truth_of operator flags.0 flags.1) (zip left.now right.now)) }
{
    let set = left
        .iter()
        .zip(right)
        .map(|(left, right)| truth_of(operator, *left, *right))
        .collect(alloc)?;
    Ok(set)
}

fn truth_of(operator: Operator, left: bool, right: bool) -> bool
    ensures { result ≡ operators.truth_of operator left right }
{
    match operator {
        Operator::And => left && right,
        Operator::Or => left || right,
        Operator::Implies => !left || right,
        Operator::Iff => left == right,
    }
}

// the states whose edges by the action lead into the set, some of them or all
fn modal(
    alloc: Global,
    structure: &Structure,
    modality: Modality,
    action: &Action,
    set: &[bool],
) -> Result<Vec<bool>, NoMemory>
    requires { length set.now ≡ structure.now.states }
    ensures value { IfOk result (λ states. states.items ≡ mean.modal structure.now modality action.now set.now) }
    ensures flags { IfOk result (λ states. length states.items ≡ structure.now.states) }
{
    match modality {
        Modality::Diamond => diamond(alloc, structure, action, set),
        Modality::Square => square(alloc, structure, action, set),
    }
}

// the states with an edge by the action into the set; whoever asks also learns what the type of structures keeps
fn diamond(
    alloc: Global,
    structure: &Structure,
    action: &Action,
    set: &[bool],
) -> Result<Vec<bool>, NoMemory>
    requires { length set.now ≡ structure.now.states }
    ensures value { IfOk result (λ states. states.items ≡ mean.modal structure.now plain.Diamond action.now set.now) }
    ensures flags { IfOk result (λ states. length states.items ≡ structure.now.states) }
    ensures ends { OnOk result (All (λ edge. edge.target < structure.now.states) structure.now.edges) }
{
    let mut states = constant(alloc, structure.states(), false)?;
    for edge in structure.edges() {
        if leads_into(edge, action, set) {
            states[edge.source as usize] = true;
        }
    }
    Ok(states)
}

// the states whose edges by the action all lead into the set
fn square(
    alloc: Global,
    structure: &Structure,
    action: &Action,
    set: &[bool],
) -> Result<Vec<bool>, NoMemory>
    requires { length set.now ≡ structure.now.states }
    ensures value { IfOk result (λ states. states.items ≡ mean.modal structure.now plain.Square action.now set.now) }
    ensures flags { IfOk result (λ states. length states.items ≡ structure.now.states) }
{
    let outside = complement(alloc, set)?;
    let leaving = diamond(alloc, structure, action, &outside)?;
    complement(alloc, &leaving)
}

fn leads_into(edge: &Edge, action: &Action, set: &[bool]) -> bool
    requires { edge.now.target < length set.now }
    ensures { result ≡ (bytes_eq edge.now.action action.now && kripke.is_member set.now edge.now.target) }
{
    edge.action.bytes() == action.bytes() && set[edge.target as usize]
}
