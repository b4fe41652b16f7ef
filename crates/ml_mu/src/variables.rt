// How the variables of a formula stand: which of them have no binder or aren't positive.
ghost use Rattle.std.specs.Prelude.{◌≡◌, ◌+◌, ◌≤◌, ◌++◌, IfOk, MatchOption, None, OnOk, Some};
ghost use Rattle.ml_mu.specs.Formula.{occurrences};
ghost use Rattle.ml_mu.specs.Term.{formula_of};
ghost use Rattle.ml_mu.specs.VariableFaults as faults;
ghost use Rattle.ml_mu.specs.private.VariableViews.{IsFaultOf, scope_view};

use crate::Term;
use ml_base::{Name, NoMemory, ParseRefusal};
use ml_text::{MOST_OCCURRENCES, Operator};
use std::alloc::{AllocError, Global};

/// How a variable stands.
#[derive(Clone, Copy, PartialEq, Eq)]
pub(crate) enum Standing {
    Fine,
    Unbound,
    NotPositive,
}

// the binders around a place, the innermost first, each with the negations and iffs around it
#[derive(Clone, Copy)]
enum Scope<'a> {
    Outermost,
    Inside(&'a Name, u32, u32, &'a Scope<'a>),
}

fn standing_of(scope: &Scope<'_>, negations: u32, iffs: u32, name: &Name) -> Standing
    ensures { result ≡ faults.standing_of (scope_view scope.now) negations iffs name.now }
{
    match scope {
        Scope::Outermost => Standing::Unbound,
        Scope::Inside(bound, around, inside, outer) => {
            if bound.bytes() != name.bytes() {
                standing_of(outer, negations, iffs, name)
            } else if iffs == *inside && negations.saturating_sub(*around) % 2 == 0 {
                Standing::Fine
            } else {
                Standing::NotPositive
            }
        }
    }
}

// how the variables of a term stand, pushed in the order of the text
fn collect(
    term: &Term,
    scope: &Scope<'_>,
    negations: u32,
    iffs: u32,
    found: &mut Vec<Standing>,
) -> Result<(), AllocError>
    requires few_negations { negations + occurrences (formula_of term.now) ≤ MOST_OCCURRENCES }
    requires few_iffs { iffs + occurrences (formula_of term.now) ≤ MOST_OCCURRENCES }
    ensures { OnOk result (found.new.items ≡ found.old.items
        ++ faults.standings_in (scope_view scope.now) negations iffs (formula_of term.now)) }
{
    match term {
        Term::Const(_) | Term::Prop(_) => Ok(()),
        Term::Var(name) => {
            found.push(standing_of(scope, negations, iffs, name))?;
            Ok(())
        }
        Term::Not(operand) => collect(operand, scope, negations + 1, iffs, found),
        Term::Binary(Operator::And | Operator::Or, left, right) => {
            collect(left, scope, negations, iffs, found)?;
            collect(right, scope, negations, iffs, found)
        }
        Term::Binary(Operator::Implies, left, right) => {
            collect(left, scope, negations + 1, iffs, found)?;
            collect(right, scope, negations, iffs, found)
        }
        Term::Binary(Operator::Iff, left, right) => {
            collect(left, scope, negations, iffs + 1, found)?;
            collect(right, scope, negations, iffs + 1, found)
        }
        Term::Modal(_, _, operand) => collect(operand, scope, negations, iffs, found),
        Term::Binder(_, name, body) => {
            let inside = Scope::Inside(name, negations, iffs, &*scope);
            collect(body, &inside, negations, iffs, found)
        }
    }
}

/// How the variables of a term stand, in the order of the text.
pub(crate) fn standings(alloc: Global, term: &Term) -> Result<Vec<Standing>, NoMemory>
    requires { occurrences (formula_of term.now) ≤ MOST_OCCURRENCES }
    ensures { IfOk result (λ found. found.items ≡ faults.standings (formula_of term.now)) }
{
    let mut found = Vec::new(alloc);
    collect(term, &Scope::Outermost, 0, 0, &mut found)?;
    Ok(found)
}

// the refusal at a variable that stands so
fn fault_here(standing: Standing, at: u64) -> Option<ParseRefusal>
    ensures { MatchOption result
        (standing ≡ faults.Fine)
        (λ refusal. IsFaultOf refusal (Some (standing, at))) }
{
    match standing {
        Standing::Fine => None,
        Standing::Unbound => Some(ParseRefusal::Unbound { at }),
        Standing::NotPositive => Some(ParseRefusal::NotPositive { at }),
    }
}

/// The refusal at the first variable that is at fault, if one is: they stand so, and at these places, in the order of
/// the text.
pub(crate) fn first_fault(standings: &[Standing], places: &[u64]) -> Option<ParseRefusal>
    ensures { let first = faults.fault_at standings.now places.now in
        MatchOption result (first ≡ None) (λ refusal. IsFaultOf refusal first) }
{
    let mut standings = standings;
    let mut places = places;
    while let Some((standing, others)) = standings.split_first() {
        let Some((at, later)) = places.split_first() else {
            return None;
        };
        if let Some(refusal) = fault_here(*standing, *at) {
            return Some(refusal);
        }
        standings = others;
        places = later;
    }
    None
}
