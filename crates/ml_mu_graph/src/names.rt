// The names of a formula's graph: its propositions and its actions, each once, in the order of the text.
ghost use Rattle.std.specs.Prelude.{◌≡◌, OnOk, IfOk, []};
ghost use Rattle.ml_mu.specs.Term.{formula_of};
ghost use Rattle.ml_mu_graph.specs.private.NodeList as listed;

use indexmap::IndexSet;
use ml_base::{Action, Name, NoMemory};
use ml_mu::Term;
use ml_nodes::{Names, add_action, add_proposition};
use std::alloc::Global;

// the propositions and the actions of a term, in the order of the text
#[tactic(auto, using(ml_text::proofs::Names::kind_append))]
fn collect(
    term: &Term,
    props: &mut IndexSet<Name>,
    actions: &mut IndexSet<Action>,
) -> Result<(), NoMemory>
    ensures props { OnOk result (props.new.keys ≡ listed.props_onto (formula_of term.now) props.old.keys) }
    ensures actions { OnOk result (actions.new.keys ≡ listed.actions_onto (formula_of term.now) actions.old.keys) }
{
    match term {
        Term::Const(_) | Term::Var(_) => Ok(()),
        Term::Prop(name) => add_proposition(props, name),
        Term::Not(operand) => collect(operand, props, actions),
        Term::Binary(_, left, right) => {
            collect(left, props, actions)?;
            collect(right, props, actions)
        }
        Term::Modal(_, action, operand) => {
            add_action(actions, action)?;
            collect(operand, props, actions)
        }
        Term::Binder(_, _, body) => collect(body, props, actions),
    }
}

// the names of a term
pub(crate) fn names_of(alloc: Global, term: &Term) -> Result<Names, NoMemory>
    ensures props { IfOk result (λ names. names.props.keys ≡ listed.props_onto (formula_of term.now) []) }
    ensures actions { IfOk result (λ names. names.actions.keys ≡ listed.actions_onto (formula_of term.now) []) }
{
    let mut props = IndexSet::new(alloc);
    let mut actions = IndexSet::new(alloc);
    collect(term, &mut props, &mut actions)?;
    Ok(Names { props, actions })
}
