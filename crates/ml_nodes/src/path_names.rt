// The names of the graph of a formula of CTL* or LTL: its propositions, each once, in the order of the text, and the
// action `_`.
ghost use Rattle.std.specs.Prelude.{◌≡◌, [], ◌∷◌, codes, OnOk, IfOk};
ghost use Rattle.ml_ctl.specs.Term.{formula_of};
ghost use Rattle.ml_nodes.specs.PathNames as listed;

use crate::names::{Names, add_proposition};
use indexmap::IndexSet;
use ml_base::{Name, NoMemory};
use ml_ctl::Term;
use std::alloc::Global;

// the propositions of a term, in the order of the text
#[tactic(auto, using(ml_text::proofs::Names::kind_append))]
fn collect(term: &Term, props: &mut IndexSet<Name>) -> Result<(), NoMemory>
    ensures { OnOk result (props.new.keys ≡ listed.props_onto (formula_of term.now) props.old.keys) }
{
    match term {
        Term::Const(_) => Ok(()),
        Term::Prop(name) => add_proposition(props, name),
        Term::Not(operand) | Term::Temporal(_, operand) | Term::Quantified(_, operand) => {
            collect(operand, props)
        }
        Term::Binary(_, left, right) | Term::Paired(_, left, right) => {
            collect(left, props)?;
            collect(right, props)
        }
    }
}

impl Names {
    /// The names of the graph of a formula of CTL* or LTL: its propositions, in the order of the text, and the action `_`.
    ///
    /// # Errors
    /// `NoMemory` alone.
    ///
    /// Cost: linear in the occurrences and the lengths of the names, on average.
    pub fn of_paths(alloc: Global, term: &Term) -> Result<Names, NoMemory>
        ensures props { IfOk result (λ names. names.props.keys ≡ listed.props_onto (formula_of term.now) []) }
        ensures actions { IfOk result (λ names. names.actions.keys ≡ codes "_" ∷ []) }
    {
        let mut props = IndexSet::new(alloc);
        collect(term, &mut props)?;
        Names::with_blank(alloc, props)
    }
}
