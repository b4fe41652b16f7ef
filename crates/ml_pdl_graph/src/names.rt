// The names of a formula's graph: its propositions and its actions, each once, in the order of the text.
ghost use Rattle.std.specs.Prelude.{◌≡◌, OnOk, IfOk, []};
ghost use Rattle.ml_pdl.specs.Term.{formula_of, program_of};
ghost use Rattle.ml_pdl_graph.specs.private.NodeList as listed;

use indexmap::IndexSet;
use ml_base::{Action, Name, NoMemory};
use ml_nodes::{Names, add_action, add_proposition};
use ml_pdl::{Program, Term};
use std::alloc::Global;

// the propositions and the actions of a term, in the order of the text
#[cycle(collecting)]
#[tactic(auto, using(ml_text::proofs::Names::kind_append))]
fn collect(
    term: &Term,
    props: &mut IndexSet<Name>,
    actions: &mut IndexSet<Action>,
) -> Result<(), NoMemory>
    ensures props { OnOk result (props.new.keys ≡ listed.props_onto (formula_of term.now) props.old.keys) }
    ensures actions { OnOk result (actions.new.keys ≡ listed.actions_onto (formula_of term.now) actions.old.keys) }
{
    match term {
        Term::Const(_) => Ok(()),
        Term::Prop(name) => add_proposition(props, name),
        Term::Not(operand) => collect(operand, props, actions),
        Term::Binary(_, left, right) => {
            collect(left, props, actions)?;
            collect(right, props, actions)
        }
        Term::Modal(_, program, operand) => {
            collect_program(program, props, actions)?;
            collect(operand, props, actions)
        }
        Term::Repeat(program) => collect_program(program, props, actions),
    }
}

// the same of a program
#[cycle(collecting)]
#[tactic(auto, using(ml_text::proofs::Names::kind_append))]
fn collect_program(
    program: &Program,
    props: &mut IndexSet<Name>,
    actions: &mut IndexSet<Action>,
) -> Result<(), NoMemory>
    ensures props { OnOk result (props.new.keys ≡ listed.program_props_onto (program_of program.now) props.old.keys) }
    ensures actions { OnOk result (actions.new.keys ≡ listed.program_actions_onto (program_of program.now) actions.old.keys) }
{
    match program {
        Program::Act(action) => add_action(actions, action),
        Program::Seq(left, right) | Program::Alt(left, right) => {
            collect_program(left, props, actions)?;
            collect_program(right, props, actions)
        }
        Program::Star(operand) => collect_program(operand, props, actions),
        Program::Test(formula) => collect(formula, props, actions),
    }
}

// the names of a term
pub(crate) fn names_of(alloc: Global, term: &Term) -> Result<Names, NoMemory>
    ensures props { IfOk result (λ names. names.props.keys ≡ listed.props_onto (formula_of term.now) []) }
    ensures actions { IfOk result (λ names. names.actions.keys ≡ listed.actions_onto (formula_of term.now) []) }
{
    let mut props = IndexSet::new(alloc);
    let mut actions = IndexSet::new(alloc);
    collect(term, &mut props, &mut actions)?;
    Ok(Names { props, actions })
}
