// The propositions of a formula, each once, in the order of the text.
ghost use Rattle.std.specs.Prelude.{◌≡◌, OnOk};
ghost use Rattle.ml_bounded.specs.FormulaNames as bounded_names;
ghost use Rattle.ml_bounded.specs.Term as bounded;
ghost use Rattle.ml_ctl.specs.FormulaNames as ctl_names;
ghost use Rattle.ml_ctl.specs.Term as ctl;
ghost use Rattle.ml_mu.specs.FormulaNames as mu_names;
ghost use Rattle.ml_mu.specs.Term as mu;
ghost use Rattle.ml_pdl.specs.FormulaNames as pdl_names;
ghost use Rattle.ml_pdl.specs.Term as pdl;
ghost use Rattle.ml_text.specs.NameLists.{with_names};
ghost use Rattle.ml_text.specs.Names.{Proposition, of_kind};
ghost use Rattle.ml_written.specs.Propositions.{propositions};

use crate::Written;
use indexmap::IndexSet;
use ml_base::{Name, NoMemory};
use ml_nodes::add_proposition;

/// Adds the propositions of a formula to others, each in its order, unless it is there.
///
/// # Errors
/// `NoMemory` alone.
///
/// Cost: linear in the occurrences and the lengths of the names, on average.
pub fn add_propositions(written: &Written, to: &mut IndexSet<Name>) -> Result<(), NoMemory>
    ensures { OnOk result (to.new.keys ≡ with_names to.old.keys (propositions written.now)) }
{
    match written {
        Written::Mu(formula) => collect_mu(formula.root(), to),
        Written::Pdl(formula) => collect_pdl(formula.root(), to),
        Written::Ctl(formula) => collect_ctl(formula.root(), to),
        Written::Ltl(formula) | Written::Word(formula) => collect_bounded(formula.root(), to),
    }
}

#[tactic(auto, using(ml_text::proofs::Names::kind_append))]
fn collect_mu(term: &ml_mu::Term, to: &mut IndexSet<Name>) -> Result<(), NoMemory>
    ensures { OnOk result (to.new.keys
        ≡ with_names to.old.keys (of_kind Proposition (mu_names.names (mu.formula_of term.now)))) }
{
    match term {
        ml_mu::Term::Const(_) | ml_mu::Term::Var(_) => Ok(()),
        ml_mu::Term::Prop(name) => add_proposition(to, name),
        ml_mu::Term::Not(operand)
        | ml_mu::Term::Modal(_, _, operand)
        | ml_mu::Term::Binder(_, _, operand) => collect_mu(operand, to),
        ml_mu::Term::Binary(_, left, right) => {
            collect_mu(left, to)?;
            collect_mu(right, to)
        }
    }
}

#[cycle(collecting)]
#[tactic(auto, using(ml_text::proofs::Names::kind_append))]
fn collect_pdl(term: &ml_pdl::Term, to: &mut IndexSet<Name>) -> Result<(), NoMemory>
    ensures { OnOk result (to.new.keys
        ≡ with_names to.old.keys (of_kind Proposition (pdl_names.names (pdl.formula_of term.now)))) }
{
    match term {
        ml_pdl::Term::Const(_) => Ok(()),
        ml_pdl::Term::Prop(name) => add_proposition(to, name),
        ml_pdl::Term::Not(operand) => collect_pdl(operand, to),
        ml_pdl::Term::Binary(_, left, right) => {
            collect_pdl(left, to)?;
            collect_pdl(right, to)
        }
        ml_pdl::Term::Modal(_, program, operand) => {
            collect_program(program, to)?;
            collect_pdl(operand, to)
        }
        ml_pdl::Term::Repeat(program) => collect_program(program, to),
    }
}

#[cycle(collecting)]
#[tactic(auto, using(ml_text::proofs::Names::kind_append))]
fn collect_program(program: &ml_pdl::Program, to: &mut IndexSet<Name>) -> Result<(), NoMemory>
    ensures { OnOk result (to.new.keys
        ≡ with_names to.old.keys (of_kind Proposition (pdl_names.program_names (pdl.program_of program.now)))) }
{
    match program {
        ml_pdl::Program::Act(_) => Ok(()),
        ml_pdl::Program::Seq(left, right) | ml_pdl::Program::Alt(left, right) => {
            collect_program(left, to)?;
            collect_program(right, to)
        }
        ml_pdl::Program::Star(operand) => collect_program(operand, to),
        ml_pdl::Program::Test(formula) => collect_pdl(formula, to),
    }
}

#[tactic(auto, using(ml_text::proofs::Names::kind_append))]
fn collect_ctl(term: &ml_ctl::Term, to: &mut IndexSet<Name>) -> Result<(), NoMemory>
    ensures { OnOk result (to.new.keys
        ≡ with_names to.old.keys (of_kind Proposition (ctl_names.names (ctl.formula_of term.now)))) }
{
    match term {
        ml_ctl::Term::Const(_) => Ok(()),
        ml_ctl::Term::Prop(name) => add_proposition(to, name),
        ml_ctl::Term::Not(operand)
        | ml_ctl::Term::Temporal(_, operand)
        | ml_ctl::Term::Quantified(_, operand) => collect_ctl(operand, to),
        ml_ctl::Term::Binary(_, left, right) | ml_ctl::Term::Paired(_, left, right) => {
            collect_ctl(left, to)?;
            collect_ctl(right, to)
        }
    }
}

#[tactic(auto, using(ml_text::proofs::Names::kind_append))]
fn collect_bounded(term: &ml_bounded::Term, to: &mut IndexSet<Name>) -> Result<(), NoMemory>
    ensures { OnOk result (to.new.keys
        ≡ with_names to.old.keys (of_kind Proposition (bounded_names.names (bounded.formula_of term.now)))) }
{
    match term {
        ml_bounded::Term::Const(_) => Ok(()),
        ml_bounded::Term::Prop(name) => add_proposition(to, name),
        ml_bounded::Term::Not(operand)
        | ml_bounded::Term::Temporal(_, operand)
        | ml_bounded::Term::Bounded(_, operand) => collect_bounded(operand, to),
        ml_bounded::Term::Binary(_, left, right) | ml_bounded::Term::Paired(_, left, right) => {
            collect_bounded(left, to)?;
            collect_bounded(right, to)
        }
    }
}
