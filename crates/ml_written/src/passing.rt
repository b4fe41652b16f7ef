// The names of a formula in the order of the text, up to the first proposition that isn't declared.
//
// Names that begin with a lower-case letter are counted, actions too. What comes back is how many there are behind all names
// (`Ok`), or before the first proposition that isn't declared (`Err`).
ghost use Rattle.std.specs.Prelude.{◌≡◌, ◌+◌, ◌≤◌, IfOk};
ghost use Rattle.ml_bounded.specs.Formula as bounded_formula;
ghost use Rattle.ml_bounded.specs.FormulaNames as bounded_names;
ghost use Rattle.ml_bounded.specs.Term as bounded;
ghost use Rattle.ml_ctl.specs.Formula as ctl_formula;
ghost use Rattle.ml_ctl.specs.FormulaNames as ctl_names;
ghost use Rattle.ml_ctl.specs.Term as ctl;
ghost use Rattle.ml_mu.specs.Formula as mu_formula;
ghost use Rattle.ml_mu.specs.FormulaNames as mu_names;
ghost use Rattle.ml_mu.specs.Term as mu;
ghost use Rattle.ml_pdl.specs.Formula as pdl_formula;
ghost use Rattle.ml_pdl.specs.FormulaNames as pdl_names;
ghost use Rattle.ml_pdl.specs.Term as pdl;
ghost use Rattle.ml_text.specs.Limits.{most_occurrences};
ghost use Rattle.indexmap.specs.IndexMap.{keys};
ghost use Rattle.ml_written.specs.Propositions.{names};
ghost use Rattle.ml_written.specs.private.Passing.{counted, declares, passed, passed_name};

use crate::Written;
use crate::propositions::begins_lower;
use indexmap::IndexMap;
use ml_base::Name;

/// All names of a formula.
pub(crate) fn passed<V>(written: &Written, declared: &IndexMap<Name, V>) -> Result<u32, u32>
    ensures { result ≡ passed (keys declared.now) 0 (names written.now) }
{
    match written {
        Written::Mu(formula) => passed_mu(formula.root(), declared, 0),
        Written::Pdl(formula) => passed_pdl(formula.root(), declared, 0),
        Written::Ctl(formula) => passed_ctl(formula.root(), declared, 0),
        Written::Ltl(formula) | Written::Word(formula) => {
            passed_bounded(formula.root(), declared, 0)
        }
    }
}

// as how many a name counts
fn counted(name: &[u8]) -> u32
    ensures value { result ≡ counted name.now }
    ensures small { result ≤ 1 }
{
    u32::from(begins_lower(name))
}

// Is a name among the keys?
fn declares<V>(declared: &IndexMap<Name, V>, name: &Name) -> bool
    ensures { result ≡ declares (keys declared.now) name.now }
{
    declared.contains_key(name)
}

fn passed_name<V>(name: &Name, declared: &IndexMap<Name, V>, before: u32) -> Result<u32, u32>
    requires { before + 1 ≤ most_occurrences }
    ensures value { result ≡ passed_name (keys declared.now) before name.now }
    ensures small { IfOk result (λ n. n ≤ before + 1) }
{
    if declares(declared, name) {
        Ok(before + counted(name.bytes()))
    } else {
        Err(before)
    }
}

#[tactic(auto, using(crate::proofs::PassedNames::stops, crate::proofs::PassedNames::goes_on))]
fn passed_mu<V>(term: &ml_mu::Term, declared: &IndexMap<Name, V>, before: u32) -> Result<u32, u32>
    requires { before + mu_formula.occurrences (mu.formula_of term.now) ≤ most_occurrences }
    ensures value { result ≡ passed (keys declared.now) before (mu_names.names (mu.formula_of term.now)) }
    ensures small { IfOk result (λ n. n ≤ before + mu_formula.occurrences (mu.formula_of term.now)) }
{
    match term {
        ml_mu::Term::Const(_) => Ok(before),
        ml_mu::Term::Prop(name) => passed_name(name, declared, before),
        ml_mu::Term::Var(name) => Ok(before + counted(name.bytes())),
        ml_mu::Term::Not(operand) => passed_mu(operand, declared, before),
        ml_mu::Term::Binary(_, left, right) => {
            passed_mu(right, declared, passed_mu(left, declared, before)?)
        }
        ml_mu::Term::Modal(_, action, operand) => {
            passed_mu(operand, declared, before + counted(action.bytes()))
        }
        ml_mu::Term::Binder(_, variable, body) => {
            passed_mu(body, declared, before + counted(variable.bytes()))
        }
    }
}

#[cycle(passing)]
#[tactic(auto, using(crate::proofs::PassedNames::stops, crate::proofs::PassedNames::goes_on))]
fn passed_pdl<V>(term: &ml_pdl::Term, declared: &IndexMap<Name, V>, before: u32) -> Result<u32, u32>
    requires { before + pdl_formula.occurrences (pdl.formula_of term.now) ≤ most_occurrences }
    ensures value { result ≡ passed (keys declared.now) before (pdl_names.names (pdl.formula_of term.now)) }
    ensures small { IfOk result (λ n. n ≤ before + pdl_formula.occurrences (pdl.formula_of term.now)) }
{
    match term {
        ml_pdl::Term::Const(_) => Ok(before),
        ml_pdl::Term::Prop(name) => passed_name(name, declared, before),
        ml_pdl::Term::Not(operand) => passed_pdl(operand, declared, before),
        ml_pdl::Term::Binary(_, left, right) => {
            passed_pdl(right, declared, passed_pdl(left, declared, before)?)
        }
        ml_pdl::Term::Modal(_, program, operand) => {
            passed_pdl(
                operand,
                declared,
                passed_program(program, declared, before)?,
            )
        }
        ml_pdl::Term::Repeat(program) => passed_program(program, declared, before),
    }
}

#[cycle(passing)]
#[tactic(auto, using(crate::proofs::PassedNames::stops, crate::proofs::PassedNames::goes_on))]
fn passed_program<V>(
    program: &ml_pdl::Program,
    declared: &IndexMap<Name, V>,
    before: u32,
) -> Result<u32, u32>
    requires { before + pdl_formula.program_occurrences (pdl.program_of program.now) ≤ most_occurrences }
    ensures value { result ≡ passed (keys declared.now) before (pdl_names.program_names (pdl.program_of program.now)) }
    ensures small { IfOk result (λ n. n ≤ before + pdl_formula.program_occurrences (pdl.program_of program.now)) }
{
    match program {
        ml_pdl::Program::Act(action) => Ok(before + counted(action.bytes())),
        ml_pdl::Program::Seq(left, right) | ml_pdl::Program::Alt(left, right) => {
            passed_program(right, declared, passed_program(left, declared, before)?)
        }
        ml_pdl::Program::Star(operand) => passed_program(operand, declared, before),
        ml_pdl::Program::Test(formula) => passed_pdl(formula, declared, before),
    }
}

#[tactic(auto, using(crate::proofs::PassedNames::stops, crate::proofs::PassedNames::goes_on))]
fn passed_ctl<V>(term: &ml_ctl::Term, declared: &IndexMap<Name, V>, before: u32) -> Result<u32, u32>
    requires { before + ctl_formula.occurrences (ctl.formula_of term.now) ≤ most_occurrences }
    ensures value { result ≡ passed (keys declared.now) before (ctl_names.names (ctl.formula_of term.now)) }
    ensures small { IfOk result (λ n. n ≤ before + ctl_formula.occurrences (ctl.formula_of term.now)) }
{
    match term {
        ml_ctl::Term::Const(_) => Ok(before),
        ml_ctl::Term::Prop(name) => passed_name(name, declared, before),
        ml_ctl::Term::Not(operand)
        | ml_ctl::Term::Temporal(_, operand)
        | ml_ctl::Term::Quantified(_, operand) => passed_ctl(operand, declared, before),
        ml_ctl::Term::Binary(_, left, right) | ml_ctl::Term::Paired(_, left, right) => {
            passed_ctl(right, declared, passed_ctl(left, declared, before)?)
        }
    }
}

#[tactic(auto, using(crate::proofs::PassedNames::stops, crate::proofs::PassedNames::goes_on))]
fn passed_bounded<V>(
    term: &ml_bounded::Term,
    declared: &IndexMap<Name, V>,
    before: u32,
) -> Result<u32, u32>
    requires { before + bounded_formula.occurrences (bounded.formula_of term.now) ≤ most_occurrences }
    ensures value { result ≡ passed (keys declared.now) before (bounded_names.names (bounded.formula_of term.now)) }
    ensures small { IfOk result (λ n. n ≤ before + bounded_formula.occurrences (bounded.formula_of term.now)) }
{
    match term {
        ml_bounded::Term::Const(_) => Ok(before),
        ml_bounded::Term::Prop(name) => passed_name(name, declared, before),
        ml_bounded::Term::Not(operand)
        | ml_bounded::Term::Temporal(_, operand)
        | ml_bounded::Term::Bounded(_, operand) => passed_bounded(operand, declared, before),
        ml_bounded::Term::Binary(_, left, right) | ml_bounded::Term::Paired(_, left, right) => {
            passed_bounded(right, declared, passed_bounded(left, declared, before)?)
        }
    }
}
