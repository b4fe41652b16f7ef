// Laws about the definitions alone: empty functions, each of whose contract is a theorem.

ghost use Rattle.ml_bisim_problems.specs.Laws.{AdmittedKept, AlikeAreBisimilar, NoneSmaller, ProblemsCarried};

/// A problem of any of the logics holds at a state of a structure exactly where it holds at the state's class in the
/// quotient. The formula has to mean something by its logic, and the logic has to speak of the structure.
///
/// Does nothing when called.
pub fn problems_are_carried()
    ensures law { ProblemsCarried }
{}

/// Where a logic speaks of a structure, it speaks of the quotient.
///
/// Does nothing when called.
pub fn admitted_is_kept()
    ensures law { AdmittedKept }
{}

/// Two states of a structure are bisimilar, or some formula tells them apart, a formula of modal logic: one of the
/// mu-calculus without variables and binders. So states at which the same formulas hold are bisimilar.
///
/// Does nothing when called. Source: Hennessy and Milner (1985).
pub fn alike_are_bisimilar()
    ensures law { AlikeAreBisimilar }
{}

/// No structure in which each formula of modal logic holds where it held before has fewer states than the quotient,
/// wherever each state went.
///
/// Does nothing when called.
pub fn none_is_smaller()
    ensures law { NoneSmaller }
{}
