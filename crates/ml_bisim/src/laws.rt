// Laws about the definitions alone: empty functions, each of whose contract is a theorem.

ghost use Rattle.ml_bisim.specs.Laws.{GraphsCarried, OneQuotient, Reduced, SomeClasses, TotalKept};

/// A modal graph, which a formula of any of the logics becomes, holds at a state of a structure exactly where it holds at
/// the state's class in the quotient, at each of its nodes. Graphs and structures are of any size.
///
/// Does nothing when called.
pub fn graphs_are_carried()
    ensures law { GraphsCarried }
{}

/// No two different states of a quotient are bisimilar.
///
/// Does nothing when called.
pub fn reduced()
    ensures law { Reduced }
{}

/// Where each state of a structure has an edge by an action, so does each state of the quotient.
///
/// Does nothing when called.
pub fn total_is_kept()
    ensures law { TotalKept }
{}

/// The states of each structure have classes, and a structure has one quotient at most, with one list of classes. So
/// what `quotient` answers is determined, but for want of memory.
///
/// Does nothing when called.
pub fn one_quotient()
    ensures once { OneQuotient }
    ensures classes { SomeClasses }
{}
