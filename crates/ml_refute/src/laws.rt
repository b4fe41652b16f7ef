// Laws about the definitions alone: empty functions, each of whose contract is a theorem.

ghost use Rattle.ml_refute.specs.Laws.{EntriesAreReached, ExtractedAccepted, ExtractedRefutation, NoEvenCycle, OneRefutation, SomeRefutation};

/// The positions of the entries are exactly those without a choice that plays from the start meet in which Odd makes the
/// solution's moves.
///
/// Does nothing when called.
pub fn entries_are_reached()
    ensures law { EntriesAreReached }
{}

/// A solution of a graph's decision game makes one refutation at most: entries, their order, decisions, marks, names and
/// heights are determined.
///
/// Does nothing when called.
pub fn one_refutation()
    ensures law { OneRefutation }
{}

/// The refutation that a solution of a graph's decision game makes breaks no rule of acceptance in that graph; and what can
/// be asked of a refutation without a graph it keeps too, where the graph is of at most 4,096 nodes and its priorities and
/// the number of positions fit 32 bits. So it can be held by a program, and written, and it is accepted.
///
/// Does nothing when called.
pub fn extracted_are_accepted()
    ensures law { ExtractedAccepted }
    ensures is_refutation { ExtractedRefutation }
{}

/// Where Odd wins the start of a graph's decision game, no cycle of go's of the refutation has an even lowest priority: so
/// heights of the entries exist.
///
/// Does nothing when called.
pub fn no_even_cycle()
    ensures law { NoEvenCycle }
{}

/// Where Odd wins the start of a graph's decision game, each solution of the game makes a refutation. With
/// `one_refutation` it makes exactly one.
///
/// Does nothing when called.
pub fn some_refutation()
    ensures law { SomeRefutation }
{}
