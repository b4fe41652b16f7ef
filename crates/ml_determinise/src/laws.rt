// Laws about the definitions alone: empty functions, each of whose contract is a theorem.
ghost use Rattle.ml_determinise.specs.Histories.{SameWords};
ghost use Rattle.ml_determinise.specs.Numbering.{HistoriesAreBounded, NumberedSameWords, OneNumbering, SomeNumbering, NeverBoth};

/// The deterministic parity automaton of histories accepts exactly the ultimately periodic words that the Büchi
/// automaton accepts, from each of its states.
///
/// Does nothing when called. Source: Schewe, Tighter bounds for the determinisation of Büchi automata (2009), with the ages
/// of Piterman (2006).
pub fn same_words()
    ensures { SameWords }
{}

/// So does the automaton of the histories that are reached from a state, with its states numbered.
///
/// Does nothing when called.
pub fn numbered_same_words()
    ensures { NumberedSameWords }
{}

/// The histories that are reached from a state have one numbering at most; so the moves are known.
///
/// Does nothing when called.
pub fn one_numbering()
    ensures { OneNumbering }
{}

/// At most n histories are reached and have a numbering, or more than n are reached; and never both.
///
/// Does nothing when called.
pub fn numbered_or_passed()
    ensures one { SomeNumbering }
    ensures never_both { NeverBoth }
{}

/// Over Q states at most Q^Q * (Q + 1)^Q histories are reached: where the limit is no less, no automaton is refused for its
/// size.
///
/// Does nothing when called.
pub fn histories_are_bounded()
    ensures { HistoriesAreBounded }
{}
