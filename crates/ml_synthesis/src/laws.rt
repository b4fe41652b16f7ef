// Laws about the definitions alone: empty functions, each of whose contract is a theorem.
ghost use Rattle.ml_synthesis.specs.Laws.{CommonWord, MoreOrFew, NeverBoth, SomeOutcome};

/// A machine and an environment with the same inputs and outputs have a word in common. So for no set of words there is
/// a machine all of whose words are in the set, and an environment none of whose words is.
///
/// Does nothing when called.
pub fn common_word()
    ensures { CommonWord }
{}

/// Of each automaton over valuations, of any size and with any number of inputs and outputs, there is a machine none of
/// whose words it accepts, or an environment all of whose words it accepts; and never both.
///
/// Does nothing when called. It rests on the determinacy law of parity games.
pub fn some_outcome()
    ensures some { SomeOutcome }
    ensures never_both { NeverBoth }
{}

/// More than so many positions of the game are reached, or they aren't.
///
/// Does nothing when called.
pub fn more_or_few()
    ensures { MoreOrFew }
{}
