// Laws about the definitions alone: empty functions, each of whose contract is a theorem.
ghost use Rattle.ml_buchi.specs.Deterministic.{OneAutomaton, SameWords};
ghost use Rattle.ml_buchi.specs.Valuations.{LettersLead, LettersStay};
ghost use Rattle.ml_buchi.specs.WrittenText.{ConditionIsParity};

/// The letters lead as the edges do: the letter of a valuation has a transition exactly where some edge that may be taken
/// under it leads so.
///
/// Does nothing when called.
pub fn letters_lead()
    ensures { LettersLead }
{}

/// The transitions of all letters have their ends below the number of states.
///
/// Does nothing when called.
pub fn letters_stay()
    ensures { LettersStay }
{}

/// The deterministic automaton of a Büchi automaton accepts exactly the ultimately periodic words of valuations that
/// this one accepts.
///
/// Does nothing when called. Source: Schewe, Tighter bounds for the determinisation of Büchi automata (2009), with the ages
/// of Piterman (2006).
pub fn same_words()
    ensures { SameWords }
{}

/// A Büchi automaton has one deterministic automaton at most; so what `determinise` gives is known.
///
/// Does nothing when called.
pub fn one_automaton()
    ensures { OneAutomaton }
{}

/// The acceptance that `write` writes is met exactly where the lowest set that is met again and again is odd.
///
/// Does nothing when called.
pub fn condition_is_parity()
    ensures { ConditionIsParity }
{}
