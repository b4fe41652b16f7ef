// Laws over the definitions alone: no caller runs these functions, their contracts are the theorems.
ghost use Rattle.ml_word_automaton.specs.Laws.{AcceptsWhatSatisfies, LettersAreSets, LettersLeadToStates, OneGraph, OneSize, RowsAccept, SomeAutomaton, SomeGraph, SomeLetter, SomeTransitions, TrueStatesAreShared};

/// The automaton of a problem of LTL accepts exactly the word lassos that satisfy the problem's formula, or its negation where
/// the problem is negated.
///
/// Does nothing when called. Source: Vardi and Wolper (1986) for automata of formulas of LTL; the proof goes by the checking
/// game on the block's graph (`PROOF.md`).
pub fn accepts_what_satisfies()
    ensures { AcceptsWhatSatisfies }
{}

/// Letters are sets: two letters that have the same propositions lead alike, in whatever order they list them, and however
/// often.
///
/// Does nothing when called.
pub fn letters_are_sets()
    ensures { LettersAreSets }
{}

/// A problem has an automaton in each sense, and one at most, up to the lists of names. It has more than n nodes exactly where
/// more than n are reached from the block.
///
/// Does nothing when called.
pub fn one_graph()
    ensures one { OneGraph }
    ensures some { SomeGraph }
    ensures size { OneSize }
{}

/// Of the graph of a problem, a node that is True is a state exactly where it is the True that all blocks share; so the states
/// are node 0, the nodes to which Diamonds lead, and that one, where it is reached.
///
/// Does nothing when called.
pub fn true_states_are_shared()
    ensures { TrueStatesAreShared }
{}

/// Letters lead from states to states, each of which has one number; node 0 is a state and has the number 0. So no transition
/// is lost when states go by their numbers.
///
/// Does nothing when called.
pub fn letters_lead_to_states()
    ensures { LettersLeadToStates }
{}

/// Whatever numbers are given, some letter has of a graph's propositions exactly those with these numbers.
///
/// Does nothing when called.
pub fn some_letter()
    ensures { SomeLetter }
{}

/// Where each place of a row has the transitions of an automaton under some letter, and words of places are read as words of
/// these letters, the row accepts from state 0 exactly the word lassos that satisfy the formula of the automaton's problem, or
/// its negation where the problem is negated.
///
/// Does nothing when called.
pub fn rows_accept()
    ensures { RowsAccept }
{}

/// Each problem of LTL has a word automaton, whose states are listed in ascending order.
///
/// Does nothing when called.
pub fn some_automaton()
    ensures { SomeAutomaton }
{}

/// Of a word automaton, the transitions under each letter are listed, since it is decided of each of the finitely many
/// whether the letter has it.
///
/// Does nothing when called.
pub fn some_transitions()
    ensures { SomeTransitions }
{}
