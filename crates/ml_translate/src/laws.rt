// Laws over the definitions alone: no caller runs these functions, their contracts are the theorems.
ghost use Rattle.ml_translate.specs.Laws.{OneOutcome, SamePlaces, SomeTranslation, WrittenAccepts};
ghost use Rattle.ml_translate.specs.Translation.{most_nodes};
ghost use Rattle.std.specs.Prelude.{◌≡◌};

/// Two word automata of one formula have the same places; so how many there are doesn't depend on the automaton.
///
/// Does nothing when called.
pub fn same_places()
    ensures { SamePlaces }
{}

/// What is written for a formula stands, by the grammar of automaton texts, for an automaton that accepts exactly the word
/// lassos that satisfy the formula; `ml_hoa::read` reads it as this automaton, if it has no more states, propositions and edges
/// than one that is read may have.
///
/// Does nothing when called.
pub fn written_accepts()
    ensures { WrittenAccepts }
{}

/// Of each formula that is well formed an automaton is written, or its word automaton is too large, or has too many places; and
/// of any formula at most one of the three is so.
///
/// Does nothing when called.
pub fn one_outcome()
    ensures some { SomeTranslation }
    ensures one { OneOutcome }
{}

/// A formula's word automaton has at most 65,536 nodes.
///
/// Does nothing when called.
pub fn limits()
    ensures { most_nodes ≡ 65536 }
{}
