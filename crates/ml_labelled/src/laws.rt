// Laws over the definitions alone: no caller runs these functions, their contracts are the theorems.
ghost use Rattle.ml_labelled.specs.Laws.{GuardsLeadSame, TextIsRead, TextStands};

/// The text of an automaton stands, by the grammar of automaton texts, for this automaton with guards for its cubes, whatever
/// its size, and is read as this automaton where it has no more states, propositions and edges than a text that is read may
/// have.
///
/// Does nothing when called.
pub fn text_stands()
    ensures stands { TextStands }
    ensures read { TextIsRead }
{}

/// Under each letter the guards lead from state to state as the cubes do, so both automata accept the same words.
///
/// Does nothing when called.
pub fn guards_lead_same()
    ensures { GuardsLeadSame }
{}
