// Laws over the definitions alone: no caller runs these functions, their contracts are the theorems.
ghost use Rattle.ml_machine_text.specs.Laws.{DefeatedHolds, MadeHolds, OneFinding, RightHolds, ShownAreConfirmed, SomeFinding};

/// In each text something is found, and one thing at most, up to which word is shown. So `check_document` answers each exactly
/// where it is said to come, but for want of memory.
///
/// Does nothing when called.
pub fn one_finding()
    ensures some { SomeFinding }
    ensures one { OneFinding }
{}

/// The document of each word of fewer than 2 ^ 32 places that is shown is one at whose start its problem holds, as
/// `ml_model_check::check_document` answers.
///
/// Does nothing when called.
pub fn shown_words_are_confirmed()
    ensures { ShownAreConfirmed }
{}

/// What is written of a machine that realizes a task, or of an environment that defeats it, is found right, unless the word
/// automaton is too large, as long as the number of states fits 32 bits.
///
/// Does nothing when called.
pub fn right_holds()
    ensures { RightHolds }
{}

/// So is what is found in the game of a task of fewer than 2 ^ 32 positions: a machine without exception, and an environment
/// unless the word automaton of the formula is too large.
///
/// Does nothing when called.
pub fn found_holds()
    ensures made { MadeHolds }
    ensures defeated { DefeatedHolds }
{}
