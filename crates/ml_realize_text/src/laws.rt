// Laws over documents stand here: no caller runs these functions, and their contracts are the theorems.
ghost use Rattle.ml_realize_text.specs.Laws.{OneFault, OneReading, RulesRise, SomeReading, TextOrFault, WrittenReadsBack};

/// A text is a document of exactly one task and one outcome, or it has exactly one first bad line with one lowest rule.
///
/// Does nothing when called. `one`, `one_fault`: it has one of each kind at most. `some`: one of the two. `never_both`.
pub fn one_reading()
    ensures one { OneReading }
    ensures one_fault { OneFault }
    ensures some { SomeReading }
    ensures never_both { TextOrFault }
{}

/// The numbers of the rules of a line rise: so the first rule that it breaks is the one with the lowest number.
///
/// Does nothing when called.
pub fn rules_rise()
    ensures { RulesRise }
{}

/// What is written of a task and an outcome that fits it is read as them, as long as the number of states fits 32 bits.
///
/// Does nothing when called.
pub fn written_reads_back()
    ensures { WrittenReadsBack }
{}
