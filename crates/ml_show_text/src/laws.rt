// Laws over documents alone: no caller runs these functions, their contracts are the theorems.
ghost use Rattle.ml_show_text.specs.Laws.{DocumentOrFault, NeverBoth, OneFault};

/// A text is a document of its kind, or there is exactly one reason why it is none, as one first bad line with one lowest rule,
/// and never both.
///
/// Does nothing when called.
pub fn one_reading()
    ensures some { DocumentOrFault }
    ensures never_both { NeverBoth }
    ensures one_fault { OneFault }
{}
