// What holds of ordered structures, whoever made them.
ghost use Rattle.ml_kripke.specs.Laws.{FaultOrModel, ModelOrFault, OneFault, OneStructure, OneText, ReadableIsModel, RulesRise};

/// Two structures in order with the same number of states, the same labels at each state and the same edges are one:
/// so what `Structure::build` answers is determined by what it is given.
pub fn one_structure()
    ensures { OneStructure }
{}

/// The text of a model that can be written, a structure with names whose numbers fit 32 bits and a state of it, is the
/// text of no other such model: so equal texts stand for equal models.
pub fn one_text()
    ensures { OneText }
{}

/// A text is a model's or has a first bad line, exactly one of the two, and it has one first bad line at most: so
/// `read_model` answers each exactly where it is said to come, but for want of memory. It is a model's exactly where no
/// line is bad. The rules of a line rise by their numbers, so the one that is told is the lowest that is broken.
pub fn one_fault()
    ensures one { ModelOrFault }
    ensures exclusive { FaultOrModel }
    ensures fault { OneFault }
    ensures readable { ReadableIsModel }
    ensures lowest { RulesRise }
{}
