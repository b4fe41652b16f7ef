// Laws over the definitions alone: no caller runs these functions, their contracts are the theorems.
ghost use Rattle.ml_ask_text.specs.Laws.{SomeTold, ToldAlike, ToldBySpecification};

/// Something is told of each text, in each form and for each limit of 32 bits: so `ask_text` may always answer, but for want of
/// memory.
///
/// Does nothing when called.
pub fn something_told()
    ensures { SomeTold }
{}

/// Of two things that are told of one text both are refusals, by the same rule at the same line and column; or both are
/// answers, and never does one say that all is as it is meant and the other that something is against it. So `ask_text` answers
/// and refuses exactly where it is said to.
///
/// Does nothing when called.
pub fn told_alike()
    ensures { ToldAlike }
{}

/// What is told of a text depends on the specification alone that it is. So of a text with definitions, enumerations and bounds
/// the same is told as of the text in which these are written out.
///
/// Does nothing when called.
pub fn told_by_specification()
    ensures { ToldBySpecification }
{}
