// Laws over specification texts: no caller runs these functions, their contracts are the theorems.
ghost use Rattle.ml_spec.specs.ExactlyOne.{PathsHaveOne, StatesHaveOne};
ghost use Rattle.ml_spec.specs.Laws.{AreSpecified, ItemsApart, KeepsLines, NeverBoth, OneRefusal, OneSpecification, SomeReading};

/// A text has as many bytes without its comments, and its lines end at the same places.
///
/// Does nothing when called.
pub fn lines_kept()
    ensures kept { KeepsLines }
{}

/// Each item of a text ends before the next one begins, with a byte at least between them.
///
/// Does nothing when called.
pub fn items_apart()
    ensures apart { ItemsApart }
{}

/// Each text is one specification, or is refused by one rule at one line and column, exactly one of the two. So `read` answers
/// each exactly where it is said to come, but for want of memory.
///
/// Does nothing when called.
pub fn one_answer()
    ensures some { SomeReading }
    ensures never_both { NeverBoth }
    ensures one_specification { OneSpecification }
    ensures one_refusal { OneRefusal }
{}

/// The items of each specification are of its logic; their formulas, written out, are formulas that the program holds; their
/// names are names, and no two of them have the same; and they aren't too many.
///
/// Does nothing when called.
pub fn specifications_are_specified()
    ensures specified { AreSpecified }
{}

/// The requirement that an enumeration is holds exactly where one of its propositions is true at each moment: in LTL of a path,
/// and in CTL* of all paths from a state.
///
/// Does nothing when called.
pub fn enumerations_have_one_value()
    ensures paths { PathsHaveOne }
    ensures states { StatesHaveOne }
{}
