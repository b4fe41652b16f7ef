// What holds of texts of refutations, whoever made them.
ghost use Rattle.ml_refutation_text.specs.Laws.{FaultOrReadable, OneFault, OneRefutation, OneWrittenText, ReadableIsRefutation, ReadableOrFault};
ghost use Rattle.ml_refutation_text.specs.Laws.{RulesRise, WrittenIsRead, WrittenIsText, WrittenIsWritten};

/// The text that is written of a refutation is a text of it, in both versions: so each refutation has a text.
pub fn written_is_text()
    ensures { WrittenIsText }
{}

/// Of each refutation one text is written, in each version, as the format alone says (`IsWrittenText`): there is one, and
/// no other one, and it is a text of the refutation.
pub fn one_written_text()
    ensures some { WrittenIsWritten }
    ensures once { OneWrittenText }
    ensures read { WrittenIsRead }
{}

/// A text is of one refutation at most, in each version.
pub fn one_refutation()
    ensures { OneRefutation }
{}

/// A text has no bad line or a first one, exactly one of the two, and one first bad line at most, which breaks one lowest
/// rule: the rules of a line rise by their numbers. It has none exactly where it is the text of a refutation.
pub fn one_fault()
    ensures one { ReadableOrFault }
    ensures exclusive { FaultOrReadable }
    ensures fault { OneFault }
    ensures readable { ReadableIsRefutation }
    ensures lowest { RulesRise }
{}
