// What holds of texts by their grammar alone, and of meanings: the functions do nothing, their contracts are the theorems.
ghost use Rattle.std.specs.Prelude.{◌≡◌, List};
ghost use Rattle.ml_text.specs.Answers.{HaveOneAnswer, IsUnambiguous};
ghost use Rattle.ml_text.specs.Grammar.{IsRegular, IsCompletable, StandsFor};
ghost use Rattle.ml_pdl.specs.Formula.{Formula};
ghost use Rattle.ml_pdl.specs.Signs.{Sign};
ghost use Rattle.ml_pdl.specs.Grammar.{IsReadAs};
ghost use Rattle.ml_pdl.specs.MarkLaws.{MarksAreOfTests};
ghost use Rattle.ml_pdl.specs.Parsing.{IsParsedAs, IsRefusedBy};
ghost use Rattle.ml_pdl.specs.ParsingLaws.{CanonicalIsParsed, CanonicalStandsForOne, ParsedAreWellFormed};
ghost use Rattle.ml_pdl.specs.TextLaws.{IsTextOf, MarksAreOfTexts};
ghost use Rattle.ml_pdl.specs.Laws.{StarsAreLeast, RepetitionsAreGreatest};
ghost use Rattle.ml_pdl.specs.Tables.{Phrase, OfFormula, pdl_grammar};

/// The texts of the grammar are those of its tables, so all that is proved of the machine that reads tables holds of
/// them.
///
/// `read`: what the grammar reads as a formula, the tables stand for. `only`: what the tables stand for is a formula
/// that the grammar reads. `regular` and `completable`: what the machine asks of tables.
pub fn texts_are_those_of_the_tables()
    ensures read { (ts : List Sign) (f : Formula) → IsReadAs ts f → StandsFor pdl_grammar ts (OfFormula f) }
    ensures only { (ts : List Sign) (v : Phrase) → StandsFor pdl_grammar ts v → (f : Formula) × (OfFormula f ≡ v) × IsReadAs ts f }
    ensures regular { IsRegular pdl_grammar }
    ensures completable { IsCompletable pdl_grammar }
{}

/// A parenthesis is marked exactly where its partner is directly followed by `?`.
#[tactic(auto, using(crate::proofs::Marks::marks_are_of_tests))]
pub fn marks_are_of_tests()
    ensures { MarksAreOfTests }
{}

/// The signs of a text are those of its tokens, of which the parentheses are marked as the whole text says.
#[tactic(auto, using(crate::proofs::MarkedTexts::marks_are_of_texts))]
pub fn marks_are_of_texts()
    ensures { MarksAreOfTexts }
{}

/// Signs stand for one formula at most, by the grammar alone.
#[tactic(auto, using(crate::proofs::PdlGrammar::one_formula))]
pub fn one_formula()
    ensures { (ts : List Sign) (f g : Formula) → IsReadAs ts f → IsReadAs ts g → f ≡ g }
{}

/// A text stands for one formula at most, by the grammar alone.
#[tactic(auto, using(crate::proofs::OneAnswer::one_text_formula))]
pub fn texts_stand_for_one()
    ensures { IsUnambiguous IsTextOf }
{}

/// The canonical text of a formula whose names are spelled as they must be stands for it and for no other, by the
/// grammar alone. So what `print` writes is a text of the formula that was printed.
#[tactic(auto, using(crate::proofs::CanonicalParsed::canonical_one))]
pub fn canonical_text()
    ensures { CanonicalStandsForOne }
{}

/// The canonical text of a well-formed formula is parsed as it, within all limits. So every formula that a program holds
/// is read back from what `print` writes.
pub fn canonical_text_is_parsed()
    ensures { CanonicalIsParsed }
{}

/// A text has exactly one answer but want of memory: it is parsed as one formula, or it is refused in one way.
///
/// `some`: one of the two comes. `parsed` and `refused`: each comes in one way at most. `exclusive`: never both come. So
/// `parse` answers each exactly where it is said to come.
pub fn one_answer()
    ensures { HaveOneAnswer IsParsedAs IsRefusedBy }
{}

/// What a text is parsed as is well formed: small, with names spelled as they must be.
#[tactic(auto, using(crate::proofs::Parsed::parsed_well))]
pub fn parsed_are_well_formed()
    ensures { ParsedAreWellFormed }
{}

/// A star relates exactly the states that finitely many runs of its program join: it is the least relation that has them.
pub fn stars_are_least()
    ensures { StarsAreLeast }
{}

/// The states at which a program can be repeated for ever are the greatest set from each state of which a run of it leads
/// into the set.
pub fn repetitions_are_greatest()
    ensures { RepetitionsAreGreatest }
{}
