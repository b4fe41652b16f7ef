// What holds of texts by their grammar alone, and of meanings: the functions do nothing, their contracts are the theorems.
ghost use Rattle.ml_text.specs.Answers.{HaveOneAnswer, IsUnambiguous};
ghost use Rattle.ml_ctl.specs.declared.language.Language.{Language};
ghost use Rattle.ml_ctl.specs.Laws.{AllAreNotSome, FollowsThePath, LooksAtTheState, PathsStart, ReadAhead, ReadStepByStep, SomeAreNotAll};
ghost use Rattle.ml_ctl.specs.Laws.{NegationsOfFinally, NegationsOfGlobally, NegationsOfNext, NegationsOfRelease, NegationsOfUntil, NegationsOfWeak};
ghost use Rattle.ml_ctl.specs.Parsing.{IsParsedAs, IsRefusedBy};
ghost use Rattle.ml_ctl.specs.ParsingLaws.{CanonicalIsParsed, CanonicalStandsForOne, ParsedAreWellFormed};
ghost use Rattle.ml_ctl.specs.TextLaws.{IsTextOf};

/// A text stands for one formula at most, by the grammar alone.
#[tactic(auto, using(crate::proofs::OneAnswer::one_text_formula))]
pub fn texts_stand_for_one()
    ensures { (w : Language) → IsUnambiguous (IsTextOf w) }
{}

/// The canonical text of a formula of the logic whose names are spelled as they must be stands for it and for no other, by
/// the grammar alone. So what `print` writes is a text of the formula that was printed.
#[tactic(auto, using(crate::proofs::CanonicalParsed::canonical_one))]
pub fn canonical_text()
    ensures { CanonicalStandsForOne }
{}

/// The canonical text of a well-formed formula is parsed as it, within all limits. So every formula that a program holds
/// is read back from what `print` writes.
pub fn canonical_text_is_parsed()
    ensures { CanonicalIsParsed }
{}

/// A text has exactly one answer but want of memory: it is parsed as one formula, or it is refused in one way.
///
/// `some`: one of the two comes. `parsed` and `refused`: each comes in one way at most. `exclusive`: never both come. So
/// `parse` answers each exactly where it is said to come.
pub fn one_answer()
    ensures { (w : Language) → HaveOneAnswer (IsParsedAs w) (IsRefusedBy w) }
{}

/// What a text is parsed as is well formed: small, with names spelled as they must be, and a formula of the logic.
#[tactic(auto, using(crate::proofs::Parsed::parsed_well))]
pub fn parsed_are_well_formed()
    ensures { ParsedAreWellFormed }
{}

/// What a temporal operator says at a place follows from what its operands say there and what it says at the next place.
pub fn temporal_operators_step_by_step()
    ensures { ReadStepByStep }
{}

/// What a temporal operator says at a place is what textbooks say of the endless path from there: `f U g` that g is true
/// after some number of steps and f after each smaller one, `f R g` that g is true after each number of steps unless f
/// was true before, and so on.
pub fn temporal_operators_read_ahead()
    ensures { ReadAhead }
{}

/// Whether a formula is true at a place depends on the states that are passed from there on, and not on how the lasso is
/// unrolled, or on what stands in front of the place.
#[tactic(auto, using(crate::proofs::SamePaths::follows_the_path))]
pub fn truth_follows_the_path()
    ensures { FollowsThePath }
{}

/// A state formula is true at a place exactly where it holds at the place's state.
#[tactic(auto, using(crate::proofs::StateFormulas::looks_at_the_state))]
pub fn state_formulas_look_at_the_state()
    ensures { LooksAtTheState }
{}

/// Each temporal operator has a dual, where truth is decided.
#[tactic(auto, using(crate::proofs::Negations::negations))]
pub fn temporal_operators_have_duals()
    ensures next { NegationsOfNext }
    ensures until { NegationsOfUntil }
    ensures release { NegationsOfRelease }
    ensures weak { NegationsOfWeak }
    ensures finally { NegationsOfFinally }
    ensures globally { NegationsOfGlobally }
{}

/// `A f` holds exactly where `E !f` doesn't, and `E f` exactly where `A !f` doesn't, where truth is decided.
pub fn quantifiers_have_duals()
    ensures all { AllAreNotSome }
    ensures some { SomeAreNotAll }
{}

/// From each state of a structure of which CTL* and LTL speak, some path starts. So `A f` never holds for want of a path.
pub fn paths_start()
    ensures { PathsStart }
{}
