// What holds of texts by their grammar alone: the functions do nothing, their contracts are the theorems.
ghost use Rattle.std.specs.Prelude.{ℕ, List};
ghost use Rattle.ml_text.specs.Answers.{HaveOneAnswer, IsUnambiguous};
ghost use Rattle.ml_bounded.specs.Formula.{Formula};
ghost use Rattle.ml_bounded.specs.Parsing.{IsParsedAs, IsRefusedBy};
ghost use Rattle.ml_bounded.specs.TextLaws.{IsTextOf};
ghost use Rattle.ml_bounded.specs.WellFormed.{IsWellFormed};

/// A text stands for one formula at most, by the grammar alone.
#[tactic(auto, using(crate::proofs::OneAnswer::one_text_formula))]
pub fn texts_stand_for_one()
    ensures { IsUnambiguous IsTextOf }
{}

/// A text has exactly one answer but want of memory: it is parsed as one formula, or it is refused in one way.
///
/// `some`: one of the two comes. `parsed` and `refused`: each comes in one way at most. `exclusive`: never both come. So
/// `parse` answers each exactly where it is said to come.
#[tactic(auto, using(crate::proofs::OneAnswer::one_answer))]
pub fn one_answer()
    ensures { HaveOneAnswer IsParsedAs IsRefusedBy }
{}

/// What a text is parsed as is well formed: small, with names spelled as they must be.
#[tactic(auto, using(crate::proofs::Parsed::parsed_well))]
pub fn parsed_are_well_formed()
    ensures { (text : List ℕ) (f : Formula) → IsParsedAs text f → IsWellFormed f }
{}
