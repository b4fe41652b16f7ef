// What holds of texts by their grammars alone: the functions do nothing, their contracts are the theorems.
ghost use Rattle.std.specs.Prelude.{◌≡◌, ◌≤◌, ◌↔◌, ℕ, List, drop, length, take};
ghost use Rattle.ml_text.specs.Answers.{HaveOneAnswer};
ghost use Rattle.ml_text.specs.Limits.{most_occurrences};
ghost use Rattle.ml_lists.specs.Member.{IsMember};
ghost use Rattle.ml_front.specs.Connectives.{occurrences};
ghost use Rattle.ml_front.specs.Logics.{IsParsedAs, logic_of};
ghost use Rattle.ml_front.specs.WellFormed.{IsWellFormed};
ghost use Rattle.ml_front.specs.declared.problem.AnyFormula as any;
ghost use Rattle.ml_written.specs.Places.{IsPropositionAt};
ghost use Rattle.ml_written.specs.Propositions.{propositions};
ghost use Rattle.ml_written.specs.Written.{IsRefusedIn, IsWrittenAs, meaning, written_logic};
ghost use Rattle.ml_written.specs.declared.written.Written as declared;

use ml_front::Logic;

/// In each logic a text has exactly one answer but want of memory: it is written as one formula, or it is refused in one way.
#[tactic(auto, using(crate::proofs::OneAnswer::one_answer))]
pub fn one_answer(logic: Logic)
    ensures { HaveOneAnswer (λ text w. (written_logic w ≡ logic) × IsWrittenAs text w) (IsRefusedIn logic) }
{}

/// What is written as a text stands for a formula of its logic, which is well formed where it has at most 1,000 occurrences.
#[tactic(auto, using(crate::proofs::WellWritten::of_its_logic, crate::proofs::WellWritten::written_well))]
pub fn written_are_well_formed()
    ensures logic { (w : declared.Written) → logic_of (meaning w) ≡ written_logic w }
    ensures well_formed { (text : List ℕ) (w : declared.Written)
        → IsWrittenAs text w
        → occurrences (meaning w) ≤ most_occurrences
        → IsWellFormed (meaning w) }
{}

/// The propositions of what is written are those that stand at some byte of the text, and there the text has their bytes.
#[tactic(auto, using(crate::proofs::PlacedNames::propositions_placed, crate::proofs::PlacedNames::bytes_at))]
pub fn propositions_have_places()
    ensures placed { (text : List ℕ) (w : declared.Written) (p : List ℕ)
        → IsWrittenAs text w
        → IsMember p (propositions w) ↔ ((k : ℕ) × IsPropositionAt text w k p) }
    ensures bytes { (text : List ℕ) (w : declared.Written) (k : ℕ) (p : List ℕ)
        → IsWrittenAs text w
        → IsPropositionAt text w k p
        → take (length p) (drop k text) ≡ p }
{}

/// A text that stands for a formula of a logic where bounded operators aren't read is written as one that means this formula.
#[tactic(auto, using(crate::proofs::UnboundedTexts::means_the_same))]
pub fn texts_mean_the_same()
    ensures { (text : List ℕ) (f : any.AnyFormula)
        → IsParsedAs text f
        → (w : declared.Written) × IsWrittenAs text w × (meaning w ≡ f) }
{}
