// What holds of texts, formulas and meanings by their definitions alone: the functions do nothing, their contracts are
// the theorems.
ghost use Rattle.std.specs.Prelude.{◌≡◌, ℕ, true, List, ◌∷◌, length};
ghost use Rattle.ml_base.specs.Structure.{Structure, StateSet, is_member};
ghost use Rattle.ml_text.specs.Answers.{HaveOneAnswer, IsUnambiguous};
ghost use Rattle.ml_mu.specs.Formula.{Formula, Binder, Fixpoint, Least, Greatest};
ghost use Rattle.ml_mu.specs.Meaning.{Given, HaveFlags, meaning};
ghost use Rattle.ml_mu.specs.Variables.{is_positive};
ghost use Rattle.ml_mu.specs.Parsing.{IsParsedAs, IsRefusedBy};
ghost use Rattle.ml_mu.specs.ParsingLaws.{CanonicalIsParsed, CanonicalStandsForOne, ParsedAreWellFormed};
ghost use Rattle.ml_mu.specs.TextLaws.{IsTextOf};

/// A text stands for one formula at most, by the grammar alone.
#[tactic(auto, using(crate::proofs::OneAnswer::one_formula))]
pub fn one_formula()
    ensures { IsUnambiguous IsTextOf }
{}

/// The canonical text of a formula whose names are spelled as they must be stands for it and for no other, by the
/// grammar alone. So what `print` writes is a text of the formula that was printed.
#[tactic(auto, using(crate::proofs::OneAnswer::canonical_one))]
pub fn canonical_text()
    ensures { CanonicalStandsForOne }
{}

/// The canonical text of a well-formed formula is parsed as it, within all limits. So every formula that a program holds
/// is read back from what `print` writes.
pub fn canonical_text_is_parsed()
    ensures { CanonicalIsParsed }
{}

/// A text has exactly one answer but want of memory: it is parsed as one formula, or it is refused in one way.
///
/// `some`: one of the two comes. `parsed` and `refused`: each comes in one way at most. `exclusive`: never both come. So
/// `parse` answers each exactly where it is said to come.
pub fn one_answer()
    ensures { HaveOneAnswer IsParsedAs IsRefusedBy }
{}

/// What a text is parsed as is well formed: small, with names spelled as they must be, and with bound and positive
/// variables.
#[tactic(auto, using(crate::proofs::Parsed::parsed_well))]
pub fn parsed_are_well_formed()
    ensures { ParsedAreWellFormed }
{}

/// The meaning of a formula is a set of states: it has one flag for each, where the given sets have.
#[tactic(auto, using(crate::proofs::MeaningFlags::meaning_flags))]
pub fn one_flag_for_each_state()
    ensures { (m : Structure) (g : Given) (f : Formula) → HaveFlags m.states g → length (meaning m g f) ≡ m.states }
{}

/// A positive body grows with the set that its variable means, whatever sets the other variables mean; each set has one
/// flag for each state.
pub fn positive_bodies_grow()
    ensures { (m : Structure) (g : Given) (q : Fixpoint) (x : List ℕ) (f : Formula) (s t : StateSet) → HaveFlags m.states g
        → is_positive (Binder q x f) ≡ true → length s ≡ m.states → length t ≡ m.states
        → ((k : ℕ) → is_member s k ≡ true → is_member t k ≡ true)
        → (k : ℕ) → is_member (meaning m ((x, s) ∷ g) f) k ≡ true → is_member (meaning m ((x, t) ∷ g) f) k ≡ true }
{}

/// What a positive binder means is a fixpoint of its body, whatever sets the other variables mean: of mu the least, of
/// nu the greatest. Each set has one flag for each state.
///
/// `fixpoint`: the body makes of that set the set itself. `least`: it lies within each set in which what the body
/// makes of it lies. `greatest`: each set that lies within what the body makes of it lies within it.
pub fn binders_mean_fixpoints()
    ensures fixpoint { (m : Structure) (g : Given) (q : Fixpoint) (x : List ℕ) (f : Formula) → HaveFlags m.states g
        → is_positive (Binder q x f) ≡ true
        → meaning m ((x, meaning m g (Binder q x f)) ∷ g) f ≡ meaning m g (Binder q x f) }
    ensures least { (m : Structure) (g : Given) (x : List ℕ) (f : Formula) (s : StateSet) → HaveFlags m.states g
        → is_positive (Binder Least x f) ≡ true → length s ≡ m.states
        → ((k : ℕ) → is_member (meaning m ((x, s) ∷ g) f) k ≡ true → is_member s k ≡ true)
        → (k : ℕ) → is_member (meaning m g (Binder Least x f)) k ≡ true → is_member s k ≡ true }
    ensures greatest { (m : Structure) (g : Given) (x : List ℕ) (f : Formula) (s : StateSet) → HaveFlags m.states g
        → is_positive (Binder Greatest x f) ≡ true → length s ≡ m.states
        → ((k : ℕ) → is_member s k ≡ true → is_member (meaning m ((x, s) ∷ g) f) k ≡ true)
        → (k : ℕ) → is_member s k ≡ true → is_member (meaning m g (Binder Greatest x f)) k ≡ true }
{}
