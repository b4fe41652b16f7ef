// The families, their words and their ranges.
ghost use Rattle.std.specs.Prelude.{◌≡◌, ◌≢◌, MatchOption};
ghost use Rattle.ml_gen.specs.Families.{family_word, logic_name};
ghost use Rattle.ml_gen.specs.FamilyRanges.{family_named, greatest, is_in_range};

/// The families of formulas.
#[derive(Clone, Copy, PartialEq, Eq)]
pub enum Family {
    /// Of the mu-calculus: `p1 & p2 & ..`.
    And,
    /// Of the mu-calculus: `(p1 | q1) & (p2 | q2) & ..`.
    Or,
    /// Of PDL: `<a;a;..>p & [a*]!p`.
    Step,
    /// Of LTL: `(G F p1) & (G F p2) & ..`.
    Fair,
    /// Of PDL: `repeat(a;a;..)`.
    Loop,
}

impl Family {
    /// The word that names the family.
    pub fn word(self) -> &'static [u8]
        ensures { result.now ≡ family_word self }
    {
        match self {
            Family::And => b"and",
            Family::Or => b"or",
            Family::Step => b"step",
            Family::Fair => b"fair",
            Family::Loop => b"loop",
        }
    }

    /// The family that a word names; `None` where it names none.
    pub fn named(word: &[u8]) -> Option<Family>
        ensures table { result ≡ family_named word.now }
        ensures word { MatchOption result ((f : Family) → word.now ≢ family_word f) (λ f. word.now ≡ family_word f) }
    {
        if word == Family::And.word() {
            Some(Family::And)
        } else if word == Family::Or.word() {
            Some(Family::Or)
        } else if word == Family::Step.word() {
            Some(Family::Step)
        } else if word == Family::Fair.word() {
            Some(Family::Fair)
        } else if word == Family::Loop.word() {
            Some(Family::Loop)
        } else {
            None
        }
    }

    /// Whether the family has a formula for the number.
    pub fn has(self, n: u32) -> bool
        ensures { result ≡ is_in_range self n }
    {
        1 <= n && n <= self.greatest()
    }

    // The greatest number of its range.
    fn greatest(self) -> u32
        ensures { result ≡ greatest self }
    {
        match self {
            Family::And => 500,
            Family::Or => 16,
            Family::Step | Family::Loop => 400,
            Family::Fair => 3,
        }
    }
}

/// The name of the logic that the formulas of the family are of.
pub fn logic_name(family: Family) -> &'static str
    ensures { result.now ≡ logic_name family }
{
    match family {
        Family::And | Family::Or => "mu",
        Family::Step | Family::Loop => "pdl",
        Family::Fair => "ltl",
    }
}
