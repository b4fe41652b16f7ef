// The logics.
ghost use Rattle.std.specs.Prelude.{◌≡◌, ◌≢◌, MatchOption};
ghost use Rattle.ml_front.specs.Logics.{logic_named, logic_word};

/// The logics whose formulas are read.
#[derive(Clone, Copy, PartialEq, Eq)]
pub enum Logic {
    /// The modal mu-calculus.
    Mu,
    /// Propositional dynamic logic, with infinite repetition.
    Pdl,
    /// CTL*.
    Ctl,
    /// LTL on some path among many: a negated problem asks for a path that doesn't satisfy the formula.
    Ltl,
    /// LTL, read on single words.
    Word,
}

impl Logic {
    /// The word of the line `logic`.
    pub fn word(self) -> &'static [u8]
        ensures { result.now ≡ logic_word self }
    {
        match self {
            Logic::Mu => b"mu",
            Logic::Pdl => b"pdl",
            Logic::Ctl => b"ctl",
            Logic::Ltl => b"ltl",
            Logic::Word => b"word",
        }
    }

    /// The logic that a word names; `None` where it names none.
    pub fn named(word: &[u8]) -> Option<Logic>
        ensures table { result ≡ logic_named word.now }
        ensures word { MatchOption result ((l : Logic) → word.now ≢ logic_word l) (λ l. word.now ≡ logic_word l) }
    {
        if word == Logic::Mu.word() {
            Some(Logic::Mu)
        } else if word == Logic::Pdl.word() {
            Some(Logic::Pdl)
        } else if word == Logic::Ctl.word() {
            Some(Logic::Ctl)
        } else if word == Logic::Ltl.word() {
            Some(Logic::Ltl)
        } else if word == Logic::Word.word() {
            Some(Logic::Word)
        } else {
            None
        }
    }
}
