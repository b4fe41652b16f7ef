// The two languages, as values and as types, and the two sorts of their formulas.
ghost use Rattle.std.specs.Prelude.{◌≡◌};
ghost use Rattle.ml_ctl.specs.declared.language.Language as declared;
ghost use Rattle.ml_ctl.specs.declared.language.Language.TheVariants as language;

/// Whose formulas and texts are meant.
#[derive(Clone, Copy)]
pub enum Language {
    /// CTL*: state formulas, with E and A.
    Ctl,
    /// LTL: path formulas, without E and A.
    Ltl,
}

/// What a part of a text stands for, by the grammar.
#[derive(Clone, Copy)]
pub enum Sort {
    /// A state formula.
    State,
    /// A path formula.
    Path,
}

/// A language as a type, so that the type of a formula says whose it is.
pub trait Words {
    ghost language: { declared.Language };

    /// Which one it is.
    fn which() -> Language
        ensures { result ≡ language };
}

/// CTL*.
pub struct Ctl;

/// LTL.
pub struct Ltl;

impl Words for Ctl {
    ghost language = { language.Ctl };

    fn which() -> Language {
        Language::Ctl
    }
}

impl Words for Ltl {
    ghost language = { language.Ltl };

    fn which() -> Language {
        Language::Ltl
    }
}
