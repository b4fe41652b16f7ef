// Formulas that keep their limits.
use crate::{Ctl, Term, Words};
use std::marker::{Model, PhantomData};

/// A formula of a language within the limit on its size, whose names are spelt as they must be. Contracts see it as the
/// plain formula of `specs/Formula.antt`.
#[derive(Drop)]
pub struct FormulaOf<W: Words> {
    root: Term,
    words: PhantomData<W>,
}

/// A formula of CTL*, which is a state formula.
pub type Formula = FormulaOf<Ctl>;

impl<W: Words> Model for FormulaOf<W> {
    ghost use Rattle.ml_ctl.specs.Formula as plain;
    ghost use Rattle.ml_ctl.specs.private.FormulaCode.{formula_code};

    ghost Value = { plain.Formula };

    ghost coded = { formula_code };

    ghost use Rattle.ml_ctl.specs.Term.{formula_of};
    ghost use Rattle.ml_ctl.specs.WellFormed.{IsWellFormed};

    ghost view = { λ f. formula_of f.root };

    ghost invariant = { λ f. IsWellFormed W.language (formula_of f.root) };
}

impl<W: Words> FormulaOf<W> {
    ghost use Rattle.std.specs.Prelude.{◌≡◌};
    ghost use Rattle.ml_ctl.specs.Term.{formula_of};
    ghost use Rattle.ml_ctl.specs.WellFormed.{IsWellFormed};

    /// The formula with this tree, for whoever makes trees of well-formed formulas.
    pub fn new(root: Term) -> FormulaOf<W>
        requires { IsWellFormed W.language (formula_of root) }
        ensures { result ≡ formula_of root }
    {
        FormulaOf {
            root,
            words: PhantomData,
        }
    }

    /// The tree of the formula.
    pub fn root(&self) -> &Term
        ensures tree { formula_of result.now ≡ self.now }
        ensures well_formed { IsWellFormed W.language self.now }
    {
        &self.root
    }

    /// The tree of the formula, which is given up.
    pub(crate) fn into_root(self) -> Term
        ensures tree { formula_of result ≡ self }
        ensures well_formed { IsWellFormed W.language self }
    {
        self.root
    }
}
