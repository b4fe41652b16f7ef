// Formulas that keep their limits.
use crate::Term;
use std::marker::Model;

/// A formula within the limit on its size, whose names are spelt as they must be and whose variables are bound and
/// positive. Contracts see it as the plain formula of `specs/Formula.antt`.
#[derive(Drop)]
pub struct Formula {
    root: Term,
}

impl Model for Formula {
    ghost use Rattle.ml_mu.specs.Formula as plain;
    ghost use Rattle.ml_mu.specs.private.FormulaCode.{formula_code};

    ghost Value = { plain.Formula };

    ghost coded = { formula_code };

    ghost use Rattle.ml_mu.specs.Term.{formula_of};
    ghost use Rattle.ml_mu.specs.WellFormed.{IsWellFormed};

    ghost view = { λ f. formula_of f.root };

    ghost invariant = { λ f. IsWellFormed (formula_of f.root) };
}

impl Formula {
    ghost use Rattle.std.specs.Prelude.{◌≡◌};
    ghost use Rattle.ml_mu.specs.Term.{formula_of};
    ghost use Rattle.ml_mu.specs.WellFormed.{IsWellFormed};

    /// The formula with this tree.
    pub(crate) fn new(root: Term) -> Formula
        requires { IsWellFormed (formula_of root) }
        ensures { result ≡ formula_of root }
    {
        Formula { root }
    }

    /// The tree of the formula.
    pub fn root(&self) -> &Term
        ensures tree { formula_of result.now ≡ self.now }
        ensures well_formed { IsWellFormed self.now }
    {
        &self.root
    }

    /// The tree of the formula, which is given up.
    pub(crate) fn into_root(self) -> Term
        ensures tree { formula_of result ≡ self }
        ensures well_formed { IsWellFormed self }
    {
        self.root
    }
}
