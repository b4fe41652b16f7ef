// Formulas that keep their limits.
use crate::Term;
use std::marker::Model;

/// A formula of LTL with bounded operators, within the limit on its size, whose names are spelt as they must be. Contracts
/// see it as the plain formula of `specs/Formula.antt`.
#[derive(Drop)]
pub struct BoundedFormula {
    root: Term,
}

impl Model for BoundedFormula {
    ghost use Rattle.ml_bounded.specs.Formula as plain;
    ghost use Rattle.ml_bounded.specs.private.FormulaCode.{formula_code};

    ghost Value = { plain.Formula };

    ghost coded = { formula_code };

    ghost use Rattle.ml_bounded.specs.Term.{formula_of};
    ghost use Rattle.ml_bounded.specs.WellFormed.{IsWellFormed};

    ghost view = { λ f. formula_of f.root };

    ghost invariant = { λ f. IsWellFormed (formula_of f.root) };
}

impl BoundedFormula {
    ghost use Rattle.std.specs.Prelude.{◌≡◌};
    ghost use Rattle.ml_bounded.specs.Term.{formula_of};
    ghost use Rattle.ml_bounded.specs.WellFormed.{IsWellFormed};

    /// The formula with this tree.
    pub(crate) fn new(root: Term) -> BoundedFormula
        requires { IsWellFormed (formula_of root) }
        ensures { result ≡ formula_of root }
    {
        BoundedFormula { root }
    }

    /// The tree of the formula.
    pub fn root(&self) -> &Term
        ensures tree { formula_of result.now ≡ self.now }
        ensures well_formed { IsWellFormed self.now }
    {
        &self.root
    }
}
