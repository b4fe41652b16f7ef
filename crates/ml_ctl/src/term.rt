// The trees of formulas.
use ml_base::Name;
use ml_text::Operator;

/// A temporal operator with one operand.
#[derive(Clone, Copy, Debug)]
pub enum Tense {
    /// `X f`: at the next place of the path.
    Next,
    /// `F f`: some time.
    Finally,
    /// `G f`: always.
    Globally,
}

/// A temporal operator with two operands.
#[derive(Clone, Copy, Debug)]
pub enum Pairing {
    /// `f U g`: g some time, and f until then.
    Until,
    /// `f R g`: g always, unless f releases it.
    Release,
    /// `f W g`: f until g, or for ever.
    Weak,
}

/// Over the paths from a state.
#[derive(Clone, Copy, Debug)]
pub enum Quantifier {
    /// `E f`: on some path.
    Exists,
    /// `A f`: on every path.
    Forall,
}

/// A formula as a tree that owns its parts. Operands stand in the order of the text.
///
/// Contracts see a term as the plain formula of `specs/Formula.antt`, without the places of its boxes. A state formula
/// has its temporal operators under quantifiers alone, which `Formula` keeps; a term without quantifiers is one of LTL.
#[derive(Drop)]
pub enum Term {
    Const(bool),
    Prop(Name),
    Not(Box<Term>),
    Binary(Operator, Box<Term>, Box<Term>),
    Temporal(Tense, Box<Term>),
    Paired(Pairing, Box<Term>, Box<Term>),
    Quantified(Quantifier, Box<Term>),
}
