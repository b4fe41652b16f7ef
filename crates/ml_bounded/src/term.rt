// The trees of formulas.
use ml_base::Name;
use ml_ctl::{Pairing, Tense};
use ml_text::Operator;

/// At which of the places that a bounded operator looks at its operand is true.
#[derive(Clone, Copy, Debug)]
pub enum Reach {
    /// At some of them: `F`.
    Eventually,
    /// At all of them: `G`.
    Always,
}

/// A bounded operator. The numbers of a text are below 1,000.
#[derive(Clone, Copy, Debug)]
pub enum Bound {
    /// `X[n]`: n places ahead.
    Next(u16),
    /// `F[m:n]` and `G[m:n]`: from m to n places ahead.
    Within(Reach, u16, u16),
}

/// A formula as a tree that owns its parts. Operands stand in the order of the text.
///
/// Contracts see a term as the plain formula of `specs/Formula.antt`, without the places of its boxes.
#[derive(Drop)]
pub enum Term {
    Const(bool),
    Prop(Name),
    Not(Box<Term>),
    Binary(Operator, Box<Term>, Box<Term>),
    Temporal(Tense, Box<Term>),
    Paired(Pairing, Box<Term>, Box<Term>),
    Bounded(Bound, Box<Term>),
}
