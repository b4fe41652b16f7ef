// The tree of a formula.
use ml_base::{Action, Name};
use ml_text::Operator;

/// Of which edges a modality speaks.
#[derive(Clone, Copy)]
pub enum Modality {
    /// `<a>f`: some edge with the action leads to a state where the operand holds.
    Diamond,
    /// `[a]f`: every edge with the action leads to a state where the operand holds.
    Square,
}

/// Which fixpoint a binder means.
#[derive(Clone, Copy)]
pub enum Fixpoint {
    /// `mu X. f`
    Least,
    /// `nu X. f`
    Greatest,
}

/// A formula as a tree that owns its parts. Operands stand in the order of the text.
///
/// Contracts see a term as the plain formula of `specs/Formula.antt`, without the places of its boxes.
#[derive(Drop)]
pub enum Term {
    Const(bool),
    Prop(Name),
    Var(Name),
    Not(Box<Term>),
    Binary(Operator, Box<Term>, Box<Term>),
    Modal(Modality, Action, Box<Term>),
    Binder(Fixpoint, Name, Box<Term>),
}
