// The trees of formulas and of programs.
use ml_base::{Action, Name};
use ml_text::Operator;

/// Of which runs of its program a modality speaks.
#[derive(Clone, Copy, Debug, PartialEq, Eq)]
pub enum Modality {
    /// `<p>f`: some run of the program leads to a state where the operand holds.
    Diamond,
    /// `[p]f`: every run of the program leads to a state where the operand holds.
    Square,
}

/// A formula as a tree that owns its parts. Operands stand in the order of the text.
///
/// Contracts see a term as the plain formula of `specs/Formula.antt`, without the places of its boxes.
#[derive(Drop)]
#[cycle(trees)]
pub enum Term {
    Const(bool),
    Prop(Name),
    Not(Box<Term>),
    /// Two operands with a connective between them.
    Binary(Operator, Box<Term>, Box<Term>),
    /// A modality with its program, and its operand.
    Modal(Modality, Program, Box<Term>),
    /// `repeat(p)`: the program can be run again and again for ever.
    Repeat(Program),
}

/// A program as a tree that owns its parts, in the order of the text.
#[derive(Drop)]
#[cycle(trees)]
pub enum Program {
    /// One edge with the action.
    Act(Action),
    /// `p;q`: the one and then the other.
    Seq(Box<Program>, Box<Program>),
    /// `p+q`: one of the two.
    Alt(Box<Program>, Box<Program>),
    /// `p*`: any number of times, also not at all.
    Star(Box<Program>),
    /// `f?`: it stays where the formula holds, and can't be run elsewhere.
    Test(Box<Term>),
}
