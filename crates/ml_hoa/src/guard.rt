// Guards of edges.

/// A formula over the propositions of an automaton, which are known by their numbers. Contracts see it as the plain guard of
/// `specs/Automaton.antt`, without the places of its boxes.
#[derive(Drop)]
pub enum Guard {
    Const(bool),
    Ap(u32),
    Not(Box<Guard>),
    And(Box<Guard>, Box<Guard>),
    Or(Box<Guard>, Box<Guard>),
}
