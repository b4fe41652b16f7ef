// Positions as a pool stores them.

use ml_sequent::Side;

/// A sequent and a history, by their numbers in the tables of a pool.
#[derive(Clone, Copy, Drop, PartialEq, Eq, Hash)]
pub struct Site {
    pub sequent: u32,
    pub history: u32,
}

/// A position without a choice.
#[derive(Clone, Copy, Debug, Drop, PartialEq, Eq, Hash)]
pub struct Top {
    pub sequent: u32,
    pub history: u32,
    pub priority: u32,
}

/// No side is chosen at the position, or one is that isn't at its parent, which has the rest of its choice.
#[derive(Clone, Copy, Debug)]
pub enum Link {
    Unchosen,
    Chosen { parent: u32, node: u32, side: Side },
}

/// A position, with its sequent and its history by their numbers, and its choice by a link.
#[derive(Clone, Copy, Debug)]
pub struct Stored {
    pub sequent: u32,
    pub history: u32,
    pub priority: u32,
    pub link: Link,
}
