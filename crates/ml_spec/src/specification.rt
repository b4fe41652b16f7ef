// Specifications.
use crate::kind::Kind;
use crate::name::ItemName;
use ml_front::{AnyFormula, Logic};

/// How many items the text of a specification has at most behind the first one.
pub const MOST_ITEMS: usize = 4_096;

/// A requirement or a question.
#[derive(Drop)]
pub struct Item {
    pub kind: Kind,
    pub name: ItemName,
    pub formula: AnyFormula,
}

/// Requirements and questions of a logic, in the order of their text.
#[derive(Drop)]
pub struct Specification {
    pub logic: Logic,
    pub items: Vec<Item>,
}
