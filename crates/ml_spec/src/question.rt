// The questions of a specification.
ghost use Rattle.std.specs.Prelude.{◌↔◌, IsTrue};
ghost use Rattle.ml_spec.specs.Questions.{IsQuestion};

use crate::specification::Item;

/// What is asked of requirements of a specification.
#[derive(Clone, Copy, Debug, PartialEq, Eq)]
pub enum Question {
    /// Can all be met together?
    Consistent,
    /// Can those that are left be met together?
    Rest,
    /// What the item with this number asks, counted from 0, which is no requirement.
    Asks(usize),
}

impl Question {
    /// Is it a question of these items: whether requirements are consistent, or one of the items that is no requirement?
    pub fn is_of(self, items: &[Item]) -> bool
        ensures { IsTrue result ↔ IsQuestion items.now self }
    {
        match self {
            Question::Consistent | Question::Rest => true,
            Question::Asks(number) => match items.get(number) {
                Some(item) => !item.kind.is_requirement(),
                None => false,
            },
        }
    }
}
