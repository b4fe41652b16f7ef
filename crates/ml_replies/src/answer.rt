// Answers.
use ml_kripke::Model;
use ml_refutation::Refutation;
use ml_spec::Question;

/// What is known of requirements without one of them.
#[derive(Drop)]
pub enum Without {
    /// They can be met together, as this structure shows: so the one is needed.
    Met(Model),
    /// That stays open.
    Open,
}

/// One of requirements that can't be met together, by the number of its item, and what is known of the others without it.
#[derive(Drop)]
pub struct Part {
    pub requirement: usize,
    pub without: Without,
}

/// Requirements that can't be met together where the question is asked, with a refutation of their joined formula.
#[derive(Drop)]
pub struct Core {
    /// Is the item with this number among them? Of other items it says nothing.
    pub taken: Vec<bool>,
    /// Each of them, in the order of the text.
    pub parts: Vec<Part>,
    pub refutation: Refutation,
}

/// An answer to a question.
#[derive(Drop)]
pub enum Answer {
    /// The requirements can be met where the question is asked, as this structure shows.
    Yes(Model),
    /// These of them can't.
    No(Core),
    /// It stays open.
    Open,
}

/// A question with its answer.
#[derive(Drop)]
pub struct Answered {
    pub question: Question,
    pub answer: Answer,
}
