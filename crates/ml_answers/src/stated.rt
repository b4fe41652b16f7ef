// Answers, as a document states them.
use ml_replies::Answer;
use ml_spec::Question;

/// A question, and what is said in answer to it in this line.
#[derive(Drop)]
pub struct Stated {
    pub line: u64,
    pub question: Question,
    pub statement: Answer,
}
